//! The runs of a case: one, or one for each fault or each cut of its input.

use crate::case::{Case, No, number_of};
use crate::filling::Name;
use crate::judging::{Fit, difference, has_output, is_fault, kept_anyway, told};
use crate::parts::Entry;
use crate::running::{Turn, run_case};
use std::alloc::Global;

/// More calls of the wire than a run makes.
const CALLS: u32 = 2000;

/// What the number of bytes behind a cut's base is called in a line.
const COUNT: &str = "count";

/// Runs a case in each of its turns. It gives what came in the first that isn't as expected, where
/// there is such a turn.
pub(crate) fn run_turns<'e>(
    alloc: Global,
    names: &mut Vec<Name>,
    own: &'e [Entry],
    group: &'e [Entry],
) -> Result<Option<String>, No> {
    let case = Case { own, group, names };
    if case.is_set("each call fails")? {
        return each_call(alloc, case);
    }
    if let Some(cut) = case.text(alloc, "cut")? {
        return each_cut(alloc, names, own, group, &cut);
    }
    let Some(name) = case.text(alloc, "keep")? else {
        return run_turn(alloc, case, Turn::Whole, Fit::Whole);
    };
    let mut ran = run_case(alloc, case, Turn::Whole)?;
    let outcome = difference(alloc, case, &mut ran, Fit::Any)?;
    if let Some(wire) = &ran.wire {
        let text = hex::encode(alloc, wire.written())?;
        names.push(Name { name, text })?;
    }
    Ok(outcome)
}

fn run_turn(alloc: Global, case: Case, turn: Turn, fit: Fit) -> Result<Option<String>, No> {
    let mut ran = run_case(alloc, case, turn)?;
    difference(alloc, case, &mut ran, fit)
}

/// Each call of the wire fails in turn, up to a run that meets no fault. A fault is told, a part of the
/// output is written, and no file is kept.
fn each_call(alloc: Global, case: Case) -> Result<Option<String>, No> {
    for call in 1..CALLS {
        let mut ran = run_case(alloc, case, Turn::FailsAt(call))?;
        if !is_fault(&ran) {
            if call == 1 {
                return Ok(Some(String::from_str(alloc, "no call that fails")?));
            }
            return difference(alloc, case, &mut ran, Fit::Whole);
        }
        if let Some(wire) = &ran.wire
            && !has_output(alloc, case, wire.written(), Fit::Part)?
        {
            let output = told(alloc, "output", wire.written())?;
            return Ok(Some(format!(in alloc; "call {call}: {output}")?));
        }
        if let Some(kept) = kept_anyway(alloc, &ran.store)? {
            return Ok(Some(format!(in alloc; "call {call}: {kept}")?));
        }
    }
    Ok(Some(String::from_str(alloc, "no run without a fault")?))
}

/// The input is cut behind each base and each of the counts: `0 113 + 1..3` says bases and counts. A
/// part of the output is written.
fn each_cut<'e>(
    alloc: Global,
    names: &mut Vec<Name>,
    own: &'e [Entry],
    group: &'e [Entry],
    cut: &str,
) -> Result<Option<String>, No> {
    let (bases, first, last) = cut_of(cut)?;
    for base in bases.split_whitespace() {
        let base = number_of("cut", base)?;
        for count in first..=last {
            names.push(Name {
                name: String::from_str(alloc, COUNT)?,
                text: format!(in alloc; "{count}")?,
            })?;
            let behind = base.saturating_add(count);
            let case = Case { own, group, names };
            let outcome = run_turn(alloc, case, Turn::CutBehind(behind), Fit::Part)?;
            let _ = names.pop();
            if let Some(difference) = outcome {
                return Ok(Some(format!(in alloc; "cut behind {behind}: {difference}")?));
            }
        }
    }
    Ok(None)
}

/// The bases of a cut, and the first and the last of its counts.
fn cut_of(cut: &str) -> Result<(&str, u32, u32), No> {
    let Some((bases, counts)) = cut.split_once(" + ") else {
        return Err(No::Value("cut"));
    };
    let Some((first, last)) = counts.split_once("..") else {
        return Err(No::Value("cut"));
    };
    let first = number_of("cut", first)?;
    let last = number_of("cut", last)?;
    if bases.is_empty() || first > last {
        return Err(No::Value("cut"));
    }
    Ok((bases, first, last))
}
