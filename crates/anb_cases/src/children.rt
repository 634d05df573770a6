//! The children of a tested program in memory, one for each case of it.

ghost use Rattle.std.specs.Prelude.{◌≡◌, ◌≤◌, ℕ, length, IfOk};
ghost use Rattle.anb_partner.specs.Memory.{trials_of};

use crate::case::{Case, No};
use anb_base::{Bytes, MemWire, NoMemory};
use anb_partner::{ChildEnd, MemTrials};
use std::alloc::Global;

/// How many bytes a child takes or gives at once, and for how many it has room.
const PLENTY: u32 = 65_536;

/// What a row begins with where a signal ends the child, and where its connection ends.
const SIGNAL: &str = "signal";

const CLOSED: &str = "closed";

/// The children that the case says: a row each, with how it ends, a status, `signal9` or `closed`, and then
/// what it says, in hexadecimal digits. Their starts and ends whose numbers stand under `children fail` are
/// faults, and where `children silent` is set such an end is that the child was silent.
pub(crate) fn children(alloc: Global, case: Case) -> Result<MemTrials, No>
    ensures { IfOk result (λ trials. (case : ℕ) → (trials_of trials case).phase ≡ 0) }
{
    let mut wires = Vec::new(alloc);
    let mut ends = Vec::new(alloc);
    if let Some(rows) = case.text(alloc, "children")? {
        for row in rows.lines() {
            let (end, said) = child(alloc, row)?;
            wires.push(MemWire::new(alloc, said, PLENTY, PLENTY, Vec::new(alloc))?)?;
            ends.push(end)?;
        }
    }
    let fails = case.numbers(alloc, "children fail")?;
    let mut trials = unstarted(alloc, wires, ends, fails)?;
    if case.is_set("children silent")? {
        trials.fall_silent();
    }
    Ok(trials)
}

/// Children of these wires and ends, none of which was started.
fn unstarted(
    alloc: Global,
    wires: Vec<MemWire>,
    ends: Vec<ChildEnd>,
    fails: Vec<u32>,
) -> Result<MemTrials, NoMemory>
    ensures { IfOk result (λ trials. (case : ℕ) → (trials_of trials case).phase ≡ 0) }
{
    if wires.len() != ends.len() {
        return Err(NoMemory);
    }
    MemTrials::new(alloc, wires, ends, fails)
}

/// How the child of a row ends, and what it says.
pub(crate) fn child(alloc: Global, row: &str) -> Result<(ChildEnd, Bytes), No> {
    let mut words = row.split_whitespace();
    let Some(word) = words.next() else {
        return Err(No::Value("children"));
    };
    let end = end_of(word)?;
    let mut digits = String::new(alloc);
    for word in words {
        digits.push_str(word)?;
    }
    match hex::decode(alloc, digits.as_bytes()) {
        Ok(said) => Ok((end, Bytes::new(said))),
        Err(_) => Err(No::Value("children")),
    }
}

/// The end that a word says.
fn end_of(word: &str) -> Result<ChildEnd, No> {
    if word == CLOSED {
        return Ok(ChildEnd::Closed);
    }
    let (number, is_signal) = match word.strip_prefix(SIGNAL) {
        Some(number) => (number, true),
        None => (word, false),
    };
    match number.parse::<u8>() {
        Ok(signal) if is_signal => Ok(ChildEnd::Signal(signal)),
        Ok(status) => Ok(ChildEnd::Status(status)),
        Err(_) => Err(No::Value("children")),
    }
}

/// What the children heard, one after another.
pub(crate) fn heard(alloc: Global, trials: &MemTrials) -> Result<Vec<u8>, NoMemory> {
    let mut heard = Vec::new(alloc);
    for case in 0..count(trials) {
        if let Some(wire) = trials.wire(case) {
            heard.extend_from_slice(wire.written())?;
        }
    }
    Ok(heard)
}

/// The words with which the children were started, a line each.
pub(crate) fn asked(alloc: Global, trials: &MemTrials) -> Result<Vec<u8>, NoMemory> {
    let mut asked = Vec::new(alloc);
    for case in 0..count(trials) {
        asked.extend_from_slice(trials.asked(case))?;
    }
    Ok(asked)
}

/// How many children there are.
fn count(trials: &MemTrials) -> u32
    ensures { result ≤ length trials.now.trials }
{
    u32::try_from(trials.cases()).unwrap_or(0)
}
