//! What a report says behind the cases.
ghost use Rattle.std.specs.Prelude.{◌≡◌, ◌<◌, ◌≤◌, ◌++◌, [], length, count_by, IfOk, OnOk};
ghost use Rattle.std.specs.List.{concat};
ghost use Rattle.anb_attempts.specs.declared.attempts.TheConstants.{MOST};
ghost use Rattle.anb_verdict.specs.Texts.{last_line};
ghost use Rattle.anb_probe_commands.specs.Cases.{joined_once};
ghost use Rattle.anb_probe_commands.specs.Reports.{all_lacking, is_passed, is_skipped, lacking_lines, notes};

use crate::counting::{is_lax, passed, skipped};
use crate::same::same_lines;
use crate::untried::put_once;
use anb_attempts::Attempt;
use anb_base::{Bytes, NoMemory};
use anb_draws::Draws;
use anb_protocol::Protocol;
use anb_verdict::{Verdict, last_line, missing_line};
use std::alloc::Global;

/// Which names come out equal, what the program lacks, what isn't tried, and the counts.
pub(crate) fn notes(
    alloc: Global,
    p: &Protocol,
    role: u32,
    cases: &[Attempt],
    untried: &[Bytes],
    told: &[Draws],
    verdicts: &[Verdict],
) -> Result<Vec<u8>, NoMemory>
    requires role { role < length p.now.roles }
    requires told { length told.now ≤ MOST }
    requires verdicts { length verdicts.now ≤ MOST }
    ensures { IfOk result (λ text.
        text.items ≡ notes p.now role cases.now untried.now told.now verdicts.now) }
{
    let same = same_lines(alloc, p, role, told)?;
    let lacking = lacking(alloc, p, role, cases, verdicts)?;
    let mut text = Vec::new(alloc);
    put_lines(&mut text, &same)?;
    put_lines(&mut text, &lacking)?;
    put_lines(&mut text, untried)?;
    put_counts(alloc, &mut text, verdicts)?;
    Ok(text)
}

/// The lines on what the program lacks, in the order of the first cases that show it.
fn lacking(
    alloc: Global,
    p: &Protocol,
    role: u32,
    cases: &[Attempt],
    verdicts: &[Verdict],
) -> Result<Vec<Bytes>, NoMemory>
    ensures { IfOk result (λ lines.
        lines.items ≡ joined_once [] (all_lacking p.now role cases.now verdicts.now)) }
{
    let mut lines = Vec::new(alloc);
    for i in 0..cases.len() {
        let Some(verdict) = verdicts.get(i) else {
            return Ok(lines);
        };
        put_lacking(alloc, &mut lines, p, role, &cases[i], *verdict)?;
    }
    Ok(lines)
}

/// Puts what the program lacks that went on in this case.
fn put_lacking(
    alloc: Global,
    lines: &mut Vec<Bytes>,
    p: &Protocol,
    role: u32,
    case: &Attempt,
    verdict: Verdict,
) -> Result<(), NoMemory>
    ensures { OnOk result (lines.new.items
        ≡ joined_once lines.old.items (lacking_lines p.now role case.now verdict)) }
{
    if !is_lax(verdict) {
        return Ok(());
    }
    match &case.lacks {
        Some(missing) => {
            let line = missing_line(alloc, p, role, missing)?;
            put_once(lines, Bytes::new(line))
        }
        None => Ok(()),
    }
}

/// Appends lines.
fn put_lines(text: &mut Vec<u8>, lines: &[Bytes]) -> Result<(), NoMemory>
    ensures { OnOk result (text.new.items ≡ text.old.items ++ concat lines.now) }
{
    for line in lines {
        text.extend_from_slice(line.as_slice())?;
    }
    Ok(())
}

/// Appends the counts.
fn put_counts(alloc: Global, text: &mut Vec<u8>, verdicts: &[Verdict]) -> Result<(), NoMemory>
    requires { length verdicts.now ≤ MOST }
    ensures { OnOk result (text.new.items ≡ text.old.items
        ++ last_line (count_by is_passed verdicts.now) (length verdicts.now)
        (count_by is_skipped verdicts.now)) }
{
    let cases = verdicts.len() as u32;
    let line = last_line(alloc, passed(verdicts), cases, skipped(verdicts))?;
    text.extend_from_slice(&line)?;
    Ok(())
}
