//! The lines of a report.
ghost use Rattle.std.specs.Prelude.{◌≡◌, ◌++◌, codes, if◌then◌else◌, IfOk};
ghost use Rattle.anb_verdict.specs.Texts.{case_lines, counted_text, first_lines, last_line, no_such_case, skip_text, skipped_text};
ghost use Rattle.anb_verdict.specs.Verdicts.{is_good};

use crate::notes::note_text;
use crate::title::Title;
use crate::titles::{joined, put, put_title, text};
use crate::verdict::Verdict;
use anb_base::{NoMemory, Text};
use anb_protocol::Protocol;
use std::alloc::Global;

/// The first lines of a report on so many cases.
pub fn first_lines(alloc: Global, cases: u32) -> Result<Vec<u8>, NoMemory>
    ensures { IfOk result (λ bytes. bytes.items ≡ first_lines cases) }
{
    let text = format!(in alloc; "TAP version 13\n1..{}\n", cases)?;
    bytes(alloc, text.as_str())
}

/// The whole report where one case was asked for that isn't there, of so many.
pub fn no_such_case(alloc: Global, cases: u32) -> Result<Vec<u8>, NoMemory>
    ensures { IfOk result (λ bytes. bytes.items ≡ no_such_case cases) }
{
    let text = format!(in alloc; "TAP version 13\n1..0 # SKIP there are {} cases\n", cases)?;
    bytes(alloc, text.as_str())
}

/// The last line: of how many cases nothing is said against the program, without those that were
/// skipped.
pub fn last_line(alloc: Global, good: u32, cases: u32, skipped: u32) -> Result<Vec<u8>, NoMemory>
    ensures { IfOk result (λ bytes. bytes.items ≡ last_line good cases skipped) }
{
    let behind = skipped_text(alloc, skipped)?;
    let front = counted_text(alloc, good, cases)?;
    let line = joined(alloc, front.as_str(), behind.as_str(), "\n")?;
    bytes(alloc, line.as_str())
}

fn counted_text(alloc: Global, good: u32, cases: u32) -> Result<Text, NoMemory>
    ensures { IfOk result (λ text. text ≡ counted_text good cases) }
{
    Ok(Text::new(format!(in alloc; "# {} of {} ok", good, cases)?))
}

fn skipped_text(alloc: Global, skipped: u32) -> Result<Text, NoMemory>
    ensures { IfOk result (λ text. text ≡ skipped_text skipped) }
{
    if skipped == 0 {
        return text(alloc, "");
    }
    Ok(Text::new(format!(in alloc; ", {} skipped", skipped)?))
}

/// The line of the case with this number, from 1, and the note behind it where there is one.
pub fn case_lines(
    alloc: Global,
    p: &Protocol,
    role: u32,
    number: u32,
    title: &Title,
    verdict: Verdict,
) -> Result<Vec<u8>, NoMemory>
    ensures { IfOk result (λ bytes. bytes.items ≡ case_lines p.now role number title.now verdict) }
{
    let front = format!(in alloc; "{}{} - ", answer_text(verdict), number)?;
    let mut out = bytes(alloc, front.as_str())?;
    put_title(alloc, &mut out, p, role, title)?;
    let note = note_text(alloc, p, role, verdict)?;
    let back = joined(alloc, skip_text(verdict), "\n", note.as_str())?;
    put(&mut out, &back)?;
    Ok(out)
}

/// The bytes of a text.
pub(crate) fn bytes(alloc: Global, text: &str) -> Result<Vec<u8>, NoMemory>
    ensures { IfOk result (λ bytes. bytes.items ≡ text.now) }
{
    Ok(Vec::from_slice(alloc, text.as_bytes())?)
}

/// With what a case's line begins.
fn answer_text(verdict: Verdict) -> &'static str
    ensures { result.now ≡ (if is_good verdict then codes "ok " else codes "not ok ") }
{
    if verdict.is_good() { "ok " } else { "not ok " }
}

/// What stands behind a case's title.
fn skip_text(verdict: Verdict) -> &'static str
    ensures { result.now ≡ skip_text verdict }
{
    match verdict {
        Verdict::Skipped => " # SKIP the right message isn't taken either",
        Verdict::NotSeen => " # SKIP not seen over TCP",
        Verdict::Unchanged => " # SKIP the change gives the right bytes",
        Verdict::TooLong => " # SKIP a message is longer than a frame may be",
        _ => "",
    }
}
