//! The lines on what isn't tried, each of which stands once.
ghost use Rattle.std.specs.Prelude.{◌≡◌, [], ◌∷◌, map, IfOk, OnOk};
ghost use Rattle.std.specs.List.{flat_map};
ghost use Rattle.anb_verdict.specs.Texts.{not_tried_line};
ghost use Rattle.anb_probe_commands.specs.Cases.{earlier_line, gap_line, is_among, joined_once, lack_lines, lack_of, lack_words, more_lines, untried_in, untried_lines, with_line};

use crate::partners::{Lack, lack_at};
use anb_attempts::{Attempt, Gap, Suite};
use anb_base::{Bytes, NoMemory};
use anb_partner::Partner;
use anb_protocol::Protocol;
use anb_verdict::{Place, Title, not_tried_line};
use std::alloc::Global;

/// The lines on all that isn't tried.
pub(crate) fn untried_lines(
    alloc: Global,
    p: &Protocol,
    role: u32,
    suite: &Suite,
    partners: &[Result<Partner, Lack>],
) -> Result<Vec<Bytes>, NoMemory>
    ensures { IfOk result (λ lines.
        lines.items ≡ untried_in p.now role suite.now (map lack_of partners.now)) }
{
    let mut lines = Vec::new(alloc);
    put_gaps(alloc, &mut lines, p, role, &suite.gaps)?;
    put_more(alloc, &mut lines, suite.more)?;
    put_lacks(alloc, &mut lines, p, role, &suite.attempts, partners)?;
    Ok(lines)
}

/// Puts the lines of gaps.
fn put_gaps(
    alloc: Global,
    lines: &mut Vec<Bytes>,
    p: &Protocol,
    role: u32,
    gaps: &[Gap],
) -> Result<(), NoMemory>
    ensures { OnOk result (lines.new.items
        ≡ joined_once lines.old.items (map (gap_line p.now role) gaps.now)) }
{
    for gap in gaps {
        let line = not_tried_line(alloc, p, role, &gap.place, gap.why.words())?;
        put_once(lines, Bytes::new(line))?;
    }
    Ok(())
}

/// Puts that there are more attempts, where there are.
fn put_more(alloc: Global, lines: &mut Vec<Bytes>, more: bool) -> Result<(), NoMemory>
    ensures { OnOk result (lines.new.items ≡ joined_once lines.old.items (more_lines more)) }
{
    if more {
        let line = "# not tried: what comes after the first 4096 cases\n";
        put_once(lines, text_line(alloc, line)?)
    } else {
        Ok(())
    }
}

/// A line as bytes.
fn text_line(alloc: Global, line: &str) -> Result<Bytes, NoMemory>
    ensures { IfOk result (λ bytes. bytes ≡ line.now) }
{
    Ok(Bytes::new(Vec::from_slice(alloc, line.as_bytes())?))
}

/// Puts the lines of attempts that have no partner.
fn put_lacks(
    alloc: Global,
    lines: &mut Vec<Bytes>,
    p: &Protocol,
    role: u32,
    attempts: &[Attempt],
    partners: &[Result<Partner, Lack>],
) -> Result<(), NoMemory>
    ensures { OnOk result (lines.new.items ≡ joined_once lines.old.items
        (flat_map (lack_lines p.now role (map lack_of partners.now)) attempts.now)) }
{
    for attempt in attempts {
        put_lack(alloc, lines, p, role, attempt, partners)?;
    }
    Ok(())
}

/// Puts the line of one, where it has none.
fn put_lack(
    alloc: Global,
    lines: &mut Vec<Bytes>,
    p: &Protocol,
    role: u32,
    attempt: &Attempt,
    partners: &[Result<Partner, Lack>],
) -> Result<(), NoMemory>
    ensures { OnOk result (lines.new.items ≡ joined_once lines.old.items
        (lack_lines p.now role (map lack_of partners.now) attempt.now)) }
{
    match lack_at(partners, attempt.scene) {
        Some(lack) => put_untried(alloc, lines, p, role, &attempt.title, lack.words()),
        None => Ok(()),
    }
}

/// Puts the line of an attempt with this title that can't be made.
fn put_untried(
    alloc: Global,
    lines: &mut Vec<Bytes>,
    p: &Protocol,
    role: u32,
    title: &Title,
    why: &str,
) -> Result<(), NoMemory>
    ensures { OnOk result (lines.new.items ≡ joined_once lines.old.items
        (untried_lines p.now role title.now why.now)) }
{
    match title {
        Title::Narrated => Ok(()),
        Title::Changed(place, _words) => put_place(alloc, lines, p, role, place, why),
        Title::Sized {
            event: _event,
            places,
            bytes: _bytes,
        } => match places.get(0) {
            Some(place) => put_place(alloc, lines, p, role, place, why),
            None => Ok(()),
        },
        Title::Earlier(event) => {
            let line = earlier_line(alloc, *event, why)?;
            put_once(lines, Bytes::new(line))
        }
    }
}

/// Puts that what is at a place can't be tried.
fn put_place(
    alloc: Global,
    lines: &mut Vec<Bytes>,
    p: &Protocol,
    role: u32,
    place: &Place,
    why: &str,
) -> Result<(), NoMemory>
    ensures { OnOk result (lines.new.items ≡ joined_once lines.old.items
        (not_tried_line p.now role place.now why.now ∷ [])) }
{
    let line = not_tried_line(alloc, p, role, place, why)?;
    put_once(lines, Bytes::new(line))
}

/// That the message of an earlier session can't be sent.
fn earlier_line(alloc: Global, event: usize, why: &str) -> Result<Vec<u8>, NoMemory>
    ensures { IfOk result (λ line. line.items ≡ earlier_line event why.now) }
{
    let text = format!(in alloc;
        "# not tried: the message of an earlier session at event {}: {}\n",
        event, why
    )?;
    Ok(text.into_bytes())
}

/// Puts a line, unless it stands there.
pub(crate) fn put_once(lines: &mut Vec<Bytes>, line: Bytes) -> Result<(), NoMemory>
    ensures { OnOk result (lines.new.items ≡ with_line lines.old.items line) }
{
    if !is_among(lines, line.as_slice()) {
        lines.push(line)?;
    }
    Ok(())
}

/// Whether a line stands among these.
fn is_among(lines: &[Bytes], line: &[u8]) -> bool
    ensures { result ≡ is_among line.now lines.now }
{
    for each in lines {
        if line == each.as_slice() {
            return true;
        }
    }
    false
}
