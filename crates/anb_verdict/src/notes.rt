//! The notes on verdicts.
ghost use Rattle.std.specs.Prelude.{◌≡◌, [], IfOk};
ghost use Rattle.std.specs.Option.{option_map_or};
ghost use Rattle.anb_protocol.specs.Texts.{term_text};
ghost use Rattle.anb_verdict.specs.Places.{narrated_at};
ghost use Rattle.anb_verdict.specs.Texts.{lax_front, lax_text, note_text, number_end, strict_front, strict_text, wrong_text};

use crate::places::narrated_at;
use crate::titles::{joined, text};
use crate::verdict::Verdict;
use anb_base::{NoMemory, Text};
use anb_protocol::Protocol;
use std::alloc::Global;

/// The note behind the line of a case, where there is one.
pub(crate) fn note_text(
    alloc: Global,
    p: &Protocol,
    role: u32,
    verdict: Verdict,
) -> Result<Text, NoMemory>
    ensures { IfOk result (λ text. text ≡ note_text p.now role verdict) }
{
    match verdict {
        Verdict::Good => text(alloc, ""),
        Verdict::Skipped => text(alloc, ""),
        Verdict::NotSeen => text(alloc, ""),
        Verdict::Unchanged => text(alloc, ""),
        Verdict::TooLong => text(alloc, ""),
        Verdict::LaxMessage { event, stop } => lax_text(alloc, event, stop),
        Verdict::LaxUnnarrated { stop } => Ok(Text::new(format!(in alloc;
            "# too lax: it sent a message that isn't narrated, where it must stop at event {}\n",
            stop
        )?)),
        Verdict::LaxEnd { stop } => Ok(Text::new(format!(in alloc;
            "# too lax: it ended with 0, where it must stop at event {}\n",
            stop
        )?)),
        Verdict::StrictMessage { event, status } => strict_text(alloc, event, status),
        Verdict::StrictUnseen { event } => Ok(Text::new(format!(in alloc;
            "# too strict: no message of event {} came\n",
            event
        )?)),
        Verdict::StrictEnd { status } => Ok(Text::new(format!(in alloc;
            "# too strict: it ended with {}\n",
            status
        )?)),
        Verdict::Wrong { event } => wrong_text(alloc, p, role, event),
        Verdict::Unnarrated => text(alloc, "# wrong: it sent a message that isn't narrated\n"),
        Verdict::Loose => text(
            alloc,
            "# wrong: after its last message came bytes that are none\n",
        ),
        Verdict::Signal(signal) => Ok(Text::new(format!(in alloc;
            "# ended by signal {}\n",
            signal
        )?)),
        Verdict::Silent => text(alloc, "# silent for too long\n"),
        Verdict::Lost => text(alloc, "# its end isn't known\n"),
    }
}

/// That a message came where it must stop.
fn lax_text(alloc: Global, event: usize, stop: u32) -> Result<Text, NoMemory>
    ensures { IfOk result (λ text. text ≡ lax_text event stop) }
{
    let front = lax_front(alloc, event)?;
    let back = number_end(alloc, stop)?;
    joined(alloc, front.as_str(), "", back.as_str())
}

fn lax_front(alloc: Global, event: usize) -> Result<Text, NoMemory>
    ensures { IfOk result (λ text. text ≡ lax_front event) }
{
    Ok(Text::new(format!(in alloc;
        "# too lax: it sent the message of event {}, where it must stop at event ",
        event
    )?))
}

/// That a message didn't come.
fn strict_text(alloc: Global, event: u32, status: u8) -> Result<Text, NoMemory>
    ensures { IfOk result (λ text. text ≡ strict_text event status) }
{
    let front = strict_front(alloc, event)?;
    let back = number_end(alloc, status as u32)?;
    joined(alloc, front.as_str(), "", back.as_str())
}

fn strict_front(alloc: Global, event: u32) -> Result<Text, NoMemory>
    ensures { IfOk result (λ text. text ≡ strict_front event) }
{
    Ok(Text::new(format!(in alloc;
        "# too strict: no message of event {} came, it ended with ",
        event
    )?))
}

/// A number at a line's end.
pub(crate) fn number_end(alloc: Global, n: u32) -> Result<Text, NoMemory>
    ensures { IfOk result (λ text. text ≡ number_end n) }
{
    Ok(Text::new(format!(in alloc; "{}\n", n)?))
}

/// That the message of an event is another one.
fn wrong_text(alloc: Global, p: &Protocol, role: u32, event: u32) -> Result<Text, NoMemory>
    ensures { IfOk result (λ text. text ≡ wrong_text p.now role event) }
{
    let front = format!(in alloc; "# wrong: its message of event {} isn't ", event)?;
    let term = narrated_text(alloc, p, role, event as usize)?;
    joined(alloc, front.as_str(), term.as_str(), "\n")
}

/// What is narrated at an event.
fn narrated_text(alloc: Global, p: &Protocol, role: u32, event: usize) -> Result<Text, NoMemory>
    ensures { IfOk result (λ text. text
        ≡ option_map_or (term_text p.now) (narrated_at p.now role event) []) }
{
    match narrated_at(p, role, event) {
        Some(t) => p.text_of_term(alloc, t),
        None => text(alloc, ""),
    }
}
