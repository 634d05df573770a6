//! The lines of a plan.
ghost use Rattle.std.specs.Prelude.{◌≡◌, ◌≤◌, ◌<◌, ◌++◌, ◌∷◌, ◌^◌, [], map, IfOk, decimal};
ghost use Rattle.std.specs.List.{AllByRecursion};
ghost use Rattle.anb_term.specs.View.{tree_of};
ghost use Rattle.anb_protocol.specs.Plans.{term_in};
ghost use Rattle.anb_protocol.specs.Texts.{IsTermOf, term_text};
ghost use Rattle.anb_protocol.specs.Views.{plan_event};
ghost use Rattle.anb_explain.specs.Explained.{spaced, line, has_label, is_message, event_words, plan_text};
ghost use Rattle.anb_text.specs.Writing.{IsWritten};

use crate::writing::{put_number, put_term};
use anb_base::{NoMemory, Sink};
use anb_protocol::{Event, Protocol};
use anb_term::Term;
use anb_text::{WriteNo, write_part};
use std::alloc::Global;

/// Writes the lines of a plan's events.
pub(crate) fn write_plan<K: Sink>(
    alloc: Global,
    snk: &mut K,
    protocol: &Protocol,
    events: &[Event],
) -> Result<(), WriteNo>
    requires { AllByRecursion (λ e. IsTermOf protocol.now (term_in e)) (map plan_event events.now) }
    ensures written { IsWritten (plan_text protocol.now (map plan_event events.now)) result
        (K.written snk.old) (K.written snk.new) (K.faults snk.old) (K.faults snk.new) }
    ensures kept { K.kept snk.new ≡ K.kept snk.old }
{
    let mut labels = 0;
    let mut messages = 0;
    for event in events {
        match write_part(snk, event_text(alloc, protocol, labels, messages, event)) {
            Ok(()) => {}
            Err(no) => return Err(no),
        }
        if has_label(event) {
            labels += 1;
        }
        if is_message(event) {
            messages += 1;
        }
    }
    Ok(())
}

/// The line of an event, behind so many labels and so many messages.
fn event_text(
    alloc: Global,
    protocol: &Protocol,
    labels: usize,
    messages: usize,
    event: &Event,
) -> Result<Vec<u8>, NoMemory>
    requires term { IsTermOf protocol.now (term_in (plan_event event.now)) }
    requires few { messages < 2 ^ 63 }
    ensures { IfOk result (λ bytes. bytes.items ≡ line
        (spaced (event_words protocol.now labels messages (plan_event event.now)))) }
{
    match event {
        Event::Know(term) => line_text(alloc, protocol, b"know", &[labels], term),
        Event::Fresh(term) => line_text(alloc, protocol, b"fresh", &[labels], term),
        Event::Send { term, .. } => line_text(alloc, protocol, b"send", &[messages + 1], term),
        Event::Recv { term, .. } => {
            line_text(alloc, protocol, b"recv", &[messages + 1, labels], term)
        }
    }
}

/// The line of a word, numbers and a term.
fn line_text(
    alloc: Global,
    protocol: &Protocol,
    word: &[u8],
    numbers: &[usize],
    term: &Term,
) -> Result<Vec<u8>, NoMemory>
    requires { IsTermOf protocol.now (tree_of term.now) }
    ensures { IfOk result (λ bytes. bytes.items ≡ line
        (spaced (word.now ∷ map decimal numbers.now ++ term_text protocol.now
        (tree_of term.now) ∷ []))) }
{
    let mut out = Vec::from_slice(alloc, word)?;
    for n in numbers {
        put_number(&mut out, *n)?;
    }
    put_term(alloc, &mut out, protocol, term)?;
    out.push(b'\n')?;
    Ok(out)
}

/// Whether an event brings a label.
fn has_label(event: &Event) -> bool
    ensures { result ≡ has_label (plan_event event.now) }
{
    match event {
        Event::Know(_) | Event::Fresh(_) | Event::Recv { .. } => true,
        Event::Send { .. } => false,
    }
}

/// Whether an event sends or receives a message.
fn is_message(event: &Event) -> bool
    ensures { result ≡ is_message (plan_event event.now) }
{
    match event {
        Event::Send { .. } | Event::Recv { .. } => true,
        Event::Know(_) | Event::Fresh(_) => false,
    }
}
