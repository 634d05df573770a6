//! The patterns of a conversation.
ghost use Rattle.std.specs.Prelude.{◌≡◌, ◌<◌, map, true, IfOk};
ghost use Rattle.anb_term.specs.Tree.{nodes};
ghost use Rattle.anb_term.specs.View.{tree_of};
ghost use Rattle.anb_protocol.specs.Plans.{to_receive};
ghost use Rattle.anb_protocol.specs.Views.{plan_event};
ghost use Rattle.anb_accept.specs.Conversations.{IsConversationIn, to_hear};
ghost use Rattle.anb_accept.specs.Events.{event_value};
ghost use Rattle.anb_accept.specs.Roles.{AreFirst};

use crate::frame::frame_of;
use crate::numbering::numbered;
use crate::patterns::heard;
use crate::sizes::left_after_all;
use anb_base::NoMemory;
use anb_protocol::{Event, Protocol, terms_of_plans};
use anb_term::Term;
use std::alloc::Global;

/// The patterns of what a role hears and says in the first events of its plan, in order, with their
/// variables numbered in the order in which they first stand. The time is near-linear, as that of the
/// patterns.
pub fn conversation_in(
    alloc: Global,
    protocol: &Protocol,
    events: &[Event],
) -> Result<Vec<Term>, NoMemory>
    requires { AreFirst protocol.now (map plan_event events.now) }
    ensures { IfOk result (λ lines. IsConversationIn protocol.now
        (map event_value events.now) (map tree_of lines.items)) }
{
    terms_of_plans();
    let _ = protocol.name();
    let names = protocol.declared().len();
    if names > u32::MAX as usize {
        return Err(NoMemory);
    }
    let all = all_heard(alloc, events)?;
    let frame = frame_of(alloc, &all)?;
    if !are_few(&frame.terms) {
        return Err(NoMemory);
    }
    let patterns = heard(alloc, names as u32, &frame)?;
    numbered(alloc, names as u32, &patterns)
}

/// These events, with what is sent as something that is heard.
fn all_heard(alloc: Global, events: &[Event]) -> Result<Vec<Event>, NoMemory>
    ensures { IfOk result (λ all.
        map plan_event all.items ≡ map to_hear (map plan_event events.now)) }
{
    let mut out = Vec::new(alloc);
    for event in events {
        let event = as_heard(alloc, event)?;
        out.push(event)?;
    }
    Ok(out)
}

fn as_heard(alloc: Global, event: &Event) -> Result<Event, NoMemory>
    ensures { IfOk result (λ same. plan_event same ≡ to_hear (plan_event event.now)) }
{
    match event {
        Event::Know(term) => Ok(Event::Know(term.copy(alloc)?)),
        Event::Fresh(term) => Ok(Event::Fresh(term.copy(alloc)?)),
        Event::Send { action, term } => heard_at(alloc, *action, term),
        Event::Recv { action, term } => heard_at(alloc, *action, term),
    }
}

fn heard_at(alloc: Global, action: u32, term: &Term) -> Result<Event, NoMemory>
    ensures { IfOk result (λ event.
        plan_event event ≡ to_receive action (tree_of term.now)) }
{
    let term = term.copy(alloc)?;
    Ok(Event::Recv { action, term })
}

/// Whether terms have so few nodes that their numbers fit.
fn are_few(terms: &[Term]) -> bool
    ensures { result ≡ true → nodes (map tree_of terms.now) < 4294967295 }
{
    match left_after_all(u32::MAX - 1, terms) {
        Some(_) => true,
        None => false,
    }
}
