//! The lines of events.
ghost use Rattle.std.specs.Prelude.{◌≡◌, ◌-◌, ◌++◌, OnOk, IfSome, IfNone, Some, None, codes, decimal, filter, map, slice_get};
ghost use Rattle.std.specs.List.{AllByRecursion};
ghost use Rattle.anb_term.specs.View.{tree_of};
ghost use Rattle.anb_protocol.specs.Plans.{term_in};
ghost use Rattle.anb_protocol.specs.Texts.{IsTermOf, term_text};
ghost use Rattle.anb_protocol.specs.Views.{action_value, plan_event};
ghost use Rattle.anb_protocol.specs.Protocols.{role_name};
ghost use Rattle.anb_explain.specs.Explained.{is_message};
ghost use Rattle.anb_trace.specs.Words.{event_line, event_words, receiver, sender};

use crate::subject::put_term;
use anb_base::NoMemory;
use anb_protocol::{Action, Event, Protocol};
use anb_term::Term;
use itoa::Buffer;
use std::alloc::Global;

/// Appends the line of the event behind so many sends and receives of these.
pub(crate) fn put_event_line(
    alloc: Global,
    out: &mut Vec<u8>,
    protocol: &Protocol,
    plan: &[Event],
    events: u32,
) -> Result<(), NoMemory>
    requires { AllByRecursion (λ e. IsTermOf protocol.now (term_in e)) (map plan_event plan.now) }
    ensures { OnOk result (out.new.items
        ≡ out.old.items ++ event_line protocol.now (map plan_event plan.now) events) }
{
    let mut buffer = Buffer::new();
    out.extend_from_slice(b"event ")?;
    out.extend_from_slice(buffer.format(u64::from(events) + 1).as_bytes())?;
    if let Some(event) = message_at(plan, events) {
        put_event(alloc, out, protocol, event)?;
    }
    out.push(b'\n')?;
    Ok(())
}

/// The event that sends or receives behind so many that do.
fn message_at(plan: &[Event], events: u32) -> Option<&Event>
    ensures some { IfSome result (λ event.
        slice_get (filter is_message (map plan_event plan.now)) events
        ≡ Some (plan_event event.now)) }
    ensures none { IfNone result
        (slice_get (filter is_message (map plan_event plan.now)) events ≡ None) }
{
    let mut left = events;
    for event in plan {
        if is_message(event) {
            if left == 0 {
                return Some(event);
            }
            left -= 1;
        }
    }
    None
}

/// Whether an event sends or receives a message.
fn is_message(event: &Event) -> bool
    ensures { result ≡ is_message (plan_event event.now) }
{
    match event {
        Event::Send { .. } | Event::Recv { .. } => true,
        Event::Know(_) | Event::Fresh(_) => false,
    }
}

/// Appends the words of an event.
fn put_event(
    alloc: Global,
    out: &mut Vec<u8>,
    protocol: &Protocol,
    event: &Event,
) -> Result<(), NoMemory>
    requires { IsTermOf protocol.now (term_in (plan_event event.now)) }
    ensures { OnOk result (out.new.items
        ≡ out.old.items ++ event_words protocol.now (plan_event event.now)) }
{
    match event {
        Event::Send { action, term } => {
            put_action(out, *action)?;
            out.extend_from_slice(b", to ")?;
            put_receiver(out, protocol, *action)?;
            put_message(alloc, out, protocol, term)
        }
        Event::Recv { action, term } => {
            put_action(out, *action)?;
            out.extend_from_slice(b", from ")?;
            put_sender(out, protocol, *action)?;
            put_message(alloc, out, protocol, term)
        }
        Event::Know(_) | Event::Fresh(_) => Ok(()),
    }
}

/// Appends the number of an action.
fn put_action(out: &mut Vec<u8>, action: u32) -> Result<(), NoMemory>
    ensures { OnOk result (out.new.items ≡ out.old.items ++ (codes ", action " ++ decimal action)) }
{
    let mut buffer = Buffer::new();
    out.extend_from_slice(b", action ")?;
    out.extend_from_slice(buffer.format(action).as_bytes())?;
    Ok(())
}

/// Appends the term of a message behind a colon.
fn put_message(
    alloc: Global,
    out: &mut Vec<u8>,
    protocol: &Protocol,
    term: &Term,
) -> Result<(), NoMemory>
    requires { IsTermOf protocol.now (tree_of term.now) }
    ensures { OnOk result (out.new.items
        ≡ out.old.items ++ (codes ": " ++ term_text protocol.now (tree_of term.now))) }
{
    out.extend_from_slice(b": ")?;
    put_term(alloc, out, protocol, term)
}

/// Appends the receiver of an action.
fn put_receiver(out: &mut Vec<u8>, protocol: &Protocol, action: u32) -> Result<(), NoMemory>
    ensures { OnOk result (out.new.items ≡ out.old.items ++ receiver protocol.now action) }
{
    match action_at(protocol, action) {
        Some(action) => put_role(out, protocol, action.to),
        None => Ok(()),
    }
}

/// Appends the sender of an action.
fn put_sender(out: &mut Vec<u8>, protocol: &Protocol, action: u32) -> Result<(), NoMemory>
    ensures { OnOk result (out.new.items ≡ out.old.items ++ sender protocol.now action) }
{
    match action_at(protocol, action) {
        Some(action) => put_role(out, protocol, action.from),
        None => Ok(()),
    }
}

/// The action of this number, from 1.
fn action_at(protocol: &Protocol, action: u32) -> Option<&Action>
    ensures some { IfSome result (λ a.
        slice_get protocol.now.actions (action - 1) ≡ Some (action_value a.now)) }
    ensures none { IfNone result (slice_get protocol.now.actions (action - 1) ≡ None) }
{
    protocol.messages().get((action as usize).saturating_sub(1))
}

/// Appends a role by its number.
fn put_role(out: &mut Vec<u8>, protocol: &Protocol, role: u32) -> Result<(), NoMemory>
    ensures { OnOk result (out.new.items ≡ out.old.items ++ role_name protocol.now role) }
{
    match protocol.roles().get(role as usize) {
        Some(name) => {
            out.extend_from_slice(name.as_str().as_bytes())?;
            Ok(())
        }
        None => Ok(()),
    }
}
