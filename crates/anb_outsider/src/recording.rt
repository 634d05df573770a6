//! A recording of another run, and the first event where a role doesn't take it.
ghost use Rattle.std.specs.Prelude.{◌≡◌, ℕ, ◌+◌, ◌-◌, ◌≤◌, ◌<◌, length, map, slice_get, Some, true, IfOk, IfSome, IfNone};
ghost use Rattle.anb_algebra.specs.ByteMeaning.{has_operator};
ghost use Rattle.anb_accept.specs.Events.{event_value};
ghost use Rattle.anb_outsider.specs.Recordings.{IsRecording, IsRecordingIn, drawn, messages_in};
ghost use Rattle.anb_outsider.specs.Searching.{ends_from, is_message, receives, GoesTo, IsWhole, StopsFor};

use crate::drawing::{drawn, first_counted};
use anb_accept::patterns_in;
use anb_base::NoMemory;
use anb_pattern::counts_of;
use anb_protocol::{Event, Protocol, plans_know_first, terms_of_plans};
use std::alloc::Global;

/// What comes of a recording of a run in which a role drew other names.
#[derive(Drop)]
pub enum Recording {
    /// The role takes it, or receives nothing.
    Taken,
    /// This event, where messages are counted from 1, is the first up to which the role doesn't take
    /// it, since it drew the name with this number.
    Stops { event: usize, name: u32 },
}

/// What comes of a recording of a run in which the role drew other names. The role's patterns are made
/// anew, of half its plan on average, once more often than the number of its receives has binary digits.
pub fn recording_of(alloc: Global, protocol: &Protocol, role: u32) -> Result<Recording, NoMemory>
    requires { role < length protocol.now.roles }
    ensures { IfOk result (λ recording. IsRecording protocol.now role recording) }
{
    match protocol.plan(alloc, role) {
        Err(_) => Err(NoMemory),
        Ok(plan) => recording_in(alloc, protocol, plan.events()),
    }
}

/// The same of the events of a role's plan.
fn recording_in(alloc: Global, protocol: &Protocol, events: &[Event]) -> Result<Recording, NoMemory>
    requires { IsWhole protocol.now events.now }
    ensures { IfOk result (λ recording.
        IsRecordingIn protocol.now (map event_value events.now) recording) }
{
    plans_know_first();
    let names = drawn(alloc, events)?;
    let ends = ends_in(alloc, events)?;
    if ends.is_empty() {
        return Ok(Recording::Taken);
    }
    match stop_at(alloc, protocol, events, &names, ends[ends.len() - 1])? {
        None => Ok(Recording::Taken),
        Some(name) => first_stop(alloc, protocol, events, &names, &ends, name),
    }
}

/// The places after each event that is received.
fn ends_in(alloc: Global, events: &[Event]) -> Result<Vec<usize>, NoMemory>
    ensures { IfOk result (λ ends. ends.items ≡ ends_from 0 (map event_value events.now)) }
{
    let mut ends = Vec::new(alloc);
    for (i, event) in events.iter().enumerate() {
        if is_receive(event) {
            ends.push(i + 1)?;
        }
    }
    Ok(ends)
}

fn is_receive(event: &Event) -> bool
    ensures { result ≡ receives (event_value event.now) }
{
    match event {
        Event::Know(_) => false,
        Event::Fresh(_) => false,
        Event::Send { .. } => false,
        Event::Recv { .. } => true,
    }
}

/// Where a recording isn't taken as far as so many events, the name that is drawn first of those that
/// the patterns of these events have.
fn stop_at(
    alloc: Global,
    protocol: &Protocol,
    events: &[Event],
    names: &[u32],
    end: usize,
) -> Result<Option<u32>, NoMemory>
    requires whole { IsWhole protocol.now events.now }
    requires names { names.now ≡ drawn (map event_value events.now) }
    requires within { end ≤ length events.now }
    ensures goes { IfOk result (λ found. IfNone found
        (GoesTo (has_operator protocol.now.formats) (length protocol.now.atoms)
        (map event_value events.now) end)) }
    ensures stops { IfOk result (λ found. IfSome found
        (StopsFor (has_operator protocol.now.formats) (length protocol.now.atoms)
        (map event_value events.now) end)) }
{
    terms_of_plans();
    let _ = protocol.name();
    let patterns = patterns_in(alloc, protocol, &events[..end])?;
    let counts = counts_of(alloc, 0, protocol.declared().len(), &patterns)?;
    Ok(first_counted(names, &counts))
}

/// The first event up to which a recording isn't taken, where it isn't up to the last end.
fn first_stop(
    alloc: Global,
    protocol: &Protocol,
    events: &[Event],
    names: &[u32],
    ends: &[usize],
    last: u32,
) -> Result<Recording, NoMemory>
    requires whole { IsWhole protocol.now events.now }
    requires names { names.now ≡ drawn (map event_value events.now) }
    requires ends { ends.now ≡ ends_from 0 (map event_value events.now) }
    requires some { 0 < length ends.now }
    requires stops { (end : ℕ) → slice_get ends.now (length ends.now - 1) ≡ Some end
        → StopsFor (has_operator protocol.now.formats) (length protocol.now.atoms)
        (map event_value events.now) end last }
    ensures { IfOk result (λ recording.
        IsRecordingIn protocol.now (map event_value events.now) recording) }
{
    plans_know_first();
    let mut low = 0;
    let mut high = ends.len() - 1;
    let mut name = last;
    'halves: while low < high {
        let middle = low + (high - low) / 2;
        match stop_at(alloc, protocol, events, names, ends[middle])? {
            Some(found) => {
                high = middle;
                name = found;
            }
            None => low = middle + 1,
        }
    }
    let event = count_messages(&events[..ends[high]]);
    Ok(Recording::Stops { event, name })
}

/// How many messages are sent and received.
fn count_messages(events: &[Event]) -> usize
    ensures { result ≡ messages_in (map event_value events.now) }
{
    let mut count = 0;
    for event in events {
        if is_message(event) {
            count += 1;
        }
    }
    count
}

fn is_message(event: &Event) -> bool
    ensures { result ≡ is_message (event_value event.now) }
{
    match event {
        Event::Know(_) => false,
        Event::Fresh(_) => false,
        Event::Send { .. } => true,
        Event::Recv { .. } => true,
    }
}
