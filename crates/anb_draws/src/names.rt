//! The names that a role makes.
ghost use Rattle.std.specs.Prelude.{◌≡◌, ◌<◌, length, map, IfOk, OnOk};
ghost use Rattle.anb_plays.specs.Plans as plans;
ghost use Rattle.anb_term.specs.View.{tree_of};
ghost use Rattle.anb_protocol.specs.Plays.{event_of, events_of};
ghost use Rattle.anb_protocol.specs.Views.{plan_event};
ghost use Rattle.anb_draws.specs.Draws.{names_before, names_by, names_made};

use anb_base::NoMemory;
use anb_protocol::{Event, Protocol};
use anb_term::Term;
use std::alloc::Global;

/// The names that a role makes, in order.
pub fn names_made(alloc: Global, p: &Protocol, role: u32) -> Result<Vec<u32>, NoMemory>
    requires { role < length p.now.roles }
    ensures { IfOk result (λ names. names.items ≡ names_made (events_of p.now role)) }
{
    let plan = p.plan(alloc, role)?;
    let names = made_in(alloc, plan.events())?;
    Ok(names)
}

/// Those that are made in these events.
fn made_in(alloc: Global, events: &[Event]) -> Result<Vec<u32>, NoMemory>
    ensures { IfOk result (λ names.
        names.items ≡ names_made (map event_of (map plan_event events.now))) }
{
    let mut names = Vec::new(alloc);
    for event in events {
        match event {
            Event::Fresh(Term::Atom(name)) => names.push(*name)?,
            Event::Fresh(Term::Node(_, _)) => {}
            Event::Know(_) | Event::Send { .. } | Event::Recv { .. } => {}
        }
    }
    Ok(names)
}

/// Those that are made before the n-th message.
pub(crate) fn names_by(alloc: Global, events: &[Event], n: usize) -> Result<Vec<u32>, NoMemory>
    ensures { IfOk result (λ names.
        names.items ≡ names_by n (map event_of (map plan_event events.now))) }
{
    match n.checked_sub(1) {
        Some(before) => names_before(alloc, events, before),
        None => Ok(Vec::new(alloc)),
    }
}

/// Those that are made before the message behind n.
fn names_before(alloc: Global, events: &[Event], n: usize) -> Result<Vec<u32>, NoMemory>
    ensures { IfOk result (λ names.
        names.items ≡ names_before n (map event_of (map plan_event events.now))) }
{
    let mut names = Vec::new(alloc);
    let mut left = n;
    for event in events {
        match event {
            Event::Fresh(Term::Atom(name)) => names.push(*name)?,
            Event::Fresh(Term::Node(_, _)) => {}
            Event::Know(_) => {}
            Event::Send { .. } | Event::Recv { .. } => {
                if left == 0 {
                    return Ok(names);
                }
                left -= 1;
            }
        }
    }
    Ok(names)
}
