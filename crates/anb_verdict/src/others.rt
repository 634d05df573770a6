//! What something that comes must be compared with, by what the role knows and draws.
ghost use Rattle.std.specs.Prelude.{◌≡◌, ◌<◌, length, map, IfOk};
ghost use Rattle.std.specs.List.{list_any};
ghost use Rattle.anb_term.specs.Tree.{tree_eqb};
ghost use Rattle.anb_term.specs.View.{tree_of};
ghost use Rattle.anb_protocol.specs.Views.{plan_event};
ghost use Rattle.anb_verdict.specs.Others.{knows, makes, other_at, other_by_form, other_than};

use crate::missing::Other;
use crate::place::Place;
use crate::places::narrated_part;
use anb_base::NoMemory;
use anb_protocol::{Event, Protocol};
use anb_term::Term;
use std::alloc::Global;

/// What the narrated term at a place is to be compared with.
pub fn other_of(alloc: Global, p: &Protocol, role: u32, place: &Place) -> Result<Other, NoMemory>
    requires { role < length p.now.roles }
    ensures { IfOk result (λ other. other ≡ other_at p.now role place.now) }
{
    match narrated_part(p, role, place) {
        None => Ok(Other::Makes),
        Some(t) => {
            let plan = p.plan(alloc, role)?;
            Ok(other_than(plan.events(), t))
        }
    }
}

/// The same of a term.
fn other_than(events: &[Event], t: &Term) -> Other
    ensures { result ≡ other_than (map plan_event events.now) (tree_of t.now) }
{
    if is_known(events, t) {
        Other::Knows
    } else if is_made(events, t) {
        Other::Drew
    } else {
        other_by_form(t)
    }
}

fn other_by_form(t: &Term) -> Other
    ensures { result ≡ other_by_form (tree_of t.now) }
{
    match t {
        Term::Atom(_) => Other::Came,
        Term::Node(..) => Other::Makes,
    }
}

/// Whether a role knows a term.
fn is_known(events: &[Event], t: &Term) -> bool
    ensures { result ≡ list_any (knows (tree_of t.now)) (map plan_event events.now) }
{
    for event in events {
        if knows(event, t) {
            return true;
        }
    }
    false
}

/// Whether it knows a term at this event.
fn knows(event: &Event, t: &Term) -> bool
    ensures { result ≡ knows (tree_of t.now) (plan_event event.now) }
{
    match event {
        Event::Know(known) => is_same(t, known),
        Event::Fresh(_) => false,
        Event::Send { .. } => false,
        Event::Recv { .. } => false,
    }
}

/// Whether a role makes a term.
fn is_made(events: &[Event], t: &Term) -> bool
    ensures { result ≡ list_any (makes (tree_of t.now)) (map plan_event events.now) }
{
    for event in events {
        if makes(event, t) {
            return true;
        }
    }
    false
}

/// Whether it makes a term at this event.
fn makes(event: &Event, t: &Term) -> bool
    ensures { result ≡ makes (tree_of t.now) (plan_event event.now) }
{
    match event {
        Event::Know(_) => false,
        Event::Fresh(name) => is_same(t, name),
        Event::Send { .. } => false,
        Event::Recv { .. } => false,
    }
}

/// Whether two terms are one.
fn is_same(one: &Term, other: &Term) -> bool
    ensures { result ≡ tree_eqb (tree_of one.now) (tree_of other.now) }
{
    one.same(other)
}
