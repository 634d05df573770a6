//! Where names stand in the messages of a protocol, and which role makes them.
ghost use Rattle.std.specs.Prelude.{◌≡◌, ◌<◌, ◌++◌, ◌∷◌, ◌≤◌, [], length, map, true, IfOk, OnOk, if◌then◌else◌};
ghost use Rattle.std.specs.List.{flat_map};
ghost use Rattle.anb_term.specs.View.{tree_of};
ghost use Rattle.anb_protocol.specs.Views.{action_value, plan_event};
ghost use Rattle.anb_notes.specs.Places.{at, made_by, made_if, makers, placed, places};
ghost use Rattle.anb_notes.specs.Standing.{names_in};

use crate::standing::{Standing, put_names_in};
use anb_base::NoMemory;
use anb_protocol::{Action, Event, Protocol, protocols_hold};
use anb_term::Term;
use std::alloc::Global;

/// A name at a number: that of an action, from 0, or that of a role.
#[derive(Clone, Copy, Drop)]
pub(crate) struct Place {
    pub(crate) name: u32,
    pub(crate) number: u32,
}

/// Where names stand so in the messages of a protocol, in order.
pub(crate) fn places(
    alloc: Global,
    standing: Standing,
    protocol: &Protocol,
) -> Result<Vec<Place>, NoMemory>
    ensures { IfOk result (λ all. all.items ≡ places standing protocol.now) }
{
    protocols_hold();
    placed(alloc, standing, protocol.messages())
}

fn placed(alloc: Global, standing: Standing, actions: &[Action]) -> Result<Vec<Place>, NoMemory>
    requires { length actions.now ≤ 256 }
    ensures { IfOk result (λ all.
        all.items ≡ placed standing 0 (map action_value actions.now)) }
{
    let mut out = Vec::new(alloc);
    for (i, action) in actions.iter().enumerate() {
        put_placed(alloc, &mut out, standing, i as u32, &action.message)?;
    }
    Ok(out)
}

fn put_placed(
    alloc: Global,
    out: &mut Vec<Place>,
    standing: Standing,
    number: u32,
    message: &Term,
) -> Result<(), NoMemory>
    ensures { OnOk result (out.new.items ≡ out.old.items
        ++ map (at number) (names_in standing (tree_of message.now))) }
{
    let mut names = Vec::new(alloc);
    put_names_in(&mut names, standing, message)?;
    put_all(out, number, &names)
}

fn put_all(out: &mut Vec<Place>, number: u32, names: &[u32]) -> Result<(), NoMemory>
    ensures { OnOk result (out.new.items ≡ out.old.items ++ map (at number) names.now) }
{
    for name in names {
        out.push(Place {
            name: *name,
            number,
        })?;
    }
    Ok(())
}

/// The names that roles make, each at the number of its role.
pub(crate) fn makers(alloc: Global, protocol: &Protocol) -> Result<Vec<Place>, NoMemory>
    ensures { IfOk result (λ all. all.items ≡ makers protocol.now) }
{
    let mut out = Vec::new(alloc);
    for role in 0..count_roles(protocol) {
        put_made_by(alloc, &mut out, protocol, role)?;
    }
    Ok(out)
}

fn count_roles(protocol: &Protocol) -> u32
    ensures { result ≡ length protocol.now.roles }
{
    protocols_hold();
    let _actions = protocol.messages();
    protocol.roles().len() as u32
}

fn put_made_by(
    alloc: Global,
    out: &mut Vec<Place>,
    protocol: &Protocol,
    role: u32,
) -> Result<(), NoMemory>
    requires { role < length protocol.now.roles }
    ensures { OnOk result (out.new.items ≡ out.old.items ++ made_by protocol.now role) }
{
    let plan = protocol.plan(alloc, role)?;
    let names = made(alloc, plan.events())?;
    put_all(out, role, &names)
}

/// The names that are made in a plan.
fn made(alloc: Global, events: &[Event]) -> Result<Vec<u32>, NoMemory>
    ensures { IfOk result (λ names.
        names.items ≡ flat_map (made_if true) (map plan_event events.now)) }
{
    let mut names = Vec::new(alloc);
    for event in events {
        put_made_if(&mut names, true, event)?;
    }
    Ok(names)
}

/// Appends the name that an event makes, where that is asked for.
pub(crate) fn put_made_if(names: &mut Vec<u32>, asked: bool, event: &Event) -> Result<(), NoMemory>
    ensures { OnOk result (names.new.items
        ≡ names.old.items ++ made_if asked (plan_event event.now)) }
{
    match event {
        Event::Know(_) => {}
        Event::Fresh(Term::Node(..)) => {}
        Event::Fresh(Term::Atom(n)) => put_if(names, asked, *n)?,
        Event::Send { .. } => {}
        Event::Recv { .. } => {}
    }
    Ok(())
}

/// Appends a name where a test says so.
pub(crate) fn put_if(names: &mut Vec<u32>, so: bool, name: u32) -> Result<(), NoMemory>
    ensures { OnOk result (names.new.items
        ≡ names.old.items ++ (if so then name ∷ [] else [])) }
{
    if so {
        names.push(name)?;
    }
    Ok(())
}
