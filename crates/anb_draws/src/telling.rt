//! The code of somebody who sees a role's first messages, and then says the names that can be told.
ghost use Rattle.std.specs.Prelude.{◌≡◌, ◌<◌, ◌++◌, length, map, IfOk, OnOk};
ghost use Rattle.anb_protocol.specs.Laws.{HoldsOf};
ghost use Rattle.anb_protocol.specs.Plans.{plan_of};
ghost use Rattle.anb_protocol.specs.Views.{plan_event};
ghost use Rattle.anb_draws.specs.Telling.{AreOpen, IsTeller, asks, frame_by, seen_by, telling};

use crate::closing::{closed, open_in};
use crate::draws::Drawn;
use anb_base::NoMemory;
use anb_code::RoleCode;
use anb_compile::{CompileNo, compile_plan};
use anb_protocol::{Event, Plan, Protocol};
use anb_term::Term;
use std::alloc::Global;

/// A code that says these names behind the first messages.
#[derive(Drop)]
pub(crate) struct Teller {
    pub(crate) code: RoleCode,
    pub(crate) names: Vec<u32>,
}

/// The most events that a plan may have. No plan of a protocol has more: what is known, and the names
/// that are asked for, stand among the nodes of its terms, and it has few actions.
const MOST: usize = 65792;

/// The code that says, behind the role's first n messages, each name that can be told then, but those
/// that the role knows.
pub(crate) fn teller_of(
    alloc: Global,
    p: &Protocol,
    role: u32,
    n: usize,
    known: &[Drawn],
) -> Result<Teller, NoMemory>
    requires role { role < length p.now.roles }
    requires holds { HoldsOf p.now }
    ensures { IfOk result (λ teller.
        IsTeller p.now role n known.now teller.names.items teller.code) }
{
    let names = open_names(alloc, p, role, n, known)?;
    let plan = telling(alloc, p, role, n, &names)?;
    if plan.events().len() > MOST {
        return Err(NoMemory);
    }
    match compile_plan(alloc, p, role, &plan) {
        Ok(code) => Ok(Teller { code, names }),
        Err(CompileNo::CannotSend { .. }) => unreachable!(),
        Err(CompileNo::NoMemory) => Err(NoMemory),
    }
}

/// The names that can be had of the role's first n messages, but those that it knows.
fn open_names(
    alloc: Global,
    p: &Protocol,
    role: u32,
    n: usize,
    known: &[Drawn],
) -> Result<Vec<u32>, NoMemory>
    requires role { role < length p.now.roles }
    requires holds { HoldsOf p.now }
    ensures { IfOk result (λ names.
        AreOpen p.now (frame_by p.now role n) known.now (length p.now.atoms) names.items) }
{
    let plan = p.plan(alloc, role)?;
    let events = seen_by(alloc, plan, n)?;
    let closure = closed(alloc, &events)?;
    open_in(alloc, p, &closure, known)
}

/// The plan of somebody who hears the role's first n messages, and then says these names.
fn telling(
    alloc: Global,
    p: &Protocol,
    role: u32,
    n: usize,
    names: &[u32],
) -> Result<Plan, NoMemory>
    requires { role < length p.now.roles }
    ensures { IfOk result (λ plan. plan ≡ telling n names.now (plan_of p.now role)) }
{
    let plan = p.plan(alloc, role)?;
    let mut events = seen_by(alloc, plan, n)?;
    put_asks(&mut events, names)?;
    Ok(Plan::new(events))
}

/// The events of somebody who hears the first n messages, said or heard, and makes nothing.
fn seen_by(alloc: Global, plan: Plan, n: usize) -> Result<Vec<Event>, NoMemory>
    ensures { IfOk result (λ events. map plan_event events.items ≡ seen_by n plan) }
{
    let mut events = Vec::new(alloc);
    let mut left = n;
    for event in plan.into_vec() {
        match event {
            Event::Know(term) => events.push(Event::Know(term))?,
            Event::Fresh(_name) => {}
            Event::Send { action, term } => {
                if left == 0 {
                    return Ok(events);
                }
                left -= 1;
                events.push(Event::Recv { action, term })?;
            }
            Event::Recv { action, term } => {
                if left == 0 {
                    return Ok(events);
                }
                left -= 1;
                events.push(Event::Recv { action, term })?;
            }
        }
    }
    Ok(events)
}

/// Appends that these names are said.
fn put_asks(events: &mut Vec<Event>, names: &[u32]) -> Result<(), NoMemory>
    ensures { OnOk result (map plan_event events.new.items
        ≡ map plan_event events.old.items ++ map asks names.now) }
{
    for name in names {
        events.push(Event::Send {
            action: *name,
            term: Term::Atom(*name),
        })?;
    }
    Ok(())
}
