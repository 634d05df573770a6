//! How far a stranger gets with a role.
ghost use Rattle.std.specs.Prelude.{◌≡◌, ◌<◌, ◌++◌, Bool, length, map, true, false, IfOk, OnOk, slice_get};
ghost use Rattle.anb_term.specs.declared.term.Op.{Op};
ghost use Rattle.anb_term.specs.Tree.{trees_of, AreFormed};
ghost use Rattle.anb_term.specs.View.{tree_of};
ghost use Rattle.anb_protocol.specs.Views.{plan_event};
ghost use Rattle.anb_accept.specs.Events.{event_value};
ghost use Rattle.anb_accept.specs.Roles.{AreFirst};
ghost use Rattle.anb_stranger.specs.Reaching.{IsReach, IsReachIn, Reaches};
ghost use Rattle.anb_stranger.specs.Steps.{MakesAt, line_at};

use crate::beginning::stranger;
use crate::knowledge::Knowledge;
use anb_accept::conversation_in;
use anb_base::NoMemory;
use anb_protocol::{Event, Protocol};
use anb_term::Term;
use std::alloc::Global;

/// How far somebody gets who knows only the agents' names.
#[derive(Drop)]
pub enum Reach {
    /// He can make all that the role takes.
    All,
    /// The last event whose message he can make, where messages are counted from 1; or 0.
    Event(usize),
}

/// How far somebody gets with a role who knows only the agents' names. Where it isn't all, nothing is
/// claimed of what else he could make.
pub fn reach_of(alloc: Global, protocol: &Protocol, role: u32) -> Result<Reach, NoMemory>
    requires { role < length protocol.now.roles }
    ensures { IfOk result (λ reach. IsReach protocol.now role reach) }
{
    match protocol.plan(alloc, role) {
        Err(_) => Err(NoMemory),
        Ok(plan) => reach_in(alloc, protocol, plan.events()),
    }
}

/// The same of the first events of a role's plan.
fn reach_in(alloc: Global, protocol: &Protocol, events: &[Event]) -> Result<Reach, NoMemory>
    requires { AreFirst protocol.now (map plan_event events.now) }
    ensures { IfOk result (λ reach.
        IsReachIn protocol.now (map event_value events.now) reach) }
{
    let lines = conversation_in(alloc, protocol, events)?;
    let mut knowledge = stranger(alloc, protocol, &lines)?;
    how_far(alloc, &mut knowledge, events, &lines)
}

/// How far somebody gets with what he has.
fn how_far(
    alloc: Global,
    having: &mut Knowledge,
    events: &[Event],
    lines: &[Term],
) -> Result<Reach, NoMemory>
    requires { AreFormed (λ o. true) (trees_of (map tree_of lines.now)) }
    ensures { (has : Op → Bool) → AreFormed has (trees_of having.old)
        → AreFormed has (trees_of (map tree_of lines.now))
        → IfOk result (λ reach. Reaches has having.old (map tree_of lines.now)
        (map event_value events.now) reach) }
{
    let mut next = 0;
    let mut last = 0;
    for event in events {
        match event {
            Event::Know(_) => {}
            Event::Fresh(_) => {}
            Event::Send { .. } => {
                hear(alloc, having, lines, next)?;
                next += 1;
            }
            Event::Recv { .. } => {
                if !can_make(alloc, having, lines, next)? {
                    return Ok(Reach::Event(last));
                }
                next += 1;
                last = next;
            }
        }
    }
    Ok(Reach::All)
}

/// Takes what the role says, where there is such a line.
fn hear(alloc: Global, having: &mut Knowledge, lines: &[Term], at: usize) -> Result<(), NoMemory>
    requires { AreFormed (λ o. true) (trees_of (map tree_of lines.now)) }
    ensures { OnOk result (having.new ≡ having.old ++ line_at (map tree_of lines.now) at) }
{
    match lines.get(at) {
        Some(line) => having.learn(alloc, line),
        None => Ok(()),
    }
}

/// Whether a line can be made, where there is such a one.
fn can_make(alloc: Global, having: &Knowledge, lines: &[Term], at: usize) -> Result<bool, NoMemory>
    requires { AreFormed (λ o. true) (trees_of (map tree_of lines.now)) }
    ensures yes { (has : Op → Bool) → AreFormed has (trees_of having.now)
        → AreFormed has (trees_of (map tree_of lines.now))
        → IfOk result (λ makes. makes ≡ true → MakesAt has having.now (map tree_of lines.now) at) }
    ensures no { (has : Op → Bool) → IfOk result (λ makes.
        makes ≡ false → MakesAt has having.now (map tree_of lines.now) at → ⊥) }
{
    match lines.get(at) {
        Some(line) => having.makes(alloc, line),
        None => Ok(true),
    }
}
