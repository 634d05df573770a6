//! The patterns of what a role hears.
ghost use Rattle.std.specs.Prelude.{◌<◌, length, map, IfOk};
ghost use Rattle.anb_term.specs.View.{tree_of};
ghost use Rattle.anb_protocol.specs.Views.{plan_event};
ghost use Rattle.anb_accept.specs.Events.{event_value};
ghost use Rattle.anb_accept.specs.Roles.{AreFirst, ArePatternsIn, ArePatternsOf};

use crate::frame::frame_of;
use crate::numbering::numbered;
use crate::patterns::heard;
use anb_base::NoMemory;
use anb_protocol::{Event, Protocol, protocols_hold, terms_of_plans};
use anb_term::Term;
use std::alloc::Global;

/// The patterns of what a role hears, in order: terms over the names and over variables, which are
/// atoms above the names, numbered in the order in which they first stand. They have no more nodes
/// than the narrated terms.
pub fn patterns_of(alloc: Global, protocol: &Protocol, role: u32) -> Result<Vec<Term>, NoMemory>
    requires { role < length protocol.now.roles }
    ensures { IfOk result (λ patterns.
        ArePatternsOf protocol.now role (map tree_of patterns.items)) }
{
    match protocol.plan(alloc, role) {
        Err(_) => Err(NoMemory),
        Ok(plan) => patterns_in(alloc, protocol, plan.events()),
    }
}

/// The patterns of what a role hears in the first events of its plan, in order, with their variables
/// numbered in the order in which they first stand.
pub fn patterns_in(
    alloc: Global,
    protocol: &Protocol,
    events: &[Event],
) -> Result<Vec<Term>, NoMemory>
    requires { AreFirst protocol.now (map plan_event events.now) }
    ensures { IfOk result (λ patterns. ArePatternsIn protocol.now
        (map event_value events.now) (map tree_of patterns.items)) }
{
    protocols_hold();
    terms_of_plans();
    let _ = protocol.name();
    let names = protocol.declared().len();
    if names > u32::MAX as usize {
        return Err(NoMemory);
    }
    let frame = frame_of(alloc, events)?;
    let patterns = heard(alloc, names as u32, &frame)?;
    numbered(alloc, names as u32, &patterns)
}
