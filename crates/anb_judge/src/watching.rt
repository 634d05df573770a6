//! The code of somebody who sees a role.
ghost use Rattle.std.specs.Prelude.{◌≡◌, ◌<◌, length, IfOk};
ghost use Rattle.anb_protocol.specs.Laws.{HoldsOf};
ghost use Rattle.anb_protocol.specs.Plans.{plan_of};
ghost use Rattle.anb_judge.specs.Observers.{Sees, seen};

use anb_base::NoMemory;
use anb_code::RoleCode;
use anb_compile::{CompileNo, compile_plan};
use anb_protocol::{Event, Plan, Protocol};
use std::alloc::Global;

/// The code of somebody who knows what the role with this plan knows, and hears all that it hears and
/// says.
pub(crate) fn observer(
    alloc: Global,
    p: &Protocol,
    role: u32,
    plan: Plan,
) -> Result<RoleCode, NoMemory>
    requires role { role < length p.now.roles }
    requires holds { HoldsOf p.now }
    requires plan { plan ≡ plan_of p.now role }
    ensures { IfOk result (Sees p.now role) }
{
    let plan = seen(alloc, plan)?;
    match compile_plan(alloc, p, role, &plan) {
        Ok(code) => Ok(code),
        // Who sees a role sends nothing, so there is nothing that can't be sent.
        Err(CompileNo::CannotSend { .. }) | Err(CompileNo::NoMemory) => Err(NoMemory),
    }
}

/// The plan of somebody who sees a role with this plan: nothing is made, and what the role says is
/// heard.
fn seen(alloc: Global, plan: Plan) -> Result<Plan, NoMemory>
    ensures { IfOk result (λ events. events ≡ seen plan) }
{
    let mut events = Vec::new(alloc);
    for event in plan.into_vec() {
        match event {
            Event::Know(term) => events.push(Event::Know(term))?,
            Event::Fresh(_name) => {}
            Event::Send { action, term } => events.push(Event::Recv { action, term })?,
            Event::Recv { action, term } => events.push(Event::Recv { action, term })?,
        }
    }
    Ok(Plan::new(events))
}
