//! Rehearsals.
ghost use Rattle.std.specs.Prelude.{◌≡◌, ◌<◌, ◌≤◌, length, All, IfOk};
ghost use Rattle.anb_base.specs.declared.TheConstants.{ARRIVAL};
ghost use Rattle.anb_protocol.specs.Texts.{known_names};
ghost use Rattle.anb_honest.specs.declared.TheConstants.{TURNS};
ghost use Rattle.anb_honest.specs.Order.{FollowRoles};
ghost use Rattle.anb_honest.specs.Joint.{cast, joint};

use crate::RehearseEnd;
use crate::beginning::{first_long, initial_values, plans, stage};
use crate::ending::end_of;
use anb_base::{ARRIVAL, Bytes, NoMemory};
use anb_code::RoleCode;
use anb_protocol::{Protocol, protocols_hold};
use std::alloc::Global;

/// Plays all roles over a schedule of turns, each by the code that is given for it, with the honest
/// bytes of what the role knows and with the draws of the session that has the role's number.
///
/// A turn does the role's next action where this is a send, or a receive of a message that was sent,
/// which the role is handed. Any other turn is passed over and counted. The cost is in proportion to
/// the turns and to what the roles compute and send.
pub fn rehearse(
    alloc: Global,
    p: &Protocol,
    codes: &[RoleCode],
    atoms: &[Bytes],
    seed: &[u8; 32],
    turns: &[u32],
) -> Result<RehearseEnd, NoMemory>
    requires codes { FollowRoles p.now codes.now }
    requires atoms { length atoms.now ≡ length (known_names p.now) }
    requires short { All (λ value. length value ≤ ARRIVAL) atoms.now }
    requires roles { All (λ role. role < length p.now.roles) turns.now }
    requires few { length turns.now ≤ TURNS }
    ensures { IfOk result (λ end.
        end ≡ joint (cast p.now codes.now atoms.now seed.now) turns.now) }
{
    protocols_hold();
    let _ = p.name();
    let plans = plans(alloc, p)?;
    let initial = initial_values(alloc, p, &plans, atoms)?;
    if let Some(end) = first_long(&initial) {
        return Ok(end);
    }
    let mut stage = stage(alloc, p, codes, &plans, &initial, seed)?;
    for role in turns {
        if let Some(end) = stage.turn(alloc, *role)? {
            return Ok(end);
        }
    }
    end_of(alloc, stage)
}
