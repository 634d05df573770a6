//! The end of the children.

ghost use Rattle.std.specs.Prelude.{◌≡◌, ◌<◌, ◌≤◌, ℕ, IfErr, OnOk};
ghost use Rattle.anb_stage.specs.Steps.{Finished, FailsFinishing};
ghost use Rattle.anb_stage.specs.declared.TheConstants.{ROLES};

use crate::{RelayNo, Spawner};

/// Finishes all children in order, up to the first that ended with another status than 0.
pub(crate) fn finish_all<P: Spawner>(spawner: &mut P, roles: u32) -> Result<(), RelayNo>
    requires few { roles ≤ ROLES }
    requires running { (role : ℕ) → role < roles → (P.child spawner.old role).phase ≡ 1 }
    ensures finished { OnOk result
        (Finished (P.child spawner.old) (P.child spawner.new) roles roles) }
    ensures failed { IfErr result
        (FailsFinishing (P.child spawner.old) (P.child spawner.new) roles) }
{
    for role in 0..roles {
        match spawner.finish(role) {
            Ok(0) => {}
            Ok(status) => return Err(RelayNo::Bad { role, status }),
            Err(_) => return Err(RelayNo::Fault(role)),
        }
    }
    Ok(())
}
