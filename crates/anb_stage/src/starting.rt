//! The beginning of the children.

ghost use Rattle.std.specs.Prelude.{◌≡◌, ◌<◌, ◌≤◌, ℕ, length, IfErr, OnOk};
ghost use Rattle.anb_stage.specs.Words.{asked_lists};
ghost use Rattle.anb_stage.specs.Steps.{Started, FailsStarting};
ghost use Rattle.anb_stage.specs.declared.TheConstants.{ROLES};

use crate::{ChildWords, RelayNo, Spawner};

/// Starts all children in order, each with its words and all with this limit.
pub(crate) fn start_all<P: Spawner>(
    spawner: &mut P,
    limit: Option<u32>,
    words: &[ChildWords],
) -> Result<(), RelayNo>
    requires few { length words.now ≤ ROLES }
    requires new { (role : ℕ) → role < length words.now → (P.child spawner.old role).phase ≡ 0 }
    ensures started { OnOk result (Started (P.child spawner.old) (P.child spawner.new)
        (length words.now) (asked_lists limit words.now)) }
    ensures failed { IfErr result (FailsStarting (P.child spawner.old) (P.child spawner.new)
        (length words.now) (asked_lists limit words.now)) }
{
    for (i, own) in words.iter().enumerate() {
        let role = i as u32;
        if spawner.start(role, limit, own).is_err() {
            return Err(RelayNo::Fault(role));
        }
    }
    Ok(())
}
