//! The protocols of arms.
ghost use Rattle.std.specs.Prelude.{◌≡◌, ◌≢◌, ◌≤◌, length, IfOk, IfErr};
ghost use Rattle.anb_base.specs.declared.TheConstants.{SMALL_FILE};
ghost use Rattle.anb_choice.specs.Branching.{Tells};
ghost use Rattle.anb_choice.specs.ArmRefusals.{IsRefusedAs};

use anb_outcomes::BranchNo;
use anb_protocol::{Protocol, ResolveNo};
use anb_read::{ReadNo, read};
use anb_resolve::{resolve, small_is_countable};
use std::alloc::Global;

/// The protocol of this arm, which the text of the stem and the arm tells.
pub(crate) fn arm_of(alloc: Global, number: u32, text: &[u8]) -> Result<Protocol, BranchNo>
    requires { length text.now ≤ SMALL_FILE }
    ensures tells { IfOk result (λ p. Tells text.now p) }
    ensures refused { IfErr result (λ no. no ≢ BranchNo.NoMemory → IsRefusedAs text.now number no) }
{
    small_is_countable();
    let narration = match read(alloc, text) {
        Ok(narration) => narration,
        Err(ReadNo::NoMemory) => return Err(BranchNo::NoMemory),
        Err(no) => return Err(BranchNo::ArmRead(number, no)),
    };
    match resolve(alloc, &narration) {
        Ok(protocol) => Ok(protocol),
        Err(ResolveNo::NoMemory) => Err(BranchNo::NoMemory),
        Err(no) => Err(BranchNo::ArmResolve(number, no)),
    }
}
