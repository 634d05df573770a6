//! The protocol that a text tells, as worked examples in crates of tests begin.
#![tactic(auto)]

ghost use Rattle.std.specs.Prelude.{◌≡◌, ◌≤◌, length, IfOk, IfErr};
ghost use Rattle.anb_base.specs.declared.TheConstants.{SMALL_FILE};
ghost use Rattle.anb_test_protocols.specs.Telling.{Tells, Refuses};

use anb_protocol::{Protocol, ResolveNo};
use anb_read::{ReadNo, read};
use anb_resolve::{resolve, small_is_countable};
use std::alloc::Global;

/// Why a text tells no protocol: it is no narration, or one that isn't well formed.
#[derive(Debug, Drop)]
pub enum Refusal {
    Read(ReadNo),
    Resolve(ResolveNo),
}

/// The protocol that a text tells.
pub fn protocol_in(alloc: Global, text: &[u8]) -> Result<Protocol, Refusal>
    requires { length text.now ≤ SMALL_FILE }
    ensures tells { IfOk result (λ p. Tells text.now p) }
    ensures refused { IfErr result (λ why. Refuses text.now why) }
{
    small_is_countable();
    match read(alloc, text) {
        Err(no) => Err(Refusal::Read(no)),
        Ok(narration) => match resolve(alloc, &narration) {
            Ok(protocol) => Ok(protocol),
            Err(no) => Err(Refusal::Resolve(no)),
        },
    }
}

#[cfg(test)]
mod alone;
