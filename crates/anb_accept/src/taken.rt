//! What a role takes, in words.
ghost use Rattle.std.specs.Prelude.{◌<◌, length, IfOk};
ghost use Rattle.anb_accept.specs.Roles.{IsTakenBy};

use crate::roles::patterns_of;
use anb_base::NoMemory;
use anb_pattern::{Taken, taken_of};
use anb_protocol::Protocol;
use std::alloc::Global;

/// What is said of a role, by its patterns.
pub fn taken_by(alloc: Global, protocol: &Protocol, role: u32) -> Result<Taken, NoMemory>
    requires { role < length protocol.now.roles }
    ensures { IfOk result (λ taken. IsTakenBy protocol.now role taken) }
{
    let patterns = patterns_of(alloc, protocol, role)?;
    taken_of(alloc, protocol, role, &patterns)
}
