//! What one role begins a rehearsal with.
ghost use Rattle.std.specs.Prelude.{◌≡◌, ◌<◌, ℕ, List, length, IfOk};
ghost use Rattle.anb_code.specs.CodeValue.{CodeValue};
ghost use Rattle.anb_honest.specs.Joint.{cast, init_of};

use crate::beginning::{known_atoms, plans, values_of};
use crate::given::Given;
use anb_algebra::ByteAlgebra;
use anb_base::{Bytes, NoMemory};
use anb_protocol::{Protocol, protocols_hold};
use std::alloc::Global;

/// The initial values of a role in a rehearsal with these values of the names that occur in some role's
/// knowledge: the honest bytes of what the role knows.
pub fn known_values(
    alloc: Global,
    p: &Protocol,
    role: u32,
    atoms: &[Bytes],
) -> Result<Vec<Bytes>, NoMemory>
    requires { role < length p.now.roles }
    ensures { IfOk result (λ values. (codes : List CodeValue) (seed : List ℕ)
        → values.items ≡ init_of (cast p.now codes atoms.now seed) role) }
{
    protocols_hold();
    let _ = p.name();
    let plans = plans(alloc, p)?;
    let known = known_atoms(alloc, &plans)?;
    let given = Given::new(alloc, known, atoms)?;
    let algebra = ByteAlgebra::new(p.formats(), p.suite());
    values_of(alloc, &algebra, &given, &plans[role as usize])
}
