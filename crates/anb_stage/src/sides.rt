//! One role of a spawner, lent as a source or as a sink.

ghost use Rattle.std.specs.Prelude.{◌≡◌, ◌<◌, ◌≤◌, ℕ};
ghost use Rattle.anb_stage.specs.Sides.{beside_input, beside_output};
ghost use Rattle.anb_stage.specs.declared.TheConstants.{ROLES};

use crate::Spawner;
use anb_base::{Failed, Sink, Source};

/// The output of a role's child, as a source. Beside it stands what is written to all children.
pub(crate) struct Output<'s, P: Spawner> {
    pub(crate) spawner: &'s mut P,
    pub(crate) role: u32,
    ghost within: { role < ROLES },
    ghost running: { (P.child spawner.now role).phase ≡ 1 },
}

impl<P: Spawner> Source for Output<'_, P> {
    ghost left = { λ output. (P.child output.spawner.now output.role).left };

    ghost taken_at = { λ output. (P.child output.spawner.now output.role).taken_at };

    ghost faults = { λ output. (P.child output.spawner.now output.role).faults };

    ghost kept = { λ output. beside_output output.spawner.ghost_name output.role
        (P.child output.spawner.now) };

    fn read(&mut self, buf: &mut [u8]) -> Result<usize, Failed> {
        self.spawner.read(self.role, buf)
    }
}

/// The input of a role's child, as a sink.
pub(crate) struct Input<'s, P: Spawner> {
    pub(crate) spawner: &'s mut P,
    pub(crate) role: u32,
    ghost within: { role < ROLES },
    ghost running: { (P.child spawner.now role).phase ≡ 1 },
}

impl<P: Spawner> Sink for Input<'_, P> {
    ghost written = { λ input. (P.child input.spawner.now input.role).written };

    ghost faults = { λ input. (P.child input.spawner.now input.role).faults };

    ghost kept = { λ input. beside_input input.spawner.ghost_name input.role
        (P.child input.spawner.now) };

    fn write(&mut self, piece: &[u8]) -> Result<usize, Failed> {
        self.spawner.write(self.role, piece)
    }
}
