//! The phases of children, and counts of faults.

ghost use Rattle.std.specs.Prelude.{◌≡◌, ◌<◌, ◌≤◌, ℕ, false, get_or};
ghost use Rattle.anb_base.specs.Moves.{Rose};
ghost use Rattle.anb_stage.specs.declared.TheConstants.{ROLES};
ghost use Rattle.anb_processes.specs.Children.{OthersAreSame};

use anb_base::Failed;
use anb_stage::ROLES;
use std::marker::Model;

/// How many roles there are room for.
const SLOTS: usize = ROLES as usize;

/// The phase of each role's child, how often a call for it has failed, and whether the last one was
/// that it was silent.
#[derive(Drop)]
pub(crate) struct Counts {
    phases: [u8; SLOTS],
    faults: [u64; SLOTS],
    silent: [bool; SLOTS],
}

impl Model for Counts {
    ghost use Rattle.anb_processes.specs.Children.{Children};

    ghost Value = { Children };

    ghost view = { λ c. record { phases = c.phases; faults = c.faults; silent = c.silent } };
}

impl Counts {
    pub(crate) fn new() -> Self
        ensures { (role : ℕ) → get_or result.phases role 0 ≡ 0 }
    {
        Counts {
            phases: [0; SLOTS],
            faults: [0; SLOTS],
            silent: [false; SLOTS],
        }
    }

    /// A role's child comes into this phase.
    pub(crate) fn enter(&mut self, role: u32, phase: u8)
        requires { role < ROLES }
        ensures entered { get_or self.new.phases role 0 ≡ phase }
        ensures faults { self.new.faults ≡ self.old.faults }
        ensures silent { self.new.silent ≡ self.old.silent }
        ensures others { OthersAreSame role self.old self.new }
    {
        self.phases[role as usize] = phase;
    }

    /// Counts a call for a role that failed, since its child was silent or not.
    pub(crate) fn fail(&mut self, role: u32, silent: bool) -> Failed
        requires { role < ROLES }
        ensures phases { self.new.phases ≡ self.old.phases }
        ensures silent { get_or self.new.silent role false ≡ silent }
        ensures rose { Rose (get_or self.old.faults role 0) (get_or self.new.faults role 0) }
        ensures never_falls { get_or self.old.faults role 0 ≤ get_or self.new.faults role 0 }
        ensures others { OthersAreSame role self.old self.new }
    {
        let count = self.faults[role as usize].saturating_add(1);
        self.faults[role as usize] = count;
        self.silent[role as usize] = silent;
        Failed
    }

    /// Whether the last call for a role that failed was that its child was silent.
    pub(crate) fn was_silent(&self, role: u32) -> bool
        requires { role < ROLES }
        ensures { result ≡ get_or self.now.silent role false }
    {
        self.silent[role as usize]
    }
}
