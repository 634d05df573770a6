//! Why a role has no code.
ghost use Rattle.std.specs.Prelude.{◌≡◌};
ghost use Rattle.anb_compile.specs.declared.refusal.CompileNo.TheVariants as refusal;

use anb_base::NoMemory;
use std::alloc::{AllocError, AllocFailed};

/// Why a role has no code.
#[derive(Clone, Copy, Debug, PartialEq, Eq, Drop)]
pub enum CompileNo {
    /// The role, by its number, has to send the message of this action, numbered from 1, and can't
    /// compose it from what it has by then.
    CannotSend { action: u32, role: u32 },
    NoMemory,
}

impl From<NoMemory> for CompileNo {
    ghost from_gives = { λ _ refused. refused ≡ refusal.NoMemory };

    fn from(_error: NoMemory) -> Self {
        CompileNo::NoMemory
    }
}

impl From<AllocError> for CompileNo {
    ghost from_gives = { λ _ refused. refused ≡ refusal.NoMemory };

    fn from(_error: AllocError) -> Self {
        CompileNo::NoMemory
    }
}

impl<T: Drop> From<AllocFailed<T>> for CompileNo {
    ghost from_gives = { λ _ refused. refused ≡ refusal.NoMemory };

    fn from(_failed: AllocFailed<T>) -> Self {
        CompileNo::NoMemory
    }
}
