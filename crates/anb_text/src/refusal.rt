//! Why a text gives no code.
ghost use Rattle.std.specs.Prelude.{◌≡◌};
ghost use Rattle.anb_text.specs.declared.refusal.LoadNo.TheVariants as refusal;

use anb_base::NoMemory;
use anb_code::CodeNo;
use std::alloc::{AllocError, AllocFailed};

/// Why a text gives no code.
#[derive(Clone, Copy, Debug, PartialEq, Eq, Drop)]
pub enum LoadNo {
    /// This line, from 1, is the first that isn't in the grammar at its place. Where a line is missing
    /// or isn't ended, it is one more than the number of lines that are.
    Line(u32),
    /// What the text spells isn't accepted. This is never [`CodeNo::NoMemory`].
    Code(CodeNo),
    NoMemory,
}

impl From<NoMemory> for LoadNo {
    ghost from_gives = { λ _ refused. refused ≡ refusal.NoMemory };

    fn from(_error: NoMemory) -> Self {
        LoadNo::NoMemory
    }
}

impl From<AllocError> for LoadNo {
    ghost from_gives = { λ _ refused. refused ≡ refusal.NoMemory };

    fn from(_error: AllocError) -> Self {
        LoadNo::NoMemory
    }
}

impl<T: Drop> From<AllocFailed<T>> for LoadNo {
    ghost from_gives = { λ _ refused. refused ≡ refusal.NoMemory };

    fn from(_failed: AllocFailed<T>) -> Self {
        LoadNo::NoMemory
    }
}
