//! Why a text is no branched text.
use anb_base::{NoMemory, Text};
use anb_protocol::ResolveNo;
use anb_read::ReadNo;
use std::alloc::{AllocError, AllocFailed};

/// Why a text is no branched text. Offsets are in bytes; arms are numbered from 1.
#[derive(Debug, Drop)]
pub enum BranchNo {
    /// No token begins at this offset.
    Token(u32),
    /// From the token at this offset on the order of tokens is wrong, or the text ends there and
    /// more is needed.
    Shape(u32),
    /// The stem with this arm is no narration.
    ArmRead(u32, ReadNo),
    /// The stem with this arm is a narration that isn't well formed.
    ArmResolve(u32, ResolveNo),
    /// This arm has other role names than arm 1.
    Roles(u32),
    /// The role that is to choose is none.
    Chooser,
    /// The role can't see that this arm is taken.
    Blind { role: Text, arm: u32 },
    /// No memory was left.
    NoMemory,
}

impl From<NoMemory> for BranchNo {
    ghost use Rattle.anb_outcomes.specs.declared.choices.BranchNo.TheVariants.{NoMemory};
    ghost use Rattle.std.specs.Prelude.{◌≡◌};

    ghost from_gives = { λ _ no. no ≡ NoMemory };

    fn from(_none: NoMemory) -> Self {
        BranchNo::NoMemory
    }
}

impl From<AllocError> for BranchNo {
    ghost use Rattle.anb_outcomes.specs.declared.choices.BranchNo.TheVariants.{NoMemory};
    ghost use Rattle.std.specs.Prelude.{◌≡◌};

    ghost from_gives = { λ _ no. no ≡ NoMemory };

    fn from(_error: AllocError) -> Self {
        BranchNo::NoMemory
    }
}

impl<T: Drop> From<AllocFailed<T>> for BranchNo {
    ghost use Rattle.anb_outcomes.specs.declared.choices.BranchNo.TheVariants.{NoMemory};
    ghost use Rattle.std.specs.Prelude.{◌≡◌};

    ghost from_gives = { λ _ no. no ≡ NoMemory };

    fn from(_failed: AllocFailed<T>) -> Self {
        BranchNo::NoMemory
    }
}
