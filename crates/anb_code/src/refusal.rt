//! Why a code isn't accepted.
ghost use Rattle.std.specs.Prelude.{◌≡◌};
ghost use Rattle.anb_code.specs.declared.refusal.CodeNo.TheVariants as refusal;

use anb_base::NoMemory;
use anb_format::FormatNo;
use std::alloc::{AllocError, AllocFailed};

/// Why a code isn't accepted. Formats are numbered from 0, and instructions from 1.
#[derive(Clone, Copy, Debug, PartialEq, Eq, Drop)]
pub enum CodeNo {
    /// A 65th format, which has number 64, or a format with more than 32 fields.
    Many(u32),
    /// An earlier format has this one's name.
    Twice(u32),
    /// [`anb_format::Format::check`] refuses the pieces.
    Shape(u32, FormatNo),
    /// A take stands after another kind of instruction.
    Late(u32),
    /// An earlier take has this one's text.
    TakeTwice(u32),
    /// No format has this name, or it has another number of fields.
    BadFormat(u32),
    /// No earlier instruction writes an operand.
    Unwritten(u32),
    /// The registers that are written aren't the next ones.
    Order(u32),
    /// A register that is written is wider than [`anb_base::WIDE`].
    Wide(u32),
    NoMemory,
}

impl From<NoMemory> for CodeNo {
    ghost from_gives = { λ _ refused. refused ≡ refusal.NoMemory };

    fn from(_error: NoMemory) -> Self {
        CodeNo::NoMemory
    }
}

impl From<AllocError> for CodeNo {
    ghost from_gives = { λ _ refused. refused ≡ refusal.NoMemory };

    fn from(_error: AllocError) -> Self {
        CodeNo::NoMemory
    }
}

impl<T: Drop> From<AllocFailed<T>> for CodeNo {
    ghost from_gives = { λ _ refused. refused ≡ refusal.NoMemory };

    fn from(_failed: AllocFailed<T>) -> Self {
        CodeNo::NoMemory
    }
}
