//! Why a text gives no values.
ghost use Rattle.std.specs.Prelude.{◌≡◌};
ghost use Rattle.anb_values.specs.declared.refusal.ValuesNo.TheVariants as refusal;

use anb_base::{NoMemory, Text};
use std::alloc::{AllocError, AllocFailed};

/// Why a text gives no values for some names. Lines are numbered from 1, and each name is a label
/// text.
#[derive(Debug, Drop)]
pub enum ValuesNo {
    /// This line isn't in the grammar, the first such.
    Line(u32),
    /// A line has this label, which isn't asked for.
    Extra(Text),
    /// A second line has this label.
    Twice(Text),
    /// The value of this name has more than [`anb_base::ARRIVAL`] bytes.
    Long(Text),
    /// No line has this name.
    Missing(Text),
    NoMemory,
}

impl From<NoMemory> for ValuesNo {
    ghost from_gives = { λ _ refused. refused ≡ refusal.NoMemory };

    fn from(_error: NoMemory) -> Self {
        ValuesNo::NoMemory
    }
}

impl From<AllocError> for ValuesNo {
    ghost from_gives = { λ _ refused. refused ≡ refusal.NoMemory };

    fn from(_error: AllocError) -> Self {
        ValuesNo::NoMemory
    }
}

impl<T: Drop> From<AllocFailed<T>> for ValuesNo {
    ghost from_gives = { λ _ refused. refused ≡ refusal.NoMemory };

    fn from(_failed: AllocFailed<T>) -> Self {
        ValuesNo::NoMemory
    }
}
