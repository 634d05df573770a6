//! Why a code is not certified.
ghost use Rattle.std.specs.Prelude.{◌≡◌};
ghost use Rattle.anb_outcomes.specs.declared.certificates.CertifyNo.TheVariants as refusal;

use anb_base::NoMemory;
use std::alloc::{AllocError, AllocFailed};

/// Why a code is not certified. Instructions are numbered from 1, registers from 0.
#[derive(Clone, Copy, Debug, PartialEq, Eq, Drop)]
pub enum CertifyNo {
    /// The suite, the formats or the names differ, which is number 0; or this take, fresh, receive or
    /// send isn't the plan's next; or the instructions end before the plan does, which is one more
    /// than their number.
    Frame(u32),
    /// The demand of this instruction is false in terms.
    Untrue(u32),
    /// This instruction sends another term than the message.
    Sent(u32),
    /// Before this instruction, a send or a receive or one past the last, too little is compared: the
    /// register is the first that isn't tied as the rules want.
    Loose { at: u32, register: u32 },
    NoMemory,
}

impl From<NoMemory> for CertifyNo {
    ghost from_gives = { λ _ refused. refused ≡ refusal.NoMemory };

    fn from(_error: NoMemory) -> Self {
        CertifyNo::NoMemory
    }
}

impl From<AllocError> for CertifyNo {
    ghost from_gives = { λ _ refused. refused ≡ refusal.NoMemory };

    fn from(_error: AllocError) -> Self {
        CertifyNo::NoMemory
    }
}

impl<T: Drop> From<AllocFailed<T>> for CertifyNo {
    ghost from_gives = { λ _ refused. refused ≡ refusal.NoMemory };

    fn from(_failed: AllocFailed<T>) -> Self {
        CertifyNo::NoMemory
    }
}
