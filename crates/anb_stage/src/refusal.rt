//! Why messages weren't relayed.
use anb_base::NoMemory;

/// Why not all messages were relayed, or not all children did well. Actions are numbered from 1, and
/// roles from 0.
#[derive(Clone, Copy, Debug, PartialEq, Eq, Drop)]
pub enum RelayNo {
    /// A call for this role's child failed.
    Fault(u32),
    /// The output of this action's sender ended in the place of its message.
    Ended(u32),
    /// It ended within the message's frame. Both numbers count the frame's four bytes of length:
    /// `need` is 4 while these aren't whole.
    Cut { action: u32, have: u64, need: u64 },
    /// The message has so many bytes, more than an arrival may have.
    Long { action: u32, len: u32 },
    /// This role's child ended with a status other than 0.
    Bad { role: u32, status: u8 },
    /// No memory was left.
    NoMemory,
}

impl From<NoMemory> for RelayNo {
    ghost use Rattle.anb_stage.specs.declared.refusal.RelayNo.TheVariants.{NoMemory};
    ghost use Rattle.std.specs.Prelude.{◌≡◌};

    ghost from_gives = { λ _ no. no ≡ NoMemory };

    fn from(_none: NoMemory) -> Self {
        RelayNo::NoMemory
    }
}
