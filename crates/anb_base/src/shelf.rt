//! Files by name.

ghost use Rattle.std.specs.Prelude.{◌≡◌, ◌≢◌, ◌≤◌, ◌<◌, ℕ, List, length, Option, Some, None, IfOk, IfSome, IsErrOf};
ghost use Rattle.anb_base.specs.Moves.{Rose};
ghost use Rattle.anb_base.specs.Files.{Holds, HoldsLonger};

use crate::{Bytes, NoMemory};
use std::alloc::Global;

/// Why a file wasn't fetched.
#[derive(Clone, Copy, Debug, PartialEq, Eq, Drop)]
pub enum ShelfNo {
    Failed,
    Long,
    NoMemory,
}

impl From<NoMemory> for ShelfNo {
    ghost use Rattle.anb_base.specs.declared.shelf.ShelfNo.TheVariants.{NoMemory};
    ghost use Rattle.std.specs.Prelude.{◌≡◌};

    ghost from_gives = { λ _ no. no ≡ NoMemory };

    fn from(_none: NoMemory) -> Self {
        ShelfNo::NoMemory
    }
}

/// Files by name.
pub trait Shelf {
    /// The content of each name that has one, where the files are told.
    ghost files: { Self → Option (List ℕ → Option (List ℕ)) };

    /// How often fetching each name has failed, up to the last value of a `u64`.
    ghost faults: { Self → List ℕ → ℕ };

    /// The whole file of this name, where it has at most `limit` bytes.
    fn fetch(&mut self, alloc: Global, name: &str, limit: u32) -> Result<Bytes, ShelfNo>
        ensures content { IfOk result (λ bytes. Holds (files self.old) name.now bytes) }
        ensures within { IfOk result (λ bytes. length bytes ≤ limit) }
        ensures long { IsErrOf result ShelfNo.Long
            → HoldsLonger (files self.old) name.now limit }
        ensures cause { IsErrOf result ShelfNo.Failed
            → Rose (faults self.old name.now) (faults self.new name.now) }
        ensures quiet { (IsErrOf result ShelfNo.Failed → ⊥)
            → (each : List ℕ) → faults self.new each ≡ faults self.old each }
        ensures never_falls { (each : List ℕ) → faults self.old each ≤ faults self.new each }
        ensures files { files self.new ≡ files self.old }
        ensures others { IfSome (files self.old) (λ _. (other : List ℕ) → other ≢ name.now
            → faults self.new other ≡ faults self.old other) };
}
