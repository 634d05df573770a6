//! Files that a program keeps, by name.

ghost use Rattle.std.specs.Prelude.{◌≡◌, OnOk, IsErrOf};
ghost use Rattle.anb_store.specs.Stores.{HasFailed, StoreState, replaced};

use anb_base::NoMemory;
use std::alloc::Global;

/// Why a file wasn't kept.
#[derive(Clone, Copy, Debug, PartialEq, Eq, Drop)]
pub enum StoreNo {
    Failed,
    NoMemory,
}

impl From<NoMemory> for StoreNo {
    ghost use Rattle.std.specs.Prelude.{◌≡◌};
    ghost use Rattle.anb_store.specs.declared.store.StoreNo.TheVariants.{NoMemory};

    ghost from_gives = { λ _ no. no ≡ NoMemory };

    fn from(_none: NoMemory) -> Self {
        StoreNo::NoMemory
    }
}

/// Files that a program keeps, by name.
pub trait Store {
    /// All that the store tells.
    ghost state: { Self → StoreState };

    /// Replaces the file of this name by one of these bytes, or makes it where there is none. Where
    /// the program ends at any moment of this call, the old file is there or the new one.
    fn replace(&mut self, alloc: Global, name: &str, bytes: &[u8]) -> Result<(), StoreNo>
        ensures replaced { OnOk result
            (state self.new ≡ replaced (state self.old) name.now bytes.now) }
        ensures failed { IsErrOf result StoreNo.Failed
            → HasFailed (state self.old) (state self.new) }
        ensures wanting { IsErrOf result StoreNo.NoMemory → state self.new ≡ state self.old };
}
