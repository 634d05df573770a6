//! Stores that can also make two files at once and append to one.

ghost use Rattle.std.specs.Prelude.{◌≡◌, ◌≢◌, ◌≤◌, OnOk, IsErrOf, Err, true, false};
ghost use Rattle.anb_base.specs.Moves.{Rose};
ghost use Rattle.anb_store.specs.Stores.{replaced};
ghost use Rattle.anb_recording.specs.Journals.{IsAbsent, IsEither, IsThere, OthersStay, appended, begun};

use anb_store::{Store, StoreNo};
use std::alloc::Global;

/// Why two files weren't made.
#[derive(Clone, Copy, Debug, PartialEq, Eq, Drop)]
pub enum BeginNo {
    /// The first is there already.
    First,
    /// The second is there already.
    Second,
    Failed,
    NoMemory,
}

/// A store in which files can be made and appended to.
pub trait Journal: Store {
    /// Makes the first file with these bytes, and the second one empty. The folder that they are in is
    /// made where it isn't there. Where one of them is there already nothing is made.
    fn begin(
        &mut self,
        alloc: Global,
        first: &str,
        bytes: &[u8],
        second: &str,
    ) -> Result<(), BeginNo>
        requires differ { first.now ≢ second.now }
        ensures begun { OnOk result
            (Self.state self.new ≡ begun (Self.state self.old) first.now bytes.now second.now) }
        ensures new_first { OnOk result (IsAbsent (Self.state self.old) first.now) }
        ensures new_second { OnOk result (IsAbsent (Self.state self.old) second.now) }
        ensures first_there { IsErrOf result BeginNo.First
            → IsThere (Self.state self.old) first.now }
        ensures second_there { IsErrOf result BeginNo.Second
            → IsThere (Self.state self.old) second.now }
        ensures first_stays { IsErrOf result BeginNo.First
            → Self.state self.new ≡ Self.state self.old }
        ensures second_stays { IsErrOf result BeginNo.Second
            → Self.state self.new ≡ Self.state self.old }
        ensures cause { IsErrOf result BeginNo.Failed
            → Rose (Self.state self.old).faults (Self.state self.new).faults }
        ensures quiet { result ≢ Err BeginNo.Failed
            → (Self.state self.new).faults ≡ (Self.state self.old).faults }
        ensures never_falls { (Self.state self.old).faults ≤ (Self.state self.new).faults }
        ensures others { OthersStay (IsEither first.now second.now)
            (Self.state self.old) (Self.state self.new) };

    /// Whether something of this name is there.
    fn has(&self, name: &str) -> bool
        ensures there { result ≡ true → IsThere (Self.state self.now) name.now }
        ensures absent { result ≡ false → IsAbsent (Self.state self.now) name.now };

    /// Makes the file with these bytes, and the folder that it is in where this isn't there.
    fn make(&mut self, alloc: Global, name: &str, bytes: &[u8]) -> Result<(), StoreNo>
        ensures made { OnOk result
            (Self.state self.new ≡ replaced (Self.state self.old) name.now bytes.now) }
        ensures cause { IsErrOf result StoreNo.Failed
            → Rose (Self.state self.old).faults (Self.state self.new).faults }
        ensures quiet { result ≢ Err StoreNo.Failed
            → (Self.state self.new).faults ≡ (Self.state self.old).faults }
        ensures never_falls { (Self.state self.old).faults ≤ (Self.state self.new).faults }
        ensures others { OthersStay (λ other. other ≡ name.now)
            (Self.state self.old) (Self.state self.new) };

    /// Appends these bytes to the file. One that isn't there is made, or that fails, as on the machine.
    /// Where this fails some of them may stand there.
    fn append(&mut self, alloc: Global, name: &str, bytes: &[u8]) -> Result<(), StoreNo>
        ensures appended { OnOk result
            (Self.state self.new ≡ appended (Self.state self.old) name.now bytes.now) }
        ensures cause { IsErrOf result StoreNo.Failed
            → Rose (Self.state self.old).faults (Self.state self.new).faults }
        ensures quiet { result ≢ Err StoreNo.Failed
            → (Self.state self.new).faults ≡ (Self.state self.old).faults }
        ensures never_falls { (Self.state self.old).faults ≤ (Self.state self.new).faults }
        ensures others { OthersStay (λ other. other ≡ name.now)
            (Self.state self.old) (Self.state self.new) };
}
