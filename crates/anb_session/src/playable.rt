//! What can be played over a wire.

ghost use Rattle.std.specs.Prelude.{◌≡◌, ◌≢◌, ◌≤◌, ◌<◌, ℕ, List, [], ◌∷◌, ◌++◌, length, IsTrue, OnOk};
ghost use Rattle.anb_base.specs.declared.TheConstants.{ARRIVAL, WIDE};
ghost use Rattle.anb_machine.specs.Machines.{MachineValue, gives, left, waits, Turned};
ghost use Rattle.anb_session.specs.Standing.{IsNext};

use anb_base::{Bytes, NoMemory};
use anb_machine::{Machine, Turn};
use std::alloc::Global;

/// What can be played over a wire: a machine, or what keeps more beside one.
pub trait Playable {
    /// The machine that goes on in it.
    ghost machine: { Self → MachineValue };

    /// What is true of it before and after these arrivals.
    ghost Follows: { Self → List (List ℕ) → Self → Type 0 };

    /// What comes next.
    fn advance(&mut self, alloc: Global) -> Turn
        ensures turned { Turned (machine self.old) (machine self.new) result }
        ensures narrow { (b : List ℕ) → result ≡ Turn.Message b → length b ≤ WIDE }
        ensures followed { result ≢ Turn.NoMemory → Follows self.old [] self.new };

    /// Takes the arrival that it wants.
    fn arrive(&mut self, bytes: Bytes) -> Result<(), NoMemory>
        requires waits { IsTrue (waits (machine self.old)) }
        requires next { IsNext (machine self.old) }
        requires short { length bytes ≤ ARRIVAL }
        ensures gives { OnOk result ((arrivals : List (List ℕ))
            → gives (machine self.old) (bytes ∷ arrivals) ≡ gives (machine self.new) arrivals) }
        ensures further { OnOk result (left (machine self.new) < left (machine self.old)) }
        ensures followed { OnOk result (Follows self.old (bytes ∷ []) self.new) };

    /// Without arrivals all that is true stays so.
    ghost stays: { (x : Self) → Follows x [] x };

    /// What is true after some arrivals, and then after more, is true after all of them.
    ghost joined: { (x y z : Self) (some more : List (List ℕ))
        → Follows x some y → Follows y more z → Follows x (some ++ more) z };
}

impl Playable for Machine<'_> {
    ghost machine = { λ machine. machine };

    ghost Follows = { λ x arrivals y. Unit {0} };

    ghost stays = { λ x. tt };

    ghost joined = { λ x y z some more one two. tt };

    fn advance(&mut self, alloc: Global) -> Turn {
        Machine::advance(self, alloc)
    }

    fn arrive(&mut self, bytes: Bytes) -> Result<(), NoMemory> {
        Machine::arrive(self, bytes);
        Ok(())
    }
}
