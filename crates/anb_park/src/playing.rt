//! A session over a wire.

ghost use Rattle.std.specs.Prelude.{◌≡◌, ℕ, List, true};
ghost use Rattle.anb_base.specs.declared.TheConstants.{ARRIVAL};
ghost use Rattle.anb_frame.specs.Cuts.{Tail, CutLeft};
ghost use Rattle.anb_code.specs.CodeValue.{CodeValue};
ghost use Rattle.anb_machine.specs.Machines.{gives, waits};
ghost use Rattle.anb_session.specs.Faults.{TellsEnd};
ghost use Rattle.anb_session.specs.Sessions.{Runs, IsPrompt, waits_at};
ghost use Rattle.anb_park.specs.Records.{Parked};
ghost use Rattle.anb_park.specs.Lives.{Stands, WaitsAgain};

use crate::Live;
use anb_base::{Bytes, NoMemory, Wire};
use anb_machine::Turn;
use anb_session::{PlayEnd, Playable, play_all};
use std::alloc::Global;

/// Runs a session over a wire to its end, from wherever it stands, as `anb_session::play` does.
/// After `Waiting` it can be parked.
pub fn play_on<W: Wire>(alloc: Global, live: &mut Live<'_>, wire: &mut W) -> PlayEnd
    ensures runs { (arrivals : List (List ℕ)) (tail : Tail)
        → CutLeft ARRIVAL (W.left wire.old) arrivals tail
        → Runs (gives live.old.machine) arrivals tail (W.left wire.old) (W.left wire.new)
        (W.written wire.old) (W.written wire.new) result }
    ensures prompt { IsPrompt (gives live.old.machine) (W.state wire.old) (W.state wire.new) }
    ensures waits { waits_at result ≡ true → waits live.new.machine ≡ true }

    // Of a session that waits again, also where the input is untold.
    ensures parked { (e : ℕ) (code : CodeValue) (p : Parked) (sent : List (List ℕ))
        → result ≡ PlayEnd.Waiting e → Stands code p sent live.old
        → WaitsAgain code p (W.left wire.old) live.new }
    ensures faults { TellsEnd (W.state wire.old) (W.state wire.new) result }
{
    play_all(alloc, live, wire)
}

impl Playable for Live<'_> {
    ghost use Rattle.anb_park.specs.Going.{StandsOn, stands_still, stands_further};

    ghost machine = { λ live. live.machine };

    ghost Follows = { StandsOn };

    ghost stays = { stands_still };

    ghost joined = { stands_further };

    fn advance(&mut self, alloc: Global) -> Turn {
        Live::advance(self, alloc)
    }

    fn arrive(&mut self, bytes: Bytes) -> Result<(), NoMemory> {
        Live::arrive(self, bytes)
    }
}
