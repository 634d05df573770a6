//! Reaching the place of the words, and writing there.
ghost use Rattle.std.specs.Prelude.{◌≡◌, OnOk, OnErr, IfErr};
ghost use Rattle.anb_base.specs.Moves.{Rose, Put, PutPrefix};
ghost use Rattle.anb_base.specs.declared.place.Place.TheVariants as place;
ghost use Rattle.anb_command.specs.OverWire.{DidNotReach, HasReached, OnlyWrites};
ghost use Rattle.anb_status.specs.declared.status.Status.TheVariants.{Unreached};

use anb_base::{Failed, Place, Wire, write_whole};
use anb_status::Status;

/// Reaches the place. Reaching it, and each wait from then on, may take so many seconds.
pub fn reach<W: Wire>(wire: &mut W, place: &Place, timeout: Option<u32>) -> Result<(), Failed>
    ensures reached { OnOk result (HasReached place.now (W.state wire.old) (W.state wire.new)) }
    ensures failed { OnErr result (DidNotReach (W.state wire.old) (W.state wire.new)) }
{
    if let Some(seconds) = timeout {
        wire.wait_at_most(seconds);
    }
    reach_now(wire, place)
}

/// Reaches the standard streams.
pub fn reach_stdio<W: Wire>(wire: &mut W) -> Result<(), Status>
    ensures reached { OnOk result (HasReached place.Stdio (W.state wire.old) (W.state wire.new)) }
    ensures failed { IfErr result (λ status. (status ≡ Unreached place.Stdio)
        × DidNotReach (W.state wire.old) (W.state wire.new)) }
{
    match reach(wire, &Place::Stdio, None) {
        Ok(()) => Ok(()),
        Err(Failed) => Err(Status::Unreached(Place::Stdio)),
    }
}

fn reach_now<W: Wire>(wire: &mut W, place: &Place) -> Result<(), Failed>
    ensures reached { OnOk result (HasReached place.now (W.state wire.old) (W.state wire.new)) }
    ensures failed { OnErr result (DidNotReach (W.state wire.old) (W.state wire.new)) }
{
    wire.reach(place)
}

/// Writes the text to a wire that was reached.
pub(crate) fn write_now<W: Wire>(wire: &mut W, text: &[u8]) -> Result<(), Failed>
    ensures put { OnOk result
        (Put (W.state wire.old).written (W.state wire.new).written text.now) }
    ensures failed { OnErr result
        (PutPrefix (W.state wire.old).written (W.state wire.new).written text.now) }
    ensures cause { OnErr result
        (Rose (W.state wire.old).write_faults (W.state wire.new).write_faults) }
    ensures quiet { OnOk result
        ((W.state wire.new).write_faults ≡ (W.state wire.old).write_faults) }
    ensures only { OnlyWrites (W.state wire.old) (W.state wire.new) }
{
    write_whole(wire, text)
}
