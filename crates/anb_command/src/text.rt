//! Writing one text.
ghost use Rattle.std.specs.Prelude.{false, OnOk, OnErr};
ghost use Rattle.anb_base.specs.declared.place.Place.TheVariants as place;
ghost use Rattle.anb_command.specs.OverWire.{DidNotReach, HasReached, OverWire};
ghost use Rattle.anb_command.specs.Writing.{IsWritten};

use crate::reaching::{reach, write_now};
use anb_base::{Failed, Place, Wire};
use anb_status::Status;

/// Reaches the standard streams.
pub fn reach_streams<W: Wire>(wire: &mut W) -> Result<(), Failed>
    ensures reached { OnOk result (HasReached place.Stdio (W.state wire.old) (W.state wire.new)) }
    ensures failed { OnErr result (DidNotReach (W.state wire.old) (W.state wire.new)) }
{
    reach(wire, &Place::Stdio, None)
}

/// Writes the text to the standard streams.
pub fn write_text<W: Wire>(wire: &mut W, text: &[u8]) -> Status
    ensures writes { IsWritten text.now result
        (W.state wire.old).written (W.state wire.new).written }
    ensures wire { OverWire place.Stdio false result (W.state wire.old) (W.state wire.new) }
{
    match reach_streams(wire) {
        Ok(()) => {}
        Err(Failed) => return Status::Unreached(Place::Stdio),
    }
    match write_now(wire, text) {
        Ok(()) => Status::Done,
        Err(Failed) => Status::WriteFault,
    }
}
