//! What is wrong with a values file, written to the standard streams.
ghost use Rattle.std.specs.Prelude.{◌≡◌, [], ◌∷◌, Some, false};
ghost use Rattle.anb_base.specs.declared.place.Place.TheVariants as place;
ghost use Rattle.anb_command.specs.Causes.{HasCause, HasWireCause, NoneRose};
ghost use Rattle.anb_command.specs.Fetches.{Fetches};
ghost use Rattle.anb_command.specs.Phases.{values_phase};
ghost use Rattle.anb_command.specs.Reaches.{Reaches};
ghost use Rattle.anb_command.specs.Reported.{TellsFaults, TellsWireFaults};
ghost use Rattle.anb_command.specs.Touches.{Touches};
ghost use Rattle.anb_check_commands.specs.CheckValues.{CompletesCheckValues, DoesCheckValues};
ghost use Rattle.anb_check_commands.specs.Telling.{IsLastOfValues, IsTold};

use crate::asking::{asked_in_files, verdict_on_values};
use crate::verdict::Verdict;
use anb_base::{NoMemory, Shelf, Text, Wire};
use anb_command::{Status, write_text};
use anb_read::{narrations_are_unique, none_is_both, refusals_are_unique};
use anb_values::one_fit;
use std::alloc::Global;

/// Says what is wrong in the values file with which the role is to be played, and ends with the status
/// that `play` has for it. The text is made in memory before the streams are reached.
pub fn check_values<F: Shelf, W: Wire>(
    alloc: Global,
    shelf: &mut F,
    wire: &mut W,
    narration: &Text,
    name: &Text,
    values: &Text,
) -> Status
    ensures does { DoesCheckValues narration.now name.now values.now (F.files shelf.old)
        (W.state wire.old) (W.state wire.new) result }
    ensures completes { NoneRose (narration.now ∷ values.now ∷ [])
        (F.faults shelf.old) (F.faults shelf.new) (W.state wire.old) (W.state wire.new)
        → CompletesCheckValues narration.now name.now values.now (F.files shelf.old) result }
    ensures faults { HasCause (narration.now ∷ values.now ∷ []) (Some place.Stdio)
        (F.faults shelf.old) (F.faults shelf.new) (W.state wire.old) (W.state wire.new) result }
    ensures reported { TellsFaults (F.faults shelf.old) (F.faults shelf.new)
        (W.state wire.old) (W.state wire.new) result }
    ensures fetches { Fetches (narration.now ∷ values.now ∷ [])
        (F.files shelf.old) (F.files shelf.new) (F.faults shelf.old) (F.faults shelf.new) }
    ensures reached { Reaches (Some place.Stdio) (values_phase result)
        (W.state wire.old).reached (W.state wire.new).reached }
    ensures touches { Touches false (values_phase result)
        (W.state wire.old) (W.state wire.new) }
{
    narrations_are_unique();
    refusals_are_unique();
    none_is_both();
    one_fit();
    let asked = match asked_in_files(alloc, shelf, narration, name, values) {
        Ok(asked) => asked,
        Err(status) => return status,
    };
    match verdict_on_values(alloc, values, &asked) {
        Ok(verdict) => tell_values(wire, verdict),
        Err(NoMemory) => Status::NoMemory,
    }
}

/// Writes what is said of values to the standard streams.
fn tell_values<W: Wire>(wire: &mut W, verdict: Verdict) -> Status
    requires { IsLastOfValues verdict.status }
    ensures tells { IsTold verdict.status verdict.said result
        (W.state wire.old).written (W.state wire.new).written }
    ensures cause { HasWireCause (Some place.Stdio)
        (W.state wire.old) (W.state wire.new) result }
    ensures told { TellsWireFaults (W.state wire.old) (W.state wire.new) result }
    ensures reached { Reaches (Some place.Stdio) (values_phase result)
        (W.state wire.old).reached (W.state wire.new).reached }
    ensures touches { Touches false (values_phase result)
        (W.state wire.old) (W.state wire.new) }
{
    match write_text(wire, verdict.said.as_slice()) {
        Status::Done => verdict.status,
        status => status,
    }
}
