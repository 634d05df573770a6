//! A verdict that is written to the standard streams.
ghost use Rattle.std.specs.Prelude.{◌≡◌, [], ◌∷◌, Some, false};
ghost use Rattle.anb_base.specs.declared.place.Place.TheVariants as place;
ghost use Rattle.anb_command.specs.Causes.{HasCause, HasWireCause, NoneRose};
ghost use Rattle.anb_command.specs.Fetches.{Fetches};
ghost use Rattle.anb_command.specs.Phases.{told_phase};
ghost use Rattle.anb_command.specs.Reaches.{Reaches};
ghost use Rattle.anb_command.specs.Reported.{TellsFaults, TellsWireFaults};
ghost use Rattle.anb_command.specs.Touches.{Touches};
ghost use Rattle.anb_check_commands.specs.CheckCommand.{CompletesCheck, DoesCheck};
ghost use Rattle.anb_check_commands.specs.Telling.{IsLast, IsTold};

use crate::verdict::{Verdict, verdict_on};
use anb_base::{NoMemory, Shelf, Text, Wire};
use anb_choice::{arm_texts_are_unique, branch_refusals_are_unique, choices_are_unique};
use anb_command::{NARRATION_LIMIT, Status, fetch_file, write_text};
use anb_read::{narrations_are_unique, none_is_both, refusals_are_unique};
use std::alloc::Global;

/// Says where and why the narration in the file is refused, with what would mend it; or reports what
/// each of its roles does, of a text with a choice in each arm. The text is made in memory before the streams are reached. A text that
/// isn't of the grammar is read once more for each word of the grammar.
pub fn check<F: Shelf, W: Wire>(
    alloc: Global,
    shelf: &mut F,
    wire: &mut W,
    narration: &Text,
) -> Status
    ensures does { DoesCheck narration.now (F.files shelf.old)
        (W.state wire.old) (W.state wire.new) result }
    ensures completes { NoneRose (narration.now ∷ []) (F.faults shelf.old) (F.faults shelf.new)
        (W.state wire.old) (W.state wire.new)
        → CompletesCheck narration.now (F.files shelf.old) result }
    ensures faults { HasCause (narration.now ∷ []) (Some place.Stdio)
        (F.faults shelf.old) (F.faults shelf.new) (W.state wire.old) (W.state wire.new) result }
    ensures reported { TellsFaults (F.faults shelf.old) (F.faults shelf.new)
        (W.state wire.old) (W.state wire.new) result }
    ensures fetches { Fetches (narration.now ∷ [])
        (F.files shelf.old) (F.files shelf.new) (F.faults shelf.old) (F.faults shelf.new) }
    ensures reached { Reaches (Some place.Stdio) (told_phase result)
        (W.state wire.old).reached (W.state wire.new).reached }
    ensures touches { Touches false (told_phase result) (W.state wire.old) (W.state wire.new) }
{
    narrations_are_unique();
    refusals_are_unique();
    none_is_both();
    choices_are_unique();
    branch_refusals_are_unique();
    arm_texts_are_unique();
    let text = match fetch_file(alloc, shelf, narration, NARRATION_LIMIT) {
        Ok(text) => text,
        Err(status) => return status,
    };
    match verdict_on(alloc, narration, text.as_slice()) {
        Ok(verdict) => tell_verdict(wire, verdict),
        Err(NoMemory) => Status::NoMemory,
    }
}

/// Writes what is said to the standard streams.
fn tell_verdict<W: Wire>(wire: &mut W, verdict: Verdict) -> Status
    requires { IsLast verdict.status }
    ensures tells { IsTold verdict.status verdict.said result
        (W.state wire.old).written (W.state wire.new).written }
    ensures cause { HasWireCause (Some place.Stdio)
        (W.state wire.old) (W.state wire.new) result }
    ensures told { TellsWireFaults (W.state wire.old) (W.state wire.new) result }
    ensures reached { Reaches (Some place.Stdio) (told_phase result)
        (W.state wire.old).reached (W.state wire.new).reached }
    ensures touches { Touches false (told_phase result) (W.state wire.old) (W.state wire.new) }
{
    match write_text(wire, verdict.said.as_slice()) {
        Status::Done => verdict.status,
        status => status,
    }
}
