//! The run of a role file's code over a wire, which is recorded.
ghost use Rattle.std.specs.Prelude.{◌≡◌, ◌≢◌, [], ◌∷◌, Some, true};
ghost use Rattle.anb_command.specs.Causes.{DidNotRise, HasCause, NoneRose};
ghost use Rattle.anb_words.specs.Commands.{place_by};
ghost use Rattle.anb_command.specs.Fetches.{Fetches};
ghost use Rattle.anb_command.specs.Reaches.{Reaches};
ghost use Rattle.anb_command.specs.Reported.{TellsFaults};
ghost use Rattle.anb_command.specs.Touches.{Touches};
ghost use Rattle.anb_status.specs.Statuses.{before_reach, phase_of};
ghost use Rattle.anb_status.specs.declared.status.Status.TheVariants as status;
ghost use Rattle.anb_role_commands.specs.EnactCommand.{CompletesEnact, DoesEnact};
ghost use Rattle.anb_recorded.specs.Outcomes.{HasRecordCause, IsMissing, TakesNoneOver, recorded_phase};
ghost use Rattle.anb_record_commands.specs.Outcomes.{IsOfFolder};
ghost use Rattle.anb_record_commands.specs.EnactInto.{CompletesEnactInto, DoesEnactInto, RecordsEnact};
ghost use Rattle.anb_recorded.specs.declared.ended.Missing.TheVariants as missing;

use crate::over::record_over;
use anb_base::{Shelf, Text, Wire};
use anb_command::{EnactWords, Status};
use anb_recorded::{Ended, Missing};
use anb_recording::Journal;
use anb_role_commands::load_prepared;
use anb_text::{codes_are_unique, faults_are_unique, files_are_unique, none_is_both};
use anb_values::one_fit;
use std::alloc::Global;

/// Runs the code over the wire as `enact` does, and records it in the folder.
pub fn enact_into<F: Shelf, W: Wire, J: Journal>(
    alloc: Global,
    shelf: &mut F,
    wire: &mut W,
    journal: &mut J,
    words: EnactWords,
    folder: &Text,
    host_seed: Option<[u8; 32]>,
) -> Status
    ensures does { DoesEnactInto words.entry.code.now words.entry.values.now
        (F.files shelf.old) host_seed (W.state wire.old) (W.state wire.new)
        folder.now (J.state journal.old) (J.state journal.new) result }
    ensures completes { NoneRose (words.entry.code.now ∷ words.entry.values.now ∷ [])
        (F.faults shelf.old) (F.faults shelf.new) (W.state wire.old) (W.state wire.new)
        → DidNotRise (J.state journal.old).faults (J.state journal.new).faults
        → CompletesEnactInto words.entry.code.now words.entry.values.now
        (F.files shelf.old) host_seed (W.state wire.old) (W.state wire.new)
        folder.now (J.state journal.old) (J.state journal.new) result }
    ensures faults { HasRecordCause (IsOfFolder folder.now) (J.state journal.old) (J.state journal.new)
        (words.entry.code.now ∷ words.entry.values.now ∷ [])
        (Some (place_by words.entry.endpoint)) (F.faults shelf.old) (F.faults shelf.new)
        (W.state wire.old) (W.state wire.new) result }
    ensures reported { TellsFaults (F.faults shelf.old) (F.faults shelf.new)
        (W.state wire.old) (W.state wire.new) result }
    ensures fetches { Fetches (words.entry.code.now ∷ words.entry.values.now ∷ [])
        (F.files shelf.old) (F.files shelf.new) (F.faults shelf.old) (F.faults shelf.new) }
    ensures reached { Reaches (Some (place_by words.entry.endpoint)) (recorded_phase result)
        (W.state wire.old).reached (W.state wire.new).reached }
    ensures touches { Touches true (recorded_phase result) (W.state wire.old) (W.state wire.new) }
{
    enact_recorded(alloc, shelf, wire, journal, words, folder, host_seed).told()
}

/// Runs the code, and tells how that ended and what is missing of the recording.
fn enact_recorded<F: Shelf, W: Wire, J: Journal>(
    alloc: Global,
    shelf: &mut F,
    wire: &mut W,
    journal: &mut J,
    words: EnactWords,
    folder: &Text,
    host_seed: Option<[u8; 32]>,
) -> Ended
    ensures does { DoesEnact words.entry.code.now words.entry.values.now
        (F.files shelf.old) host_seed (W.state wire.old) (W.state wire.new) result.status }
    ensures completes { NoneRose (words.entry.code.now ∷ words.entry.values.now ∷ [])
        (F.faults shelf.old) (F.faults shelf.new) (W.state wire.old) (W.state wire.new)
        → CompletesEnact words.entry.code.now words.entry.values.now
        (F.files shelf.old) host_seed (W.state wire.old) (W.state wire.new) result.status }
    ensures why_missed { IsMissing (IsOfFolder folder.now) (J.state journal.old) (J.state journal.new)
        (W.state wire.old) (W.state wire.new) result.status result.missing }
    ensures fresh { TakesNoneOver (IsOfFolder folder.now) (J.state journal.old)
        (J.state journal.new) (W.state wire.old) (W.state wire.new) }
    ensures early { phase_of result.status ≡ before_reach
        → J.state journal.new ≡ J.state journal.old }
    ensures recorded { (phase_of result.status ≡ before_reach → ⊥)
        → result.status ≢ status.NoMemory → result.missing ≡ missing.Nothing
        → RecordsEnact words.entry.code.now words.entry.values.now
        (F.files shelf.old) host_seed (W.state wire.old) (W.state wire.new)
        folder.now (J.state journal.old) (J.state journal.new) result.status }
    ensures faults { HasCause (words.entry.code.now ∷ words.entry.values.now ∷ [])
        (Some (place_by words.entry.endpoint)) (F.faults shelf.old) (F.faults shelf.new)
        (W.state wire.old) (W.state wire.new) result.status }
    ensures reported { TellsFaults (F.faults shelf.old) (F.faults shelf.new)
        (W.state wire.old) (W.state wire.new) result.status }
    ensures fetches { Fetches (words.entry.code.now ∷ words.entry.values.now ∷ [])
        (F.files shelf.old) (F.files shelf.new) (F.faults shelf.old) (F.faults shelf.new) }
    ensures reached { Reaches (Some (place_by words.entry.endpoint)) (phase_of result.status)
        (W.state wire.old).reached (W.state wire.new).reached }
    ensures touches { Touches true (phase_of result.status)
        (W.state wire.old) (W.state wire.new) }
{
    files_are_unique();
    codes_are_unique();
    none_is_both();
    faults_are_unique();
    one_fit();
    match load_prepared(alloc, shelf, words, host_seed) {
        Ok(prepared) => record_over(alloc, wire, journal, words.endpoint, &prepared, folder),
        Err(status) => Ended {
            status,
            missing: Missing::Nothing,
        },
    }
}
