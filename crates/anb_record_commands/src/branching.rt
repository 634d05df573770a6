//! A role of a branched text over a wire, which is recorded.
ghost use Rattle.std.specs.Prelude.{◌≡◌, ◌≢◌, ◌⊎◌, [], ◌∷◌, IfOk, Some, true};
ghost use Rattle.anb_base.specs.declared.place.Place.{Place};
ghost use Rattle.anb_session.specs.Sessions.{IsPrompt};
ghost use Rattle.anb_choice.specs.Views.{branched_of};
ghost use Rattle.anb_branch.specs.Taken.{PlaysTaken, run_taken};
ghost use Rattle.anb_command.specs.Causes.{DidNotRise, HasCause, HasWireCause, NoneRose};
ghost use Rattle.anb_words.specs.Commands.{place_by};
ghost use Rattle.anb_command.specs.Fetches.{Fetches};
ghost use Rattle.anb_command.specs.OverWire.{OverWire, StaysReached};
ghost use Rattle.anb_command.specs.Prepared.{RunsOn};
ghost use Rattle.anb_command.specs.Reaches.{Reaches};
ghost use Rattle.anb_command.specs.Reported.{TellsFaults, TellsWireFaults};
ghost use Rattle.anb_command.specs.Touches.{Touches};
ghost use Rattle.anb_status.specs.Statuses.{after_reach, before_reach, phase_of};
ghost use Rattle.anb_status.specs.declared.status.Status.TheVariants as status;
ghost use Rattle.anb_values_text.specs.Texts.{IsTextOf};
ghost use Rattle.anb_branch_commands.specs.Arming.{IsArmed};
ghost use Rattle.anb_branch_commands.specs.BranchCommand.{CompletesBranch, DoesBranch};
ghost use Rattle.anb_branch_commands.specs.BranchJobs.{known_in};
ghost use Rattle.anb_record_commands.specs.BranchInto.{CompletesBranchInto, DoesBranchInto, HasArmTranscript, RecordsBranch};
ghost use Rattle.anb_recorded.specs.Outcomes.{HasRecordCause, IsMissing, TakesNoneOver, recorded_phase};
ghost use Rattle.anb_record_commands.specs.Outcomes.{IsOfFolder};
ghost use Rattle.anb_record_commands.specs.Running.{MissesLines, RecordsArm};
ghost use Rattle.anb_recorded.specs.declared.ended.Missing.TheVariants as missing;

use crate::opening::{Opened, open};
use crate::over::{are_labels, missing_of};
use anb_base::{ARRIVAL, Bytes, Failed, NoMemory, Shelf, Text, Wire};
use anb_branch::{branch_record, fitting_arms_play};
use anb_branch_commands::{Prepared, branch_over, prepare, texts_known};
use anb_choice::{branch_refusals_are_unique, choices_are_unique, no_choice_is_refused};
use anb_command::{BranchWords, Status, reach, status_of};
use anb_frame::one_cut;
use anb_recorded::{Ended, Missing};
use anb_recording::Journal;
use anb_values::one_fit;
use anb_values_text::values_text;
use std::alloc::Global;

/// Plays the role over the wire as `branch` does, and records it in the folder.
pub fn branch_into<F: Shelf, W: Wire, J: Journal>(
    alloc: Global,
    shelf: &mut F,
    wire: &mut W,
    journal: &mut J,
    words: BranchWords,
    folder: &Text,
    host_seed: Option<[u8; 32]>,
) -> Status
    ensures does { DoesBranchInto words.entry.play.narration.now words.entry.play.name.now
        words.entry.play.values.now words.entry.told (F.files shelf.old) host_seed
        (W.state wire.old) (W.state wire.new)
        folder.now (J.state journal.old) (J.state journal.new) result }
    ensures completes { NoneRose (words.entry.play.narration.now ∷ words.entry.play.values.now ∷ [])
        (F.faults shelf.old) (F.faults shelf.new) (W.state wire.old) (W.state wire.new)
        → DidNotRise (J.state journal.old).faults (J.state journal.new).faults
        → CompletesBranchInto words.entry.play.narration.now words.entry.play.name.now
        words.entry.play.values.now words.entry.told (F.files shelf.old) host_seed
        (W.state wire.old) (W.state wire.new)
        folder.now (J.state journal.old) (J.state journal.new) result }
    ensures faults { HasRecordCause (IsOfFolder folder.now) (J.state journal.old) (J.state journal.new)
        (words.entry.play.narration.now ∷ words.entry.play.values.now ∷ [])
        (Some (place_by words.entry.play.endpoint)) (F.faults shelf.old) (F.faults shelf.new)
        (W.state wire.old) (W.state wire.new) result }
    ensures reported { TellsFaults (F.faults shelf.old) (F.faults shelf.new)
        (W.state wire.old) (W.state wire.new) result }
    ensures fetches { Fetches (words.entry.play.narration.now ∷ words.entry.play.values.now ∷ [])
        (F.files shelf.old) (F.files shelf.new) (F.faults shelf.old) (F.faults shelf.new) }
    ensures reached { Reaches (Some (place_by words.entry.play.endpoint)) (recorded_phase result)
        (W.state wire.old).reached (W.state wire.new).reached }
    ensures touches { Touches true (recorded_phase result) (W.state wire.old) (W.state wire.new) }
{
    branch_recorded(alloc, shelf, wire, journal, words, folder, host_seed).told()
}

/// Plays the role, and tells how that ended and what is missing of the recording.
fn branch_recorded<F: Shelf, W: Wire, J: Journal>(
    alloc: Global,
    shelf: &mut F,
    wire: &mut W,
    journal: &mut J,
    words: BranchWords,
    folder: &Text,
    host_seed: Option<[u8; 32]>,
) -> Ended
    ensures does { DoesBranch words.entry.play.narration.now words.entry.play.name.now
        words.entry.play.values.now words.entry.told (F.files shelf.old) host_seed
        (W.state wire.old) (W.state wire.new) result.status }
    ensures completes { NoneRose (words.entry.play.narration.now ∷ words.entry.play.values.now ∷ [])
        (F.faults shelf.old) (F.faults shelf.new) (W.state wire.old) (W.state wire.new)
        → CompletesBranch words.entry.play.narration.now words.entry.play.name.now
        words.entry.play.values.now words.entry.told (F.files shelf.old) host_seed
        (W.state wire.old) (W.state wire.new) result.status }
    ensures why_missed { IsMissing (IsOfFolder folder.now) (J.state journal.old) (J.state journal.new)
        (W.state wire.old) (W.state wire.new) result.status result.missing }
    ensures fresh { TakesNoneOver (IsOfFolder folder.now) (J.state journal.old)
        (J.state journal.new) (W.state wire.old) (W.state wire.new) }
    ensures early { phase_of result.status ≡ before_reach
        → J.state journal.new ≡ J.state journal.old }
    ensures recorded { (phase_of result.status ≡ before_reach → ⊥)
        → result.status ≢ status.NoMemory → result.missing ≡ missing.Nothing
        → RecordsBranch words.entry.play.narration.now words.entry.play.name.now
        words.entry.play.values.now words.entry.told (F.files shelf.old) host_seed
        (W.state wire.old) (W.state wire.new)
        folder.now (J.state journal.old) (J.state journal.new) result.status }
    ensures faults { HasCause (words.entry.play.narration.now ∷ words.entry.play.values.now ∷ [])
        (Some (place_by words.entry.play.endpoint)) (F.faults shelf.old) (F.faults shelf.new)
        (W.state wire.old) (W.state wire.new) result.status }
    ensures reported { TellsFaults (F.faults shelf.old) (F.faults shelf.new)
        (W.state wire.old) (W.state wire.new) result.status }
    ensures fetches { Fetches (words.entry.play.narration.now ∷ words.entry.play.values.now ∷ [])
        (F.files shelf.old) (F.files shelf.new) (F.faults shelf.old) (F.faults shelf.new) }
    ensures reached { Reaches (Some (place_by words.entry.play.endpoint)) (phase_of result.status)
        (W.state wire.old).reached (W.state wire.new).reached }
    ensures touches { Touches true (phase_of result.status)
        (W.state wire.old) (W.state wire.new) }
{
    choices_are_unique();
    branch_refusals_are_unique();
    no_choice_is_refused();
    one_fit();
    one_cut(ARRIVAL);
    match prepare(alloc, shelf, words, host_seed) {
        Ok(prepared) => record_arms(alloc, wire, journal, words, &prepared, folder),
        Err(status) => Ended {
            status,
            missing: Missing::Nothing,
        },
    }
}

/// Plays the role over the wire as `branch_over` does, and records it in the folder. A folder that has
/// the files already is refused before the wire is touched.
fn record_arms<W: Wire, J: Journal>(
    alloc: Global,
    wire: &mut W,
    journal: &mut J,
    words: BranchWords,
    prepared: &Prepared,
    folder: &Text,
) -> Ended
    requires { IsArmed (branched_of prepared.now.branched) words.play.name.now
        words.told prepared.now.codes.items prepared.now.means.initial }
    ensures plays { PlaysTaken (branched_of prepared.now.branched) words.entry.play.name.now
        words.entry.told prepared.now.means.initial prepared.now.means.seed
        (run_taken (branched_of prepared.now.branched) words.entry.play.name.now words.entry.told
        prepared.now.means.initial prepared.now.means.seed prepared.now.codes.items) }
    ensures runs { RunsOn
        (run_taken (branched_of prepared.now.branched) words.entry.play.name.now words.entry.told
        prepared.now.means.initial prepared.now.means.seed prepared.now.codes.items)
        (W.state wire.old) (W.state wire.new) result.status }
    ensures prompt { IsPrompt
        (run_taken (branched_of prepared.now.branched) words.entry.play.name.now words.entry.told
        prepared.now.means.initial prepared.now.means.seed prepared.now.codes.items)
        (W.state wire.old) (W.state wire.new) }
    ensures late { phase_of result.status ≡ before_reach → ⊥ }
    ensures wire { OverWire (place_by words.entry.play.endpoint) true result.status
        (W.state wire.old) (W.state wire.new) }
    ensures why_missed { IsMissing (IsOfFolder folder.now) (J.state journal.old) (J.state journal.new)
        (W.state wire.old) (W.state wire.new) result.status result.missing }
    ensures fresh { TakesNoneOver (IsOfFolder folder.now) (J.state journal.old)
        (J.state journal.new) (W.state wire.old) (W.state wire.new) }
    ensures recorded { phase_of result.status ≡ after_reach → result.missing ≡ missing.Nothing
        → HasArmTranscript (branched_of prepared.now.branched) words.entry.play.name.now
        words.entry.told prepared.now.means.initial prepared.now.means.seed
        folder.now (J.state journal.old) (J.state journal.new) (W.state wire.old).left
        result.status }
{
    let Prepared {
        branched,
        codes,
        means,
    } = prepared;
    let initial = means.initial.as_slice();
    let seed = &means.seed;
    fitting_arms_play(branched, codes, words.play.name, words.told, initial, seed);
    let text = match text_of(alloc, words, prepared) {
        Ok(text) => text,
        Err(NoMemory) => return Ended {
            status: Status::NoMemory,
            missing: Missing::Nothing,
        },
    };
    match open(alloc, journal, folder, &text) {
        Opened::Ready(transcript) => record_on(alloc, wire, journal, words, prepared, transcript),
        Opened::There(name) => Ended {
            status: Status::NoMemory,
            missing: Missing::There(name),
        },
        Opened::Failed(name) => Ended {
            status: branch_over(alloc, wire, words, prepared),
            missing: Missing::Unwritten(name),
        },
        Opened::NoMemory => Ended {
            status: Status::NoMemory,
            missing: Missing::Nothing,
        },
    }
}

/// The values file of what is played. No values file has a label that is none, so a role that knows a
/// value under such a one was never prepared.
fn text_of(alloc: Global, words: BranchWords, prepared: &Prepared) -> Result<Bytes, NoMemory>
    requires { IsArmed (branched_of prepared.now.branched) words.play.name.now
        words.told prepared.now.codes.items prepared.now.means.initial }
    ensures { IfOk result (IsTextOf
        (known_in (branched_of prepared.now.branched) words.entry.play.name.now)
        (record { values = prepared.now.means.initial; seed = Some prepared.now.means.seed })) }
{
    let labels = texts_known(alloc, &prepared.branched, words.play.name)?;
    if !are_labels(&labels) {
        return Err(NoMemory);
    }
    let values = prepared.means.initial.as_slice();
    values_text(alloc, &labels, values, Some(prepared.means.seed))
}

/// Plays the role over the wire, which it reaches at the place, and appends the transcript to this file.
fn record_on<W: Wire, J: Journal>(
    alloc: Global,
    wire: &mut W,
    journal: &mut J,
    words: BranchWords,
    prepared: &Prepared,
    transcript: Text,
) -> Ended
    requires { IsArmed (branched_of prepared.now.branched) words.play.name.now
        words.told prepared.now.codes.items prepared.now.means.initial }
    ensures plays { PlaysTaken (branched_of prepared.now.branched) words.entry.play.name.now
        words.entry.told prepared.now.means.initial prepared.now.means.seed
        (run_taken (branched_of prepared.now.branched) words.entry.play.name.now words.entry.told
        prepared.now.means.initial prepared.now.means.seed prepared.now.codes.items) }
    ensures runs { RunsOn
        (run_taken (branched_of prepared.now.branched) words.entry.play.name.now words.entry.told
        prepared.now.means.initial prepared.now.means.seed prepared.now.codes.items)
        (W.state wire.old) (W.state wire.new) result.status }
    ensures prompt { IsPrompt
        (run_taken (branched_of prepared.now.branched) words.entry.play.name.now words.entry.told
        prepared.now.means.initial prepared.now.means.seed prepared.now.codes.items)
        (W.state wire.old) (W.state wire.new) }
    ensures late { phase_of result.status ≡ before_reach → ⊥ }
    ensures wire { OverWire (place_by words.entry.play.endpoint) true result.status
        (W.state wire.old) (W.state wire.new) }
    ensures why_missed { MissesLines transcript (J.state journal.old) (J.state journal.new)
        result.status result.missing }
    ensures recorded { phase_of result.status ≡ after_reach → result.missing ≡ missing.Nothing
        → RecordsArm (branched_of prepared.now.branched) words.entry.play.name.now
        words.entry.told prepared.now.means.initial prepared.now.means.seed
        transcript (J.state journal.old) (J.state journal.new) (W.state wire.old).left
        result.status }
{
    let Prepared {
        branched,
        codes,
        means,
    } = prepared;
    let initial = means.initial.as_slice();
    let seed = &means.seed;
    fitting_arms_play(branched, codes, words.play.name, words.told, initial, seed);
    let place = match words.play.endpoint.place(alloc) {
        Ok(place) => place,
        Err(NoMemory) => return Ended {
            status: Status::NoMemory,
            missing: Missing::Nothing,
        },
    };
    match reach(wire, &place, words.play.endpoint.timeout()) {
        Ok(()) => record_now(alloc, wire, journal, words, prepared, transcript),
        Err(Failed) => Ended {
            status: Status::Unreached(place),
            missing: Missing::Nothing,
        },
    }
}

/// Plays the role over a wire that was reached, and appends the transcript to this file.
fn record_now<W: Wire, J: Journal>(
    alloc: Global,
    wire: &mut W,
    journal: &mut J,
    words: BranchWords,
    prepared: &Prepared,
    transcript: Text,
) -> Ended
    requires { IsArmed (branched_of prepared.now.branched) words.play.name.now
        words.told prepared.now.codes.items prepared.now.means.initial }
    ensures runs { RunsOn
        (run_taken (branched_of prepared.now.branched) words.entry.play.name.now words.entry.told
        prepared.now.means.initial prepared.now.means.seed prepared.now.codes.items)
        (W.state wire.old) (W.state wire.new) result.status }
    ensures prompt { IsPrompt
        (run_taken (branched_of prepared.now.branched) words.entry.play.name.now words.entry.told
        prepared.now.means.initial prepared.now.means.seed prepared.now.codes.items)
        (W.state wire.old) (W.state wire.new) }
    ensures after { (phase_of result.status ≡ after_reach) ⊎ (result.status ≡ status.NoMemory) }
    ensures cause { (place : Place)
        → HasWireCause (Some place) (W.state wire.old) (W.state wire.new) result.status }
    ensures told { TellsWireFaults (W.state wire.old) (W.state wire.new) result.status }
    ensures reached { StaysReached (W.state wire.old) (W.state wire.new) }
    ensures why_missed { MissesLines transcript (J.state journal.old) (J.state journal.new)
        result.status result.missing }
    ensures recorded { result.status ≢ status.NoMemory → result.missing ≡ missing.Nothing
        → RecordsArm (branched_of prepared.now.branched) words.entry.play.name.now
        words.entry.told prepared.now.means.initial prepared.now.means.seed
        transcript (J.state journal.old) (J.state journal.new) (W.state wire.old).left
        result.status }
{
    let Prepared {
        branched,
        codes,
        means,
    } = prepared;
    let initial = means.initial.as_slice();
    let seed = &means.seed;
    let role = words.play.name;
    let told = words.told;
    let file = &transcript;
    let recorded = branch_record(
        alloc, branched, codes, role, told, initial, seed, wire, journal, file,
    );
    Ended {
        status: status_of(recorded.end),
        missing: missing_of(recorded.kept, transcript),
    }
}
