//! A role's play over a wire, which is recorded.
ghost use Rattle.std.specs.Prelude.{◌≡◌, ◌≢◌, ◌≤◌, [], ◌∷◌, All, Some, true, length};
ghost use Rattle.anb_base.specs.declared.TheConstants.{ARRIVAL};
ghost use Rattle.anb_code.specs.Taking.{take_texts};
ghost use Rattle.anb_session.specs.Sessions.{IsPrompt};
ghost use Rattle.anb_command.specs.Causes.{DidNotRise, HasCause, NoneRose};
ghost use Rattle.anb_words.specs.Commands.{place_by};
ghost use Rattle.anb_command.specs.Fetches.{Fetches};
ghost use Rattle.anb_command.specs.OverWire.{OverWire};
ghost use Rattle.anb_command.specs.Prepared.{RunsOn};
ghost use Rattle.anb_command.specs.Reaches.{Reaches};
ghost use Rattle.anb_command.specs.Reported.{TellsFaults};
ghost use Rattle.anb_command.specs.Touches.{Touches};
ghost use Rattle.anb_status.specs.Statuses.{before_reach, phase_of};
ghost use Rattle.anb_status.specs.declared.status.Status.TheVariants as status;
ghost use Rattle.anb_role_commands.specs.PlayCommand.{CompletesPlay, DoesPlay};
ghost use Rattle.anb_role_commands.specs.Playing.{play_by};
ghost use Rattle.anb_recorded.specs.Outcomes.{HasRecordCause, IsMissing, TakesNoneOver, recorded_phase};
ghost use Rattle.anb_record_commands.specs.Outcomes.{HasTranscript, IsOfFolder};
ghost use Rattle.anb_record_commands.specs.PlayInto.{CompletesPlayInto, DoesPlayInto, RecordsPlay};
ghost use Rattle.anb_recorded.specs.declared.ended.Missing.TheVariants as missing;

use crate::over::record_over;
use anb_base::{ARRIVAL, Shelf, Text, Wire};
use anb_command::{Endpoint, Halt, PlayWords, Prepared, Status};
use anb_frame::one_cut;
use anb_read::{narrations_are_unique, none_is_both, refusals_are_unique};
use anb_recorded::{Ended, Missing};
use anb_recording::Journal;
use anb_role_commands::prepare;
use anb_values::one_fit;
use std::alloc::Global;

/// Plays the role over the wire as `play` does, and records it in the folder.
pub fn play_into<F: Shelf, W: Wire, J: Journal>(
    alloc: Global,
    shelf: &mut F,
    wire: &mut W,
    journal: &mut J,
    words: PlayWords,
    folder: &Text,
    host_seed: Option<[u8; 32]>,
) -> Status
    ensures does { DoesPlayInto words.entry.narration.now words.entry.name.now
        words.entry.values.now (F.files shelf.old) host_seed (W.state wire.old) (W.state wire.new)
        folder.now (J.state journal.old) (J.state journal.new) result }
    ensures completes { NoneRose (words.entry.narration.now ∷ words.entry.values.now ∷ [])
        (F.faults shelf.old) (F.faults shelf.new) (W.state wire.old) (W.state wire.new)
        → DidNotRise (J.state journal.old).faults (J.state journal.new).faults
        → CompletesPlayInto words.entry.narration.now words.entry.name.now
        words.entry.values.now (F.files shelf.old) host_seed (W.state wire.old) (W.state wire.new)
        folder.now (J.state journal.old) (J.state journal.new) result }
    ensures faults { HasRecordCause (IsOfFolder folder.now) (J.state journal.old) (J.state journal.new)
        (words.entry.narration.now ∷ words.entry.values.now ∷ [])
        (Some (place_by words.entry.endpoint)) (F.faults shelf.old) (F.faults shelf.new)
        (W.state wire.old) (W.state wire.new) result }
    ensures reported { TellsFaults (F.faults shelf.old) (F.faults shelf.new)
        (W.state wire.old) (W.state wire.new) result }
    ensures fetches { Fetches (words.entry.narration.now ∷ words.entry.values.now ∷ [])
        (F.files shelf.old) (F.files shelf.new) (F.faults shelf.old) (F.faults shelf.new) }
    ensures reached { Reaches (Some (place_by words.entry.endpoint)) (recorded_phase result)
        (W.state wire.old).reached (W.state wire.new).reached }
    ensures touches { Touches true (recorded_phase result) (W.state wire.old) (W.state wire.new) }
{
    play_recorded(alloc, shelf, wire, journal, words, folder, host_seed).told()
}

/// Plays the role, and tells how that ended and what is missing of the recording.
fn play_recorded<F: Shelf, W: Wire, J: Journal>(
    alloc: Global,
    shelf: &mut F,
    wire: &mut W,
    journal: &mut J,
    words: PlayWords,
    folder: &Text,
    host_seed: Option<[u8; 32]>,
) -> Ended
    ensures does { DoesPlay words.entry.narration.now words.entry.name.now words.entry.values.now
        (F.files shelf.old) host_seed (W.state wire.old) (W.state wire.new) result.status }
    ensures completes { NoneRose (words.entry.narration.now ∷ words.entry.values.now ∷ [])
        (F.faults shelf.old) (F.faults shelf.new) (W.state wire.old) (W.state wire.new)
        → CompletesPlay words.entry.narration.now words.entry.name.now words.entry.values.now
        (F.files shelf.old) host_seed (W.state wire.old) (W.state wire.new) result.status }
    ensures why_missed { IsMissing (IsOfFolder folder.now) (J.state journal.old) (J.state journal.new)
        (W.state wire.old) (W.state wire.new) result.status result.missing }
    ensures fresh { TakesNoneOver (IsOfFolder folder.now) (J.state journal.old)
        (J.state journal.new) (W.state wire.old) (W.state wire.new) }
    ensures early { phase_of result.status ≡ before_reach
        → J.state journal.new ≡ J.state journal.old }
    ensures recorded { (phase_of result.status ≡ before_reach → ⊥)
        → result.status ≢ status.NoMemory → result.missing ≡ missing.Nothing
        → RecordsPlay words.entry.narration.now words.entry.name.now words.entry.values.now
        (F.files shelf.old) host_seed (W.state wire.old) (W.state wire.new)
        folder.now (J.state journal.old) (J.state journal.new) result.status }
    ensures faults { HasCause (words.entry.narration.now ∷ words.entry.values.now ∷ [])
        (Some (place_by words.entry.endpoint)) (F.faults shelf.old) (F.faults shelf.new)
        (W.state wire.old) (W.state wire.new) result.status }
    ensures reported { TellsFaults (F.faults shelf.old) (F.faults shelf.new)
        (W.state wire.old) (W.state wire.new) result.status }
    ensures fetches { Fetches (words.entry.narration.now ∷ words.entry.values.now ∷ [])
        (F.files shelf.old) (F.files shelf.new) (F.faults shelf.old) (F.faults shelf.new) }
    ensures reached { Reaches (Some (place_by words.entry.endpoint)) (phase_of result.status)
        (W.state wire.old).reached (W.state wire.new).reached }
    ensures touches { Touches true (phase_of result.status)
        (W.state wire.old) (W.state wire.new) }
{
    narrations_are_unique();
    refusals_are_unique();
    none_is_both();
    one_fit();
    one_cut(ARRIVAL);
    match prepare(alloc, shelf, words, host_seed) {
        Ok(prepared) => play_over(alloc, wire, journal, words.endpoint, &prepared, folder),
        Err(status) => Ended {
            status,
            missing: Missing::Nothing,
        },
    }
}

/// Plays the role's code over the wire. A stop tells no instruction.
fn play_over<W: Wire, J: Journal>(
    alloc: Global,
    wire: &mut W,
    journal: &mut J,
    endpoint: Endpoint,
    prepared: &Prepared,
    folder: &Text,
) -> Ended
    requires count { length prepared.now.initial ≡ length (take_texts prepared.now.code.instrs) }
    requires short { All (λ value. length value ≤ ARRIVAL) prepared.now.initial }
    ensures runs { RunsOn (play_by prepared.now.code prepared.now.initial prepared.now.seed)
        (W.state wire.old) (W.state wire.new) result.status }
    ensures prompt { IsPrompt (play_by prepared.now.code prepared.now.initial prepared.now.seed)
        (W.state wire.old) (W.state wire.new) }
    ensures late { phase_of result.status ≡ before_reach → ⊥ }
    ensures wire { OverWire (place_by endpoint.entry) true result.status
        (W.state wire.old) (W.state wire.new) }
    ensures why_missed { IsMissing (IsOfFolder folder.now) (J.state journal.old) (J.state journal.new)
        (W.state wire.old) (W.state wire.new) result.status result.missing }
    ensures fresh { TakesNoneOver (IsOfFolder folder.now) (J.state journal.old)
        (J.state journal.new) (W.state wire.old) (W.state wire.new) }
    ensures recorded { result.status ≢ status.NoMemory → result.missing ≡ missing.Nothing
        → HasTranscript (play_by prepared.now.code prepared.now.initial prepared.now.seed)
        folder.now (J.state journal.old) (J.state journal.new)
        (record {
          labels = take_texts prepared.now.code.instrs;
          initial = prepared.now.initial;
          seed = prepared.now.seed;
        }) (W.state wire.old).left result.status }
{
    let Ended { status, missing } = record_over(alloc, wire, journal, endpoint, prepared, folder);
    match status {
        Status::Stopped(halt) => Ended {
            status: Status::Stopped(Halt {
                event: halt.event,
                at: 0,
            }),
            missing,
        },
        status => Ended { status, missing },
    }
}
