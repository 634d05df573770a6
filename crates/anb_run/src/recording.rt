//! All commands, with those whose play is recorded in a folder.
ghost use Rattle.std.specs.Prelude.{◌≡◌, ◌↔◌, ◌<◌, ℕ, Some, None, true};
ghost use Rattle.anb_stage.specs.declared.TheConstants.{ROLES};
ghost use Rattle.anb_command.specs.Causes.{DidNotRise, NoneRose};
ghost use Rattle.anb_command.specs.Fetches.{Fetches};
ghost use Rattle.anb_status.specs.Lines.{Tells};
ghost use Rattle.anb_command.specs.Reaches.{Reaches};
ghost use Rattle.anb_command.specs.Reported.{TellsFaults};
ghost use Rattle.anb_status.specs.Statuses.{line_of};
ghost use Rattle.anb_command.specs.Touches.{Touches};
ghost use Rattle.anb_words.specs.Words.{asked_of, files_of, place_of};
ghost use Rattle.anb_status.specs.declared.status.Status.TheVariants.{Usage};
ghost use Rattle.anb_park_commands.specs.Words.{recorded_of};
ghost use Rattle.anb_record_commands.specs.Asking.{recording};
ghost use Rattle.anb_record_commands.specs.Laws.{RecordedArmsReplay, RecordedPlaysReplay, RecordedSessionsReplay};
ghost use Rattle.anb_recorded.specs.Outcomes.{HasRecordCause, recorded_phase};
ghost use Rattle.anb_record_commands.specs.Words.{IsFileOf, recording_of, without_folder};
ghost use Rattle.anb_stage_commands.specs.Words.{staged_of};
ghost use Rattle.anb_run.specs.Recordings.{CompletesInto, CompletesRecording, DoesInto, DoesRecording, HasRecordingCause, IsAskedRecording, recording_files, recording_phase, recording_places, recording_reading};

use crate::run_with_store;
use anb_base::{Shelf, Sink, Text, Wire};
use anb_command::{Status, tell};
use anb_record_commands::{
    RecordingWords, branch_into, enact_into, host_into, play_into, recorded_arms_replay,
    recorded_plays_replay, recorded_sessions_replay,
};
use anb_recording::Journal;
use anb_stage::Spawner;
use std::alloc::Global;

/// Does what the words ask for, as [`run_with_store`] does, where a play may be recorded too: that of
/// `play`, of `enact`, of `branch` and of the sessions of `host`, where their words end with `--record`
/// and the name of a folder.
pub fn run_recording<F: Shelf, P: Spawner, S: Journal, W: Wire, E: Sink>(
    alloc: Global,
    words: &[Text],
    shelf: &mut F,
    spawner: &mut P,
    store: &mut S,
    wire: &mut W,
    err: &mut E,
    seed: Option<[u8; 32]>,
) -> Status
    requires new { (role : ℕ) → role < ROLES → (P.child spawner.old role).phase ≡ 0 }
    ensures does { DoesRecording (recorded_of words.now) (staged_of words.now) (asked_of words.now)
        (F.files shelf.old) seed (P.child spawner.old) (P.child spawner.new)
        (W.state wire.old) (W.state wire.new) (S.state store.old) (S.state store.new) result
        (recording_of words.now) }
    ensures completes { NoneRose (recording_files (recording_of words.now)
        (recorded_of words.now) (staged_of words.now) (asked_of words.now))
        (F.faults shelf.old) (F.faults shelf.new) (W.state wire.old) (W.state wire.new)
        → CompletesRecording (recorded_of words.now) (staged_of words.now) (asked_of words.now)
        (F.files shelf.old) seed (P.child spawner.old) (P.child spawner.new)
        (W.state wire.old) (W.state wire.new) (S.state store.old) (S.state store.new) result
        (recording_of words.now) }
    ensures replayed { RecordedPlaysReplay }
    ensures replayed_arms { RecordedArmsReplay }
    ensures replayed_sessions { RecordedSessionsReplay }
    ensures usage { (result ≡ Usage) ↔ (IsAskedRecording (recording_of words.now)
        (recorded_of words.now) (staged_of words.now) (asked_of words.now) → ⊥) }
    ensures faults { HasRecordingCause (recorded_of words.now) (staged_of words.now)
        (asked_of words.now) (F.faults shelf.old) (F.faults shelf.new)
        (P.child spawner.old) (P.child spawner.new) (W.state wire.old) (W.state wire.new)
        (S.state store.old) (S.state store.new) result (recording_of words.now) }
    ensures reported { TellsFaults (F.faults shelf.old) (F.faults shelf.new)
        (W.state wire.old) (W.state wire.new) result }
    ensures no_children { staged_of words.now ≡ None → spawner.new ≡ spawner.old }
    ensures unstored { recording_of words.now ≡ None → recorded_of words.now ≡ None
        → store.new ≡ store.old }

    // What else is touched, and what is told.
    ensures fetches { Fetches (recording_files (recording_of words.now) (recorded_of words.now)
        (staged_of words.now) (asked_of words.now))
        (F.files shelf.old) (F.files shelf.new) (F.faults shelf.old) (F.faults shelf.new) }
    ensures reached { Reaches (recording_places (recording_of words.now) (recorded_of words.now)
        (staged_of words.now) (asked_of words.now))
        (recording_phase (recording_of words.now) (recorded_of words.now)
        (staged_of words.now) (asked_of words.now) result)
        (W.state wire.old).reached (W.state wire.new).reached }
    ensures touches { Touches (recording_reading (recording_of words.now)
        (recorded_of words.now) (staged_of words.now) (asked_of words.now))
        (recording_phase (recording_of words.now) (recorded_of words.now)
        (staged_of words.now) (asked_of words.now) result)
        (W.state wire.old) (W.state wire.new) }
    ensures line { Tells (line_of result)
        (E.written err.old) (E.written err.new) (E.faults err.old) (E.faults err.new) }
    ensures beside_line { E.kept err.new ≡ E.kept err.old }
{
    recorded_plays_replay();
    recorded_arms_replay();
    recorded_sessions_replay();
    match RecordingWords::read(words) {
        None => run_with_store(alloc, words, shelf, spawner, store, wire, err, seed),
        Some(words) => {
            let status = record(alloc, words, shelf, store, wire, seed);
            tell(err, &status);
            status
        }
    }
}

/// Does what the words of a recorded play ask for.
fn record<F: Shelf, S: Journal, W: Wire>(
    alloc: Global,
    words: RecordingWords,
    shelf: &mut F,
    store: &mut S,
    wire: &mut W,
    seed: Option<[u8; 32]>,
) -> Status
    ensures does { DoesInto (F.files shelf.old) seed (W.state wire.old) (W.state wire.new)
        (S.state store.old) (S.state store.new) result (recording words.entry) }
    ensures completes { NoneRose (files_of (Some (without_folder (recording words.entry))))
        (F.faults shelf.old) (F.faults shelf.new) (W.state wire.old) (W.state wire.new)
        → DidNotRise (S.state store.old).faults (S.state store.new).faults
        → CompletesInto (F.files shelf.old) seed (W.state wire.old) (W.state wire.new)
        (S.state store.old) (S.state store.new) result (recording words.entry) }
    ensures faults { HasRecordCause (IsFileOf (recording words.entry))
        (S.state store.old) (S.state store.new)
        (files_of (Some (without_folder (recording words.entry))))
        (place_of (Some (without_folder (recording words.entry))))
        (F.faults shelf.old) (F.faults shelf.new) (W.state wire.old) (W.state wire.new) result }
    ensures reported { TellsFaults (F.faults shelf.old) (F.faults shelf.new)
        (W.state wire.old) (W.state wire.new) result }
    ensures fetches { Fetches (files_of (Some (without_folder (recording words.entry))))
        (F.files shelf.old) (F.files shelf.new) (F.faults shelf.old) (F.faults shelf.new) }
    ensures reached { Reaches (place_of (Some (without_folder (recording words.entry))))
        (recorded_phase result) (W.state wire.old).reached (W.state wire.new).reached }
    ensures touches { Touches true (recorded_phase result) (W.state wire.old) (W.state wire.new) }
{
    match words {
        RecordingWords::Play(words, folder) => {
            play_into(alloc, shelf, wire, store, words, folder, seed)
        }
        RecordingWords::Enact(words, folder) => {
            enact_into(alloc, shelf, wire, store, words, folder, seed)
        }
        RecordingWords::Branch(words, folder) => {
            branch_into(alloc, shelf, wire, store, words, folder, seed)
        }
        RecordingWords::Host(words, folder) => {
            host_into(alloc, shelf, wire, store, words, folder, seed)
        }
    }
}
