//! All commands, with the one that tests a program.
ghost use Rattle.std.specs.Prelude.{◌≡◌, ◌≢◌, ◌↔◌, ◌<◌, ℕ, Some, None, false};
ghost use Rattle.anb_base.specs.declared.place.Place.TheVariants as place;
ghost use Rattle.anb_stage.specs.declared.TheConstants.{ROLES};
ghost use Rattle.anb_command.specs.Causes.{NoneRose};
ghost use Rattle.anb_command.specs.Fetches.{Fetches};
ghost use Rattle.anb_status.specs.Lines.{Tells};
ghost use Rattle.anb_command.specs.Reaches.{Reaches};
ghost use Rattle.anb_command.specs.Reported.{TellsFaults};
ghost use Rattle.anb_status.specs.Statuses.{line_of};
ghost use Rattle.anb_command.specs.Touches.{Touches};
ghost use Rattle.anb_words.specs.Words.{asked_of};
ghost use Rattle.anb_status.specs.declared.status.Status.TheVariants.{Usage};
ghost use Rattle.anb_park_commands.specs.Words.{recorded_of};
ghost use Rattle.anb_record_commands.specs.Laws.{RecordedArmsReplay, RecordedPlaysReplay, RecordedSessionsReplay};
ghost use Rattle.anb_record_commands.specs.Words.{recording_of};
ghost use Rattle.anb_stage_commands.specs.Words.{staged_of};
ghost use Rattle.anb_probe_commands.specs.Asking.{folder_by, probing};
ghost use Rattle.anb_probe_commands.specs.ProbeCommand.{probe_files};
ghost use Rattle.anb_probe_commands.specs.Words.{probed_of};
ghost use Rattle.anb_run.specs.Programs.{CompletesTest, CompletesTesting, DoesTest, DoesTesting, HasTestCause, HasTestingCause, IsAskedTesting, folder_in, test_phase, testing_files, testing_phase, testing_places, testing_reading};

use crate::run_recording;
use anb_base::{Shelf, Sink, Text, Wire};
use anb_command::{Status, tell};
use anb_partner::Trials;
use anb_probe_commands::{ProbeWords, probe, probe_into};
use anb_record_commands::{recorded_arms_replay, recorded_plays_replay, recorded_sessions_replay};
use anb_recording::Journal;
use anb_stage::Spawner;
use std::alloc::Global;

/// Does what the words ask for, as [`run_recording`] does, where a program may be tested too: with
/// `probe`, which starts it once for each case, and may be recorded.
pub fn run_with_program<F: Shelf, P: Spawner, S: Journal, T: Trials, W: Wire, E: Sink>(
    alloc: Global,
    words: &[Text],
    shelf: &mut F,
    spawner: &mut P,
    store: &mut S,
    trials: &mut T,
    wire: &mut W,
    err: &mut E,
    seed: Option<[u8; 32]>,
) -> Status
    requires new { (role : ℕ) → role < ROLES → (P.child spawner.old role).phase ≡ 0 }
    requires untried { (case : ℕ) → (T.trial trials.old case).phase ≡ 0 }
    ensures does { DoesTesting (recording_of words.now) (recorded_of words.now)
        (staged_of words.now) (asked_of words.now) (F.files shelf.old) seed
        (P.child spawner.old) (P.child spawner.new) (T.trial trials.old) (T.trial trials.new)
        (W.state wire.old) (W.state wire.new) (S.state store.old) (S.state store.new) result
        (probed_of words.now) }
    ensures completes { NoneRose (testing_files (probed_of words.now) (recording_of words.now)
        (recorded_of words.now) (staged_of words.now) (asked_of words.now))
        (F.faults shelf.old) (F.faults shelf.new) (W.state wire.old) (W.state wire.new)
        → CompletesTesting (recording_of words.now) (recorded_of words.now)
        (staged_of words.now) (asked_of words.now) (F.files shelf.old) seed
        (P.child spawner.old) (P.child spawner.new) (T.trial trials.old) (T.trial trials.new)
        (W.state wire.old) (W.state wire.new) (S.state store.old) (S.state store.new) result
        (probed_of words.now) }
    ensures replayed { RecordedPlaysReplay }
    ensures replayed_arms { RecordedArmsReplay }
    ensures replayed_sessions { RecordedSessionsReplay }
    ensures usage { (result ≡ Usage) ↔ (IsAskedTesting (probed_of words.now)
        (recording_of words.now) (recorded_of words.now) (staged_of words.now)
        (asked_of words.now) → ⊥) }
    ensures faults { HasTestingCause (recording_of words.now) (recorded_of words.now)
        (staged_of words.now) (asked_of words.now) (F.faults shelf.old) (F.faults shelf.new)
        (P.child spawner.old) (P.child spawner.new) (T.trial trials.old) (T.trial trials.new)
        (W.state wire.old) (W.state wire.new) (S.state store.old) (S.state store.new) result
        (probed_of words.now) }
    ensures reported { TellsFaults (F.faults shelf.old) (F.faults shelf.new)
        (W.state wire.old) (W.state wire.new) result }
    ensures no_children { staged_of words.now ≡ None → spawner.new ≡ spawner.old }
    ensures unstored { folder_in (probed_of words.now) ≡ None → recording_of words.now ≡ None
        → recorded_of words.now ≡ None → store.new ≡ store.old }
    ensures untested { probed_of words.now ≡ None → trials.new ≡ trials.old }
    ensures none_left { (case : ℕ) → (T.trial trials.new case).phase ≢ 1 }

    // What else is touched, and what is told.
    ensures fetches { Fetches (testing_files (probed_of words.now) (recording_of words.now)
        (recorded_of words.now) (staged_of words.now) (asked_of words.now))
        (F.files shelf.old) (F.files shelf.new) (F.faults shelf.old) (F.faults shelf.new) }
    ensures reached { Reaches (testing_places (probed_of words.now) (recording_of words.now)
        (recorded_of words.now) (staged_of words.now) (asked_of words.now))
        (testing_phase (probed_of words.now) (recording_of words.now) (recorded_of words.now)
        (staged_of words.now) (asked_of words.now) result)
        (W.state wire.old).reached (W.state wire.new).reached }
    ensures touches { Touches (testing_reading (probed_of words.now) (recording_of words.now)
        (recorded_of words.now) (staged_of words.now) (asked_of words.now))
        (testing_phase (probed_of words.now) (recording_of words.now) (recorded_of words.now)
        (staged_of words.now) (asked_of words.now) result)
        (W.state wire.old) (W.state wire.new) }
    ensures line { Tells (line_of result)
        (E.written err.old) (E.written err.new) (E.faults err.old) (E.faults err.new) }
    ensures beside_line { E.kept err.new ≡ E.kept err.old }
{
    recorded_plays_replay();
    recorded_arms_replay();
    recorded_sessions_replay();
    match ProbeWords::read(words) {
        None => run_recording(alloc, words, shelf, spawner, store, wire, err, seed),
        Some(words) => {
            let status = test(alloc, shelf, store, trials, wire, words, seed);
            tell(err, &status);
            status
        }
    }
}

/// Tests a program, and records that where the words name a folder.
fn test<F: Shelf, S: Journal, T: Trials, W: Wire>(
    alloc: Global,
    shelf: &mut F,
    store: &mut S,
    trials: &mut T,
    wire: &mut W,
    words: ProbeWords,
    seed: Option<[u8; 32]>,
) -> Status
    requires untried { (case : ℕ) → (T.trial trials.old case).phase ≡ 0 }
    ensures does { DoesTest (probing words.entry) (T.trial trials.old) (T.trial trials.new)
        (W.state wire.old) (W.state wire.new) (S.state store.old) (S.state store.new) result
        (F.files shelf.old) seed (folder_by words.entry.trying.folder) }
    ensures completes { NoneRose (probe_files (probing words.entry))
        (F.faults shelf.old) (F.faults shelf.new) (W.state wire.old) (W.state wire.new)
        → CompletesTest (probing words.entry) (T.trial trials.old) (T.trial trials.new)
        (W.state wire.old) (W.state wire.new) (S.state store.old) (S.state store.new) result
        (F.files shelf.old) seed (folder_by words.entry.trying.folder) }
    ensures faults { HasTestCause (probing words.entry) (T.trial trials.old) (T.trial trials.new)
        (W.state wire.old) (W.state wire.new) (S.state store.old) (S.state store.new) result
        (F.faults shelf.old) (F.faults shelf.new) (folder_by words.entry.trying.folder) }
    ensures reported { TellsFaults (F.faults shelf.old) (F.faults shelf.new)
        (W.state wire.old) (W.state wire.new) result }
    ensures unstored { folder_by words.entry.trying.folder ≡ None → store.new ≡ store.old }
    ensures fetches { Fetches (probe_files (probing words.entry))
        (F.files shelf.old) (F.files shelf.new) (F.faults shelf.old) (F.faults shelf.new) }
    ensures reached { Reaches (Some place.Stdio)
        (test_phase (folder_by words.entry.trying.folder) result)
        (W.state wire.old).reached (W.state wire.new).reached }
    ensures touches { Touches false (test_phase (folder_by words.entry.trying.folder) result)
        (W.state wire.old) (W.state wire.new) }
    ensures none_left { (case : ℕ) → (T.trial trials.new case).phase ≢ 1 }
{
    match words.trying.folder {
        None => probe(alloc, shelf, trials, wire, words, seed),
        Some(folder) => { probe_into(alloc, shelf, trials, store, wire, words, folder, seed) }
    }
}
