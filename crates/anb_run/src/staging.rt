//! All commands, with a stage that is recorded in a folder.
ghost use Rattle.std.specs.Prelude.{◌≡◌, ◌≢◌, ◌↔◌, ◌<◌, ℕ, None};
ghost use Rattle.anb_stage.specs.declared.TheConstants.{ROLES};
ghost use Rattle.anb_command.specs.Causes.{NoneRose};
ghost use Rattle.anb_command.specs.Fetches.{Fetches};
ghost use Rattle.anb_status.specs.Lines.{Tells};
ghost use Rattle.anb_command.specs.Reaches.{Reaches};
ghost use Rattle.anb_command.specs.Reported.{TellsFaults};
ghost use Rattle.anb_status.specs.Statuses.{line_of};
ghost use Rattle.anb_command.specs.Touches.{Touches};
ghost use Rattle.anb_words.specs.Words.{asked_of};
ghost use Rattle.anb_status.specs.declared.status.Status.TheVariants.{Usage};
ghost use Rattle.anb_park_commands.specs.Words.{recorded_of};
ghost use Rattle.anb_record_commands.specs.Laws.{RecordedArmsReplay, RecordedPlaysReplay, RecordedSessionsReplay};
ghost use Rattle.anb_record_commands.specs.Words.{recording_of};
ghost use Rattle.anb_stage_commands.specs.Words.{staged_into_of, staged_of};
ghost use Rattle.anb_probe_commands.specs.Words.{probed_of};
ghost use Rattle.anb_session_commands.specs.Words.{following_of};
ghost use Rattle.anb_run.specs.Programs.{folder_in};
ghost use Rattle.anb_run.specs.Stagings.{CompletesStaging, DoesStaging, HasStagingCause, IsAskedStaging, staging_files, staging_phase, staging_places, staging_reading};

use crate::run_in_session;
use anb_base::{Shelf, Sink, Text, Wire};
use anb_command::{Status, tell};
use anb_partner::Trials;
use anb_record_commands::{recorded_arms_replay, recorded_plays_replay, recorded_sessions_replay};
use anb_recording::Journal;
use anb_stage::Spawner;
use anb_stage_commands::{StageRecordWords, stage_into};
use std::alloc::Global;

/// Does what the words ask for, as [`run_in_session`] does, where a stage may be recorded too: where its
/// words end with `--record` and the name of a folder.
pub fn run_staging<F: Shelf, P: Spawner, S: Journal, T: Trials, W: Wire, E: Sink>(
    alloc: Global,
    words: &[Text],
    shelf: &mut F,
    spawner: &mut P,
    store: &mut S,
    trials: &mut T,
    wire: &mut W,
    err: &mut E,
    seed: Option<[u8; 32]>,
) -> Status
    requires new { (role : ℕ) → role < ROLES → (P.child spawner.old role).phase ≡ 0 }
    requires untried { (case : ℕ) → (T.trial trials.old case).phase ≡ 0 }
    ensures does { DoesStaging (following_of words.now) (probed_of words.now)
        (recording_of words.now) (recorded_of words.now) (staged_of words.now) (asked_of words.now)
        (F.files shelf.old) seed (P.child spawner.old) (P.child spawner.new)
        (T.trial trials.old) (T.trial trials.new) (W.state wire.old) (W.state wire.new)
        (S.state store.old) (S.state store.new) result (staged_into_of words.now) }
    ensures completes { NoneRose (staging_files (following_of words.now) (probed_of words.now)
        (recording_of words.now) (recorded_of words.now) (staged_of words.now) (asked_of words.now)
        (staged_into_of words.now))
        (F.faults shelf.old) (F.faults shelf.new) (W.state wire.old) (W.state wire.new)
        → CompletesStaging (following_of words.now) (probed_of words.now)
        (recording_of words.now) (recorded_of words.now) (staged_of words.now) (asked_of words.now)
        (F.files shelf.old) seed (P.child spawner.old) (P.child spawner.new)
        (T.trial trials.old) (T.trial trials.new) (W.state wire.old) (W.state wire.new)
        (S.state store.old) (S.state store.new) result (staged_into_of words.now) }
    ensures replayed { RecordedPlaysReplay }
    ensures replayed_arms { RecordedArmsReplay }
    ensures replayed_sessions { RecordedSessionsReplay }
    ensures usage { (result ≡ Usage) ↔ (IsAskedStaging (following_of words.now)
        (probed_of words.now) (recording_of words.now) (recorded_of words.now)
        (staged_of words.now) (asked_of words.now) (staged_into_of words.now) → ⊥) }
    ensures faults { HasStagingCause (following_of words.now) (probed_of words.now)
        (recording_of words.now) (recorded_of words.now) (staged_of words.now) (asked_of words.now)
        (F.faults shelf.old) (F.faults shelf.new) (P.child spawner.old) (P.child spawner.new)
        (T.trial trials.old) (T.trial trials.new) (W.state wire.old) (W.state wire.new)
        (S.state store.old) (S.state store.new) result (staged_into_of words.now) }
    ensures reported { TellsFaults (F.faults shelf.old) (F.faults shelf.new)
        (W.state wire.old) (W.state wire.new) result }
    ensures no_children { staged_into_of words.now ≡ None → staged_of words.now ≡ None
        → spawner.new ≡ spawner.old }
    ensures unstored { staged_into_of words.now ≡ None → folder_in (probed_of words.now) ≡ None
        → recording_of words.now ≡ None → recorded_of words.now ≡ None
        → store.new ≡ store.old }
    ensures untested { probed_of words.now ≡ None → trials.new ≡ trials.old }
    ensures none_left { (case : ℕ) → (T.trial trials.new case).phase ≢ 1 }

    // What else is touched, and what is told.
    ensures fetches { Fetches (staging_files (following_of words.now) (probed_of words.now)
        (recording_of words.now) (recorded_of words.now) (staged_of words.now) (asked_of words.now)
        (staged_into_of words.now))
        (F.files shelf.old) (F.files shelf.new) (F.faults shelf.old) (F.faults shelf.new) }
    ensures reached { Reaches (staging_places (following_of words.now) (probed_of words.now)
        (recording_of words.now) (recorded_of words.now) (staged_of words.now) (asked_of words.now)
        (staged_into_of words.now))
        (staging_phase (following_of words.now) (probed_of words.now)
        (recording_of words.now) (recorded_of words.now) (staged_of words.now) (asked_of words.now)
        result (staged_into_of words.now))
        (W.state wire.old).reached (W.state wire.new).reached }
    ensures touches { Touches (staging_reading (following_of words.now) (probed_of words.now)
        (recording_of words.now) (recorded_of words.now) (staged_of words.now) (asked_of words.now)
        (staged_into_of words.now))
        (staging_phase (following_of words.now) (probed_of words.now)
        (recording_of words.now) (recorded_of words.now) (staged_of words.now) (asked_of words.now)
        result (staged_into_of words.now))
        (W.state wire.old) (W.state wire.new) }
    ensures line { Tells (line_of result)
        (E.written err.old) (E.written err.new) (E.faults err.old) (E.faults err.new) }
    ensures beside_line { E.kept err.new ≡ E.kept err.old }
{
    recorded_plays_replay();
    recorded_arms_replay();
    recorded_sessions_replay();
    match StageRecordWords::read(words) {
        None => run_in_session(alloc, words, shelf, spawner, store, trials, wire, err, seed),
        Some(words) => {
            let StageRecordWords { stage, folder } = words;
            let status = stage_into(alloc, shelf, spawner, store, wire, stage, folder);
            tell(err, &status);
            status
        }
    }
}
