//! All commands, with those that follow a transcript of any session.
ghost use Rattle.std.specs.Prelude.{◌≡◌, ◌≢◌, ◌↔◌, ◌<◌, ℕ, None};
ghost use Rattle.anb_stage.specs.declared.TheConstants.{ROLES};
ghost use Rattle.anb_command.specs.Causes.{NoneRose};
ghost use Rattle.anb_command.specs.Fetches.{Fetches};
ghost use Rattle.anb_status.specs.Lines.{Tells};
ghost use Rattle.anb_command.specs.Reaches.{Reaches};
ghost use Rattle.anb_command.specs.Reported.{TellsFaults};
ghost use Rattle.anb_status.specs.Statuses.{line_of};
ghost use Rattle.anb_command.specs.Touches.{Touches};
ghost use Rattle.anb_words.specs.Words.{asked_of};
ghost use Rattle.anb_status.specs.declared.status.Status.TheVariants.{Usage};
ghost use Rattle.anb_park_commands.specs.Words.{recorded_of};
ghost use Rattle.anb_record_commands.specs.Laws.{RecordedArmsReplay, RecordedPlaysReplay, RecordedSessionsReplay};
ghost use Rattle.anb_record_commands.specs.Words.{recording_of};
ghost use Rattle.anb_stage_commands.specs.Words.{staged_of};
ghost use Rattle.anb_probe_commands.specs.Words.{probed_of};
ghost use Rattle.anb_session_commands.specs.Words.{following_of};
ghost use Rattle.anb_run.specs.Programs.{folder_in};
ghost use Rattle.anb_run.specs.Sessions.{CompletesFollowing, DoesFollowing, HasFollowingCause, IsAskedFollowing, following_files, following_phase, following_places, following_reading};

use crate::run_with_program;
use anb_base::{Shelf, Sink, Text, Wire};
use anb_command::{Status, tell};
use anb_partner::Trials;
use anb_record_commands::{recorded_arms_replay, recorded_plays_replay, recorded_sessions_replay};
use anb_recording::Journal;
use anb_session_commands::{SessionWords, follow};
use anb_stage::Spawner;
use std::alloc::Global;

/// Does what the words ask for, as [`run_with_program`] does, where the words of `replay` and of `trace`
/// may end with `--session` and a number too: that of the session whose transcript it is.
pub fn run_in_session<F: Shelf, P: Spawner, S: Journal, T: Trials, W: Wire, E: Sink>(
    alloc: Global,
    words: &[Text],
    shelf: &mut F,
    spawner: &mut P,
    store: &mut S,
    trials: &mut T,
    wire: &mut W,
    err: &mut E,
    seed: Option<[u8; 32]>,
) -> Status
    requires new { (role : ℕ) → role < ROLES → (P.child spawner.old role).phase ≡ 0 }
    requires untried { (case : ℕ) → (T.trial trials.old case).phase ≡ 0 }
    ensures does { DoesFollowing (probed_of words.now) (recording_of words.now)
        (recorded_of words.now) (staged_of words.now) (asked_of words.now)
        (F.files shelf.old) seed (P.child spawner.old) (P.child spawner.new)
        (T.trial trials.old) (T.trial trials.new) (W.state wire.old) (W.state wire.new)
        (S.state store.old) (S.state store.new) result (following_of words.now) }
    ensures completes { NoneRose (following_files (probed_of words.now) (recording_of words.now)
        (recorded_of words.now) (staged_of words.now) (asked_of words.now)
        (following_of words.now))
        (F.faults shelf.old) (F.faults shelf.new) (W.state wire.old) (W.state wire.new)
        → CompletesFollowing (probed_of words.now) (recording_of words.now)
        (recorded_of words.now) (staged_of words.now) (asked_of words.now)
        (F.files shelf.old) seed (P.child spawner.old) (P.child spawner.new)
        (T.trial trials.old) (T.trial trials.new) (W.state wire.old) (W.state wire.new)
        (S.state store.old) (S.state store.new) result (following_of words.now) }
    ensures replayed { RecordedPlaysReplay }
    ensures replayed_arms { RecordedArmsReplay }
    ensures replayed_sessions { RecordedSessionsReplay }
    ensures usage { (result ≡ Usage) ↔ (IsAskedFollowing (probed_of words.now)
        (recording_of words.now) (recorded_of words.now) (staged_of words.now)
        (asked_of words.now) (following_of words.now) → ⊥) }
    ensures faults { HasFollowingCause (probed_of words.now) (recording_of words.now)
        (recorded_of words.now) (staged_of words.now) (asked_of words.now)
        (F.faults shelf.old) (F.faults shelf.new) (P.child spawner.old) (P.child spawner.new)
        (T.trial trials.old) (T.trial trials.new) (W.state wire.old) (W.state wire.new)
        (S.state store.old) (S.state store.new) result (following_of words.now) }
    ensures reported { TellsFaults (F.faults shelf.old) (F.faults shelf.new)
        (W.state wire.old) (W.state wire.new) result }
    ensures no_children { staged_of words.now ≡ None → spawner.new ≡ spawner.old }
    ensures unstored { folder_in (probed_of words.now) ≡ None → recording_of words.now ≡ None
        → recorded_of words.now ≡ None → store.new ≡ store.old }
    ensures untested { probed_of words.now ≡ None → trials.new ≡ trials.old }
    ensures none_left { (case : ℕ) → (T.trial trials.new case).phase ≢ 1 }

    // What else is touched, and what is told.
    ensures fetches { Fetches (following_files (probed_of words.now) (recording_of words.now)
        (recorded_of words.now) (staged_of words.now) (asked_of words.now)
        (following_of words.now))
        (F.files shelf.old) (F.files shelf.new) (F.faults shelf.old) (F.faults shelf.new) }
    ensures reached { Reaches (following_places (probed_of words.now) (recording_of words.now)
        (recorded_of words.now) (staged_of words.now) (asked_of words.now)
        (following_of words.now))
        (following_phase (probed_of words.now) (recording_of words.now)
        (recorded_of words.now) (staged_of words.now) (asked_of words.now) result
        (following_of words.now))
        (W.state wire.old).reached (W.state wire.new).reached }
    ensures touches { Touches (following_reading (probed_of words.now) (recording_of words.now)
        (recorded_of words.now) (staged_of words.now) (asked_of words.now)
        (following_of words.now))
        (following_phase (probed_of words.now) (recording_of words.now)
        (recorded_of words.now) (staged_of words.now) (asked_of words.now) result
        (following_of words.now))
        (W.state wire.old) (W.state wire.new) }
    ensures line { Tells (line_of result)
        (E.written err.old) (E.written err.new) (E.faults err.old) (E.faults err.new) }
    ensures beside_line { E.kept err.new ≡ E.kept err.old }
{
    recorded_plays_replay();
    recorded_arms_replay();
    recorded_sessions_replay();
    match SessionWords::read(words) {
        None => run_with_program(alloc, words, shelf, spawner, store, trials, wire, err, seed),
        Some(words) => {
            let status = follow(alloc, shelf, wire, words, seed);
            tell(err, &status);
            status
        }
    }
}
