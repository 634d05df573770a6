//! All commands, with those that keep a record in a file of a store.
ghost use Rattle.std.specs.Prelude.{◌≡◌, ◌↔◌, ◌<◌, ℕ, Some, None, true};
ghost use Rattle.anb_stage.specs.declared.TheConstants.{ROLES};
ghost use Rattle.anb_command.specs.Causes.{NoneRose};
ghost use Rattle.anb_command.specs.Fetches.{Fetches};
ghost use Rattle.anb_status.specs.Lines.{Tells};
ghost use Rattle.anb_command.specs.Reaches.{Reaches};
ghost use Rattle.anb_command.specs.Reported.{TellsFaults};
ghost use Rattle.anb_status.specs.Statuses.{line_of, phase_of};
ghost use Rattle.anb_command.specs.Touches.{Touches};
ghost use Rattle.anb_words.specs.Words.{asked_of, files_of, place_of};
ghost use Rattle.anb_status.specs.declared.status.Status.TheVariants.{Usage};
ghost use Rattle.anb_park_commands.specs.Asking.{recorded};
ghost use Rattle.anb_park_commands.specs.Words.{recorded_of, without_file};
ghost use Rattle.anb_park_commands.specs.Parking.{HasParkCause};
ghost use Rattle.anb_stage_commands.specs.Words.{staged_of};
ghost use Rattle.anb_run.specs.Stores.{CompletesRecorded, CompletesStoring, DoesRecorded, DoesStoring, HasStoringCause, IsAskedStoring, file_of, storing_files, storing_phase, storing_places, storing_reading};

use crate::run_all;
use anb_base::{Shelf, Sink, Text, Wire};
use anb_command::{Status, tell};
use anb_park_commands::{RecordWords, park_into, resume_into};
use anb_stage::Spawner;
use anb_store::Store;
use std::alloc::Global;

/// Does what the words ask for, as [`run_all`] does, where a record may go to a file of the store too:
/// that of `park` and of `resume`, where their words end with `--record` and its name.
pub fn run_with_store<F: Shelf, P: Spawner, S: Store, W: Wire, E: Sink>(
    alloc: Global,
    words: &[Text],
    shelf: &mut F,
    spawner: &mut P,
    store: &mut S,
    wire: &mut W,
    err: &mut E,
    seed: Option<[u8; 32]>,
) -> Status
    requires new { (role : ℕ) → role < ROLES → (P.child spawner.old role).phase ≡ 0 }
    ensures does { DoesStoring (staged_of words.now) (asked_of words.now) (F.files shelf.old) seed
        (P.child spawner.old) (P.child spawner.new) (W.state wire.old) (W.state wire.new)
        (S.state store.old) (S.state store.new) result (recorded_of words.now) }
    ensures completes { NoneRose
        (storing_files (recorded_of words.now) (staged_of words.now) (asked_of words.now))
        (F.faults shelf.old) (F.faults shelf.new) (W.state wire.old) (W.state wire.new)
        → CompletesStoring (staged_of words.now) (asked_of words.now) (F.files shelf.old) seed
        (P.child spawner.old) (P.child spawner.new) (W.state wire.old) (W.state wire.new)
        (S.state store.old) (S.state store.new) result (recorded_of words.now) }
    ensures usage { (result ≡ Usage) ↔ (IsAskedStoring (recorded_of words.now)
        (staged_of words.now) (asked_of words.now) → ⊥) }
    ensures faults { HasStoringCause (staged_of words.now) (asked_of words.now)
        (F.faults shelf.old) (F.faults shelf.new) (P.child spawner.old) (P.child spawner.new)
        (W.state wire.old) (W.state wire.new) (S.state store.old) (S.state store.new) result
        (recorded_of words.now) }
    ensures reported { TellsFaults (F.faults shelf.old) (F.faults shelf.new)
        (W.state wire.old) (W.state wire.new) result }
    ensures no_children { staged_of words.now ≡ None → spawner.new ≡ spawner.old }
    ensures unstored { recorded_of words.now ≡ None → store.new ≡ store.old }

    // What else is touched, and what is told.
    ensures fetches { Fetches
        (storing_files (recorded_of words.now) (staged_of words.now) (asked_of words.now))
        (F.files shelf.old) (F.files shelf.new) (F.faults shelf.old) (F.faults shelf.new) }
    ensures reached { Reaches
        (storing_places (recorded_of words.now) (staged_of words.now) (asked_of words.now))
        (storing_phase (recorded_of words.now) (staged_of words.now) (asked_of words.now) result)
        (W.state wire.old).reached (W.state wire.new).reached }
    ensures touches { Touches
        (storing_reading (recorded_of words.now) (staged_of words.now) (asked_of words.now))
        (storing_phase (recorded_of words.now) (staged_of words.now) (asked_of words.now) result)
        (W.state wire.old) (W.state wire.new) }
    ensures line { Tells (line_of result)
        (E.written err.old) (E.written err.new) (E.faults err.old) (E.faults err.new) }
    ensures beside_line { E.kept err.new ≡ E.kept err.old }
{
    match RecordWords::read(words) {
        None => run_all(alloc, words, shelf, spawner, wire, err, seed),
        Some(words) => {
            let status = keep(alloc, words, shelf, store, wire, seed);
            tell(err, &status);
            status
        }
    }
}

/// Does what the words of a record's file ask for.
fn keep<F: Shelf, S: Store, W: Wire>(
    alloc: Global,
    words: RecordWords,
    shelf: &mut F,
    store: &mut S,
    wire: &mut W,
    seed: Option<[u8; 32]>,
) -> Status
    ensures does { DoesRecorded (F.files shelf.old) seed (W.state wire.old) (W.state wire.new)
        (S.state store.old) (S.state store.new) result (recorded words.entry) }
    ensures completes { NoneRose (files_of (Some (without_file (recorded words.entry))))
        (F.faults shelf.old) (F.faults shelf.new) (W.state wire.old) (W.state wire.new)
        → CompletesRecorded (F.files shelf.old) seed (W.state wire.old) (W.state wire.new)
        (S.state store.old) (S.state store.new) result (recorded words.entry) }
    ensures faults { HasParkCause (file_of (recorded words.entry))
        (files_of (Some (without_file (recorded words.entry))))
        (place_of (Some (without_file (recorded words.entry))))
        (F.faults shelf.old) (F.faults shelf.new) (W.state wire.old) (W.state wire.new)
        (S.state store.old) (S.state store.new) result }
    ensures reported { TellsFaults (F.faults shelf.old) (F.faults shelf.new)
        (W.state wire.old) (W.state wire.new) result }
    ensures fetches { Fetches (files_of (Some (without_file (recorded words.entry))))
        (F.files shelf.old) (F.files shelf.new) (F.faults shelf.old) (F.faults shelf.new) }
    ensures reached { Reaches (place_of (Some (without_file (recorded words.entry))))
        (phase_of result) (W.state wire.old).reached (W.state wire.new).reached }
    ensures touches { Touches true (phase_of result) (W.state wire.old) (W.state wire.new) }
{
    match words {
        RecordWords::Park(words, file) => {
            park_into(alloc, shelf, wire, store, words, file, seed)
        }
        RecordWords::Resume(words, file) => resume_into(alloc, shelf, wire, store, words, file),
    }
}
