//! All commands, with the one that starts child programs.
ghost use Rattle.std.specs.Prelude.{◌≡◌, ◌↔◌, ◌<◌, ℕ, None};
ghost use Rattle.anb_stage.specs.declared.TheConstants.{ROLES};
ghost use Rattle.anb_command.specs.Causes.{NoneRose};
ghost use Rattle.anb_command.specs.Fetches.{Fetches};
ghost use Rattle.anb_status.specs.Lines.{Tells};
ghost use Rattle.anb_command.specs.Reaches.{Reaches};
ghost use Rattle.anb_command.specs.Reported.{TellsFaults};
ghost use Rattle.anb_status.specs.Statuses.{line_of};
ghost use Rattle.anb_command.specs.Touches.{Touches};
ghost use Rattle.anb_words.specs.Words.{asked_of};
ghost use Rattle.anb_status.specs.declared.status.Status.TheVariants.{Usage};
ghost use Rattle.anb_stage_commands.specs.Words.{staged_of};
ghost use Rattle.anb_run.specs.Stages.{CompletesAny, DoesAny, HasAnyCause, IsAsked, all_files, all_phase, all_places, all_reading};

use crate::run;
use anb_base::{Shelf, Sink, Text, Wire};
use anb_command::{Status, tell};
use anb_stage::Spawner;
use anb_stage_commands::{StageWords, stage};
use std::alloc::Global;

/// Does what the words ask for, as [`run`] does, where child programs may be started too: for
/// `stage` alone, of which `run` knows nothing.
pub fn run_all<F: Shelf, P: Spawner, W: Wire, E: Sink>(
    alloc: Global,
    words: &[Text],
    shelf: &mut F,
    spawner: &mut P,
    wire: &mut W,
    err: &mut E,
    seed: Option<[u8; 32]>,
) -> Status
    requires new { (role : ℕ) → role < ROLES → (P.child spawner.old role).phase ≡ 0 }
    ensures does { DoesAny (asked_of words.now) (F.files shelf.old) seed
        (P.child spawner.old) (P.child spawner.new)
        (W.state wire.old) (W.state wire.new) result (staged_of words.now) }
    ensures completes { NoneRose (all_files (staged_of words.now) (asked_of words.now))
        (F.faults shelf.old) (F.faults shelf.new) (W.state wire.old) (W.state wire.new)
        → CompletesAny (asked_of words.now) (F.files shelf.old) seed
        (P.child spawner.old) (P.child spawner.new)
        (W.state wire.old) (W.state wire.new) result (staged_of words.now) }
    ensures usage { (result ≡ Usage) ↔ (IsAsked (staged_of words.now) (asked_of words.now) → ⊥) }
    ensures faults { HasAnyCause (asked_of words.now) (F.faults shelf.old) (F.faults shelf.new)
        (P.child spawner.old) (P.child spawner.new)
        (W.state wire.old) (W.state wire.new) result (staged_of words.now) }
    ensures reported { TellsFaults (F.faults shelf.old) (F.faults shelf.new)
        (W.state wire.old) (W.state wire.new) result }
    ensures no_children { staged_of words.now ≡ None → spawner.new ≡ spawner.old }

    // What else is touched, and what is told.
    ensures fetches { Fetches (all_files (staged_of words.now) (asked_of words.now))
        (F.files shelf.old) (F.files shelf.new) (F.faults shelf.old) (F.faults shelf.new) }
    ensures reached { Reaches (all_places (staged_of words.now) (asked_of words.now))
        (all_phase (staged_of words.now) (asked_of words.now) result)
        (W.state wire.old).reached (W.state wire.new).reached }
    ensures touches { Touches (all_reading (staged_of words.now) (asked_of words.now))
        (all_phase (staged_of words.now) (asked_of words.now) result)
        (W.state wire.old) (W.state wire.new) }
    ensures line { Tells (line_of result)
        (E.written err.old) (E.written err.new) (E.faults err.old) (E.faults err.new) }
    ensures beside_line { E.kept err.new ≡ E.kept err.old }
{
    match StageWords::read(words) {
        None => run(alloc, words, shelf, wire, err, seed),
        Some(words) => {
            let status = stage(alloc, shelf, spawner, wire, words);
            tell(err, &status);
            status
        }
    }
}
