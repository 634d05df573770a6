//! The relay of a narration's file among child programs, with a record of it in a folder.
ghost use Rattle.std.specs.Prelude.{◌≡◌, ◌<◌, ℕ, length, slice_get, Err, IfErr, IfOk, Some, false};
ghost use Rattle.anb_base.specs.declared.place.Place.TheVariants as place;
ghost use Rattle.anb_stage.specs.declared.TheConstants.{ROLES};
ghost use Rattle.anb_status.specs.Statuses.{phase_of};
ghost use Rattle.anb_command.specs.Causes.{DidNotRise, NoneRose};
ghost use Rattle.anb_command.specs.Fetches.{Fetches};
ghost use Rattle.anb_command.specs.Reaches.{Reaches};
ghost use Rattle.anb_command.specs.Reported.{TellsFaults, TellsFileFaults};
ghost use Rattle.anb_command.specs.Touches.{Touches};
ghost use Rattle.anb_recorded.specs.Outcomes.{recorded_phase};
ghost use Rattle.anb_status.specs.declared.status.Status.TheVariants.{NoMemory};
ghost use Rattle.anb_stage_commands.specs.Asking.{scene_of, staged};
ghost use Rattle.anb_stage_commands.specs.Keeping.{EndsInto, IsKept, IsKeptOf, WentOn};
ghost use Rattle.anb_stage_commands.specs.Relaying.{FailsInFile, FailsRelaying, HasCauseBefore, HasChildCause, IsBefore, Relays, RelaysInFile};
ghost use Rattle.anb_stage_commands.specs.StageCommand.{CompletesStage, DoesStage, HasStageCause, NoChildRose};
ghost use Rattle.anb_stage_commands.specs.Telling.{IsPlace, beside_or, lined_or, missing_of};
ghost use Rattle.anb_stage_commands.specs.declared.record.Lack.{Lack};
ghost use Rattle.anb_stage_commands.specs.StageInto.{CompletesStageInto, DoesStageInto, HasStageIntoCause};
ghost use Rattle.anb_stage_commands.specs.Words.{staged_files};

use crate::StageWords;
use crate::files::Both;
use crate::record::{Lack, Made, RecordLog, files_in, make_all, missing};
use crate::scene::{Scene, scene_in_files};
use crate::staging::{has_few_roles, relayed};
use anb_base::{Shelf, Text, Wire};
use anb_command::{Status, write_text};
use anb_read::{narrations_are_unique, none_is_both, refusals_are_unique};
use anb_recorded::{Ended, Missing};
use anb_recording::Journal;
use anb_stage::{Spawner, relays_are_due};
use anb_values::one_fit;
use std::alloc::Global;

/// Relays as [`stage`](crate::stage) does, and records in the folder what is carried, as it is carried: a
/// transcript for each role, and the report's lines. A folder that has one of these files is refused before
/// a child is started. What can't be recorded holds nothing up.
pub fn stage_into<F: Shelf, P: Spawner, J: Journal, W: Wire>(
    alloc: Global,
    shelf: &mut F,
    spawner: &mut P,
    journal: &mut J,
    wire: &mut W,
    words: StageWords,
    folder: &Text,
) -> Status
    requires new { (role : ℕ) → role < ROLES → (P.child spawner.old role).phase ≡ 0 }
    ensures does { DoesStageInto (staged words.entry) folder.now
        (P.child spawner.old) (P.child spawner.new)
        (W.state wire.old).written (W.state wire.new).written
        (J.state journal.old) (J.state journal.new) result (F.files shelf.old) }
    ensures completes { NoneRose (staged_files (staged words.entry))
        (F.faults shelf.old) (F.faults shelf.new) (W.state wire.old) (W.state wire.new)
        → NoChildRose (P.child spawner.old) (P.child spawner.new)
        → DidNotRise (J.state journal.old).faults (J.state journal.new).faults
        → CompletesStageInto (staged words.entry) folder.now
        (P.child spawner.old) (P.child spawner.new)
        (W.state wire.old).written (W.state wire.new).written
        (J.state journal.old) (J.state journal.new) result (F.files shelf.old) }
    ensures faults { HasStageIntoCause (staged words.entry) folder.now (J.state journal.old)
        (J.state journal.new) (staged_files (staged words.entry))
        (F.faults shelf.old) (F.faults shelf.new) (P.child spawner.old) (P.child spawner.new)
        (W.state wire.old) (W.state wire.new) result }
    ensures reported { TellsFaults (F.faults shelf.old) (F.faults shelf.new)
        (W.state wire.old) (W.state wire.new) result }
    ensures fetches { Fetches (staged_files (staged words.entry))
        (F.files shelf.old) (F.files shelf.new) (F.faults shelf.old) (F.faults shelf.new) }
    ensures reached { Reaches (Some place.Stdio) (recorded_phase result)
        (W.state wire.old).reached (W.state wire.new).reached }
    ensures touches { Touches false (recorded_phase result) (W.state wire.old) (W.state wire.new) }
{
    staged_into(alloc, shelf, spawner, journal, wire, words, folder).told()
}

/// Relays, records that, and writes the report to the standard streams.
fn staged_into<F: Shelf, P: Spawner, J: Journal, W: Wire>(
    alloc: Global,
    shelf: &mut F,
    spawner: &mut P,
    journal: &mut J,
    wire: &mut W,
    words: StageWords,
    folder: &Text,
) -> Ended
    requires new { (role : ℕ) → role < ROLES → (P.child spawner.old role).phase ≡ 0 }
    ensures does { DoesStage (staged words.entry) (P.child spawner.old) (P.child spawner.new)
        (W.state wire.old).written (W.state wire.new).written (F.files shelf.old) result.status }
    ensures completes { NoneRose (staged_files (staged words.entry))
        (F.faults shelf.old) (F.faults shelf.new) (W.state wire.old) (W.state wire.new)
        → NoChildRose (P.child spawner.old) (P.child spawner.new)
        → CompletesStage (staged words.entry) (P.child spawner.old) (F.files shelf.old)
        result.status }
    ensures faults { HasStageCause words.entry.limit (staged_files (staged words.entry))
        (F.faults shelf.old) (F.faults shelf.new) (P.child spawner.old) (P.child spawner.new)
        (W.state wire.old) (W.state wire.new) result.status }
    ensures reported { TellsFaults (F.faults shelf.old) (F.faults shelf.new)
        (W.state wire.old) (W.state wire.new) result.status }
    ensures fetches { Fetches (staged_files (staged words.entry))
        (F.files shelf.old) (F.files shelf.new) (F.faults shelf.old) (F.faults shelf.new) }
    ensures reached { Reaches (Some place.Stdio) (phase_of result.status)
        (W.state wire.old).reached (W.state wire.new).reached }
    ensures touches { Touches false (phase_of result.status)
        (W.state wire.old) (W.state wire.new) }
    ensures ended { EndsInto (staged words.entry) folder.now
        (P.child spawner.old) (P.child spawner.new) (J.state journal.old) (J.state journal.new)
        (F.files shelf.old) result.status result.missing }
{
    narrations_are_unique();
    refusals_are_unique();
    none_is_both();
    one_fit();
    relays_are_due();
    let Kept { outcome, missing } = recorded_in_file(alloc, shelf, spawner, journal, words, folder);
    match outcome {
        Ok(text) => Ended {
            status: write_text(wire, &text),
            missing,
        },
        Err(status) => Ended { status, missing },
    }
}

/// What came of a relay, and what is missing of its record.
#[derive(Drop)]
struct Kept {
    outcome: Result<Vec<u8>, Status>,
    missing: Missing,
}

/// Relays among the children of all roles of the narration in a file, records that, and gives the report.
fn recorded_in_file<F: Shelf, P: Spawner, J: Journal>(
    alloc: Global,
    shelf: &mut F,
    spawner: &mut P,
    journal: &mut J,
    words: StageWords,
    folder: &Text,
) -> Kept
    requires new { (role : ℕ) → role < ROLES → (P.child spawner.old role).phase ≡ 0 }
    ensures relayed { IfOk result.outcome (λ text. RelaysInFile (staged words.entry)
        (P.child spawner.old) (P.child spawner.new) (F.files shelf.old) text.items) }
    ensures failed { IfErr result.outcome (FailsInFile (staged words.entry)
        (P.child spawner.old) (P.child spawner.new) (F.files shelf.old)) }
    ensures before { IfErr result.outcome IsBefore }
    ensures cause { IfErr result.outcome (HasCauseBefore (staged words.entry)
        (P.child spawner.old) (P.child spawner.new) (F.faults shelf.old) (F.faults shelf.new)) }
    ensures fetches { Fetches (staged_files (staged words.entry))
        (F.files shelf.old) (F.files shelf.new) (F.faults shelf.old) (F.faults shelf.new) }
    ensures told { TellsFileFaults result.outcome (F.faults shelf.old) (F.faults shelf.new) }
    ensures kept { IsKept (staged words.entry) folder.now
        (P.child spawner.old) (P.child spawner.new) (J.state journal.old) (J.state journal.new)
        (F.files shelf.old) result.outcome result.missing }
{
    narrations_are_unique();
    refusals_are_unique();
    none_is_both();
    one_fit();
    match scene_in_files(alloc, shelf, words) {
        Ok(scene) => recorded(alloc, spawner, journal, words, &scene, folder),
        Err(status) => Kept {
            outcome: Err(status),
            missing: Missing::Nothing,
        },
    }
}

/// Makes the record's files, relays among the children of all roles of a scene, and gives the report.
fn recorded<P: Spawner, J: Journal>(
    alloc: Global,
    spawner: &mut P,
    journal: &mut J,
    words: StageWords,
    scene: &Scene,
    folder: &Text,
) -> Kept
    requires new { (role : ℕ) → role < ROLES → (P.child spawner.old role).phase ≡ 0 }
    requires counts { length scene.now.words.items ≡ length scene.now.protocol.roles }
    ensures relayed { IfOk result.outcome (λ text. Relays (staged words.entry)
        (P.child spawner.old) (P.child spawner.new)
        (scene_of words.entry.limit scene.now) text.items) }
    ensures failed { IfErr result.outcome (FailsRelaying (staged words.entry)
        (P.child spawner.old) (P.child spawner.new) (scene_of words.entry.limit scene.now)) }
    ensures before { IfErr result.outcome IsBefore }
    ensures cause { IfErr result.outcome
        (HasChildCause words.entry.limit (P.child spawner.old) (P.child spawner.new)) }
    ensures kept { IsKeptOf words.entry.limit folder.now (P.child spawner.old)
        (P.child spawner.new) (J.state journal.old) (J.state journal.new)
        (scene_of words.entry.limit scene.now) result.outcome result.missing }
{
    has_few_roles(&scene.protocol);
    let Ok(files) = files_in(alloc, folder, scene.protocol.roles()) else {
        return unstarted(Missing::Nothing);
    };
    match make_all(alloc, journal, &files) {
        Made::Went(lack) => record_on(alloc, spawner, journal, words, scene, files, lack),
        Made::First(place) => unstarted(Missing::There(lined(files, place))),
        Made::Second(place) => unstarted(Missing::There(beside(files, place))),
    }
}

/// Relays and gives the report, where the files were made but for what is missing.
fn record_on<P: Spawner, J: Journal>(
    alloc: Global,
    spawner: &mut P,
    journal: &mut J,
    words: StageWords,
    scene: &Scene,
    files: Vec<Both>,
    lack: Lack,
) -> Kept
    requires new { (role : ℕ) → role < ROLES → (P.child spawner.old role).phase ≡ 0 }
    requires counts { length scene.now.words.items ≡ length scene.now.protocol.roles }
    requires place { IsPlace (length files.items) lack }
    ensures relayed { IfOk result.outcome (λ text. Relays (staged words.entry)
        (P.child spawner.old) (P.child spawner.new)
        (scene_of words.entry.limit scene.now) text.items) }
    ensures failed { IfErr result.outcome (FailsRelaying (staged words.entry)
        (P.child spawner.old) (P.child spawner.new) (scene_of words.entry.limit scene.now)) }
    ensures before { IfErr result.outcome IsBefore }
    ensures cause { IfErr result.outcome
        (HasChildCause words.entry.limit (P.child spawner.old) (P.child spawner.new)) }
    ensures went { (after : Lack) × (result.missing ≡ missing_of files.items after)
        × WentOn words.entry.limit (scene_of words.entry.limit scene.now)
        (P.child spawner.old) (P.child spawner.new) files.items
        (J.state journal.old) (J.state journal.new) lack after result.outcome }
{
    let mut log = RecordLog {
        alloc,
        journal,
        files: &files,
        lack,
    };
    let outcome = carried(alloc, spawner, &mut log, scene, words);
    let RecordLog {
        alloc: _,
        journal: _,
        files: _,
        lack,
    } = log;
    Kept {
        outcome,
        missing: missing(files, lack),
    }
}

/// Relays and gives the report, and tells the log how many messages there are where all were handed on.
fn carried<P: Spawner, J: Journal>(
    alloc: Global,
    spawner: &mut P,
    log: &mut RecordLog<'_, '_, J>,
    scene: &Scene,
    words: StageWords,
) -> Result<Vec<u8>, Status>
    requires new { (role : ℕ) → role < ROLES → (P.child spawner.old role).phase ≡ 0 }
    requires counts { length scene.now.words.items ≡ length scene.now.protocol.roles }
    ensures relayed { IfOk result (λ text. Relays (staged words.entry)
        (P.child spawner.old) (P.child spawner.new)
        (scene_of words.entry.limit scene.now) text.items) }
    ensures failed { IfErr result (FailsRelaying (staged words.entry)
        (P.child spawner.old) (P.child spawner.new) (scene_of words.entry.limit scene.now)) }
    ensures before { IfErr result IsBefore }
    ensures cause { IfErr result
        (HasChildCause words.entry.limit (P.child spawner.old) (P.child spawner.new)) }
    ensures same_reference { log.new.journal.ghost_name ≡ log.old.journal.ghost_name }
    ensures same_files { log.new.files.now ≡ log.old.files.now }
    ensures went { WentOn words.entry.limit (scene_of words.entry.limit scene.now)
        (P.child spawner.old) (P.child spawner.new) log.old.files.now
        (J.state log.old.journal.now) (J.state log.new.journal.now)
        log.old.lack log.new.lack result }
{
    let text = match relayed(alloc, spawner, log, scene, words) {
        Ok(text) => text,
        Err(status) => return Err(status),
    };
    log.end(scene.protocol.messages().len());
    Ok(text)
}

/// The name of the first file at a place.
fn lined(mut files: Vec<Both>, place: usize) -> Text
    requires { place < length files.items }
    ensures { result ≡ lined_or (slice_get files.items place) }
{
    files.swap_remove(place).lined
}

/// That of the second.
fn beside(mut files: Vec<Both>, place: usize) -> Text
    requires { place < length files.items }
    ensures { result ≡ beside_or (slice_get files.items place) }
{
    files.swap_remove(place).beside
}

/// A relay that ended before a child was started.
fn unstarted(missing: Missing) -> Kept
    ensures outcome { result.outcome ≡ Err NoMemory }
    ensures missing { result.missing ≡ missing }
{
    Kept {
        outcome: Err(Status::NoMemory),
        missing,
    }
}
