//! A program that is tried as a role, with a record of that in a folder.
ghost use Rattle.std.specs.Prelude.{◌≡◌, ◌≢◌, ◌⊎◌, ℕ, Some, false};
ghost use Rattle.anb_base.specs.declared.place.Place.TheVariants as place;
ghost use Rattle.anb_command.specs.Causes.{DidNotRise, NoneRose};
ghost use Rattle.anb_command.specs.Fetches.{Fetches};
ghost use Rattle.anb_command.specs.Reaches.{Reaches};
ghost use Rattle.anb_command.specs.Reported.{TellsFaults};
ghost use Rattle.anb_command.specs.Touches.{Touches};
ghost use Rattle.anb_recorded.specs.Outcomes.{AreAbsent, IsMissing};
ghost use Rattle.anb_recorded.specs.declared.ended.Missing.TheVariants as missing;
ghost use Rattle.anb_status.specs.Statuses.{before_reach};
ghost use Rattle.anb_status.specs.declared.status.Status.TheVariants as status;
ghost use Rattle.anb_probe_commands.specs.Asking.{probing, trying_by};
ghost use Rattle.anb_probe_commands.specs.Keeping.{Goes, KeepsBy, RecordsCases, RecordsTask};
ghost use Rattle.anb_probe_commands.specs.Playing.{CanPlay, OverTrials, TaskComesTo};
ghost use Rattle.anb_probe_commands.specs.ProbeCommand.{ComesTo, CompletesProbe, DoesProbe, HasProbeCause, StartFailed, probe_files, probe_phase};
ghost use Rattle.anb_probe_commands.specs.ProbeInto.{CompletesProbeInto, DoesProbeInto, HasProbeIntoCause, IsRecorded, into_phase};
ghost use Rattle.anb_probe_commands.specs.Records.{IsOfRecord};
ghost use Rattle.anb_probe_commands.specs.Tasks.{CanProbe, agenda_by, fitted_by, probing_by};
ghost use Rattle.anb_probe_commands.specs.Words.{order_of};

use crate::cases::{Prepared, prepare};
use crate::files::{Task, task_in_files, values_of};
use crate::probing::probe_over;
use crate::record::{RecordKeeper, open};
use crate::words::{ProbeWords, TryWords};
use anb_base::{Shelf, Text, Wire};
use anb_command::Status;
use anb_partner::Trials;
use anb_read::{narrations_are_unique, none_is_both, refusals_are_unique};
use anb_recorded::{Ended, Missing};
use anb_recording::Journal;
use anb_values::one_fit;
use std::alloc::Global;

/// Tries a program as [`probe`](crate::probe) does, and records it in the folder: the values of the role,
/// and the transcript of each case once it is over. A folder that has one of the record's files is refused
/// before a child is started. What can't be recorded holds nothing up.
pub fn probe_into<F: Shelf, T: Trials, J: Journal, W: Wire>(
    alloc: Global,
    shelf: &mut F,
    trials: &mut T,
    journal: &mut J,
    wire: &mut W,
    words: ProbeWords,
    folder: &Text,
    host_seed: Option<[u8; 32]>,
) -> Status
    requires untried { (case : ℕ) → (T.trial trials.old case).phase ≡ 0 }
    ensures does { DoesProbeInto (probing words.entry) folder.now (F.files shelf.old) host_seed
        (T.trial trials.old) (T.trial trials.new) (W.state wire.old) (W.state wire.new)
        (J.state journal.old) (J.state journal.new) result }
    ensures completes { NoneRose (probe_files (probing words.entry))
        (F.faults shelf.old) (F.faults shelf.new) (W.state wire.old) (W.state wire.new)
        → (StartFailed (T.trial trials.old) (T.trial trials.new) → ⊥)
        → DidNotRise (J.state journal.old).faults (J.state journal.new).faults
        → CompletesProbeInto (probing words.entry) folder.now (F.files shelf.old) host_seed
        (T.trial trials.old) (T.trial trials.new) (W.state wire.old) (W.state wire.new)
        (J.state journal.old) (J.state journal.new) result }
    ensures faults { HasProbeIntoCause folder.now (J.state journal.old) (J.state journal.new)
        (probe_files (probing words.entry)) (F.faults shelf.old) (F.faults shelf.new)
        (T.trial trials.old) (T.trial trials.new) (W.state wire.old) (W.state wire.new) result }
    ensures reported { TellsFaults (F.faults shelf.old) (F.faults shelf.new)
        (W.state wire.old) (W.state wire.new) result }
    ensures fetches { Fetches (probe_files (probing words.entry))
        (F.files shelf.old) (F.files shelf.new) (F.faults shelf.old) (F.faults shelf.new) }
    ensures reached { Reaches (Some place.Stdio) (into_phase result)
        (W.state wire.old).reached (W.state wire.new).reached }
    ensures touches { Touches false (into_phase result) (W.state wire.old) (W.state wire.new) }
    ensures none_left { (case : ℕ) → (T.trial trials.new case).phase ≢ 1 }
{
    probe_recorded(
        alloc, shelf, trials, journal, wire, words, folder, host_seed,
    )
    .told()
}

/// Tries a program, and tells how that ended and what is missing of the record.
fn probe_recorded<F: Shelf, T: Trials, J: Journal, W: Wire>(
    alloc: Global,
    shelf: &mut F,
    trials: &mut T,
    journal: &mut J,
    wire: &mut W,
    words: ProbeWords,
    folder: &Text,
    host_seed: Option<[u8; 32]>,
) -> Ended
    requires untried { (case : ℕ) → (T.trial trials.old case).phase ≡ 0 }
    ensures does { DoesProbe (probing words.entry) (F.files shelf.old) host_seed
        (T.trial trials.old) (T.trial trials.new) (W.state wire.old) (W.state wire.new)
        result.status }
    ensures completes { NoneRose (probe_files (probing words.entry))
        (F.faults shelf.old) (F.faults shelf.new) (W.state wire.old) (W.state wire.new)
        → (StartFailed (T.trial trials.old) (T.trial trials.new) → ⊥)
        → CompletesProbe (probing words.entry) (F.files shelf.old) host_seed
        (T.trial trials.old) (T.trial trials.new) (W.state wire.old) (W.state wire.new)
        result.status }
    ensures faults { HasProbeCause (probe_files (probing words.entry))
        (F.faults shelf.old) (F.faults shelf.new) (T.trial trials.old) (T.trial trials.new)
        (W.state wire.old) (W.state wire.new) result.status }
    ensures reported { TellsFaults (F.faults shelf.old) (F.faults shelf.new)
        (W.state wire.old) (W.state wire.new) result.status }
    ensures fetches { Fetches (probe_files (probing words.entry))
        (F.files shelf.old) (F.files shelf.new) (F.faults shelf.old) (F.faults shelf.new) }
    ensures reached { Reaches (Some place.Stdio) (probe_phase result.status)
        (W.state wire.old).reached (W.state wire.new).reached }
    ensures touches { Touches false (probe_phase result.status)
        (W.state wire.old) (W.state wire.new) }
    ensures why_missed { IsMissing (IsOfRecord folder.now) (J.state journal.old)
        (J.state journal.new) (W.state wire.old) (W.state wire.new) result.status result.missing }
    ensures fresh { ((T.trial trials.new ≡ T.trial trials.old)
        × (W.state wire.new ≡ W.state wire.old))
        ⊎ AreAbsent (IsOfRecord folder.now) (J.state journal.old) }
    ensures leaves { probe_phase result.status ≡ before_reach
        → J.state journal.new ≡ J.state journal.old }
    ensures recorded { (probe_phase result.status ≡ before_reach → ⊥)
        → result.status ≢ status.NoMemory → result.missing ≡ missing.Nothing
        → IsRecorded (probing words.entry) folder.now (F.files shelf.old) host_seed
        (T.trial trials.old) (T.trial trials.new) (W.state wire.old) (W.state wire.new)
        (J.state journal.old) (J.state journal.new) result.status }
    ensures none_left { (case : ℕ) → (T.trial trials.new case).phase ≢ 1 }
{
    narrations_are_unique();
    refusals_are_unique();
    none_is_both();
    one_fit();
    match task_in_files(alloc, shelf, words, host_seed) {
        Ok(task) => record_task(alloc, trials, journal, wire, &task, words, folder),
        Err(status) => Ended {
            status,
            missing: Missing::Nothing,
        },
    }
}

/// Tries the program as the role of a task. The role's name is copied before the first child is started,
/// so a fault is told whatever memory there is.
fn record_task<T: Trials, J: Journal, W: Wire>(
    alloc: Global,
    trials: &mut T,
    journal: &mut J,
    wire: &mut W,
    task: &Task,
    words: ProbeWords,
    folder: &Text,
) -> Ended
    requires can { CanProbe (probing_by task.now.protocol task.now.role task.now.values
        task.now.seed) task.now.code }
    requires untried { (case : ℕ) → (T.trial trials.old case).phase ≡ 0 }
    ensures comes { TaskComesTo (probing_by task.now.protocol task.now.role task.now.values
        task.now.seed) (trying_by words.entry.trying) words.entry.name.now
        (T.trial trials.old) (T.trial trials.new) (W.state wire.old) (W.state wire.new)
        result.status }
    ensures over { OverTrials (T.trial trials.old) (T.trial trials.new)
        (W.state wire.old) (W.state wire.new) result.status }
    ensures why_missed { IsMissing (IsOfRecord folder.now) (J.state journal.old)
        (J.state journal.new) (W.state wire.old) (W.state wire.new) result.status result.missing }
    ensures fresh { ((T.trial trials.new ≡ T.trial trials.old)
        × (W.state wire.new ≡ W.state wire.old))
        ⊎ AreAbsent (IsOfRecord folder.now) (J.state journal.old) }
    ensures leaves { probe_phase result.status ≡ before_reach
        → J.state journal.new ≡ J.state journal.old }
    ensures recorded { (probe_phase result.status ≡ before_reach → ⊥)
        → result.status ≢ status.NoMemory → result.missing ≡ missing.Nothing
        → RecordsTask (probing_by task.now.protocol task.now.role task.now.values task.now.seed)
        folder.now (fitted_by task.now.values task.now.file_seed)
        (J.state journal.old) (J.state journal.new) (T.trial trials.old) (T.trial trials.new)
        result.status (trying_by words.entry.trying) }
    ensures none_left { (case : ℕ) → (T.trial trials.new case).phase ≢ 1 }
{
    let Ok(name) = words.name.copy(alloc) else {
        return wanting();
    };
    match prepare(alloc, task, words.trying) {
        Ok(prepared) => record_cases(
            alloc,
            trials,
            journal,
            wire,
            task,
            &prepared,
            words.trying,
            folder,
            name,
        ),
        Err(status) => Ended {
            status,
            missing: Missing::Nothing,
        },
    }
}

/// Makes the file of the role's values, and tries the program. A folder that has one of the record's files
/// is refused before that.
fn record_cases<T: Trials, J: Journal, W: Wire>(
    alloc: Global,
    trials: &mut T,
    journal: &mut J,
    wire: &mut W,
    task: &Task,
    prepared: &Prepared,
    trying: TryWords,
    folder: &Text,
    name: Text,
) -> Ended
    requires can { CanPlay (probing_by task.now.protocol task.now.role task.now.values task.now.seed)
        prepared.now }
    requires untried { (case : ℕ) → (T.trial trials.old case).phase ≡ 0 }
    ensures comes { ((result.status ≡ status.NoMemory)
        × (T.trial trials.new ≡ T.trial trials.old) × (W.state wire.new ≡ W.state wire.old))
        ⊎ ComesTo (probing_by task.now.protocol task.now.role task.now.values task.now.seed)
        (trying_by trying.entry) (agenda_by prepared.now) name
        (T.trial trials.old) (T.trial trials.new)
        (W.state wire.old).written (W.state wire.new).written result.status }
    ensures over { OverTrials (T.trial trials.old) (T.trial trials.new)
        (W.state wire.old) (W.state wire.new) result.status }
    ensures why_missed { IsMissing (IsOfRecord folder.now) (J.state journal.old)
        (J.state journal.new) (W.state wire.old) (W.state wire.new) result.status result.missing }
    ensures fresh { ((T.trial trials.new ≡ T.trial trials.old)
        × (W.state wire.new ≡ W.state wire.old))
        ⊎ AreAbsent (IsOfRecord folder.now) (J.state journal.old) }
    ensures recorded { result.status ≢ status.NoMemory → result.missing ≡ missing.Nothing
        → RecordsCases (probing_by task.now.protocol task.now.role task.now.values task.now.seed)
        folder.now (fitted_by task.now.values task.now.file_seed)
        (J.state journal.old) (J.state journal.new) (T.trial trials.old) (T.trial trials.new)
        result.status (agenda_by prepared.now) (order_of (trying_by trying.entry)) }
    ensures none_left { (case : ℕ) → (T.trial trials.new case).phase ≢ 1 }
{
    let Ok(values) = values_of(alloc, task) else {
        return wanting();
    };
    match open(alloc, journal, folder, &values) {
        Missing::Nothing => record_on(
            alloc,
            trials,
            journal,
            wire,
            task,
            prepared,
            trying,
            folder,
            Missing::Nothing,
            name,
        ),
        Missing::Unwritten(file) => record_on(
            alloc,
            trials,
            journal,
            wire,
            task,
            prepared,
            trying,
            folder,
            Missing::Unwritten(file),
            name,
        ),
        Missing::There(file) => Ended {
            status: Status::NoMemory,
            missing: Missing::There(file),
        },
        Missing::NoMemory => wanting(),
    }
}

/// Tries the program, and writes the transcripts where nothing is missing so far.
fn record_on<T: Trials, J: Journal, W: Wire>(
    alloc: Global,
    trials: &mut T,
    journal: &mut J,
    wire: &mut W,
    task: &Task,
    prepared: &Prepared,
    trying: TryWords,
    folder: &Text,
    missing: Missing,
    name: Text,
) -> Ended
    requires can { CanPlay (probing_by task.now.protocol task.now.role task.now.values task.now.seed)
        prepared.now }
    requires untried { (case : ℕ) → (T.trial trials.old case).phase ≡ 0 }
    ensures comes { ComesTo (probing_by task.now.protocol task.now.role task.now.values
        task.now.seed) (trying_by trying.entry) (agenda_by prepared.now) name
        (T.trial trials.old) (T.trial trials.new)
        (W.state wire.old).written (W.state wire.new).written result.status }
    ensures over { OverTrials (T.trial trials.old) (T.trial trials.new)
        (W.state wire.old) (W.state wire.new) result.status }
    ensures kept { KeepsBy
        (probing_by task.now.protocol task.now.role task.now.values task.now.seed)
        prepared.now.scenes.items (order_of (trying_by trying.entry)) prepared.now.cases.items
        (λ some. Goes folder.now (J.state journal.old) (J.state journal.new) missing
        result.missing some) (T.trial trials.old) (T.trial trials.new) result.status }
    ensures none_left { (case : ℕ) → (T.trial trials.new case).phase ≢ 1 }
{
    let mut missing = missing;
    let mut keeper = RecordKeeper {
        alloc,
        journal,
        folder,
        missing: &mut missing,
    };
    let status = probe_telling(
        alloc,
        trials,
        wire,
        &mut keeper,
        task,
        prepared,
        trying,
        name,
    );
    let RecordKeeper {
        alloc: _,
        journal: _,
        folder: _,
        missing: _,
    } = keeper;
    Ended { status, missing }
}

/// Tries the program, and tells who writes the transcripts.
fn probe_telling<T: Trials, J: Journal, W: Wire>(
    alloc: Global,
    trials: &mut T,
    wire: &mut W,
    keeper: &mut RecordKeeper<'_, '_, '_, J>,
    task: &Task,
    prepared: &Prepared,
    trying: TryWords,
    name: Text,
) -> Status
    requires can { CanPlay (probing_by task.now.protocol task.now.role task.now.values task.now.seed)
        prepared.now }
    requires untried { (case : ℕ) → (T.trial trials.old case).phase ≡ 0 }
    ensures comes { ComesTo (probing_by task.now.protocol task.now.role task.now.values
        task.now.seed) (trying_by trying.entry) (agenda_by prepared.now) name
        (T.trial trials.old) (T.trial trials.new)
        (W.state wire.old).written (W.state wire.new).written result }
    ensures over { OverTrials (T.trial trials.old) (T.trial trials.new)
        (W.state wire.old) (W.state wire.new) result }
    ensures same_reference { keeper.new.journal.ghost_name ≡ keeper.old.journal.ghost_name }
    ensures same_folder { keeper.new.folder.now ≡ keeper.old.folder.now }
    ensures same_place { keeper.new.missing.ghost_name ≡ keeper.old.missing.ghost_name }
    ensures kept { KeepsBy
        (probing_by task.now.protocol task.now.role task.now.values task.now.seed)
        prepared.now.scenes.items (order_of (trying_by trying.entry)) prepared.now.cases.items
        (λ some. Goes keeper.old.folder.now (J.state keeper.old.journal.now)
        (J.state keeper.new.journal.now) keeper.old.missing.now keeper.new.missing.now some)
        (T.trial trials.old) (T.trial trials.new) result }
    ensures none_left { (case : ℕ) → (T.trial trials.new case).phase ≢ 1 }
{
    probe_over(alloc, trials, wire, keeper, task, prepared, trying, name)
}

/// A test that ended for want of memory before a child was started.
fn wanting() -> Ended
    ensures status { result.status ≡ status.NoMemory }
    ensures missing { result.missing ≡ missing.Nothing }
{
    Ended {
        status: Status::NoMemory,
        missing: Missing::Nothing,
    }
}
