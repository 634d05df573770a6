//! A program that is tried as a role.
ghost use Rattle.std.specs.Prelude.{◌≡◌, ◌≢◌, ℕ, Some, false};
ghost use Rattle.anb_base.specs.declared.place.Place.TheVariants as place;
ghost use Rattle.anb_command.specs.Causes.{NoneRose};
ghost use Rattle.anb_command.specs.Fetches.{Fetches};
ghost use Rattle.anb_command.specs.Reaches.{Reaches};
ghost use Rattle.anb_command.specs.Reported.{TellsFaults};
ghost use Rattle.anb_command.specs.Touches.{Touches};
ghost use Rattle.anb_probe_commands.specs.Asking.{probing, trying_by};
ghost use Rattle.anb_probe_commands.specs.Keeping.{KeepsBy};
ghost use Rattle.anb_probe_commands.specs.Playing.{CanPlay, OverTrials, TaskComesTo};
ghost use Rattle.anb_probe_commands.specs.ProbeCommand.{ComesTo, CompletesProbe, DoesProbe, HasProbeCause, StartFailed, probe_files, probe_phase};
ghost use Rattle.anb_probe_commands.specs.Tasks.{CanProbe, agenda_by, probing_by};
ghost use Rattle.anb_probe_commands.specs.Words.{order_of};

use crate::cases::{Prepared, prepare};
use crate::files::{Task, task_in_files};
use crate::keeping::{Keeper, NoKeeper};
use crate::reporting::probe_reached;
use crate::words::{ProbeWords, TryWords};
use anb_base::{Shelf, Text, Wire};
use anb_command::{Status, reach_stdio};
use anb_partner::Trials;
use anb_read::{narrations_are_unique, none_is_both, refusals_are_unique};
use anb_values::one_fit;
use std::alloc::Global;

/// Tries a program as the role that the words name: a child for each case, against everybody else, and a
/// report on the standard streams. All cases are found before any child is started, and the line of each
/// is written when it is over, before the next child is started.
pub fn probe<F: Shelf, T: Trials, W: Wire>(
    alloc: Global,
    shelf: &mut F,
    trials: &mut T,
    wire: &mut W,
    words: ProbeWords,
    host_seed: Option<[u8; 32]>,
) -> Status
    requires untried { (case : ℕ) → (T.trial trials.old case).phase ≡ 0 }
    ensures does { DoesProbe (probing words.entry) (F.files shelf.old) host_seed
        (T.trial trials.old) (T.trial trials.new) (W.state wire.old) (W.state wire.new) result }
    ensures completes { NoneRose (probe_files (probing words.entry))
        (F.faults shelf.old) (F.faults shelf.new) (W.state wire.old) (W.state wire.new)
        → (StartFailed (T.trial trials.old) (T.trial trials.new) → ⊥)
        → CompletesProbe (probing words.entry) (F.files shelf.old) host_seed
        (T.trial trials.old) (T.trial trials.new) (W.state wire.old) (W.state wire.new) result }
    ensures faults { HasProbeCause (probe_files (probing words.entry))
        (F.faults shelf.old) (F.faults shelf.new) (T.trial trials.old) (T.trial trials.new)
        (W.state wire.old) (W.state wire.new) result }
    ensures reported { TellsFaults (F.faults shelf.old) (F.faults shelf.new)
        (W.state wire.old) (W.state wire.new) result }
    ensures fetches { Fetches (probe_files (probing words.entry))
        (F.files shelf.old) (F.files shelf.new) (F.faults shelf.old) (F.faults shelf.new) }
    ensures reached { Reaches (Some place.Stdio) (probe_phase result)
        (W.state wire.old).reached (W.state wire.new).reached }
    ensures touches { Touches false (probe_phase result) (W.state wire.old) (W.state wire.new) }
    ensures none_left { (case : ℕ) → (T.trial trials.new case).phase ≢ 1 }
{
    narrations_are_unique();
    refusals_are_unique();
    none_is_both();
    one_fit();
    match task_in_files(alloc, shelf, words, host_seed) {
        Ok(task) => probe_task(alloc, trials, wire, &task, words),
        Err(status) => status,
    }
}

/// Tries the program as the role of a task. The role's name is copied before the first child is started,
/// so a fault is told whatever memory there is.
fn probe_task<T: Trials, W: Wire>(
    alloc: Global,
    trials: &mut T,
    wire: &mut W,
    task: &Task,
    words: ProbeWords,
) -> Status
    requires can { CanProbe (probing_by task.now.protocol task.now.role task.now.values
        task.now.seed) task.now.code }
    requires untried { (case : ℕ) → (T.trial trials.old case).phase ≡ 0 }
    ensures comes { TaskComesTo (probing_by task.now.protocol task.now.role task.now.values
        task.now.seed) (trying_by words.entry.trying) words.entry.name.now
        (T.trial trials.old) (T.trial trials.new) (W.state wire.old) (W.state wire.new) result }
    ensures over { OverTrials (T.trial trials.old) (T.trial trials.new)
        (W.state wire.old) (W.state wire.new) result }
    ensures none_left { (case : ℕ) → (T.trial trials.new case).phase ≢ 1 }
{
    let Ok(name) = words.name.copy(alloc) else {
        return Status::NoMemory;
    };
    match prepare(alloc, task, words.trying) {
        Ok(prepared) => probe_over(
            alloc,
            trials,
            wire,
            &mut NoKeeper,
            task,
            &prepared,
            words.trying,
            name,
        ),
        Err(status) => status,
    }
}

/// Reaches the standard streams and tries the program.
pub(crate) fn probe_over<T: Trials, W: Wire, K: Keeper>(
    alloc: Global,
    trials: &mut T,
    wire: &mut W,
    keeper: &mut K,
    task: &Task,
    prepared: &Prepared,
    trying: TryWords,
    name: Text,
) -> Status
    requires can { CanPlay (probing_by task.now.protocol task.now.role task.now.values task.now.seed)
        prepared.now }
    requires untried { (case : ℕ) → (T.trial trials.old case).phase ≡ 0 }
    ensures comes { ComesTo (probing_by task.now.protocol task.now.role task.now.values
        task.now.seed) (trying_by trying.entry) (agenda_by prepared.now) name
        (T.trial trials.old) (T.trial trials.new)
        (W.state wire.old).written (W.state wire.new).written result }
    ensures kept { KeepsBy
        (probing_by task.now.protocol task.now.role task.now.values task.now.seed)
        prepared.now.scenes.items (order_of (trying_by trying.entry)) prepared.now.cases.items
        (λ some. K.After keeper.old some keeper.new)
        (T.trial trials.old) (T.trial trials.new) result }
    ensures over { OverTrials (T.trial trials.old) (T.trial trials.new)
        (W.state wire.old) (W.state wire.new) result }
    ensures none_left { (case : ℕ) → (T.trial trials.new case).phase ≢ 1 }
{
    match reach_stdio(wire) {
        Ok(()) => probe_reached(alloc, trials, wire, keeper, task, prepared, trying, name),
        Err(status) => status,
    }
}
