//! A transcript of a role, judged by somebody who sees the role.
ghost use Rattle.std.specs.Prelude.{[], ◌∷◌, Some, false};
ghost use Rattle.anb_base.specs.declared.place.Place.TheVariants as place;
ghost use Rattle.anb_command.specs.Causes.{HasCause, NoneRose};
ghost use Rattle.anb_command.specs.Fetches.{Fetches};
ghost use Rattle.anb_command.specs.OverWire.{OverWire};
ghost use Rattle.anb_command.specs.Reaches.{Reaches};
ghost use Rattle.anb_command.specs.Reported.{TellsFaults};
ghost use Rattle.anb_command.specs.Touches.{Touches};
ghost use Rattle.anb_status.specs.Statuses.{phase_of};
ghost use Rattle.anb_role_commands.specs.ReplayCommand.{OnlyReaches};
ghost use Rattle.anb_judge_commands.specs.JudgeCommand.{CompletesJudge, DoesJudge};
ghost use Rattle.anb_judge_commands.specs.Tasks.{CanJudge, IsEndOf, IsJudged, judged_by};

use crate::files::{Task, task_in_files};
use anb_base::{NoMemory, Shelf, Wire};
use anb_command::{ReplayWords, Status, reach_stdio};
use anb_judge::one_judgement;
use anb_read::{narrations_are_unique, none_is_both, refusals_are_unique};
use anb_role_commands::status_of;
use anb_transcript::one_reading;
use anb_values::one_fit;
use std::alloc::Global;

/// Judges the transcript in the file: whether it is one of the role, whatever the role drew. Nothing is
/// read or written.
pub fn judge<F: Shelf, W: Wire>(
    alloc: Global,
    shelf: &mut F,
    wire: &mut W,
    words: ReplayWords,
) -> Status
    ensures does { DoesJudge words.entry.narration.now words.entry.name.now words.entry.values.now
        words.entry.transcript.now (F.files shelf.old)
        (W.state wire.old) (W.state wire.new) result }
    ensures completes { NoneRose (words.entry.narration.now ∷ words.entry.values.now
        ∷ words.entry.transcript.now ∷ [])
        (F.faults shelf.old) (F.faults shelf.new) (W.state wire.old) (W.state wire.new)
        → CompletesJudge words.entry.narration.now words.entry.name.now words.entry.values.now
        words.entry.transcript.now (F.files shelf.old) result }
    ensures faults { HasCause (words.entry.narration.now ∷ words.entry.values.now
        ∷ words.entry.transcript.now ∷ [])
        (Some place.Stdio) (F.faults shelf.old) (F.faults shelf.new)
        (W.state wire.old) (W.state wire.new) result }
    ensures reported { TellsFaults (F.faults shelf.old) (F.faults shelf.new)
        (W.state wire.old) (W.state wire.new) result }
    ensures fetches { Fetches (words.entry.narration.now ∷ words.entry.values.now
        ∷ words.entry.transcript.now ∷ [])
        (F.files shelf.old) (F.files shelf.new) (F.faults shelf.old) (F.faults shelf.new) }
    ensures reached { Reaches (Some place.Stdio) (phase_of result)
        (W.state wire.old).reached (W.state wire.new).reached }
    ensures touches { Touches false (phase_of result) (W.state wire.old) (W.state wire.new) }
{
    narrations_are_unique();
    refusals_are_unique();
    none_is_both();
    one_fit();
    one_reading();
    one_judgement();
    match task_in_files(alloc, shelf, words) {
        Ok(task) => judge_over(alloc, wire, &task),
        Err(status) => status,
    }
}

/// Reaches the standard streams and judges.
fn judge_over<W: Wire>(alloc: Global, wire: &mut W, task: &Task) -> Status
    requires { CanJudge (judged_by task.now.protocol task.now.role task.now.initial.items
        task.now.transcript) }
    ensures judged { IsJudged (judged_by task.now.protocol task.now.role task.now.initial.items
        task.now.transcript) result }
    ensures only_reaches { OnlyReaches (W.state wire.old) (W.state wire.new) }
    ensures wire { OverWire place.Stdio false result (W.state wire.old) (W.state wire.new) }
{
    match reach_stdio(wire) {
        Ok(()) => judge_task(alloc, task),
        Err(status) => status,
    }
}

/// The status of the judgement.
fn judge_task(alloc: Global, task: &Task) -> Status
    requires { CanJudge (judged_by task.now.protocol task.now.role task.now.initial.items
        task.now.transcript) }
    ensures { IsEndOf (judged_by task.now.protocol task.now.role task.now.initial.items
        task.now.transcript) result }
{
    match anb_judge::judge(
        alloc,
        &task.protocol,
        task.role,
        &task.initial,
        &task.transcript,
    ) {
        Ok(end) => status_of(end),
        Err(NoMemory) => Status::NoMemory,
    }
}
