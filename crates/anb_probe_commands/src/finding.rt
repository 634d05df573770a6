//! What is told of the cases that were played: their verdicts, and what their children drew.
ghost use Rattle.std.specs.Prelude.{◌≡◌, map, IfOk};
ghost use Rattle.std.specs.List.{AllByRecursion};
ghost use Rattle.anb_draws.specs.Draws.{IsDrawn};
ghost use Rattle.anb_probe_commands.specs.Plays.{AreTold, judged_over, verdicts_of};
ghost use Rattle.anb_probe_commands.specs.Playing.{CanJudge, CanPlay, end_in};
ghost use Rattle.anb_probe_commands.specs.Tasks.{probing_by};

use crate::cases::Prepared;
use crate::files::Task;
use crate::playing::Outcome;
use anb_base::NoMemory;
use anb_draws::{Draws, drawn};
use anb_transcript::Transcript;
use anb_verdict::Verdict;
use std::alloc::Global;

/// Of each case, in order, its verdict, and what can be told of its child's draws.
#[derive(Drop)]
pub(crate) struct Found {
    pub(crate) verdicts: Vec<Verdict>,
    pub(crate) draws: Vec<Draws>,
}

/// What is told of these cases.
pub(crate) fn found_in(
    alloc: Global,
    task: &Task,
    prepared: &Prepared,
    outcomes: &[Outcome],
) -> Result<Found, NoMemory>
    requires can { CanPlay (probing_by task.now.protocol task.now.role task.now.values task.now.seed)
        prepared.now }
    requires judge { AllByRecursion CanJudge (map end_in outcomes.now) }
    ensures verdicts { IfOk result (λ found.
        found.verdicts.items ≡ verdicts_of (map end_in outcomes.now)) }
    ensures draws { IfOk result (λ found. AreTold
        (probing_by task.now.protocol task.now.role task.now.values task.now.seed)
        (map end_in outcomes.now) found.draws.items) }
{
    let verdicts = verdicts_of(alloc, outcomes)?;
    let draws = draws_of(alloc, task, prepared, outcomes)?;
    Ok(Found { verdicts, draws })
}

/// The verdicts.
fn verdicts_of(alloc: Global, outcomes: &[Outcome]) -> Result<Vec<Verdict>, NoMemory>
    ensures { IfOk result (λ verdicts.
        verdicts.items ≡ verdicts_of (map end_in outcomes.now)) }
{
    let mut verdicts = Vec::new(alloc);
    for outcome in outcomes {
        verdicts.push(outcome.verdict)?;
    }
    Ok(verdicts)
}

/// The draws.
fn draws_of(
    alloc: Global,
    task: &Task,
    prepared: &Prepared,
    outcomes: &[Outcome],
) -> Result<Vec<Draws>, NoMemory>
    requires can { CanPlay (probing_by task.now.protocol task.now.role task.now.values task.now.seed)
        prepared.now }
    requires judge { AllByRecursion CanJudge (map end_in outcomes.now) }
    ensures { IfOk result (λ told. AreTold
        (probing_by task.now.protocol task.now.role task.now.values task.now.seed)
        (map end_in outcomes.now) told.items) }
{
    let mut told = Vec::new(alloc);
    for outcome in outcomes {
        told.push(drawn_in(alloc, task, prepared, outcome)?)?;
    }
    Ok(told)
}

/// Those of one case.
fn drawn_in(
    alloc: Global,
    task: &Task,
    prepared: &Prepared,
    outcome: &Outcome,
) -> Result<Draws, NoMemory>
    requires can { CanPlay (probing_by task.now.protocol task.now.role task.now.values task.now.seed)
        prepared.now }
    requires judge { CanJudge (end_in outcome.now) }
    ensures { IfOk result (IsDrawn (judged_over
        (probing_by task.now.protocol task.now.role task.now.values task.now.seed)
        outcome.now.lines)) }
{
    drawn(
        alloc,
        &task.protocol,
        task.role,
        &prepared.values.initial,
        &outcome.lines,
    )
}
