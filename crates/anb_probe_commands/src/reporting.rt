//! The report on a program over a wire that was reached, as the cases go on.
ghost use Rattle.std.specs.Prelude.{◌≡◌, ◌≢◌, ◌<◌, ◌≤◌, ℕ, length, IfOk, IfErr, OnOk};
ghost use Rattle.anb_attempts.specs.declared.attempts.TheConstants.{MOST};
ghost use Rattle.anb_verdict.specs.Texts.{first_lines, no_such_case};
ghost use Rattle.anb_probe_commands.specs.Asking.{trying_by};
ghost use Rattle.anb_probe_commands.specs.Cases.{is_beyond};
ghost use Rattle.anb_probe_commands.specs.Keeping.{IsSame, Keeps, KeepsBy, KeepsLess};
ghost use Rattle.anb_probe_commands.specs.Playing.{Broke, BrokeIn, CanPlay, EndsLate, PlaysAll, PlaysLess, Wrote, status_of};
ghost use Rattle.anb_probe_commands.specs.ProbeCommand.{ComesTo};
ghost use Rattle.anb_probe_commands.specs.Reports.{notes};
ghost use Rattle.anb_probe_commands.specs.Tasks.{agenda_by, probing_by};
ghost use Rattle.anb_probe_commands.specs.Words.{order_of};

use crate::cases::Prepared;
use crate::counting::status_for;
use crate::files::Task;
use crate::finding::{Found, found_in};
use crate::keeping::Keeper;
use crate::playing::play_cases;
use crate::report::notes;
use crate::words::TryWords;
use crate::writing::{PlayNo, write_lines};
use anb_base::{NoMemory, Text, Wire};
use anb_command::Status;
use anb_draws::Draws;
use anb_partner::Trials;
use anb_verdict::{Verdict, first_lines, no_such_case};
use std::alloc::Global;

/// Tries the program, where there is what is asked for.
pub(crate) fn probe_reached<T: Trials, W: Wire, K: Keeper>(
    alloc: Global,
    trials: &mut T,
    wire: &mut W,
    keeper: &mut K,
    task: &Task,
    prepared: &Prepared,
    trying: TryWords,
    name: Text,
) -> Status
    requires can { CanPlay (probing_by task.now.protocol task.now.role task.now.values task.now.seed)
        prepared.now }
    requires untried { (case : ℕ) → (T.trial trials.old case).phase ≡ 0 }
    ensures comes { ComesTo (probing_by task.now.protocol task.now.role task.now.values
        task.now.seed) (trying_by trying.entry) (agenda_by prepared.now) name
        (T.trial trials.old) (T.trial trials.new)
        (W.state wire.old).written (W.state wire.new).written result }
    ensures kept { KeepsBy
        (probing_by task.now.protocol task.now.role task.now.values task.now.seed)
        prepared.now.scenes.items (order_of (trying_by trying.entry)) prepared.now.cases.items
        (λ some. K.After keeper.old some keeper.new)
        (T.trial trials.old) (T.trial trials.new) result }
    ensures ends { EndsLate (T.trial trials.old) (T.trial trials.new)
        (W.state wire.old) (W.state wire.new) result }
    ensures none_left { (case : ℕ) → (T.trial trials.new case).phase ≢ 1 }
{
    if is_beyond(trying.case, prepared.count) {
        return match write_none(alloc, wire, prepared.count) {
            Ok(()) => Status::Done,
            Err(no) => status_of(no, name),
        };
    }
    match play_all(alloc, trials, wire, keeper, task, prepared, trying) {
        Ok(verdicts) => status_for(&verdicts),
        Err(no) => status_of(no, name),
    }
}

/// Whether there is no case with this number.
fn is_beyond(case: Option<u32>, count: u32) -> bool
    ensures { result ≡ is_beyond case count }
{
    match case {
        Some(number) => count < number,
        None => false,
    }
}

/// Writes that there are so many cases.
fn write_none<W: Wire>(alloc: Global, wire: &mut W, count: u32) -> Result<(), PlayNo>
    ensures wrote { OnOk result
        (Wrote (W.state wire.old) (W.state wire.new) (no_such_case count)) }
    ensures broke { IfErr result
        (BrokeIn (no_such_case count) (W.state wire.old) (W.state wire.new)) }
{
    write_lines(wire, no_such_case(alloc, count))
}

/// Tries the program in all cases, and writes the report.
fn play_all<T: Trials, W: Wire, K: Keeper>(
    alloc: Global,
    trials: &mut T,
    wire: &mut W,
    keeper: &mut K,
    task: &Task,
    prepared: &Prepared,
    trying: TryWords,
) -> Result<Vec<Verdict>, PlayNo>
    requires can { CanPlay (probing_by task.now.protocol task.now.role task.now.values task.now.seed)
        prepared.now }
    requires untried { (case : ℕ) → (T.trial trials.old case).phase ≡ 0 }
    ensures all { IfOk result (λ verdicts. PlaysAll
        (probing_by task.now.protocol task.now.role task.now.values task.now.seed)
        (agenda_by prepared.now) (order_of (trying_by trying.entry))
        (T.trial trials.old) (T.trial trials.new)
        (W.state wire.old) (W.state wire.new) verdicts.items) }
    ensures cut { IfErr result (PlaysLess
        (probing_by task.now.protocol task.now.role task.now.values task.now.seed)
        (agenda_by prepared.now) (order_of (trying_by trying.entry))
        (T.trial trials.old) (T.trial trials.new)
        (W.state wire.old).written (W.state wire.new).written) }
    ensures kept { OnOk result (Keeps
        (probing_by task.now.protocol task.now.role task.now.values task.now.seed)
        prepared.now.scenes.items (order_of (trying_by trying.entry)) prepared.now.cases.items
        (λ some. K.After keeper.old some keeper.new) (T.trial trials.old) (T.trial trials.new)
        IsSame) }
    ensures kept_less { IfErr result (KeepsLess
        (probing_by task.now.protocol task.now.role task.now.values task.now.seed)
        prepared.now.scenes.items (order_of (trying_by trying.entry)) prepared.now.cases.items
        (λ some. K.After keeper.old some keeper.new)
        (T.trial trials.old) (T.trial trials.new)) }
    ensures broke { IfErr result (Broke (W.state wire.old) (W.state wire.new)) }
    ensures none_left { (case : ℕ) → (T.trial trials.new case).phase ≢ 1 }
{
    match write_first(alloc, wire, prepared) {
        Ok(()) => {}
        Err(no) => return Err(no),
    }
    let outcomes = match play_cases(alloc, trials, wire, keeper, task, prepared, trying) {
        Ok(outcomes) => outcomes,
        Err(no) => return Err(no),
    };
    let found = match found_in(alloc, task, prepared, &outcomes) {
        Ok(found) => found,
        Err(NoMemory) => return Err(PlayNo::NoMemory),
    };
    let Found { verdicts, draws } = found;
    match write_notes(alloc, wire, task, prepared, &draws, &verdicts) {
        Ok(()) => Ok(verdicts),
        Err(no) => Err(no),
    }
}

/// Writes the first lines.
fn write_first<W: Wire>(alloc: Global, wire: &mut W, prepared: &Prepared) -> Result<(), PlayNo>
    requires { length prepared.now.cases.items ≤ MOST }
    ensures wrote { OnOk result (Wrote (W.state wire.old) (W.state wire.new)
        (first_lines (length prepared.now.cases.items))) }
    ensures broke { IfErr result (BrokeIn (first_lines (length prepared.now.cases.items))
        (W.state wire.old) (W.state wire.new)) }
{
    let lines = first_lines(alloc, prepared.cases.len() as u32);
    write_lines(wire, lines)
}

/// Writes what stands behind the cases.
fn write_notes<W: Wire>(
    alloc: Global,
    wire: &mut W,
    task: &Task,
    prepared: &Prepared,
    told: &[Draws],
    verdicts: &[Verdict],
) -> Result<(), PlayNo>
    requires role { task.now.role < length task.now.protocol.roles }
    requires told { length told.now ≤ MOST }
    requires verdicts { length verdicts.now ≤ MOST }
    ensures wrote { OnOk result (Wrote (W.state wire.old) (W.state wire.new)
        (notes task.now.protocol task.now.role prepared.now.cases.items
        prepared.now.untried.items told.now verdicts.now)) }
    ensures broke { IfErr result (BrokeIn (notes task.now.protocol task.now.role
        prepared.now.cases.items prepared.now.untried.items told.now verdicts.now)
        (W.state wire.old) (W.state wire.new)) }
{
    let lines = notes(
        alloc,
        &task.protocol,
        task.role,
        &prepared.cases,
        &prepared.untried,
        told,
        verdicts,
    );
    write_lines(wire, lines)
}

/// The status where not all cases were played, of a role with this name.
fn status_of(no: PlayNo, name: Text) -> Status
    ensures { result ≡ status_of no name }
{
    match no {
        PlayNo::NotStarted => Status::ChildFault(name),
        PlayNo::Failed => Status::WriteFault,
        PlayNo::NoMemory => Status::NoMemory,
    }
}
