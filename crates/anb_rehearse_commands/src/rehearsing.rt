//! Rehearsals of a narration over a schedule.
ghost use Rattle.std.specs.Prelude.{◌≡◌, ◌⊎◌, ◌<◌, ◌≤◌, [], ◌∷◌, length, Some, false, All};
ghost use Rattle.anb_base.specs.declared.TheConstants.{ARRIVAL};
ghost use Rattle.anb_base.specs.declared.place.Place.TheVariants as place;
ghost use Rattle.anb_honest.specs.declared.TheConstants.{TURNS};
ghost use Rattle.anb_honest.specs.Joint.{cast, joint};
ghost use Rattle.anb_honest.specs.Order.{FollowRoles};
ghost use Rattle.anb_protocol.specs.Texts.{known_names};
ghost use Rattle.anb_text.specs.Writing.{IsWritten};
ghost use Rattle.anb_command.specs.Causes.{HasCause, HasWireCause, NoneRose};
ghost use Rattle.anb_command.specs.Fetches.{Fetches};
ghost use Rattle.anb_command.specs.OverWire.{OnlyWrites, OverWire};
ghost use Rattle.anb_command.specs.Reaches.{Reaches};
ghost use Rattle.anb_command.specs.Reported.{TellsFaults, TellsWireFaults};
ghost use Rattle.anb_status.specs.Statuses.{after_reach, before_reach, phase_of};
ghost use Rattle.anb_command.specs.Touches.{Touches};
ghost use Rattle.anb_status.specs.declared.status.Status.TheVariants as status;
ghost use Rattle.anb_rehearse_commands.specs.RehearseCommand.{CompletesRehearse, DoesRehearse};
ghost use Rattle.anb_rehearse_commands.specs.Reports.{report_text};
ghost use Rattle.anb_rehearse_commands.specs.Telling.{CanRehearse, GoesOn, IsRehearsedTo, IsTold, asked_by};

use crate::files::{Prepared, prepare};
use crate::report::write_report;
use anb_base::{NoMemory, Shelf, Wire};
use anb_command::{RehearseWords, Report, Status, reach_stdio};
use anb_honest::{
    RehearseEnd, complete_is_tested, fitting_codes_follow, honest_bytes_exist, plays_are_honest,
    rehearsals_are_honest,
};
use anb_read::{narrations_are_unique, none_is_both, refusals_are_unique};
use anb_text::WriteNo;
use anb_values::one_fit;
use std::alloc::Global;

/// Plays all roles of a narration over a schedule, and writes a report. Each role's draws are those of
/// the session that has the role's number.
pub fn rehearse<F: Shelf, W: Wire>(
    alloc: Global,
    shelf: &mut F,
    wire: &mut W,
    words: RehearseWords,
    host_seed: Option<[u8; 32]>,
) -> Status
    ensures does { DoesRehearse words.entry.narration.now words.entry.values.now
        words.entry.schedule.now (F.files shelf.old) host_seed
        (W.state wire.old) (W.state wire.new) result }
    ensures completes { NoneRose (words.entry.narration.now ∷ words.entry.values.now
        ∷ words.entry.schedule.now ∷ [])
        (F.faults shelf.old) (F.faults shelf.new) (W.state wire.old) (W.state wire.new)
        → CompletesRehearse words.entry.narration.now words.entry.values.now
        words.entry.schedule.now (F.files shelf.old) host_seed
        (W.state wire.old) (W.state wire.new) result }
    ensures faults { HasCause (words.entry.narration.now ∷ words.entry.values.now
        ∷ words.entry.schedule.now ∷ [])
        (Some place.Stdio) (F.faults shelf.old) (F.faults shelf.new)
        (W.state wire.old) (W.state wire.new) result }
    ensures reported { TellsFaults (F.faults shelf.old) (F.faults shelf.new)
        (W.state wire.old) (W.state wire.new) result }
    ensures fetches { Fetches (words.entry.narration.now ∷ words.entry.values.now
        ∷ words.entry.schedule.now ∷ [])
        (F.files shelf.old) (F.files shelf.new) (F.faults shelf.old) (F.faults shelf.new) }
    ensures reached { Reaches (Some place.Stdio) (phase_of result)
        (W.state wire.old).reached (W.state wire.new).reached }
    ensures touches { Touches false (phase_of result) (W.state wire.old) (W.state wire.new) }
{
    narrations_are_unique();
    refusals_are_unique();
    none_is_both();
    one_fit();
    match prepare(alloc, shelf, words, host_seed) {
        Ok(prepared) => rehearse_over(alloc, wire, &prepared),
        Err(status) => status,
    }
}

/// Reaches the standard streams and rehearses.
fn rehearse_over<W: Wire>(alloc: Global, wire: &mut W, prepared: &Prepared) -> Status
    requires { CanRehearse prepared.now.staged.protocol prepared.now.staged.codes.items
        prepared.now.staged.values prepared.now.turns.items }
    ensures comes { IsRehearsedTo (asked_by prepared.now.staged.protocol
        prepared.now.staged.values prepared.now.staged.seed prepared.now.turns.items) result
        (W.state wire.old).written (W.state wire.new).written }
    ensures late { phase_of result ≡ before_reach → ⊥ }
    ensures wire { OverWire place.Stdio false result (W.state wire.old) (W.state wire.new) }
{
    complete_is_tested();
    fitting_codes_follow();
    honest_bytes_exist();
    plays_are_honest(&prepared.staged.protocol);
    rehearsals_are_honest(&prepared.staged.protocol);
    match reach_stdio(wire) {
        Ok(()) => rehearse_now(alloc, wire, prepared),
        Err(status) => status,
    }
}

/// Rehearses over a wire that was reached.
fn rehearse_now<W: Wire>(alloc: Global, wire: &mut W, prepared: &Prepared) -> Status
    requires codes { FollowRoles prepared.now.staged.protocol prepared.now.staged.codes.items }
    requires count { length prepared.now.staged.values
        ≡ length (known_names prepared.now.staged.protocol) }
    requires short { All (λ value. length value ≤ ARRIVAL) prepared.now.staged.values }
    requires roles { All (λ role. role < length prepared.now.staged.protocol.roles)
        prepared.now.turns.items }
    requires few { length prepared.now.turns.items ≤ TURNS }
    requires goes_on { GoesOn (joint (cast prepared.now.staged.protocol
        prepared.now.staged.codes.items prepared.now.staged.values prepared.now.staged.seed)
        prepared.now.turns.items) }
    ensures told { IsTold (joint (cast prepared.now.staged.protocol
        prepared.now.staged.codes.items prepared.now.staged.values prepared.now.staged.seed)
        prepared.now.turns.items) result
        (W.state wire.old).written (W.state wire.new).written }
    ensures after { (phase_of result ≡ after_reach) ⊎ (result ≡ status.NoMemory) }
    ensures cause { HasWireCause (Some place.Stdio) (W.state wire.old) (W.state wire.new) result }
    ensures reported { TellsWireFaults (W.state wire.old) (W.state wire.new) result }
    ensures only { OnlyWrites (W.state wire.old) (W.state wire.new) }
{
    let Prepared { staged, turns } = prepared;
    let values = staged.values.as_slice();
    match anb_honest::rehearse(
        alloc,
        &staged.protocol,
        &staged.codes,
        values,
        &staged.seed,
        turns,
    ) {
        Ok(end) => write_end(alloc, wire, end),
        Err(NoMemory) => Status::NoMemory,
    }
}

/// Writes the report of a rehearsal that ended so, and tells its status.
fn write_end<W: Wire>(alloc: Global, wire: &mut W, end: RehearseEnd) -> Status
    requires { GoesOn end }
    ensures told { IsTold end result (W.state wire.old).written (W.state wire.new).written }
    ensures after { (phase_of result ≡ after_reach) ⊎ (result ≡ status.NoMemory) }
    ensures cause { HasWireCause (Some place.Stdio) (W.state wire.old) (W.state wire.new) result }
    ensures reported { TellsWireFaults (W.state wire.old) (W.state wire.new) result }
    ensures only { OnlyWrites (W.state wire.old) (W.state wire.new) }
{
    match end {
        RehearseEnd::AllDone(report) => match write_report_now(alloc, wire, &report) {
            Ok(()) => Status::Done,
            Err(WriteNo::Failed) => Status::WriteFault,
            Err(WriteNo::NoMemory) => Status::NoMemory,
        },
        RehearseEnd::Part(report) => match write_report_now(alloc, wire, &report) {
            Ok(()) => Status::NotAll(report),
            Err(WriteNo::Failed) => Status::WriteFault,
            Err(WriteNo::NoMemory) => Status::NoMemory,
        },
        RehearseEnd::LongMessage { action, len } => Status::LongMessage { action, len },
        RehearseEnd::Stopped { .. } => unreachable!(),
    }
}

/// Writes a report to a wire that was reached.
fn write_report_now<W: Wire>(alloc: Global, wire: &mut W, report: &Report) -> Result<(), WriteNo>
    ensures writes { IsWritten (report_text report.now) result
        (W.state wire.old).written (W.state wire.new).written
        (W.state wire.old).write_faults (W.state wire.new).write_faults }
    ensures only { OnlyWrites (W.state wire.old) (W.state wire.new) }
{
    write_report(alloc, wire, report)
}
