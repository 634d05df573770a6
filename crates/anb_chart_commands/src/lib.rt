//! Commands that show a protocol to a person, and read nothing from the wire.
#![tactic(auto)]

mod choices;
mod telling;

ghost use Rattle.std.specs.Prelude.{◌≡◌, ◌<◌, [], ◌∷◌, length, Some, false, IfErr, IfOk};
ghost use Rattle.anb_base.specs.declared.place.Place.TheVariants as place;
ghost use Rattle.anb_chart.specs.Charts.{chart};
ghost use Rattle.anb_compile.specs.Fitting.{FitsRole};
ghost use Rattle.anb_command.specs.Causes.{HasCause, NoneRose};
ghost use Rattle.anb_base.specs.Moves.{Rose};
ghost use Rattle.anb_command.specs.Fetches.{Fetches, IfTold};
ghost use Rattle.anb_command.specs.OverWire.{OnlyWrites, OverWire};
ghost use Rattle.anb_command.specs.Reaches.{Reaches};
ghost use Rattle.anb_command.specs.Reported.{TellsFaults, TellsFileFaults};
ghost use Rattle.anb_status.specs.Statuses.{IsEarly, phase_of};
ghost use Rattle.anb_command.specs.Steps.{IsFailure, given, refused};
ghost use Rattle.anb_command.specs.Touches.{Touches};
ghost use Rattle.anb_command.specs.Writing.{IsWritingOne};
ghost use Rattle.anb_chart_commands.specs.ReportCommands.{ChartOf, CompletesChart, CompletesRoleChart, DoesChart, DoesRoleChart, IsRoleChart, RoleChartText, branched, one};
ghost use Rattle.anb_chart_commands.specs.Views.{IsDrawable, told_of};
ghost use Rattle.anb_choice.specs.Lawful.{IsLawful};
ghost use Rattle.anb_choice.specs.Views.{branched_of};
ghost use Rattle.anb_text.specs.Writing.{IsWritten};

use crate::choices::choice_chart;
use crate::telling::{Told, told_in_file};
use anb_accept::taken_by;
use anb_base::{Bytes, Failed, NoMemory, Place, Shelf, Text, Wire};
use anb_chart::write_chart;
use anb_choice::{Branched, choices_are_unique, no_choice_is_refused};
use anb_code::RoleCode;
use anb_command::{Status, playable_in_file, reach_streams, write_text};
use anb_protocol::Protocol;
use anb_read::{narrations_are_unique, none_is_both, refusals_are_unique};
use anb_report::role_chart;
use anb_text::WriteNo;
use std::alloc::Global;

/// Writes the chart of the protocol in the file, in Mermaid's language; or that of a choice, with its
/// stem once, and its arms in a block.
pub fn chart<F: Shelf, W: Wire>(
    alloc: Global,
    shelf: &mut F,
    wire: &mut W,
    narration: &Text,
) -> Status
    ensures does { DoesChart narration.now (F.files shelf.old)
        (W.state wire.old) (W.state wire.new) result }
    ensures completes { NoneRose (narration.now ∷ []) (F.faults shelf.old) (F.faults shelf.new)
        (W.state wire.old) (W.state wire.new)
        → CompletesChart narration.now (F.files shelf.old) result }
    ensures faults { HasCause (narration.now ∷ []) (Some place.Stdio)
        (F.faults shelf.old) (F.faults shelf.new) (W.state wire.old) (W.state wire.new) result }
    ensures reported { TellsFaults (F.faults shelf.old) (F.faults shelf.new)
        (W.state wire.old) (W.state wire.new) result }
    ensures fetches { Fetches (narration.now ∷ [])
        (F.files shelf.old) (F.files shelf.new) (F.faults shelf.old) (F.faults shelf.new) }
    ensures reached { Reaches (Some place.Stdio) (phase_of result)
        (W.state wire.old).reached (W.state wire.new).reached }
    ensures touches { Touches false (phase_of result) (W.state wire.old) (W.state wire.new) }
{
    narrations_are_unique();
    refusals_are_unique();
    none_is_both();
    choices_are_unique();
    no_choice_is_refused();
    match told_in_file(alloc, shelf, narration) {
        Ok(told) => write_told(alloc, wire, &told),
        Err(status) => status,
    }
}

/// Writes the chart of what a text tells to the standard streams.
fn write_told<W: Wire>(alloc: Global, wire: &mut W, told: &Told) -> Status
    requires { IsDrawable (told_of told.now) }
    ensures writes { IsWritingOne (ChartOf (told_of told.now)) result
        (W.state wire.old).written (W.state wire.new).written }
    ensures wire { OverWire place.Stdio false result (W.state wire.old) (W.state wire.new) }
{
    match told {
        Told::One(protocol) => write_charted(alloc, wire, protocol),
        Told::Branched(branched) => write_branched(alloc, wire, branched),
    }
}

/// Writes the chart of a choice to the standard streams.
fn write_branched<W: Wire>(alloc: Global, wire: &mut W, b: &Branched) -> Status
    requires { IsLawful (branched_of b.now) }
    ensures writes { IsWritingOne (ChartOf (branched (branched_of b.now))) result
        (W.state wire.old).written (W.state wire.new).written }
    ensures wire { OverWire place.Stdio false result (W.state wire.old) (W.state wire.new) }
{
    match choice_chart(alloc, b) {
        Ok(text) => write_text(wire, &text),
        Err(NoMemory) => Status::NoMemory,
    }
}

/// Writes the chart of a protocol to the standard streams.
fn write_charted<W: Wire>(alloc: Global, wire: &mut W, protocol: &Protocol) -> Status
    ensures writes { IsWritingOne (ChartOf (one protocol.now)) result
        (W.state wire.old).written (W.state wire.new).written }
    ensures wire { OverWire place.Stdio false result (W.state wire.old) (W.state wire.new) }
{
    match reach_streams(wire) {
        Ok(()) => {}
        Err(Failed) => return Status::Unreached(Place::Stdio),
    }
    match write_lines(alloc, wire, protocol) {
        Ok(()) => Status::Done,
        Err(WriteNo::Failed) => Status::WriteFault,
        Err(WriteNo::NoMemory) => Status::NoMemory,
    }
}

/// Writes it to a wire that was reached.
fn write_lines<W: Wire>(alloc: Global, wire: &mut W, protocol: &Protocol) -> Result<(), WriteNo>
    ensures writes { IsWritten (chart protocol.now) result
        (W.state wire.old).written (W.state wire.new).written
        (W.state wire.old).write_faults (W.state wire.new).write_faults }
    ensures only { OnlyWrites (W.state wire.old) (W.state wire.new) }
{
    write_chart(alloc, wire, protocol)
}

/// Writes the chart of the protocol in the file, with what the role with this name checks and learns.
pub fn chart_for<F: Shelf, W: Wire>(
    alloc: Global,
    shelf: &mut F,
    wire: &mut W,
    narration: &Text,
    role: &Text,
) -> Status
    ensures does { DoesRoleChart narration.now role.now (F.files shelf.old)
        (W.state wire.old) (W.state wire.new) result }
    ensures completes { NoneRose (narration.now ∷ []) (F.faults shelf.old) (F.faults shelf.new)
        (W.state wire.old) (W.state wire.new)
        → CompletesRoleChart narration.now role.now (F.files shelf.old) result }
    ensures faults { HasCause (narration.now ∷ []) (Some place.Stdio)
        (F.faults shelf.old) (F.faults shelf.new) (W.state wire.old) (W.state wire.new) result }
    ensures reported { TellsFaults (F.faults shelf.old) (F.faults shelf.new)
        (W.state wire.old) (W.state wire.new) result }
    ensures fetches { Fetches (narration.now ∷ [])
        (F.files shelf.old) (F.files shelf.new) (F.faults shelf.old) (F.faults shelf.new) }
    ensures reached { Reaches (Some place.Stdio) (phase_of result)
        (W.state wire.old).reached (W.state wire.new).reached }
    ensures touches { Touches false (phase_of result) (W.state wire.old) (W.state wire.new) }
{
    narrations_are_unique();
    refusals_are_unique();
    none_is_both();
    match role_charted(alloc, shelf, narration, role) {
        Ok(text) => write_text(wire, text.as_slice()),
        Err(status) => status,
    }
}

/// The chart for the role with this name in a narration's file.
fn role_charted<F: Shelf>(
    alloc: Global,
    shelf: &mut F,
    narration: &Text,
    role: &Text,
) -> Result<Bytes, Status>
    ensures given { IfOk result (λ text. IfTold (F.files shelf.old) (λ files.
        RoleChartText files narration.now role.now (given text))) }
    ensures refused { IfErr result (λ status. IsFailure status
        (λ file. (file ≡ narration.now) × Rose (F.faults shelf.old file) (F.faults shelf.new file))
        (IfTold (F.files shelf.old) (λ files.
        RoleChartText files narration.now role.now (refused status)))) }
    ensures early { IfErr result IsEarly }
    ensures fetches { Fetches (narration.now ∷ [])
        (F.files shelf.old) (F.files shelf.new) (F.faults shelf.old) (F.faults shelf.new) }
    ensures told { TellsFileFaults result (F.faults shelf.old) (F.faults shelf.new) }
{
    let playable = match playable_in_file(alloc, shelf, narration, role) {
        Ok(playable) => playable,
        Err(status) => return Err(status),
    };
    match chart_of_role(alloc, &playable.protocol, playable.role, &playable.code) {
        Ok(text) => Ok(text),
        Err(NoMemory) => Err(Status::NoMemory),
    }
}

/// The chart for a role, by a code of it and by what it takes.
fn chart_of_role(
    alloc: Global,
    protocol: &Protocol,
    role: u32,
    code: &RoleCode,
) -> Result<Bytes, NoMemory>
    requires role { role < length protocol.now.roles }
    requires fits { FitsRole protocol.now role code.now }
    ensures { IfOk result (λ text. IsRoleChart
        (record { protocol = protocol.now; role = role }) text) }
{
    let _verified = code.instrs();
    let taken = taken_by(alloc, protocol, role)?;
    role_chart(alloc, protocol, role, code, &taken)
}
