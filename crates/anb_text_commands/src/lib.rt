//! Commands that write one text and read nothing from the wire.
#![tactic(auto)]

ghost use Rattle.std.specs.Prelude.{◌≡◌, ◌<◌, [], ◌∷◌, length, IfOk, IfErr, Some, true, false};
ghost use Rattle.anb_base.specs.Moves.{Rose};
ghost use Rattle.anb_base.specs.declared.TheConstants.{ARRIVAL, WIDE};
ghost use Rattle.anb_base.specs.declared.place.Place.TheVariants as place;
ghost use Rattle.anb_code.specs.Verified.{IsVerifiedCode};
ghost use Rattle.anb_code.specs.Spelling.{raw_of};
ghost use Rattle.anb_compile.specs.Fitting.{FitsRole};
ghost use Rattle.anb_compile.specs.Laws.{FittingCodesPlay};
ghost use Rattle.anb_text.specs.RoleFiles.{IsSpellable};
ghost use Rattle.anb_command.specs.Causes.{HasCause, NoneRose};
ghost use Rattle.anb_command.specs.Fetches.{Fetches, IfTold};
ghost use Rattle.anb_command.specs.OverWire.{OnlyWrites, OverWire};
ghost use Rattle.anb_command.specs.Reaches.{Reaches};
ghost use Rattle.anb_command.specs.Reported.{TellsFaults, TellsFileFaults};
ghost use Rattle.anb_status.specs.Statuses.{IsEarly, is_fault, phase_of};
ghost use Rattle.anb_command.specs.Steps.{IsFailure, refused, given};
ghost use Rattle.anb_command.specs.Touches.{Touches};
ghost use Rattle.anb_status.specs.declared.status.Status.TheVariants as status;
ghost use Rattle.anb_text_commands.specs.TextCommands.{CompletesDescribe, CompletesFmt, CompletesHelp, CompletesPage};
ghost use Rattle.anb_text_commands.specs.TextCommands.{DoesDescribe, DoesFmt, DoesHelp, DoesPage};
ghost use Rattle.anb_text_commands.specs.TextCommands.{CanBeTold, DescribedText, FmtText, IsTextOf, IsWrittenByLines, text_by};
ghost use Rattle.anb_text.specs.Writing.{IsWritten};

mod pages;
mod texts;

use crate::pages::text_of as text_on;
use anb_base::{Bytes, Failed, NoMemory, Place, Shelf, Text, Wire};
use anb_command::{
    Playable, RoleText, Status, narration_in_file, playable_in_file, reach_streams, write_text,
};
use anb_compile::fitting_codes_play;
use anb_explain::{Explanation, explanation_of, write_explanation};
use anb_help::Page;
use anb_read::{narrations_are_unique, none_is_both, refusals_are_unique};
use anb_syntax::text_of;
use anb_text::{WriteNo, write_role_file};
use std::alloc::Global;

/// A line for each command that is built.
const HELP: &str = concat!(
    "anb fmt <narration>\n",
    "anb compile <narration> <role>\n",
    "anb explain <narration> <role>\n",
    "anb play <narration> <role> <values> [place] [--record <folder>]\n",
    "anb enact <rolefile> <values> [place] [--record <folder>]\n",
    "anb replay <narration> <role> <values> <transcript> [--session <n>]\n",
    "anb host <narration> <role> <values> [place] [--record <folder>]\n",
    "anb rehearse <narration> <values> <schedule>\n",
    "anb drill <n>\n",
    "anb help\n",
    "anb branch <narration> <role> <values> [--arm <n>] [place] [--record <folder>]\n",
    "anb certify <narration> <role> <rolefile>\n",
    "anb why <narration>\n",
    "anb park <narration> <role> <values> <key> [place] [--record <file>]\n",
    "anb resume <narration> <role> <record> <key> [place] [--record <file>]\n",
    "anb stage <narration> <folder or values> [--as <role> <program>].. [--timeout <seconds>] [--record <folder>]\n",
    "anb chart <narration> [--role <name>]\n",
    "anb check <narration> [<role> <values>]\n",
    "anb trace <narration> <role> <values> <transcript> [--session <n>]\n",
    "anb values <narration> [<role> <values>]\n",
    "anb judge <narration> <role> <values> <transcript>\n",
    "anb probe <narration> <role> <values> [--all] [--case <n>] [--timeout <seconds>] [--record <folder>] --dial <where> or -- <program> <word>..\n",
);

/// The canonical text of the narration in the file.
fn canonical_text<F: Shelf>(alloc: Global, shelf: &mut F, narration: &Text) -> Result<Bytes, Status>
    ensures given { IfOk result (λ text. IfTold (F.files shelf.old) (λ files.
        FmtText files narration.now (given text))) }
    ensures refused { IfErr result (λ status. IsFailure status
        (λ file. (file ≡ narration.now) × Rose (F.faults shelf.old file) (F.faults shelf.new file))
        (IfTold (F.files shelf.old) (λ files. FmtText files narration.now (refused status)))) }
    ensures early { IfErr result IsEarly }
    ensures fetches { Fetches (narration.now ∷ [])
        (F.files shelf.old) (F.files shelf.new) (F.faults shelf.old) (F.faults shelf.new) }
    ensures told { TellsFileFaults result (F.faults shelf.old) (F.faults shelf.new) }
{
    let read = match narration_in_file(alloc, shelf, narration) {
        Ok(read) => read,
        Err(status) => return Err(status),
    };
    match text_of(alloc, &read) {
        Ok(text) => Ok(text),
        Err(NoMemory) => Err(Status::NoMemory),
    }
}

/// A role that is ready to be told of: by its code alone, or with what explains it.
#[derive(Drop)]
struct Described {
    playable: Playable,
    explanation: Option<Explanation>,
}

/// The role with this name in a narration's file, and what is told of it.
fn role_described<F: Shelf>(
    alloc: Global,
    shelf: &mut F,
    kind: RoleText,
    narration: &Text,
    role: &Text,
) -> Result<Described, Status>
    ensures given { IfOk result (λ d. IfTold (F.files shelf.old) (λ files.
        DescribedText kind files narration.now role.now
        (given (text_by d.playable.protocol d.playable.code d.explanation)))) }
    ensures ready { IfOk result (λ d. CanBeTold d.playable.protocol d.playable.code d.explanation) }
    ensures refused { IfErr result (λ status. IsFailure status
        (λ file. (file ≡ narration.now) × Rose (F.faults shelf.old file) (F.faults shelf.new file))
        (IfTold (F.files shelf.old) (λ files.
        DescribedText kind files narration.now role.now (refused status)))) }
    ensures early { IfErr result IsEarly }
    ensures fetches { Fetches (narration.now ∷ [])
        (F.files shelf.old) (F.files shelf.new) (F.faults shelf.old) (F.faults shelf.new) }
    ensures told { TellsFileFaults result (F.faults shelf.old) (F.faults shelf.new) }
{
    let playable = match playable_in_file(alloc, shelf, narration, role) {
        Ok(playable) => playable,
        Err(status) => return Err(status),
    };
    match explanation_for(alloc, kind, &playable) {
        Ok(explanation) => Ok(Described {
            playable,
            explanation,
        }),
        Err(NoMemory) => Err(Status::NoMemory),
    }
}

/// What is told of a role beside its code, where that is asked for.
fn explanation_for(
    alloc: Global,
    kind: RoleText,
    playable: &Playable,
) -> Result<Option<Explanation>, NoMemory>
    requires role { playable.now.role < length playable.now.protocol.roles }
    requires fits { FitsRole playable.now.protocol playable.now.role playable.now.code }
    ensures text { IfOk result (λ explanation.
        IsTextOf kind (record { protocol = playable.now.protocol; role = playable.now.role })
        playable.now.code (text_by playable.now.protocol playable.now.code explanation)) }
    ensures ready { IfOk result (CanBeTold playable.now.protocol playable.now.code) }
    ensures accepted { IsVerifiedCode ARRIVAL WIDE playable.now.code }
    ensures spellable { IsSpellable (raw_of playable.now.code) }
    ensures plays { FittingCodesPlay playable.now.protocol }
{
    let Playable {
        protocol,
        role,
        code,
    } = playable;
    let _verified = code.instrs();
    let _protocol = protocol.name();
    fitting_codes_play(protocol);
    match kind {
        RoleText::RoleFile => Ok(None),
        RoleText::Explanation => match explanation_of(alloc, protocol, *role, code) {
            Ok(explanation) => Ok(Some(explanation)),
            Err(NoMemory) => Err(NoMemory),
        },
    }
}

/// Writes what is told of a role to the standard streams, a line at a time.
fn write_described<W: Wire>(alloc: Global, wire: &mut W, described: &Described) -> Status
    requires { let playable = described.now.playable in
        CanBeTold playable.protocol playable.code described.now.explanation }
    ensures writes { let playable = described.now.playable in
        IsWrittenByLines (text_by playable.protocol playable.code described.now.explanation) result
        (W.state wire.old).written (W.state wire.new).written }
    ensures wire { OverWire place.Stdio false result (W.state wire.old) (W.state wire.new) }
{
    match reach_streams(wire) {
        Ok(()) => {}
        Err(Failed) => return Status::Unreached(Place::Stdio),
    }
    match write_lines(alloc, wire, described) {
        Ok(()) => Status::Done,
        Err(WriteNo::Failed) => Status::WriteFault,
        Err(WriteNo::NoMemory) => Status::NoMemory,
    }
}

/// Writes it to a wire that was reached.
fn write_lines<W: Wire>(alloc: Global, wire: &mut W, described: &Described) -> Result<(), WriteNo>
    requires { let playable = described.now.playable in
        CanBeTold playable.protocol playable.code described.now.explanation }
    ensures writes { let playable = described.now.playable in
        IsWritten (text_by playable.protocol playable.code described.now.explanation) result
        (W.state wire.old).written (W.state wire.new).written
        (W.state wire.old).write_faults (W.state wire.new).write_faults }
    ensures only { OnlyWrites (W.state wire.old) (W.state wire.new) }
{
    let Playable { protocol, code, .. } = &described.playable;
    match &described.explanation {
        None => write_role_file(alloc, wire, code),
        Some(explanation) => write_explanation(alloc, wire, protocol, code, explanation),
    }
}

/// Writes the canonical text of the narration in the file.
pub fn fmt<F: Shelf, W: Wire>(
    alloc: Global,
    shelf: &mut F,
    wire: &mut W,
    narration: &Text,
) -> Status
    ensures does { DoesFmt narration.now (F.files shelf.old)
        (W.state wire.old) (W.state wire.new) result }
    ensures completes { NoneRose (narration.now ∷ []) (F.faults shelf.old) (F.faults shelf.new)
        (W.state wire.old) (W.state wire.new)
        → CompletesFmt narration.now (F.files shelf.old) result }
    ensures faults { HasCause (narration.now ∷ []) (Some place.Stdio)
        (F.faults shelf.old) (F.faults shelf.new) (W.state wire.old) (W.state wire.new) result }
    ensures reported { TellsFaults (F.faults shelf.old) (F.faults shelf.new)
        (W.state wire.old) (W.state wire.new) result }
    ensures fetches { Fetches (narration.now ∷ [])
        (F.files shelf.old) (F.files shelf.new) (F.faults shelf.old) (F.faults shelf.new) }
    ensures reached { Reaches (Some place.Stdio) (phase_of result)
        (W.state wire.old).reached (W.state wire.new).reached }
    ensures touches { Touches false (phase_of result) (W.state wire.old) (W.state wire.new) }
{
    narrations_are_unique();
    refusals_are_unique();
    none_is_both();
    match canonical_text(alloc, shelf, narration) {
        Ok(text) => write_text(wire, text.as_slice()),
        Err(status) => status,
    }
}

/// Writes the text of the role with this name in a narration's file.
pub fn describe<F: Shelf, W: Wire>(
    alloc: Global,
    shelf: &mut F,
    wire: &mut W,
    kind: RoleText,
    narration: &Text,
    role: &Text,
) -> Status
    ensures does { DoesDescribe kind narration.now role.now (F.files shelf.old)
        (W.state wire.old) (W.state wire.new) result }
    ensures completes { NoneRose (narration.now ∷ []) (F.faults shelf.old) (F.faults shelf.new)
        (W.state wire.old) (W.state wire.new)
        → CompletesDescribe kind narration.now role.now (F.files shelf.old) result }
    ensures faults { HasCause (narration.now ∷ []) (Some place.Stdio)
        (F.faults shelf.old) (F.faults shelf.new) (W.state wire.old) (W.state wire.new) result }
    ensures reported { TellsFaults (F.faults shelf.old) (F.faults shelf.new)
        (W.state wire.old) (W.state wire.new) result }
    ensures fetches { Fetches (narration.now ∷ [])
        (F.files shelf.old) (F.files shelf.new) (F.faults shelf.old) (F.faults shelf.new) }
    ensures reached { Reaches (Some place.Stdio) (phase_of result)
        (W.state wire.old).reached (W.state wire.new).reached }
    ensures touches { Touches false (phase_of result) (W.state wire.old) (W.state wire.new) }
{
    narrations_are_unique();
    refusals_are_unique();
    none_is_both();
    match role_described(alloc, shelf, kind, narration, role) {
        Ok(described) => write_described(alloc, wire, &described),
        Err(status) => status,
    }
}

/// Writes a line for each command.
pub fn help<W: Wire>(wire: &mut W) -> Status
    ensures does { DoesHelp (W.state wire.old) (W.state wire.new) result }
    ensures completes { (is_fault result ≡ true → result ≡ status.NoMemory) → CompletesHelp result }
    ensures wire { OverWire place.Stdio false result (W.state wire.old) (W.state wire.new) }
{
    write_text(wire, HELP.as_bytes())
}

/// Writes a page on the program or on a command.
pub fn page<W: Wire>(wire: &mut W, about: Page) -> Status
    ensures does { DoesPage about (W.state wire.old) (W.state wire.new) result }
    ensures completes { (is_fault result ≡ true → result ≡ status.NoMemory)
        → CompletesPage about result }
    ensures wire { OverWire place.Stdio false result (W.state wire.old) (W.state wire.new) }
{
    write_text(wire, text_on(about).as_bytes())
}
