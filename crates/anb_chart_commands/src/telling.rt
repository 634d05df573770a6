//! What the text of a file tells: a protocol, or a choice.
ghost use Rattle.std.specs.Prelude.{◌≡◌, ◌≤◌, [], ◌∷◌, length, IfOk, IfErr};
ghost use Rattle.anb_base.specs.Moves.{Rose};
ghost use Rattle.anb_read.specs.Refusals.{IsRefusal};
ghost use Rattle.anb_syntax.specs.Grammar.{IsSpellable};
ghost use Rattle.anb_syntax.specs.Sizes.{size};
ghost use Rattle.anb_syntax.specs.Views.{narration_of};
ghost use Rattle.anb_command.specs.declared.limits.TheConstants.{NARRATION_LIMIT};
ghost use Rattle.anb_command.specs.Fetches.{Fetches, IfTold};
ghost use Rattle.anb_command.specs.Reported.{TellsFileFaults};
ghost use Rattle.anb_command.specs.Steps.{IsFailure, given, refused};
ghost use Rattle.anb_status.specs.Statuses.{IsEarly};
ghost use Rattle.anb_choice.specs.Branching.{BranchedText, IsRefusal as IsNoChoice};
ghost use Rattle.anb_choice.specs.Lawful.{IsLawful};
ghost use Rattle.anb_choice.specs.Views.{branched_of};
ghost use Rattle.anb_chart_commands.specs.ReportCommands.{OneIs, ToldInFile, ToldIs};
ghost use Rattle.anb_chart_commands.specs.Views.{IsDrawable, told_of};

use anb_base::{NoMemory, Shelf, Text};
use anb_choice::{BranchNo, Branched, split};
use anb_command::{NARRATION_LIMIT, NarrationNo, Status, fetch_file, protocol_of_narration};
use anb_protocol::Protocol;
use anb_read::{ReadNo, read};
use anb_syntax::Narration;
use std::alloc::Global;

/// A protocol, or a choice, which is lawful.
#[derive(Drop)]
pub(crate) enum Told {
    One(Protocol),
    Branched(Branched),
}

/// What the text of the file tells.
pub(crate) fn told_in_file<F: Shelf>(
    alloc: Global,
    shelf: &mut F,
    narration: &Text,
) -> Result<Told, Status>
    ensures given { IfOk result (λ t. IfTold (F.files shelf.old) (λ files.
        ToldInFile files narration.now (given (told_of t)))) }
    ensures drawable { IfOk result (λ t. IsDrawable (told_of t)) }
    ensures refused { IfErr result (λ status. IsFailure status
        (λ file. (file ≡ narration.now) × Rose (F.faults shelf.old file) (F.faults shelf.new file))
        (IfTold (F.files shelf.old) (λ files. ToldInFile files narration.now (refused status)))) }
    ensures early { IfErr result IsEarly }
    ensures fetches { Fetches (narration.now ∷ [])
        (F.files shelf.old) (F.files shelf.new) (F.faults shelf.old) (F.faults shelf.new) }
    ensures told { TellsFileFaults result (F.faults shelf.old) (F.faults shelf.new) }
{
    match fetch_file(alloc, shelf, narration, NARRATION_LIMIT) {
        Ok(text) => told_by_text(alloc, text.as_slice()),
        Err(status) => Err(status),
    }
}

/// What a text tells.
fn told_by_text(alloc: Global, text: &[u8]) -> Result<Told, Status>
    requires { length text.now ≤ NARRATION_LIMIT }
    ensures given { IfOk result (λ t. ToldIs text.now (given (told_of t))) }
    ensures drawable { IfOk result (λ t. IsDrawable (told_of t)) }
    ensures refused { IfErr result (λ status. IsFailure status (λ file. ⊥)
        (ToldIs text.now (refused status))) }
    ensures early { IfErr result IsEarly }
{
    match read(alloc, text) {
        Ok(narration) => told_by_narration(alloc, &narration),
        Err(ReadNo::NoMemory) => Err(Status::NoMemory),
        Err(why) => choice_of_text(alloc, text, why),
    }
}

/// What a narration tells.
fn told_by_narration(alloc: Global, narration: &Narration) -> Result<Told, Status>
    requires spellable { IsSpellable (narration_of narration.now) }
    requires small { size (narration_of narration.now) ≤ NARRATION_LIMIT }
    ensures given { IfOk result (λ t. OneIs (narration_of narration.now) (given (told_of t))) }
    ensures drawable { IfOk result (λ t. IsDrawable (told_of t)) }
    ensures refused { IfErr result (λ status. IsFailure status (λ file. ⊥)
        (OneIs (narration_of narration.now) (refused status))) }
    ensures early { IfErr result IsEarly }
{
    match protocol_of_narration(alloc, narration) {
        Ok(protocol) => Ok(Told::One(protocol)),
        Err(status) => Err(status),
    }
}

/// The choice that a text tells, which is no narration for this reason.
fn choice_of_text(alloc: Global, text: &[u8], why: ReadNo) -> Result<Told, Status>
    requires within { length text.now ≤ NARRATION_LIMIT }
    requires refused { IsRefusal text.now why }
    ensures given { IfOk result (λ t. ToldIs text.now (given (told_of t))) }
    ensures drawable { IfOk result (λ t. IsDrawable (told_of t)) }
    ensures refused { IfErr result (λ status. IsFailure status (λ file. ⊥)
        (ToldIs text.now (refused status))) }
    ensures early { IfErr result IsEarly }
{
    match choice_in(alloc, text) {
        Ok(choice) => told_choice(text, choice, why),
        Err(NoMemory) => Err(Status::NoMemory),
    }
}

/// The choice that a text tells, or why it tells none that is lawful.
fn choice_in(alloc: Global, text: &[u8]) -> Result<Result<Branched, BranchNo>, NoMemory>
    requires { length text.now ≤ NARRATION_LIMIT }
    ensures tells { IfOk result (λ r. IfOk r (λ b. BranchedText text.now (branched_of b))) }
    ensures lawful { IfOk result (λ r. IfOk r (λ b. IsLawful (branched_of b))) }
    ensures refused { IfOk result (λ r. IfErr r (λ no. IsNoChoice text.now no)) }
{
    match split(alloc, text) {
        Ok(branched) => Ok(Ok(branched)),
        Err(BranchNo::NoMemory) => Err(NoMemory),
        Err(no) => Ok(Err(no)),
    }
}

/// What is told by a text that tells this choice, or none for this reason.
fn told_choice(text: &[u8], choice: Result<Branched, BranchNo>, why: ReadNo) -> Result<Told, Status>
    requires tells { IfOk choice (λ b. BranchedText text.now (branched_of b)) }
    requires lawful { IfOk choice (λ b. IsLawful (branched_of b)) }
    requires none { IfErr choice (λ no. IsNoChoice text.now no) }
    requires refused { IsRefusal text.now why }
    ensures given { IfOk result (λ t. ToldIs text.now (given (told_of t))) }
    ensures drawable { IfOk result (λ t. IsDrawable (told_of t)) }
    ensures refused { IfErr result (λ status. IsFailure status (λ file. ⊥)
        (ToldIs text.now (refused status))) }
    ensures early { IfErr result IsEarly }
{
    let _ = text;
    match choice {
        Ok(branched) => Ok(Told::Branched(branched)),
        Err(_no) => Err(Status::BadNarration(NarrationNo::Read(why))),
    }
}
