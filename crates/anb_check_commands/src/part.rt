//! The role that is named, from the narration's file. No refusal of these steps is one of values, also
//! where files aren't told.
ghost use Rattle.std.specs.Prelude.{◌≡◌, ◌≤◌, ◌<◌, [], ◌∷◌, length, IfOk, IfErr};
ghost use Rattle.anb_base.specs.Moves.{Rose};
ghost use Rattle.anb_syntax.specs.Grammar.{IsSpellable};
ghost use Rattle.anb_syntax.specs.Sizes.{size};
ghost use Rattle.anb_syntax.specs.Views.{narration_of};
ghost use Rattle.anb_command.specs.declared.limits.TheConstants.{NARRATION_LIMIT};
ghost use Rattle.anb_command.specs.Fetches.{Fetches, IfTold};
ghost use Rattle.anb_command.specs.Reported.{TellsFileFaults};
ghost use Rattle.anb_command.specs.Roles.{PartInFile};
ghost use Rattle.anb_command.specs.Steps.{IsFailure, refused, given};
ghost use Rattle.anb_status.specs.Statuses.{IsEarly};
ghost use Rattle.anb_check_commands.specs.Telling.{IsBeforeValues, PartOfNarration, PartOfText};

use anb_base::{Shelf, Text};
use anb_command::{
    NARRATION_LIMIT, NarrationNo, Playable, Status, fetch_file, playable_of, protocol_of_narration,
};
use anb_read::{ReadNo, read};
use anb_syntax::Narration;
use std::alloc::Global;

/// The role of this name in the narration's file, where all its roles can send.
pub(crate) fn part_in_file<F: Shelf>(
    alloc: Global,
    shelf: &mut F,
    narration: &Text,
    name: &Text,
) -> Result<Playable, Status>
    ensures given { IfOk result (λ p. IfTold (F.files shelf.old) (λ files.
        PartInFile files narration.now name.now
        (given (record { protocol = p.protocol; role = p.role })))) }
    ensures within { IfOk result (λ p. p.role < length p.protocol.roles) }
    ensures refused { IfErr result (λ status. IsFailure status
        (λ file. (file ≡ narration.now) × Rose (F.faults shelf.old file) (F.faults shelf.new file))
        (IfTold (F.files shelf.old) (λ files.
        PartInFile files narration.now name.now (refused status)))) }
    ensures early { IfErr result IsEarly }
    ensures before { IfErr result IsBeforeValues }
    ensures fetches { Fetches (narration.now ∷ [])
        (F.files shelf.old) (F.files shelf.new) (F.faults shelf.old) (F.faults shelf.new) }
    ensures told { TellsFileFaults result (F.faults shelf.old) (F.faults shelf.new) }
{
    match fetch_file(alloc, shelf, narration, NARRATION_LIMIT) {
        Ok(text) => part_of_text(alloc, text.as_slice(), name),
        Err(status) => Err(status),
    }
}

/// The role of the protocol that a text tells.
fn part_of_text(alloc: Global, text: &[u8], name: &Text) -> Result<Playable, Status>
    requires { length text.now ≤ NARRATION_LIMIT }
    ensures given { IfOk result (λ p. PartOfText text.now name.now
        (given (record { protocol = p.protocol; role = p.role }))) }
    ensures within { IfOk result (λ p. p.role < length p.protocol.roles) }
    ensures refused { IfErr result (λ status. IsFailure status (λ file. ⊥)
        (PartOfText text.now name.now (refused status))) }
    ensures early { IfErr result IsEarly }
    ensures before { IfErr result IsBeforeValues }
{
    match read(alloc, text) {
        Ok(narration) => part_of_narration(alloc, &narration, name),
        Err(ReadNo::NoMemory) => Err(Status::NoMemory),
        Err(why) => Err(Status::BadNarration(NarrationNo::Read(why))),
    }
}

/// The role of the protocol that a narration tells.
fn part_of_narration(alloc: Global, narration: &Narration, name: &Text) -> Result<Playable, Status>
    requires spellable { IsSpellable (narration_of narration.now) }
    requires small { size (narration_of narration.now) ≤ NARRATION_LIMIT }
    ensures given { IfOk result (λ p. PartOfNarration (narration_of narration.now) name.now
        (given (record { protocol = p.protocol; role = p.role }))) }
    ensures within { IfOk result (λ p. p.role < length p.protocol.roles) }
    ensures refused { IfErr result (λ status. IsFailure status (λ file. ⊥)
        (PartOfNarration (narration_of narration.now) name.now (refused status))) }
    ensures early { IfErr result IsEarly }
    ensures before { IfErr result IsBeforeValues }
{
    match protocol_of_narration(alloc, narration) {
        Ok(protocol) => playable_of(alloc, protocol, name),
        Err(status) => Err(status),
    }
}
