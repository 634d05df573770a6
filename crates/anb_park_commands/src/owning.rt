//! A role that can be played, and whose its records are.
ghost use Rattle.std.specs.Prelude.{◌≡◌, ◌<◌, ◌≤◌, [], ◌∷◌, length, IfOk, IfErr};
ghost use Rattle.anb_base.specs.Moves.{Rose};
ghost use Rattle.anb_compile.specs.Fitting.{FitsRole};
ghost use Rattle.anb_syntax.specs.Grammar.{IsSpellable};
ghost use Rattle.anb_syntax.specs.Sizes.{size};
ghost use Rattle.anb_syntax.specs.Views.{narration_of};
ghost use Rattle.anb_command.specs.declared.limits.TheConstants.{NARRATION_LIMIT};
ghost use Rattle.anb_command.specs.Fetches.{Fetches, IfTold};
ghost use Rattle.anb_command.specs.Reported.{TellsFileFaults};
ghost use Rattle.anb_command.specs.Roles.{PartInFile};
ghost use Rattle.anb_status.specs.Statuses.{IsEarly};
ghost use Rattle.anb_command.specs.Steps.{IsFailure, refused, given};
ghost use Rattle.anb_park_commands.specs.Going.{PartOfNarration, RunsRole};
ghost use Rattle.anb_park_commands.specs.Identities.{IdentityIs, identity};

use anb_base::{NoMemory, Shelf, Text};
use anb_command::{Playable, Status, narration_in_file, playable_of, protocol_of_narration};
use anb_compile::fitting_codes_play;
use anb_protocol::protocols_hold;
use anb_seal::hash;
use anb_syntax::{Narration, text_of};
use std::alloc::Global;

/// A role that can be played, and the identity of its records.
#[derive(Drop)]
pub(crate) struct Owner {
    pub(crate) playable: Playable,
    pub(crate) id: [u8; 32],
}

/// The role with this name in a narration's file.
pub(crate) fn owner_in_file<F: Shelf>(
    alloc: Global,
    shelf: &mut F,
    narration: &Text,
    name: &Text,
) -> Result<Owner, Status>
    ensures given { IfOk result (λ owner. IfTold (F.files shelf.old) (λ files.
        PartInFile files narration.now name.now
        (given (record { protocol = owner.playable.protocol; role = owner.playable.role })))) }
    ensures identity { IfOk result (λ owner. IfTold (F.files shelf.old) (λ files.
        IdentityIs files narration.now name.now (given owner.id))) }
    ensures fits { IfOk result (λ owner.
        FitsRole owner.playable.protocol owner.playable.role owner.playable.code) }
    ensures runs { IfOk result (λ owner.
        RunsRole owner.playable.protocol owner.playable.role owner.playable.code) }
    ensures refused { IfErr result (λ status. IsFailure status
        (λ file. (file ≡ narration.now) × Rose (F.faults shelf.old file) (F.faults shelf.new file))
        (IfTold (F.files shelf.old) (λ files.
        PartInFile files narration.now name.now (refused status)))) }
    ensures early { IfErr result IsEarly }
    ensures fetches { Fetches (narration.now ∷ [])
        (F.files shelf.old) (F.files shelf.new) (F.faults shelf.old) (F.faults shelf.new) }
    ensures told { TellsFileFaults result (F.faults shelf.old) (F.faults shelf.new) }
{
    match narration_in_file(alloc, shelf, narration) {
        Ok(narration) => owner_of(alloc, &narration, name),
        Err(status) => Err(status),
    }
}

/// The narration's role with this name.
fn owner_of(alloc: Global, narration: &Narration, name: &Text) -> Result<Owner, Status>
    requires spellable { IsSpellable (narration_of narration.now) }
    requires small { size (narration_of narration.now) ≤ NARRATION_LIMIT }
    ensures given { IfOk result (λ owner. PartOfNarration (narration_of narration.now) name.now
        (given (record { protocol = owner.playable.protocol; role = owner.playable.role }))) }
    ensures identity { IfOk result (λ owner.
        owner.id ≡ identity (narration_of narration.now) name.now) }
    ensures fits { IfOk result (λ owner.
        FitsRole owner.playable.protocol owner.playable.role owner.playable.code) }
    ensures runs { IfOk result (λ owner.
        RunsRole owner.playable.protocol owner.playable.role owner.playable.code) }
    ensures refused { IfErr result (λ status. IsFailure status (λ _. ⊥)
        (PartOfNarration (narration_of narration.now) name.now (refused status))) }
    ensures early { IfErr result IsEarly }
{
    let id = match identity(alloc, narration, name) {
        Ok(id) => id,
        Err(NoMemory) => return Err(Status::NoMemory),
    };
    let protocol = match protocol_of_narration(alloc, narration) {
        Ok(protocol) => protocol,
        Err(status) => return Err(status),
    };
    match playable_of(alloc, protocol, name) {
        Ok(playable) => {
            fitting_codes_play(&playable.protocol);
            protocols_hold();
            let _ = playable.protocol.name();
            Ok(Owner { playable, id })
        }
        Err(status) => Err(status),
    }
}

/// The identity of the records of the role with this name.
fn identity(alloc: Global, narration: &Narration, name: &Text) -> Result<[u8; 32], NoMemory>
    ensures { IfOk result (λ id. id ≡ identity (narration_of narration.now) name.now) }
{
    let mut text = text_of(alloc, narration)?.into_vec();
    text.extend_from_slice(name.as_str().as_bytes())?;
    Ok(hash(&text))
}
