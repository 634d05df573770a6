//! What is said of a values file, from the files of its words.
ghost use Rattle.std.specs.Prelude.{◌≡◌, ◌≢◌, ◌≤◌, ℕ, List, [], ◌∷◌, length, AllPairs, IfOk, IfErr};
ghost use Rattle.anb_base.specs.Moves.{Rose};
ghost use Rattle.anb_command.specs.declared.limits.TheConstants.{VALUES_LIMIT};
ghost use Rattle.anb_command.specs.Fetches.{Fetches, IfTold, IsOneOf};
ghost use Rattle.anb_command.specs.Reported.{TellsFileFaults};
ghost use Rattle.anb_command.specs.Steps.{IsFailure, refused, given};
ghost use Rattle.anb_status.specs.Statuses.{IsEarly};
ghost use Rattle.anb_check_commands.specs.CheckValues.{HasStatus, IsReadToCheck, IsValuesVerdict, ValuesTextIs, values_text};
ghost use Rattle.anb_check_commands.specs.Telling.{IsBeforeValues, IsLastOfValues};

use crate::part::part_in_file;
use crate::verdict::Verdict;
use anb_base::{Bytes, NoMemory, Shelf, Text};
use anb_command::{Playable, Status, VALUES_LIMIT, fetch_file};
use anb_protocol::known_texts_differ;
use anb_value_mistakes::mistakes_text;
use anb_values::{ValuesNo, values};
use anb_visible::visible;
use std::alloc::Global;

/// The text of a values file, and the names that a role knows.
#[derive(Drop)]
pub(crate) struct Asked {
    pub(crate) names: Vec<Text>,
    pub(crate) text: Bytes,
}

/// The text of the values file, where the narration has the role, and all its roles can send.
pub(crate) fn asked_in_files<F: Shelf>(
    alloc: Global,
    shelf: &mut F,
    narration: &Text,
    name: &Text,
    values: &Text,
) -> Result<Asked, Status>
    ensures given { IfOk result (λ a. IfTold (F.files shelf.old) (λ files.
        ValuesTextIs files narration.now name.now values.now
        (given (values_text a.names.items a.text)))) }
    ensures within { IfOk result (λ a. length a.text ≤ VALUES_LIMIT) }
    ensures differ { IfOk result (λ a.
        AllPairs (λ (one other : List ℕ). one ≢ other) a.names.items) }
    ensures refused { IfErr result (λ status. IsFailure status
        (λ file. IsOneOf (narration.now ∷ values.now ∷ []) file
        × Rose (F.faults shelf.old file) (F.faults shelf.new file)
        × IfTold (F.files shelf.old) (λ files.
        IsReadToCheck files narration.now name.now values.now file))
        (IfTold (F.files shelf.old) (λ files.
        ValuesTextIs files narration.now name.now values.now (refused status)))) }
    ensures early { IfErr result IsEarly }
    ensures before { IfErr result IsBeforeValues }
    ensures fetches { Fetches (narration.now ∷ values.now ∷ [])
        (F.files shelf.old) (F.files shelf.new) (F.faults shelf.old) (F.faults shelf.new) }
    ensures told { TellsFileFaults result (F.faults shelf.old) (F.faults shelf.new) }
{
    let playable = match part_in_file(alloc, shelf, narration, name) {
        Ok(playable) => playable,
        Err(status) => return Err(status),
    };
    let text = match fetch_file(alloc, shelf, values, VALUES_LIMIT) {
        Ok(text) => text,
        Err(status) => return Err(status),
    };
    let Playable {
        protocol,
        role,
        code: _,
    } = playable;
    known_texts_differ();
    let _ = protocol.name();
    match protocol.known(alloc, role) {
        Ok(names) => Ok(Asked { names, text }),
        Err(NoMemory) => Err(Status::NoMemory),
    }
}

/// The status of the values, as `play` has it, and what is wrong in the file of this name.
pub(crate) fn verdict_on_values(
    alloc: Global,
    values: &Text,
    asked: &Asked,
) -> Result<Verdict, NoMemory>
    requires within { length asked.now.text ≤ VALUES_LIMIT }
    requires differ { AllPairs (λ (one other : List ℕ). one ≢ other) asked.now.names.items }
    ensures is { IfOk result (λ v.
        IsValuesVerdict values.now (values_text asked.now.names.items asked.now.text)
        v.status v.said) }
    ensures last { IfOk result (λ v. IsLastOfValues v.status) }
{
    let status = status_of_values(alloc, asked)?;
    let said = mistakes_text(alloc, values, asked.text.as_slice(), &asked.names)?;
    let shown = visible(alloc, said.as_slice())?;
    Ok(Verdict {
        status,
        said: Bytes::new(shown),
    })
}

fn status_of_values(alloc: Global, asked: &Asked) -> Result<Status, NoMemory>
    requires within { length asked.now.text ≤ VALUES_LIMIT }
    requires differ { AllPairs (λ (one other : List ℕ). one ≢ other) asked.now.names.items }
    ensures has { IfOk result (HasStatus (values_text asked.now.names.items asked.now.text)) }
    ensures last { IfOk result IsLastOfValues }
{
    match values(alloc, asked.text.as_slice(), &asked.names) {
        Ok(_) => Ok(Status::Done),
        Err(ValuesNo::NoMemory) => Err(NoMemory),
        Err(why) => Ok(Status::BadValues(why)),
    }
}
