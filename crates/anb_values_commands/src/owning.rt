//! A role's own values.
ghost use Rattle.std.specs.Prelude.{◌≡◌, ◌⊎◌, ◌<◌, [], ◌∷◌, length, Some, false, IfOk, IfErr, option_copied};
ghost use Rattle.std.specs.Option.{option_map};
ghost use Rattle.anb_base.specs.Moves.{Rose};
ghost use Rattle.anb_base.specs.declared.place.Place.TheVariants as place;
ghost use Rattle.anb_values.specs.declared.refusal.ValuesNo.TheVariants as refusal;
ghost use Rattle.anb_status.specs.declared.status.Status.TheVariants as status;
ghost use Rattle.anb_command.specs.Causes.{HasCause, NoneRose};
ghost use Rattle.anb_protocol.specs.Texts.{known_names};
ghost use Rattle.anb_command.specs.Fetches.{Fetches, IfTold, IsOneOf};
ghost use Rattle.anb_command.specs.Files.{ValuesInFile};
ghost use Rattle.anb_command.specs.Reaches.{Reaches};
ghost use Rattle.anb_command.specs.Reported.{TellsFaults, TellsFileFaults};
ghost use Rattle.anb_command.specs.Steps.{IsFailure, refused, given};
ghost use Rattle.anb_command.specs.Touches.{Touches};
ghost use Rattle.anb_status.specs.Statuses.{IsEarly, phase_of};
ghost use Rattle.anb_values_commands.specs.RoleValuesCommand.{CompletesRoleValues, DoesRoleValues, IsReadForValues, OwnIs, RoleValuesText, first_long, role_seed};

use anb_base::{ARRIVAL, Bytes, NoMemory, Shelf, Text, Wire};
use anb_command::{Status, protocol_in_file, role_named, values_in_file, write_text};
use anb_honest::{known_names_differ, known_values};
use anb_protocol::{Protocol, known_texts_differ};
use anb_read::{narrations_are_unique, none_is_both, refusals_are_unique};
use anb_seal::mac;
use anb_values::{Fitted, ValuesNo, one_fit};
use anb_values_text::values_text;
use std::alloc::Global;

/// Writes the values file of a role of a narration, from a file with the values of all names.
pub fn role_values<F: Shelf, W: Wire>(
    alloc: Global,
    shelf: &mut F,
    wire: &mut W,
    narration: &Text,
    name: &Text,
    values: &Text,
) -> Status
    ensures does { DoesRoleValues narration.now name.now values.now
        (F.files shelf.old) (W.state wire.old) (W.state wire.new) result }
    ensures completes { NoneRose (narration.now ∷ values.now ∷ [])
        (F.faults shelf.old) (F.faults shelf.new) (W.state wire.old) (W.state wire.new)
        → CompletesRoleValues narration.now name.now values.now (F.files shelf.old) result }
    ensures faults { HasCause (narration.now ∷ values.now ∷ []) (Some place.Stdio)
        (F.faults shelf.old) (F.faults shelf.new) (W.state wire.old) (W.state wire.new) result }
    ensures reported { TellsFaults (F.faults shelf.old) (F.faults shelf.new)
        (W.state wire.old) (W.state wire.new) result }
    ensures fetches { Fetches (narration.now ∷ values.now ∷ [])
        (F.files shelf.old) (F.files shelf.new) (F.faults shelf.old) (F.faults shelf.new) }
    ensures reached { Reaches (Some place.Stdio) (phase_of result)
        (W.state wire.old).reached (W.state wire.new).reached }
    ensures touches { Touches false (phase_of result) (W.state wire.old) (W.state wire.new) }
{
    narrations_are_unique();
    refusals_are_unique();
    none_is_both();
    one_fit();
    match own_in_files(alloc, shelf, narration, name, values) {
        Ok(text) => write_text(wire, text.as_slice()),
        Err(status) => status,
    }
}

/// The text of a role's own values, from a file with the values of all names.
fn own_in_files<F: Shelf>(
    alloc: Global,
    shelf: &mut F,
    narration: &Text,
    name: &Text,
    values: &Text,
) -> Result<Bytes, Status>
    ensures given { IfOk result (λ text. IfTold (F.files shelf.old) (λ files.
        RoleValuesText files narration.now name.now values.now (given text))) }
    ensures refused { IfErr result (λ status. IsFailure status
        (λ each. IsOneOf (narration.now ∷ values.now ∷ []) each
        × Rose (F.faults shelf.old each) (F.faults shelf.new each)
        × IfTold (F.files shelf.old) (λ files.
        IsReadForValues files narration.now name.now values.now each))
        (IfTold (F.files shelf.old) (λ files.
        RoleValuesText files narration.now name.now values.now (refused status)))) }
    ensures early { IfErr result IsEarly }
    ensures fetches { Fetches (narration.now ∷ values.now ∷ [])
        (F.files shelf.old) (F.files shelf.new) (F.faults shelf.old) (F.faults shelf.new) }
    ensures told { TellsFileFaults result (F.faults shelf.old) (F.faults shelf.new) }
{
    let protocol = match protocol_in_file(alloc, shelf, narration) {
        Ok(protocol) => protocol,
        Err(status) => return Err(status),
    };
    let role = match role_named(alloc, &protocol, name) {
        Ok(role) => role,
        Err(status) => return Err(status),
    };
    let fitted = match values_for(alloc, shelf, values, &protocol) {
        Ok(fitted) => fitted,
        Err(status) => return Err(status),
    };
    own_text(alloc, &protocol, role, &fitted)
}

/// What a file gives for the names that occur in some role's knowledge.
pub fn values_for<F: Shelf>(
    alloc: Global,
    shelf: &mut F,
    values: &Text,
    protocol: &Protocol,
) -> Result<Fitted, Status>
    ensures given { IfOk result (λ fitted. IfTold (F.files shelf.old) (λ files.
        ValuesInFile files values.now (known_names protocol.now) (given fitted))) }
    ensures refused { IfErr result (λ status. IsFailure status
        (λ file. (file ≡ values.now) × Rose (F.faults shelf.old file) (F.faults shelf.new file))
        (IfTold (F.files shelf.old) (λ files.
        ValuesInFile files values.now (known_names protocol.now) (refused status)))) }
    ensures early { IfErr result IsEarly }
    ensures fetches { Fetches (values.now ∷ [])
        (F.files shelf.old) (F.files shelf.new) (F.faults shelf.old) (F.faults shelf.new) }
    ensures told { TellsFileFaults result (F.faults shelf.old) (F.faults shelf.new) }
{
    known_names_differ();
    let _ = protocol.name();
    match protocol.atoms(alloc) {
        Ok(names) => values_in_file(alloc, shelf, values, &names),
        Err(NoMemory) => Err(Status::NoMemory),
    }
}

/// The text of a role's own values, from those of all names.
pub fn own_text(
    alloc: Global,
    protocol: &Protocol,
    role: u32,
    fitted: &Fitted,
) -> Result<Bytes, Status>
    requires { role < length protocol.now.roles }
    ensures given { IfOk result (λ text. OwnIs protocol.now role fitted.now (given text)) }
    ensures refused { IfErr result (λ status. IsFailure status (λ file. ⊥)
        (OwnIs protocol.now role fitted.now (refused status))) }
    ensures early { IfErr result IsEarly }
{
    own_text_of(alloc, protocol, role, fitted.values.as_slice(), fitted.seed)
}

/// The same from these values of all names, and this seed.
pub fn own_text_of(
    alloc: Global,
    protocol: &Protocol,
    role: u32,
    values: &[Bytes],
    seed: Option<[u8; 32]>,
) -> Result<Bytes, Status>
    requires { role < length protocol.now.roles }
    ensures given { IfOk result (λ text.
        OwnIs protocol.now role (record { values = values.now; seed = seed }) (given text)) }
    ensures refused { IfErr result (λ status. IsFailure status (λ file. ⊥)
        (OwnIs protocol.now role (record { values = values.now; seed = seed }) (refused status))) }
    ensures early { IfErr result IsEarly }
{
    known_texts_differ();
    let _ = protocol.name();
    let labels = match protocol.known(alloc, role) {
        Ok(labels) => labels,
        Err(NoMemory) => return Err(Status::NoMemory),
    };
    let own = match known_values(alloc, protocol, role, values) {
        Ok(own) => own,
        Err(NoMemory) => return Err(Status::NoMemory),
    };
    if let Some(label) = first_long(&labels, &own) {
        return Err(long_value(alloc, label));
    }
    let seed = role_seed(seed, &protocol.roles()[role as usize]);
    match values_text(alloc, &labels, &own, seed) {
        Ok(text) => Ok(text),
        Err(NoMemory) => Err(Status::NoMemory),
    }
}

/// The label of the first value that is longer than an arrival may be.
pub fn first_long<'l>(labels: &'l [Text], values: &[Bytes]) -> Option<&'l Text>
    requires { length values.now ≡ length labels.now }
    ensures { option_copied result ≡ first_long labels.now values.now }
{
    for i in 0..labels.len() {
        if values[i].as_slice().len() > ARRIVAL as usize {
            return Some(&labels[i]);
        }
    }
    None
}

/// The status of a value that is too long.
pub fn long_value(alloc: Global, label: &Text) -> Status
    ensures { (result ≡ status.BadValues (refusal.Long label.now)) ⊎ (result ≡ status.NoMemory) }
{
    match label.copy(alloc) {
        Ok(label) => Status::BadValues(ValuesNo::Long(label)),
        Err(NoMemory) => Status::NoMemory,
    }
}

/// The seed of the role of this name, where there is a seed of all.
fn role_seed(seed: Option<[u8; 32]>, name: &Text) -> Option<[u8; 32]>
    ensures { result ≡ option_map (λ s. role_seed s name.now) seed }
{
    let seed = seed?;
    Some(mac(&seed, name.as_str().as_bytes()))
}
