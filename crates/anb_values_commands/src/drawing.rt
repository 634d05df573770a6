//! Values for a whole narration.
ghost use Rattle.std.specs.Prelude.{◌≡◌, ◌++◌, ◌<◌, ◌^◌, [], ◌∷◌, length, true, Some, None, false, IfOk, IfErr, OnOk};
ghost use Rattle.std.specs.List.{flat_map};
ghost use Rattle.anb_base.specs.Moves.{Rose};
ghost use Rattle.anb_base.specs.declared.place.Place.TheVariants as place;
ghost use Rattle.anb_protocol.specs.Checks.{agent_names, is_agent};
ghost use Rattle.anb_protocol.specs.Protocols.{ProtocolValue};
ghost use Rattle.anb_command.specs.Causes.{HasCause, NoneRose};
ghost use Rattle.anb_command.specs.Fetches.{Fetches, IfTold};
ghost use Rattle.anb_command.specs.Reaches.{Reaches};
ghost use Rattle.anb_command.specs.Reported.{TellsFaults, TellsFileFaults};
ghost use Rattle.anb_command.specs.Steps.{IsFailure, refused, given};
ghost use Rattle.anb_command.specs.Touches.{Touches};
ghost use Rattle.anb_status.specs.Statuses.{IsEarly, phase_of};
ghost use Rattle.anb_values_commands.specs.ValuesCommand.{CompletesValues, DoesValues, DrawnIs, ValuesText, value_for, values_from};

use anb_base::{Bytes, NoMemory, Shelf, Text, Wire};
use anb_command::{Status, protocol_in_file, seed_of, write_text};
use anb_honest::known_names_differ;
use anb_index::TextIndex;
use anb_protocol::{Atom, Protocol, protocols_hold};
use anb_read::{narrations_are_unique, none_is_both, refusals_are_unique};
use anb_seal::draw;
use anb_syntax::Sort;
use anb_values_text::values_text;
use std::alloc::Global;

/// Writes a values file with a value for each name that some role of a narration knows. Names and the
/// file's seed are drawn under the seed that is handed in.
pub fn values<F: Shelf, W: Wire>(
    alloc: Global,
    shelf: &mut F,
    wire: &mut W,
    narration: &Text,
    host_seed: Option<[u8; 32]>,
) -> Status
    ensures does { DoesValues narration.now (F.files shelf.old) host_seed
        (W.state wire.old) (W.state wire.new) result }
    ensures completes { NoneRose (narration.now ∷ []) (F.faults shelf.old) (F.faults shelf.new)
        (W.state wire.old) (W.state wire.new)
        → CompletesValues narration.now (F.files shelf.old) host_seed result }
    ensures faults { HasCause (narration.now ∷ []) (Some place.Stdio)
        (F.faults shelf.old) (F.faults shelf.new) (W.state wire.old) (W.state wire.new) result }
    ensures reported { TellsFaults (F.faults shelf.old) (F.faults shelf.new)
        (W.state wire.old) (W.state wire.new) result }
    ensures fetches { Fetches (narration.now ∷ [])
        (F.files shelf.old) (F.files shelf.new) (F.faults shelf.old) (F.faults shelf.new) }
    ensures reached { Reaches (Some place.Stdio) (phase_of result)
        (W.state wire.old).reached (W.state wire.new).reached }
    ensures touches { Touches false (phase_of result) (W.state wire.old) (W.state wire.new) }
{
    narrations_are_unique();
    refusals_are_unique();
    none_is_both();
    match drawn_for_file(alloc, shelf, narration, host_seed) {
        Ok(text) => write_text(wire, text.as_slice()),
        Err(status) => status,
    }
}

/// The text of the values for the narration in the file.
fn drawn_for_file<F: Shelf>(
    alloc: Global,
    shelf: &mut F,
    narration: &Text,
    host_seed: Option<[u8; 32]>,
) -> Result<Bytes, Status>
    ensures given { IfOk result (λ text. IfTold (F.files shelf.old) (λ files.
        ValuesText files narration.now host_seed (given text))) }
    ensures refused { IfErr result (λ status. IsFailure status
        (λ file. (file ≡ narration.now) × Rose (F.faults shelf.old file) (F.faults shelf.new file))
        (IfTold (F.files shelf.old) (λ files.
        ValuesText files narration.now host_seed (refused status)))) }
    ensures early { IfErr result IsEarly }
    ensures fetches { Fetches (narration.now ∷ [])
        (F.files shelf.old) (F.files shelf.new) (F.faults shelf.old) (F.faults shelf.new) }
    ensures told { TellsFileFaults result (F.faults shelf.old) (F.faults shelf.new) }
{
    let protocol = match protocol_in_file(alloc, shelf, narration) {
        Ok(protocol) => protocol,
        Err(status) => return Err(status),
    };
    let seed = match seed_of(true, None, host_seed) {
        Ok(seed) => seed,
        Err(status) => return Err(status),
    };
    match drawn_text(alloc, &protocol, &seed) {
        Ok(text) => Ok(text),
        Err(NoMemory) => Err(Status::NoMemory),
    }
}

/// The text of the values that are drawn under a seed.
fn drawn_text(alloc: Global, protocol: &Protocol, seed: &[u8; 32]) -> Result<Bytes, NoMemory>
    ensures { IfOk result (λ text. DrawnIs protocol.now seed.now (given text)) }
{
    protocols_hold();
    known_names_differ();
    let _ = protocol.name();
    let names = protocol.atoms(alloc)?;
    let agents = agents_of(alloc, protocol.declared())?;
    let values = drawn_values(alloc, &agents, seed, &names)?;
    let last = draw(seed, 0, names.len() as u32);
    values_text(alloc, &names, &values, Some(last))
}

/// The names of the agents among these atoms.
fn agents_of<'a>(alloc: Global, atoms: &'a [Atom]) -> Result<TextIndex<'a>, NoMemory>
    ensures { IfOk result (λ agents. agents ≡ flat_map agent_names atoms.now) }
{
    let mut agents = TextIndex::new(alloc);
    for atom in atoms {
        put_agent(&mut agents, atom)?;
    }
    Ok(agents)
}

/// Appends the name of an agent.
fn put_agent<'a>(agents: &mut TextIndex<'a>, atom: &'a Atom) -> Result<(), NoMemory>
    ensures { OnOk result (agents.new ≡ agents.old ++ agent_names atom.now) }
{
    if is_agent(atom.sort) {
        agents.push(atom.name.as_str())?;
    }
    Ok(())
}

fn is_agent(sort: Sort) -> bool
    ensures { result ≡ is_agent sort }
{
    matches!(sort, Sort::Agent)
}

/// The values of these names, in their order.
fn drawn_values(
    alloc: Global,
    agents: &TextIndex<'_>,
    seed: &[u8; 32],
    names: &[Text],
) -> Result<Vec<Bytes>, NoMemory>
    requires few { length names.now < 2 ^ 32 }
    ensures { IfOk result (λ values. (p : ProtocolValue) → agents.now ≡ flat_map agent_names p.atoms
        → values.items ≡ values_from p seed.now 0 names.now) }
{
    let mut values = Vec::new(alloc);
    for (i, name) in names.iter().enumerate() {
        values.push(value_for(alloc, agents, seed, i as u32, name.as_str())?)?;
    }
    Ok(values)
}

/// The value of the name at this place.
fn value_for(
    alloc: Global,
    agents: &TextIndex<'_>,
    seed: &[u8; 32],
    i: u32,
    name: &str,
) -> Result<Bytes, NoMemory>
    ensures { IfOk result (λ value. (p : ProtocolValue) → agents.now ≡ flat_map agent_names p.atoms
        → value ≡ value_for p seed.now i name.now) }
{
    if agents.contains(name) {
        copied(alloc, name.as_bytes())
    } else {
        copied(alloc, &draw(seed, 0, i))
    }
}

/// These bytes, in memory of their own.
fn copied(alloc: Global, bytes: &[u8]) -> Result<Bytes, NoMemory>
    ensures { IfOk result (λ copy. copy ≡ bytes.now) }
{
    Ok(Bytes::new(Vec::from_slice(alloc, bytes)?))
}
