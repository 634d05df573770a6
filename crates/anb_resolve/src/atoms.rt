//! Atoms that are found by their names.
use anb_base::{NoMemory, Text};
use anb_index::TextIndex;
use anb_protocol::Atom;
use anb_syntax::Sort;
use std::alloc::Global;
use std::marker::Model;

/// Atoms in order, with the places of their names and the names of agents.
#[derive(Drop)]
pub(crate) struct AtomIndex<'a> {
    atoms: &'a [Atom],
    names: TextIndex<'a>,
    agents: TextIndex<'a>,
}

impl<'a> Model for AtomIndex<'a> {
    ghost use Rattle.std.specs.Prelude.{◌≡◌, List, map};
    ghost use Rattle.std.specs.List.{flat_map};
    ghost use Rattle.anb_protocol.specs.declared.parts.Atom as atom;
    ghost use Rattle.anb_protocol.specs.Checks.{agent_names};

    ghost Value = { List atom.Atom };

    ghost view = { λ i. i.atoms.now };

    ghost invariant = { λ i. (i.names ≡ map (λ (a : atom.Atom). a.name) i.atoms.now)
        × (i.agents ≡ flat_map agent_names i.atoms.now) };
}

impl<'a> AtomIndex<'a> {
    ghost use Rattle.std.specs.Prelude.{◌≡◌, ◌<◌, ◌^◌, length, IfOk};
    ghost use Rattle.anb_protocol.specs.Checks.{names_agent};
    ghost use Rattle.anb_protocol.specs.Protocols.{atom_number};

    pub(crate) fn new(alloc: Global, atoms: &'a [Atom]) -> Result<Self, NoMemory>
        ensures { IfOk result (λ index. index ≡ atoms.now) }
    {
        let mut names = TextIndex::new(alloc);
        let mut agents = TextIndex::new(alloc);
        for atom in atoms {
            names.push(atom.name.as_str())?;
            put_agent(&mut agents, atom)?;
        }
        Ok(AtomIndex {
            atoms,
            names,
            agents,
        })
    }

    /// The place of the atom with this name, or 0.
    pub(crate) fn number(&self, name: &Text) -> u32
        requires { length self.now < 2 ^ 32 }
        ensures { result ≡ atom_number self.now name.now }
    {
        match self.names.place_of(name.as_str()) {
            Some(place) => place as u32,
            None => 0,
        }
    }

    /// Whether an agent has this name.
    pub(crate) fn has_agent(&self, name: &Text) -> bool
        ensures { result ≡ names_agent self.now name.now }
    {
        self.agents.contains(name.as_str())
    }
}

ghost use Rattle.std.specs.Prelude.{◌≡◌, ◌++◌, OnOk};
ghost use Rattle.anb_protocol.specs.Checks.{agent_names, is_agent};

/// Appends the name of an agent.
fn put_agent<'a>(agents: &mut TextIndex<'a>, atom: &'a Atom) -> Result<(), NoMemory>
    ensures { OnOk result (agents.new ≡ agents.old ++ agent_names atom.now) }
{
    if is_agent(atom.sort) {
        agents.push(atom.name.as_str())?;
    }
    Ok(())
}

fn is_agent(sort: Sort) -> bool
    ensures { result ≡ is_agent sort }
{
    matches!(sort, Sort::Agent)
}
