//! What a stranger has at the beginning: the agents' names, and names of his own.
ghost use Rattle.std.specs.Prelude.{◌≡◌, ◌++◌, ◌∷◌, [], ◌<◌, ◌≤◌, ◌^◌, nat_le, length, map, filter, IfOk, OnOk, if◌then◌else◌};
ghost use Rattle.anb_term.specs.Tree.{trees_of};
ghost use Rattle.anb_term.specs.View.{tree_of};
ghost use Rattle.anb_protocol.specs.Checks.{is_agent};
ghost use Rattle.anb_protocol.specs.Texts.{atoms_in, atoms_in_all};
ghost use Rattle.anb_stranger.specs.Reaching.{agents, agents_from, stranger, variables};

use crate::knowledge::{Knowledge, learn_names};
use anb_base::NoMemory;
use anb_protocol::{Atom, Protocol};
use anb_syntax::Sort;
use anb_term::Term;
use std::alloc::Global;

/// What a stranger has before a conversation with these lines.
pub(crate) fn stranger(
    alloc: Global,
    protocol: &Protocol,
    lines: &[Term],
) -> Result<Knowledge, NoMemory>
    ensures { IfOk result (λ knowledge.
        knowledge ≡ stranger protocol.now (map tree_of lines.now)) }
{
    let mut names = agents(alloc, protocol)?;
    put_all_variables(&mut names, protocol.declared().len(), lines)?;
    let mut knowledge = Knowledge::new(alloc);
    learn_names(alloc, &mut knowledge, &names)?;
    Ok(knowledge)
}

/// The agents' names.
pub(crate) fn agents(alloc: Global, protocol: &Protocol) -> Result<Vec<u32>, NoMemory>
    ensures { IfOk result (λ names. names.items ≡ agents protocol.now) }
{
    let atoms = protocol.declared();
    if atoms.len() > u32::MAX as usize {
        return Err(NoMemory);
    }
    agents_among(alloc, atoms)
}

fn agents_among(alloc: Global, atoms: &[Atom]) -> Result<Vec<u32>, NoMemory>
    requires { length atoms.now < 2 ^ 32 }
    ensures { IfOk result (λ names. names.items ≡ agents_from 0 atoms.now) }
{
    let mut names = Vec::new(alloc);
    for (i, atom) in atoms.iter().enumerate() {
        put_if_agent(&mut names, i as u32, atom)?;
    }
    Ok(names)
}

fn put_if_agent(names: &mut Vec<u32>, number: u32, atom: &Atom) -> Result<(), NoMemory>
    ensures { OnOk result (names.new.items
        ≡ names.old.items ++ agents_from number (atom.now ∷ [])) }
{
    match atom.sort {
        Sort::Agent => names.push(number)?,
        Sort::Number => {}
        Sort::Key => {}
    }
    Ok(())
}

/// Appends the variables in a term, which are the atoms above the names, from left to right.
#[cycle(variables)]
fn put_variables(out: &mut Vec<u32>, names: usize, t: &Term) -> Result<(), NoMemory>
    ensures { OnOk result (out.new.items
        ≡ out.old.items ++ filter (nat_le names) (atoms_in (tree_of t.now))) }
{
    match t {
        Term::Atom(n) => put_if_variable(out, names, *n),
        Term::Node(_, operands) => put_all_variables(out, names, operands.as_slice()),
    }
}

/// Appends those in each of these.
#[cycle(variables)]
fn put_all_variables(out: &mut Vec<u32>, names: usize, terms: &[Term]) -> Result<(), NoMemory>
    ensures { OnOk result (out.new.items
        ≡ out.old.items ++ variables names (map tree_of terms.now)) }
{
    for t in terms {
        put_variables(out, names, t)?;
    }
    Ok(())
}

fn put_if_variable(out: &mut Vec<u32>, names: usize, n: u32) -> Result<(), NoMemory>
    ensures { OnOk result (out.new.items
        ≡ out.old.items ++ filter (nat_le names) (n ∷ [])) }
{
    if n as usize >= names {
        out.push(n)?;
    }
    Ok(())
}
