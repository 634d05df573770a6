//! From a narration to its protocol.
ghost use Rattle.std.specs.Prelude.{◌≡◌, ◌≢◌, IfOk, IfErr, OnOk, MatchResult, None, Some};
ghost use Rattle.anb_base.specs.declared.TheConstants.{ARRIVAL, WIDE};
ghost use Rattle.anb_syntax.specs.Grammar.{IsSpellable};
ghost use Rattle.anb_syntax.specs.Views.{narration_of};
ghost use Rattle.anb_protocol.specs.Checks.{IsWellFormed, fault};
ghost use Rattle.anb_protocol.specs.Names.{atoms as atoms_in};
ghost use Rattle.anb_protocol.specs.Protocols.{formats_of as formats_in, protocol_of};
ghost use Rattle.anb_protocol.specs.WellFormed.{AreFew, IsCountable};
ghost use Rattle.anb_protocol.specs.Views.{pointed, value_of};

use crate::atoms::AtomIndex;
use crate::limits::limit_fault;
use crate::names::name_fault;
use crate::shapes::{formats_of, misshapen, overlap};
use crate::terms::{actions_of, knows_of};
use crate::uses::{atoms_of, declared_names, role_names, uses_of};
use anb_base::{NoMemory, Text};
use anb_format::Format;
use anb_protocol::{Atom, Parts, Protocol, ResolveNo};
use anb_syntax::Narration;
use std::alloc::Global;

/// The protocol that a narration tells, or why it tells none. Counts come before names, names before
/// formats, and formats before messages and knowledge; within one kind of refusal the first thing in
/// text order comes, knowledge before actions.
pub fn resolve(alloc: Global, n: &Narration) -> Result<Protocol, ResolveNo>
    requires spellable { IsSpellable (narration_of n.now) }
    requires countable { IsCountable (narration_of n.now) }
    ensures well_formed { OnOk result (IsWellFormed ARRIVAL WIDE (narration_of n.now)) }
    ensures protocol { IfOk result (λ p. p ≡ protocol_of (narration_of n.now)) }
    ensures refused { IfErr result (λ no. no ≢ ResolveNo.NoMemory
        → fault ARRIVAL WIDE (narration_of n.now) ≡ Some no) }
{
    match resolved(alloc, n) {
        Ok(Ok(protocol)) => Ok(protocol),
        Ok(Err(no)) => Err(no),
        Err(NoMemory) => Err(ResolveNo::NoMemory),
    }
}

/// The same, with want of memory apart.
fn resolved(alloc: Global, n: &Narration) -> Result<Result<Protocol, ResolveNo>, NoMemory>
    requires spellable { IsSpellable (narration_of n.now) }
    requires countable { IsCountable (narration_of n.now) }
    ensures { IfOk result (λ r.
        MatchResult r (λ p. (IsWellFormed ARRIVAL WIDE (narration_of n.now))
        × (p ≡ protocol_of (narration_of n.now))) (λ no.
        fault ARRIVAL WIDE (narration_of n.now) ≡ Some no)) }
{
    let declared = declared_names(alloc, n)?;
    let uses = uses_of(alloc, n)?;
    let atoms = atoms_of(alloc, &n.types)?;
    match limit_fault(alloc, n, &declared, &uses)? {
        Some(no) => return Ok(Err(no)),
        None => {}
    }
    let index = AtomIndex::new(alloc, &atoms)?;
    match name_fault(alloc, n, &declared, &index, &uses)? {
        Some(no) => return Ok(Err(no)),
        None => {}
    }
    drop(index);
    match misshapen(alloc, &n.formats)? {
        Some(no) => return Ok(Err(no)),
        None => {}
    }
    let formats = formats_of(alloc, &n.formats)?;
    match overlap(alloc, &formats)? {
        Some(no) => return Ok(Err(no)),
        None => {}
    }
    let parts = parts_of(alloc, n, atoms, formats)?;
    match parts.fault(alloc)? {
        Some(no) => return Ok(Err(no)),
        None => {}
    }
    let makes = parts.makes_names(alloc)?;
    Ok(Ok(Protocol::of(parts, makes)))
}

/// What the protocol of a narration is made of, where these are its atoms and its formats.
fn parts_of(
    alloc: Global,
    n: &Narration,
    atoms: Vec<Atom>,
    formats: Vec<Format>,
) -> Result<Parts, NoMemory>
    requires atoms { atoms.items ≡ atoms_in (narration_of n.now) }
    requires formats { formats.items ≡ formats_in (narration_of n.now) }
    requires few { AreFew formats.items }
    requires countable { IsCountable (narration_of n.now) }
    ensures { IfOk result (λ parts. value_of parts ≡ protocol_of (narration_of n.now)) }
{
    let roles = copies(alloc, &role_names(alloc, n)?)?;
    let index = AtomIndex::new(alloc, &atoms)?;
    let knows = knows_of(alloc, &index, &formats, &roles, &n.knows)?;
    let actions = actions_of(alloc, &index, &formats, &roles, &n.actions)?;
    drop(index);
    Ok(Parts {
        name: n.name.copy(alloc)?,
        suite: n.suite,
        formats,
        roles,
        atoms,
        knows,
        actions,
    })
}

/// These names in memory of their own.
fn copies(alloc: Global, names: &[&Text]) -> Result<Vec<Text>, NoMemory>
    ensures { IfOk result (λ copies. copies.items ≡ pointed names.now) }
{
    let mut all = Vec::new(alloc);
    for name in names {
        all.push(name.copy(alloc)?)?;
    }
    Ok(all)
}
