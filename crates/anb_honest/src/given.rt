//! The values of the names that occur in some role's knowledge, and what roles begin with.
ghost use Rattle.std.specs.Prelude.{◌≡◌, ◌<◌, ◌+◌, ◌++◌, ◌==◌, ◌&&◌, ◌^◌, ℕ, List, length, map, get_or, nat_eq, IfOk, OnOk, if◌then◌else◌};
ghost use Rattle.anb_term.specs.RecipeView.{first_places};
ghost use Rattle.anb_term.specs.View.{tree_of};
ghost use Rattle.anb_term.specs.Tree.{trees_of, IsFormed, AreFormed};
ghost use Rattle.anb_plays.specs.Honest.{honest, honest_all};
ghost use Rattle.anb_algebra.specs.ByteMeaning.{byte_meaning, has_operator};
ghost use Rattle.anb_protocol.specs.Names.{distinct};
ghost use Rattle.anb_protocol.specs.Texts.{atoms_in, atoms_in_all};
ghost use Rattle.anb_honest.specs.Given.{Gives, IsTable, value_in};

use anb_algebra::ByteAlgebra;
use anb_base::{Bytes, NoMemory};
use anb_term::{Algebra, Term};
use std::alloc::Global;

/// Values for atoms, with the place of each atom's value by the atom's number.
#[derive(Drop)]
pub(crate) struct Given<'v> {
    /// One more than the place, or 0.
    places: Vec<usize>,
    values: &'v [Bytes],
}

impl<'v> Given<'v> {
    /// Values for the atoms of this list, in the order in which they first stand there.
    pub(crate) fn new(alloc: Global, atoms: Vec<u32>, values: &'v [Bytes]) -> Result<Self, NoMemory>
        ensures places { IfOk result (λ given.
            IsTable (distinct nat_eq atoms.items) given.places.items) }
        ensures values { IfOk result (λ given. given.values.now ≡ values.now) }
    {
        let mut places = Vec::new(alloc);
        let mut next = 0;
        for a in &atoms {
            if put_place(&mut places, *a, next)? {
                next += 1;
            }
        }
        Ok(Given { places, values })
    }

    /// The value of an atom, or no bytes where it has none.
    fn value(&self, a: u32) -> &[u8]
        ensures { result.now ≡ value_in self.now.places.items self.now.values.now a }
    {
        let place = match self.places.get(a as usize) {
            Some(0) | None => return &[],
            Some(next) => *next - 1,
        };
        match self.values.get(place) {
            Some(value) => value.as_slice(),
            None => &[],
        }
    }
}

/// Gives an atom the next place, unless it has one.
fn put_place(places: &mut Vec<usize>, a: u32, next: usize) -> Result<bool, NoMemory>
    requires { next + 1 < 2 ^ 64 }
    ensures new { IfOk result (λ new. new ≡ (get_or places.old.items a 0 == 0)) }
    ensures each { IfOk result (λ new. (k : ℕ) → get_or places.new.items k 0
        ≡ (if new && (k == a) then next + 1 else get_or places.old.items k 0)) }
{
    if places.len() <= a as usize {
        places.resize(a as usize + 1, 0)?;
    }
    let place = &mut places[a as usize];
    if *place > 0 {
        return Ok(false);
    }
    *place = next + 1;
    Ok(true)
}

/// Appends the atoms in a term, from left to right.
#[cycle(atoms)]
pub(crate) fn put_atoms(out: &mut Vec<u32>, t: &Term) -> Result<(), NoMemory>
    ensures { OnOk result (out.new.items ≡ out.old.items ++ atoms_in (tree_of t.now)) }
{
    match t {
        Term::Atom(a) => {
            out.push(*a)?;
            Ok(())
        }
        Term::Node(_, operands) => put_all_atoms(out, operands.as_slice()),
    }
}

/// Appends those in each of these terms.
#[cycle(atoms)]
fn put_all_atoms(out: &mut Vec<u32>, terms: &[Term]) -> Result<(), NoMemory>
    ensures { OnOk result (out.new.items
        ≡ out.old.items ++ atoms_in_all (trees_of (map tree_of terms.now))) }
{
    for t in terms {
        put_atoms(out, t)?;
    }
    Ok(())
}

/// The bytes of a term by its form, from the values of its atoms.
#[cycle(honest)]
pub(crate) fn honest_bytes(
    alloc: Global,
    algebra: &ByteAlgebra<'_>,
    given: &Given<'_>,
    t: &Term,
) -> Result<Bytes, NoMemory>
    requires { IsFormed (has_operator algebra.now.formats) (tree_of t.now) }
    ensures { IfOk result (λ bytes. (atoms : ℕ → List ℕ) → Gives given.now atoms
        → bytes ≡ honest (byte_meaning algebra.now.formats algebra.now.suite) atoms (tree_of t.now)) }
{
    match t {
        Term::Atom(a) => Ok(Bytes::new(Vec::from_slice(alloc, given.value(*a))?)),
        Term::Node(op, operands) => {
            let table = all_honest_bytes(alloc, algebra, given, operands.as_slice())?;
            let at = first_places(alloc, op.arity())?;
            let Ok(bytes) = algebra.build(alloc, *op, &table, &at) else {
                return Err(NoMemory);
            };
            Ok(bytes)
        }
    }
}

/// Those of each of these terms.
#[cycle(honest)]
fn all_honest_bytes(
    alloc: Global,
    algebra: &ByteAlgebra<'_>,
    given: &Given<'_>,
    terms: &[Term],
) -> Result<Vec<Bytes>, NoMemory>
    requires { AreFormed (has_operator algebra.now.formats) (trees_of (map tree_of terms.now)) }
    ensures values { IfOk result (λ table. (atoms : ℕ → List ℕ) → Gives given.now atoms
        → table.items ≡ honest_all (byte_meaning algebra.now.formats algebra.now.suite) atoms
        (trees_of (map tree_of terms.now))) }
    ensures count { IfOk result (λ table. length table.items ≡ length terms.now) }
{
    let mut table = Vec::new(alloc);
    for t in terms {
        table.push(honest_bytes(alloc, algebra, given, t)?)?;
    }
    Ok(table)
}

/// The first places, in order.
fn first_places(alloc: Global, count: u16) -> Result<Vec<u32>, NoMemory>
    ensures { IfOk result (λ places. places.items ≡ first_places count) }
{
    let mut places = Vec::new(alloc);
    for i in 0..count {
        places.push(u32::from(i))?;
    }
    Ok(places)
}
