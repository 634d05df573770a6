//! Where the spare name stands in what arrives.
ghost use Rattle.std.specs.Prelude.{◌≡◌, ◌<◌, length, map, take, drop, IfOk};
ghost use Rattle.std.specs.Option.{option_map};
ghost use Rattle.anb_term.specs.Tree.{leaf, trees_of};
ghost use Rattle.anb_term.specs.View.{tree_of};
ghost use Rattle.anb_verdict.specs.Places.{first_way, place_from, place_in_arrivals, place_value, reversed, way_to, ways_to};

use crate::place::Place;
use anb_base::NoMemory;
use anb_judge::sides;
use anb_protocol::Protocol;
use anb_term::Term;
use std::alloc::Global;

/// The place of the spare name in what arrives at a role, in order: the first arrival that has it, and
/// there outside of keys where it can be. Linear in the arrivals and in the plan.
pub fn place_of(
    alloc: Global,
    p: &Protocol,
    role: u32,
    arrivals: &[Term],
    spare: u32,
) -> Result<Option<Place>, NoMemory>
    requires { role < length p.now.roles }
    ensures { IfOk result (λ place. option_map place_value place
        ≡ place_in_arrivals p.now role (map tree_of arrivals.now) spare) }
{
    let plan = p.plan(alloc, role)?;
    let sides = sides(alloc, plan.events())?;
    place_among(alloc, &sides, arrivals, spare)
}

/// The same, where a role hears something at each event with false.
fn place_among(
    alloc: Global,
    sides: &[bool],
    arrivals: &[Term],
    spare: u32,
) -> Result<Option<Place>, NoMemory>
    ensures { IfOk result (λ place. option_map place_value place
        ≡ place_from spare 1 sides.now (map tree_of arrivals.now)) }
{
    let mut heard = 0;
    for i in 0..sides.len() {
        if !sides[i] {
            if heard >= arrivals.len() {
                return Ok(None);
            }
            if let Some(path) = way_in(alloc, &arrivals[heard], spare)? {
                return Ok(Some(Place { event: i + 1, path }));
            }
            heard += 1;
        }
    }
    Ok(None)
}

/// The way to an atom in a term, from the outside in.
fn way_in(alloc: Global, t: &Term, spare: u32) -> Result<Option<Vec<usize>>, NoMemory>
    ensures { IfOk result (λ way. option_map (λ path. path.items) way
        ≡ way_to spare (tree_of t.now)) }
{
    match way_out(alloc, t, spare)? {
        Some(mut path) => {
            path.reverse();
            Ok(Some(path))
        }
        None => Ok(None),
    }
}

/// The same from the inside out.
#[cycle(find)]
fn way_out(alloc: Global, t: &Term, spare: u32) -> Result<Option<Vec<usize>>, NoMemory>
    ensures { IfOk result (λ way. option_map reversed way ≡ way_to spare (tree_of t.now)) }
{
    match t {
        Term::Atom(n) => Ok(way_at(alloc, *n, spare)),
        Term::Node(op, operands) => {
            let operands = operands.as_slice();
            let keys = op.keys() as usize;
            match way_out_of(alloc, rest(operands, keys), keys, spare)? {
                Some(way) => Ok(Some(way)),
                None => way_out_of(alloc, front(operands, keys), 0, spare),
            }
        }
    }
}

/// The same of the first of these operands that has the atom, where the first one has number i.
#[cycle(find)]
fn way_out_of(
    alloc: Global,
    operands: &[Term],
    i: usize,
    spare: u32,
) -> Result<Option<Vec<usize>>, NoMemory>
    ensures { IfOk result (λ way. option_map reversed way
        ≡ first_way i (ways_to spare (trees_of (map tree_of operands.now)))) }
{
    let Some((first, others)) = operands.split_first() else {
        return Ok(None);
    };
    match way_out(alloc, first, spare)? {
        Some(mut way) => {
            way.push(i)?;
            Ok(Some(way))
        }
        None => match i.checked_add(1) {
            Some(next) => way_out_of(alloc, others, next, spare),
            None => Err(NoMemory),
        },
    }
}

/// The way to an atom in an atom.
fn way_at(alloc: Global, n: u32, spare: u32) -> Option<Vec<usize>>
    ensures { option_map reversed result ≡ way_to spare (leaf n) }
{
    if n == spare {
        Some(Vec::new(alloc))
    } else {
        None
    }
}

/// The first ones.
fn front(terms: &[Term], count: usize) -> &[Term]
    ensures { result.now ≡ take count terms.now }
{
    &terms[..count.min(terms.len())]
}

/// Those behind the first ones.
fn rest(terms: &[Term], count: usize) -> &[Term]
    ensures { result.now ≡ drop count terms.now }
{
    &terms[count.min(terms.len())..]
}
