//! Variables by numbers in the order in which they first stand.
ghost use Rattle.std.specs.Prelude.{◌≡◌, ◌≤◌, ℕ, List, map, Bool, IfOk, OnOk, if◌then◌else◌};
ghost use Rattle.anb_term.specs.declared.term.Op.{Op};
ghost use Rattle.anb_term.specs.Tree.{leaf, trees_of};
ghost use Rattle.anb_term.specs.View.{tree_of};
ghost use Rattle.anb_plays.specs.Plans.{Event};
ghost use Rattle.anb_accept.specs.Numbering.{AreNumbered};
ghost use Rattle.anb_accept.specs.Patterns.{ArePatterns};
ghost use Rattle.anb_accept.specs.Renaming.{AllGotNumbers, GotNumbers};

use anb_base::NoMemory;
use anb_intern::{Node, Pool};
use anb_term::{Term, Terms};
use anb_unify::variable;
use std::alloc::Global;

/// The same patterns, with their variables numbered in the order in which they first stand.
pub(crate) fn numbered(alloc: Global, names: u32, patterns: &[Term]) -> Result<Vec<Term>, NoMemory>
    ensures same { (has : Op → Bool) (plan : List Event)
        → ArePatterns has names plan (map tree_of patterns.now)
        → IfOk result (λ all. ArePatterns has names plan (map tree_of all.items)) }
    ensures numbered { IfOk result (λ all. AreNumbered names (map tree_of all.items)) }
{
    let mut pool = Pool::new(alloc);
    let all = number_all(alloc, &mut pool, names, patterns)?;
    let _ = pool.len();
    Ok(all)
}

/// A term with numbers in the places of its variables, which go on behind those of a pool.
#[cycle(number)]
fn number(alloc: Global, pool: &mut Pool, names: u32, t: &Term) -> Result<Term, NoMemory>
    ensures { IfOk result (λ u.
        GotNumbers names pool.old pool.new (tree_of t.now) (tree_of u)) }
{
    match t {
        Term::Atom(n) => number_atom(pool, names, *n),
        Term::Node(op, terms) => {
            let operands = number_all(alloc, pool, names, terms.as_slice())?;
            Ok(Term::Node(*op, Terms::new(operands)))
        }
    }
}

/// The same of each of these terms.
#[cycle(number)]
fn number_all(
    alloc: Global,
    pool: &mut Pool,
    names: u32,
    ts: &[Term],
) -> Result<Vec<Term>, NoMemory>
    ensures { IfOk result (λ us. AllGotNumbers names pool.old pool.new
        (trees_of (map tree_of ts.now)) (trees_of (map tree_of us.items))) }
{
    let mut out = Vec::new(alloc);
    for t in ts {
        let term = number(alloc, pool, names, t)?;
        out.push(term)?;
    }
    Ok(out)
}

/// A name, or the number of a variable.
fn number_atom(pool: &mut Pool, names: u32, n: u32) -> Result<Term, NoMemory>
    ensures { IfOk result (λ u. GotNumbers names pool.old pool.new (leaf n) (tree_of u)) }
{
    if n < names {
        return Ok(Term::Atom(n));
    }
    if pool.len() == u32::MAX {
        return Err(NoMemory);
    }
    let id = pool.put(Node::Atom(n))?;
    let _ = pool.len();
    Ok(Term::Atom(variable(names, id.0)?))
}
