//! Patterns, read off classes.
ghost use Rattle.std.specs.Prelude.{◌≡◌, ◌<◌, length, map, slice_get, Some, IfOk};
ghost use Rattle.anb_term.specs.Tree.{Tree, trees_of};
ghost use Rattle.anb_term.specs.View.{tree_of};
ghost use Rattle.anb_intern.specs.Nodes.{operands_at, AreUnder};
ghost use Rattle.anb_unify.specs.Reading.{read, read_all, Settles, IsReadable, AreReadable};

use anb_base::NoMemory;
use anb_intern::{Node, NodeId, Pool};
use anb_term::{Term, Terms};
use std::alloc::Global;

/// The most general term of a class whose narrated term is this one.
#[cycle(read)]
pub(crate) fn pattern(
    alloc: Global,
    pool: &Pool,
    names: u32,
    roots: &[NodeId],
    id: NodeId,
    narrated: &Term,
) -> Result<Term, NoMemory>
    requires within { id.0 < length pool.now }
    requires readable { IsReadable names pool.now roots.now id.0 (tree_of narrated.now) }
    ensures { (rep : Tree → Tree) (t : Tree) → Settles names pool.now roots.now rep
        → slice_get pool.now id.0 ≡ Some t
        → IfOk result (λ p. tree_of p ≡ read rep t (tree_of narrated.now)) }
{
    let root = roots[id.0 as usize];
    match pool.get(root) {
        Node::Atom(n) => Ok(Term::Atom(*n)),
        Node::Apply(op, ids) => match narrated {
            Term::Atom(n) => Ok(Term::Atom(*n)),
            Term::Node(_, terms) => {
                let operands = patterns(alloc, pool, names, roots, ids, terms.as_slice())?;
                Ok(Term::Node(*op, Terms::new(operands)))
            }
        },
    }
}

#[cycle(read)]
fn patterns(
    alloc: Global,
    pool: &Pool,
    names: u32,
    roots: &[NodeId],
    ids: &[NodeId],
    narrated: &[Term],
) -> Result<Vec<Term>, NoMemory>
    requires within { AreUnder (length pool.now) ids.now }
    requires readable { AreReadable names pool.now roots.now
        (operands_at pool.now ids.now) (map tree_of narrated.now) }
    ensures { (rep : Tree → Tree) → Settles names pool.now roots.now rep
        → IfOk result (λ ps. trees_of (map tree_of ps.items)
        ≡ read_all rep (trees_of (operands_at pool.now ids.now))
        (trees_of (map tree_of narrated.now))) }
{
    let mut out = Vec::new(alloc);
    for (i, term) in narrated.iter().enumerate() {
        let term = pattern(alloc, pool, names, roots, ids[i], term)?;
        out.push(term)?;
    }
    Ok(out)
}
