//! Terms by their numbers in a pool: which of them are listed, and which compose from the listed ones.
//! Each of these takes one look at each term of the pool, or at each that is handed in.
ghost use Rattle.std.specs.Prelude.{◌≡◌, ◌++◌, ◌||◌, List, length, map, take, drop, replicate, IfOk};
ghost use Rattle.anb_term.specs.Tree.{Tree};
ghost use Rattle.anb_term.specs.View.{tree_of};
ghost use Rattle.anb_intern.specs.Nodes.{operands_at, AreUnder, IsOver};
ghost use Rattle.anb_reason.specs.Decided.{is_among, composes};
ghost use Rattle.anb_reason.specs.Flags.{all_flagged, is_built, is_parted};

use anb_base::NoMemory;
use anb_intern::{Node, NodeId, Pool};
use anb_term::Term;
use std::alloc::Global;

/// The numbers of these terms, which are put in as far as they aren't there yet. Each node of the terms
/// is looked up once.
pub fn put_all(alloc: Global, pool: &mut Pool, terms: &[Term]) -> Result<Vec<NodeId>, NoMemory>
    ensures under { IfOk result (λ ids. AreUnder (length pool.new) ids.items) }
    ensures stored { IfOk result (λ ids. operands_at pool.new ids.items ≡ map tree_of terms.now) }
    ensures more { IfOk result (λ ids. (more : List Tree) × (pool.new ≡ pool.old ++ more)) }
{
    let mut ids = Vec::new(alloc);
    for t in terms {
        let id = pool.put_term(alloc, t)?;
        ids.push(id)?;
    }
    Ok(ids)
}

/// For each number of the pool, whether it is one of these. This takes a flag for each number, and a
/// look at each of these.
pub fn marks(alloc: Global, pool: &Pool, ids: &[NodeId]) -> Result<Vec<bool>, NoMemory>
    requires { AreUnder (length pool.now) ids.now }
    ensures { IfOk result (λ flags.
        flags.items ≡ map (is_among (operands_at pool.now ids.now)) pool.now) }
{
    let mut flags = same_flags(alloc, pool.len() as usize, false)?;
    for id in ids {
        flags[id.0 as usize] = true;
    }
    Ok(flags)
}

/// So many flags, each of them this one.
pub fn same_flags(alloc: Global, count: usize, flag: bool) -> Result<Vec<bool>, NoMemory>
    ensures { IfOk result (λ flags. flags.items ≡ replicate count flag) }
{
    Ok(vec![in alloc; flag; count]?)
}

/// For each number of the pool, whether its term composes from the terms with a mark. This looks at each
/// operand of each number once.
pub fn composing(alloc: Global, pool: &Pool, marks: &[bool]) -> Result<Vec<bool>, NoMemory>
    requires { length marks.now ≡ length pool.now }
    ensures { IfOk result (λ flags. (S : List Tree) → marks.now ≡ map (is_among S) pool.now
        → flags.items ≡ map (composes S) pool.now) }
{
    let mut flags = Vec::new(alloc);
    for n in 0..pool.len() {
        let composes = is_composed(marks[n as usize], &flags, pool.get(NodeId(n)));
        flags.push(composes)?;
    }
    Ok(flags)
}

/// Whether a node has a mark, or is built from operands that have the flag.
fn is_composed(mark: bool, flags: &[bool], node: &Node) -> bool
    requires { IsOver (length flags.now) node.now }
    ensures { result ≡ (mark || is_built flags.now node.now) }
{
    mark || is_built(flags, node)
}

/// Whether a node is built from operands that have the flag.
fn is_built(flags: &[bool], node: &Node) -> bool
    requires { IsOver (length flags.now) node.now }
    ensures { result ≡ is_built flags.now node.now }
{
    match node {
        Node::Atom(_) => false,
        Node::Apply(op, ids) => ids.len() == op.arity() as usize && all_flagged(flags, ids),
    }
}

/// Whether all of these have the flag.
pub fn all_flagged(flags: &[bool], ids: &[NodeId]) -> bool
    requires { AreUnder (length flags.now) ids.now }
    ensures { result ≡ all_flagged flags.now ids.now }
{
    for id in ids {
        if !flags[id.0 as usize] {
            return false;
        }
    }
    true
}

/// Whether a node's parts have a mark, where it can be undone and its keys compose.
pub(crate) fn is_parted(marks: &[bool], composing: &[bool], node: &Node) -> bool
    requires marks { IsOver (length marks.now) node.now }
    requires composing { IsOver (length composing.now) node.now }
    ensures { result ≡ is_parted marks.now composing.now node.now }
{
    match node {
        Node::Atom(_) => true,
        Node::Apply(op, ids) => {
            let opens = op.undoes() && all_flagged(composing, front(ids, op.keys() as usize));
            !opens || all_flagged(marks, back(ids, op.keys() as usize))
        }
    }
}

/// The first numbers.
pub fn front(ids: &[NodeId], count: usize) -> &[NodeId]
    ensures { result.now ≡ take count ids.now }
{
    if count < ids.len() {
        return &ids[..count];
    }
    ids
}

/// The numbers behind the first ones.
pub fn back(ids: &[NodeId], count: usize) -> &[NodeId]
    ensures { result.now ≡ drop count ids.now }
{
    if count < ids.len() {
        return &ids[count..];
    }
    &[]
}
