//! Classes of the terms of a pool: those that equations make one.
ghost use Rattle.std.specs.Prelude.{◌≡◌, ◌≢◌, ◌<◌, length, map, slice_get, Some, true, false};
ghost use Rattle.anb_term.specs.Tree.{Tree};
ghost use Rattle.anb_term.specs.View.{tree_of};
ghost use Rattle.anb_intern.specs.Nodes.{operands_at, AreUnder};
ghost use Rattle.anb_intern.specs.declared.node.NodeId.{NodeId};
ghost use Rattle.anb_unify.specs.Classes.{is_variable, varies, rank, AreClasses, IsRoot, SameAt, Respects, AreLike, AreClosed, AreNarrated, AreOne, AreAllNarrated, AreAllOne, IsShortened, AreLinked};

use anb_intern::{Node, NodeId, Pool};
use anb_term::Term;

/// Whether a term is a variable.
pub(crate) fn is_variable(pool: &Pool, names: u32, id: NodeId) -> bool
    requires { id.0 < length pool.now }
    ensures { result ≡ varies names (slice_get pool.now id.0) }
{
    match pool.get(id) {
        Node::Atom(n) => *n >= names,
        Node::Apply(..) => false,
    }
}

/// Whether the first of two terms is to stand for both: one that is no variable, or else the one with
/// the lower number.
fn stands_first(pool: &Pool, names: u32, one: NodeId, other: NodeId) -> bool
    requires one_within { one.0 < length pool.now }
    requires other_within { other.0 < length pool.now }
    requires apart { one.0 ≢ other.0 }
    ensures first { result ≡ true → rank names pool.now one.0 < rank names pool.now other.0 }
    ensures other { result ≡ false → rank names pool.now other.0 < rank names pool.now one.0 }
{
    if is_variable(pool, names, one) == is_variable(pool, names, other) {
        one.0 < other.0
    } else {
        is_variable(pool, names, other)
    }
}

/// The term that stands for a term's class. On the way each parent is replaced by its own parent.
pub(crate) fn find(pool: &Pool, names: u32, parents: &mut Vec<NodeId>, id: NodeId) -> NodeId
    requires within { id.0 < length pool.now }
    requires classes { AreClasses names pool.now parents.old.items }
    ensures classes { AreClasses names pool.now parents.new.items }
    ensures root { IsRoot parents.new.items result }
    ensures here { result.0 < length pool.now }
    ensures stay { IsShortened names pool.now parents.old.items parents.new.items }
    ensures same { (f : Tree → Tree) → Respects pool.now f parents.new.items
        → SameAt pool.now f id.0 result.0 }
{
    let mut at = id;
    while parents[at.0 as usize].0 != at.0 {
        let up = parents[parents[at.0 as usize].0 as usize];
        parents[at.0 as usize] = up;
        at = up;
    }
    at
}

/// Makes two classes one.
fn link(pool: &Pool, names: u32, parents: &mut Vec<NodeId>, one: NodeId, other: NodeId)
    requires one_within { one.0 < length pool.now }
    requires other_within { other.0 < length pool.now }
    requires apart { one.0 ≢ other.0 }
    requires classes { AreClasses names pool.now parents.old.items }
    requires one_root { IsRoot parents.old.items one }
    requires other_root { IsRoot parents.old.items other }
    ensures classes { AreClasses names pool.now parents.new.items }
    ensures linked { AreLinked names pool.now parents.old.items parents.new.items one.0 other.0 }
{
    if stands_first(pool, names, one, other) {
        parents[other.0 as usize] = one;
    } else {
        parents[one.0 as usize] = other;
    }
}

/// Makes the classes of two terms one, and those of their operands. Both have the narrated term.
#[cycle(unify)]
pub(crate) fn unify(
    pool: &Pool,
    names: u32,
    parents: &mut Vec<NodeId>,
    one: NodeId,
    other: NodeId,
    narrated: &Term,
)
    requires one_within { one.0 < length pool.now }
    requires other_within { other.0 < length pool.now }
    requires classes { AreClasses names pool.now parents.old.items }
    requires narrated { AreNarrated names pool.now parents.old.items one.0 other.0
        (tree_of narrated.now) }
    ensures classes { AreClasses names pool.now parents.new.items }
    ensures one { AreOne names pool.now parents.old.items parents.new.items one.0 other.0 }
{
    let a = find(pool, names, parents, one);
    let b = find(pool, names, parents, other);
    if a.0 == b.0 {
        return;
    }
    link(pool, names, parents, a, b);
    let Node::Apply(_, ones) = pool.get(a) else {
        return;
    };
    let Node::Apply(_, others) = pool.get(b) else {
        return;
    };
    let Term::Node(_, terms) = narrated else {
        return;
    };
    unify_all(pool, names, parents, ones, others, terms.as_slice());
}

/// The same of each two in order.
#[cycle(unify)]
fn unify_all(
    pool: &Pool,
    names: u32,
    parents: &mut Vec<NodeId>,
    ones: &[NodeId],
    others: &[NodeId],
    narrated: &[Term],
)
    requires ones_within { AreUnder (length pool.now) ones.now }
    requires others_within { AreUnder (length pool.now) others.now }
    requires classes { AreClasses names pool.now parents.old.items }
    requires narrated { AreAllNarrated names pool.now parents.old.items
        (operands_at pool.now ones.now) (operands_at pool.now others.now)
        (map tree_of narrated.now) }
    ensures classes { AreClasses names pool.now parents.new.items }
    ensures all { AreAllOne names pool.now parents.old.items parents.new.items
        (operands_at pool.now ones.now) (operands_at pool.now others.now) }
{
    for (i, term) in narrated.iter().enumerate() {
        unify(pool, names, parents, ones[i], others[i], term);
    }
}
