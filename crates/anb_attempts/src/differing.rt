//! Whether two sides of a check differ whatever the values are.
ghost use Rattle.std.specs.Prelude.{◌≡◌, ◌↔◌, map, IsTrue};
ghost use Rattle.anb_term.specs.Operator.{op_eqb};
ghost use Rattle.anb_term.specs.Tree.{leaf, tree_eqb, trees_of};
ghost use Rattle.anb_term.specs.View.{tree_of};
ghost use Rattle.anb_attempts.specs.Attempts.{DifferInPlace};
ghost use Rattle.anb_attempts.specs.Differing.{differ, is_spared, some_differ};

use anb_term::{Op, Term};

/// Whether the two sides of a check differ in place, where the spare name stands in place of a term:
/// only formats and bodies of seals stand above it, so that the bytes differ whatever the wrong value
/// is. Linear in both.
pub fn differ_in_place(spare: u32, wrong: &Term, one: &Term, other: &Term) -> bool
    ensures { IsTrue result
        ↔ DifferInPlace spare (tree_of wrong.now) (tree_of one.now) (tree_of other.now) }
{
    differ(spare, wrong, one, other)
}

#[cycle(differ)]
fn differ(spare: u32, wrong: &Term, one: &Term, other: &Term) -> bool
    ensures { result ≡ differ spare (tree_of wrong.now) (tree_of one.now) (tree_of other.now) }
{
    match one {
        Term::Atom(_) => is_spared(spare, wrong, one, other),
        Term::Node(op, ones) => match other {
            Term::Atom(_) => is_spared(spare, wrong, one, other),
            Term::Node(same, others) => {
                is_one(*op, *same)
                    && op.undoes()
                    && some_differ(spare, wrong, op.keys(), ones.as_slice(), others.as_slice())
            }
        },
    }
}

/// Whether so many of both, the first ones, are the same, and two of the others differ in place.
#[cycle(differ)]
fn some_differ(spare: u32, wrong: &Term, keys: u16, ones: &[Term], others: &[Term]) -> bool
    ensures { result ≡ some_differ spare (tree_of wrong.now) keys
        (trees_of (map tree_of ones.now)) (trees_of (map tree_of others.now)) }
{
    let Some((one, ones)) = ones.split_first() else {
        return false;
    };
    let Some((other, others)) = others.split_first() else {
        return false;
    };
    if keys > 0 {
        return is_same(one, other) && some_differ(spare, wrong, keys - 1, ones, others);
    }
    differ(spare, wrong, one, other) || some_differ(spare, wrong, 0, ones, others)
}

/// Whether one of both is the spare name, and the other one the term in whose place it stands.
fn is_spared(spare: u32, wrong: &Term, one: &Term, other: &Term) -> bool
    ensures { result ≡ is_spared spare (tree_of wrong.now) (tree_of one.now) (tree_of other.now) }
{
    (is_atom(one, spare) && is_same(other, wrong)) || (is_same(one, wrong) && is_atom(other, spare))
}

fn is_atom(t: &Term, n: u32) -> bool
    ensures { result ≡ tree_eqb (tree_of t.now) (leaf n) }
{
    match t {
        Term::Atom(m) => *m == n,
        Term::Node(..) => false,
    }
}

/// Whether two operators are one.
fn is_one(one: Op, other: Op) -> bool
    ensures { result ≡ op_eqb one other }
{
    one == other
}

/// Whether two terms are one.
pub(crate) fn is_same(one: &Term, other: &Term) -> bool
    ensures { result ≡ tree_eqb (tree_of one.now) (tree_of other.now) }
{
    one.same(other)
}
