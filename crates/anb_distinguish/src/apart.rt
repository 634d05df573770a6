//! A variable that tells two terms apart.
ghost use Rattle.std.specs.Prelude.{◌≡◌, map, MatchOption};
ghost use Rattle.anb_term.specs.Tree.{leaf};
ghost use Rattle.anb_term.specs.View.{tree_of};
ghost use Rattle.anb_distinguish.specs.Apart.{AreOneFor, AreAllOneFor, TellsApart, TellsAllApart};

use anb_term::Term;

/// A variable in whose place the spare name makes two terms differ, whatever stands in the places of
/// the others; None where they are one term. It stands by itself at the first place where they differ.
#[cycle(apart)]
pub fn variable_apart(spare: u32, one: &Term, other: &Term) -> Option<u32>
    requires { AreOneFor spare (tree_of one.now) (tree_of other.now) }
    ensures { MatchOption result (tree_of one.now ≡ tree_of other.now)
        (λ v. TellsApart spare (tree_of one.now) (tree_of other.now) v) }
{
    match one {
        Term::Atom(n) => match other {
            Term::Atom(m) => atom_apart(spare, *n, *m),
            Term::Node(..) => Some(*n),
        },
        Term::Node(_, ones) => match other {
            Term::Atom(m) => Some(*m),
            Term::Node(_, others) => first_apart(spare, ones.as_slice(), others.as_slice()),
        },
    }
}

/// The same of two atoms.
fn atom_apart(spare: u32, one: u32, other: u32) -> Option<u32>
    requires { AreOneFor spare (leaf one) (leaf other) }
    ensures { MatchOption result (one ≡ other)
        (λ v. TellsApart spare (leaf one) (leaf other) v) }
{
    if one == other {
        None
    } else if one > spare {
        Some(one)
    } else {
        Some(other)
    }
}

/// The same of the first two of these that differ, in order.
#[cycle(apart)]
fn first_apart(spare: u32, ones: &[Term], others: &[Term]) -> Option<u32>
    requires { AreAllOneFor spare (map tree_of ones.now) (map tree_of others.now) }
    ensures { MatchOption result (map tree_of ones.now ≡ map tree_of others.now)
        (λ v. TellsAllApart spare (map tree_of ones.now) (map tree_of others.now) v) }
{
    for (i, one) in ones.iter().enumerate() {
        if let Some(v) = variable_apart(spare, one, &others[i]) {
            return Some(v);
        }
    }
    None
}
