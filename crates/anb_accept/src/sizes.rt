//! How many nodes terms have, up to a bound.
ghost use Rattle.std.specs.Prelude.{◌≡◌, ◌+◌, map, IfSome};
ghost use Rattle.anb_term.specs.Tree.{trees_of, tree_size, trees_size};
ghost use Rattle.anb_term.specs.View.{tree_of};

use anb_term::Term;

/// What is left of a number of nodes after those of a term, or None where the term has more.
#[cycle(left)]
pub fn left_after(left: u32, t: &Term) -> Option<u32>
    ensures { IfSome result (λ rest. rest + tree_size (tree_of t.now) ≡ left) }
{
    if left == 0 {
        return None;
    }
    match t {
        Term::Atom(_) => Some(left - 1),
        Term::Node(_, operands) => left_after_all(left - 1, operands.as_slice()),
    }
}

/// What is left after those of each of these.
#[cycle(left)]
pub fn left_after_all(left: u32, terms: &[Term]) -> Option<u32>
    ensures { IfSome result (λ rest.
        rest + trees_size (trees_of (map tree_of terms.now)) ≡ left) }
{
    let mut rest = left;
    for t in terms {
        match left_after(rest, t) {
            Some(fewer) => rest = fewer,
            None => return None,
        }
    }
    Some(rest)
}
