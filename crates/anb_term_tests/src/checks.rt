//! Frames, and the checks that they need.

ghost use Rattle.std.specs.Prelude.{◌≡◌, ◌<◌, map, true, IfSome};
ghost use Rattle.anb_term.specs.Tree.{nodes, tree_size, trees_of, IsFormed, AreFormed};
ghost use Rattle.anb_term.specs.View.{tree_of};

use crate::notation::{term_of, terms_of};
use anb_base::NoMemory;
use anb_basis::basis::{Basis, all_checks};
use anb_basis::check::Check;
use anb_close::Made;
use anb_term::{Op, Term, Terms};
use std::alloc::Global;

/// How many nodes a term has, where it is well formed and not deep.
#[cycle(count)]
fn node_count(t: &Term, depth: u32) -> Option<u64>
    ensures formed { IfSome result (λ n. IsFormed (λ o. true) (tree_of t.now)) }
    ensures size { IfSome result (λ n. n ≡ tree_size (tree_of t.now)) }
{
    match t {
        Term::Atom(_) => Some(1),
        Term::Node(op, operands) => {
            if depth == 0 {
                return None;
            }
            if operands.len() != op.arity() as usize {
                return None;
            }
            match node_counts(operands.as_slice(), depth - 1) {
                None => None,
                Some(n) => n.checked_add(1),
            }
        }
    }
}

/// How many nodes these terms have together, where they are well formed and not deep.
#[cycle(count)]
fn node_counts(ts: &[Term], depth: u32) -> Option<u64>
    ensures formed { IfSome result (λ n. AreFormed (λ o. true) (trees_of (map tree_of ts.now))) }
    ensures size { IfSome result (λ n. n ≡ nodes (map tree_of ts.now)) }
{
    let mut sum: u64 = 0;
    for t in ts {
        match node_count(t, depth) {
            None => return None,
            Some(n) => match sum.checked_add(n) {
                None => return None,
                Some(more) => sum = more,
            },
        }
    }
    Some(sum)
}

/// The basis of a frame, or none where the frame isn't fit for one.
fn basis_over(alloc: Global, frame: &[Term]) -> Result<Basis, NoMemory> {
    match node_counts(frame, 9) {
        None => Err(NoMemory),
        Some(n) => {
            if n < 1000 {
                all_checks(alloc, frame)
            } else {
                Err(NoMemory)
            }
        }
    }
}

/// The basis of the frame of these terms.
fn basis_of(alloc: Global, frame: &str) -> Result<Basis, NoMemory> {
    let frame = terms_of(alloc, frame)?;
    basis_over(alloc, &frame)
}

/// Whether a basis has so many entries and checks.
fn has_counts(basis: &Basis, entries: usize, checks: usize) -> bool {
    basis.closure().entries().len() == entries && basis.given().len() == checks
}

/// Whether a frame's basis has so many.
fn counts(alloc: Global, frame: &str, entries: usize, checks: usize) -> Result<bool, NoMemory> {
    let basis = basis_of(alloc, frame)?;
    Ok(has_counts(&basis, entries, checks))
}

/// The first of these frames that has other numbers of entries or checks.
fn wrong_counts(alloc: Global, rows: &[(&'static str, usize, usize)]) -> Option<&'static str> {
    for (frame, entries, checks) in rows {
        if !matches!(counts(alloc, frame, *entries, *checks), Ok(true)) {
            return Some(*frame);
        }
    }
    None
}

const COUNTS: [(&str, usize, usize); 10] = [
    ("00r", 2, 1),
    ("10102ps", 6, 3),
    ("010s1", 4, 2),
    ("0h0", 2, 1),
    ("00h", 2, 1),
    ("00s", 1, 0),
    ("0101ph2s", 4, 1),
    ("0012w1", 4, 1),
    ("k", 1, 1),
    ("0000", 4, 3),
];

#[test]
fn each_entry_has_at_most_one_check(rt: HostRuntime) {
    assert_eq!(rt; wrong_counts(rt.alloc(), &COUNTS), None);
}

/// What composes a term over a frame, where the term is fit to be composed.
fn composition(alloc: Global, frame: &str, term: &str) -> Result<Option<Made>, NoMemory> {
    let basis = basis_of(alloc, frame)?;
    let term = term_of(alloc, term)?;
    match node_count(&term, 9) {
        None => Err(NoMemory),
        Some(_) => basis.closure().compose(alloc, &term),
    }
}

/// Whether the entry of this number composes the term.
fn is_taken(alloc: Global, frame: &str, term: &str, entry: u32) -> bool {
    match composition(alloc, frame, term) {
        Ok(Some(Made::Entry(found))) => found == entry,
        _ => false,
    }
}

/// Whether the term is composed as a hash.
fn is_built(alloc: Global, frame: &str, term: &str) -> bool {
    matches!(
        composition(alloc, frame, term),
        Ok(Some(Made::Build(Op::Hash, _)))
    )
}

/// Whether nothing composes the term.
fn is_refused(alloc: Global, frame: &str, term: &str) -> bool {
    matches!(composition(alloc, frame, term), Ok(None))
}

#[test]
fn a_term_is_taken_or_built_or_refused(rt: HostRuntime) {
    assert!(rt; is_built(rt.alloc(), "0101ph2s", "01ph"));
    assert!(rt; is_taken(rt.alloc(), "0101ph2s", "2", 3));
    assert!(rt; is_refused(rt.alloc(), "00s", "0"));
}

/// Whether the only check of a frame opens an entry.
fn only_opens(alloc: Global, frame: &str) -> Result<bool, NoMemory> {
    let basis = basis_of(alloc, frame)?;
    match basis.given() {
        [check] => Ok(matches!(check, Check::Open(_))),
        _ => Ok(false),
    }
}

/// Whether a check compares the entry of this number with a hash.
fn compares(check: &Check, entry: u32) -> bool {
    match check {
        Check::Equal(first, Made::Build(Op::Hash, _)) => *first == entry,
        _ => false,
    }
}

/// Whether the only check of a frame is such a one.
fn only_compares(alloc: Global, frame: &str, entry: u32) -> Result<bool, NoMemory> {
    let basis = basis_of(alloc, frame)?;
    match basis.given() {
        [check] => Ok(compares(check, entry)),
        _ => Ok(false),
    }
}

#[test]
fn a_check_opens_or_compares(rt: HostRuntime) -> Result<(), NoMemory> {
    assert!(rt; only_opens(rt.alloc(), "0101ph2s")?);
    assert!(rt; only_compares(rt.alloc(), "0h0", 0)?);
    assert!(rt; counts(rt.alloc(), "0h", 1, 0)?);
    Ok(())
}

/// This atom sealed under atom 0.
fn sealed(alloc: Global, body: u32) -> Result<Term, NoMemory> {
    let operands = vec![in alloc; Term::Atom(0), Term::Atom(body)]?;
    Ok(Term::Node(Op::Seal, Terms::new(operands)))
}

/// So many atoms, each sealed under atom 0, and then that key.
fn late_key(alloc: Global, count: u32) -> Result<Vec<Term>, NoMemory> {
    let mut frame = Vec::new(alloc);
    for body in 0..count {
        let sealed = sealed(alloc, body.saturating_add(1))?;
        frame.push(sealed)?;
    }
    frame.push(Term::Atom(0))?;
    Ok(frame)
}

/// Whether the basis over these has so many entries and checks.
fn late_counts(alloc: Global, count: u32, entries: usize, checks: usize) -> Result<bool, NoMemory> {
    let frame = late_key(alloc, count)?;
    let basis = basis_over(alloc, &frame)?;
    Ok(has_counts(&basis, entries, checks))
}

#[test]
fn a_late_key_opens_a_hundred_kept_bodies(rt: HostRuntime) -> Result<(), NoMemory> {
    assert!(rt; late_counts(rt.alloc(), 100, 201, 100)?);
    Ok(())
}
