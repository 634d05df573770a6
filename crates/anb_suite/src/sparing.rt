//! The spare name in the place of a variable, and narrated terms in the places of all others.
ghost use Rattle.std.specs.Prelude.{◌≡◌, ◌+◌, ◌≤◌, ◌<◌, length, map, take, drop, slice_get, Some, IfOk};
ghost use Rattle.anb_term.specs.View.{tree_of};
ghost use Rattle.anb_unify.specs.Substitutions.{put_in};
ghost use Rattle.anb_suite.specs.Sparing.{narrated_at, spared_at, IsPutInto};

use crate::cases::Case;
use crate::solving::Solved;
use crate::walking::term_at;
use anb_base::NoMemory;
use anb_term::{Term, Terms};
use std::alloc::Global;

/// The case of a check by its most general solution, with the spare name in the place of a variable.
pub(crate) fn case_of(
    alloc: Global,
    solved: &Solved,
    v: u32,
    check: u32,
    event: u32,
) -> Result<Case, NoMemory>
    requires { solved.now.count + 2 ≤ length solved.now.patterns.items }
    ensures check { IfOk result (λ case. case.check ≡ check) }
    ensures event { IfOk result (λ case. case.event ≡ event) }
    ensures put { IfOk result (IsPutInto solved.now.spare v solved.now.explanation.terms
        solved.now.count (map tree_of solved.now.patterns.items)) }
{
    let spare = solved.spare;
    let narrated = solved.explanation.terms();
    let count = solved.count;
    let arrivals = put_all(alloc, spare, v, narrated, first(&solved.patterns, count))?;
    let messages = put_all(alloc, spare, v, narrated, rest(&solved.patterns, count + 2))?;
    let wrong = narrated_at(alloc, spare, narrated, v)?;
    let one = put(alloc, spare, v, narrated, nth(&solved.patterns, count))?;
    let other = put(alloc, spare, v, narrated, nth(&solved.patterns, count + 1))?;
    Ok(Case {
        check,
        event,
        arrivals,
        messages,
        wrong,
        one,
        other,
    })
}

/// The first ones.
fn first(patterns: &[Term], count: usize) -> &[Term]
    requires { count ≤ length patterns.now }
    ensures { result.now ≡ take count patterns.now }
{
    &patterns[..count]
}

/// Those from a place on.
fn rest(patterns: &[Term], at: usize) -> &[Term]
    requires { at ≤ length patterns.now }
    ensures { result.now ≡ drop at patterns.now }
{
    &patterns[at..]
}

/// The one at a place.
pub(crate) fn nth(patterns: &[Term], at: usize) -> &Term
    requires { at < length patterns.now }
    ensures { Some result.now ≡ slice_get patterns.now at }
{
    &patterns[at]
}

/// A pattern with the spare name in the place of a variable.
#[cycle(put)]
fn put(
    alloc: Global,
    spare: u32,
    v: u32,
    narrated: &[Term],
    pattern: &Term,
) -> Result<Term, NoMemory>
    ensures { IfOk result (λ t. tree_of t
        ≡ put_in (spared_at spare v (map tree_of narrated.now)) (tree_of pattern.now)) }
{
    match pattern {
        Term::Atom(n) => put_atom(alloc, spare, v, narrated, *n),
        Term::Node(op, operands) => {
            let operands = put_all(alloc, spare, v, narrated, operands.as_slice())?;
            Ok(Term::Node(*op, Terms::new(operands)))
        }
    }
}

/// The same of each of these.
#[cycle(put)]
fn put_all(
    alloc: Global,
    spare: u32,
    v: u32,
    narrated: &[Term],
    patterns: &[Term],
) -> Result<Vec<Term>, NoMemory>
    ensures { IfOk result (λ terms. map tree_of terms.items
        ≡ map (put_in (spared_at spare v (map tree_of narrated.now))) (map tree_of patterns.now)) }
{
    let mut terms = Vec::new(alloc);
    for pattern in patterns {
        let term = put(alloc, spare, v, narrated, pattern)?;
        terms.push(term)?;
    }
    Ok(terms)
}

/// The spare name where the atom is the variable, and else what is narrated.
fn put_atom(alloc: Global, spare: u32, v: u32, narrated: &[Term], n: u32) -> Result<Term, NoMemory>
    ensures { IfOk result (λ t. tree_of t ≡ spared_at spare v (map tree_of narrated.now) n) }
{
    if n == v {
        Ok(Term::Atom(spare))
    } else {
        narrated_at(alloc, spare, narrated, n)
    }
}

/// A name as it is, and else the narrated term of the register whose variable the atom is.
fn narrated_at(alloc: Global, spare: u32, narrated: &[Term], n: u32) -> Result<Term, NoMemory>
    ensures { IfOk result (λ t. tree_of t ≡ narrated_at spare (map tree_of narrated.now) n) }
{
    if n <= spare {
        Ok(Term::Atom(n))
    } else {
        term_at(alloc, narrated, n - spare - 1)
    }
}
