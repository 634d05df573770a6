//! Inner places: what may be wrong alone within a value that the role compares as a whole.
//!
//! A role compares a sealed value, or one of a format, with the one that it makes itself. A program may
//! open it in place of that and compare its parts, and forget one of them. So each part is tried alone.
ghost use Rattle.std.specs.Prelude.{◌≡◌, ◌++◌, ◌∷◌, [], map, IfOk, OnOk};
ghost use Rattle.std.specs.List.{AllZip};
ghost use Rattle.anb_term.specs.Tree.{trees_of};
ghost use Rattle.anb_term.specs.View.{tree_of};
ghost use Rattle.anb_unify.specs.Substitutions.{put_in};
ghost use Rattle.anb_attempts.specs.Inner.{in_place_of, inner_before, inner_behind, inner_from, inner_node, few_within, inner_of, inner_within, itself, AreWithin, IsWithin};
ghost use Rattle.anb_attempts.specs.Parts.{inner_value, operands_value};

use anb_base::NoMemory;
use anb_partner::may_stand;
use anb_protocol::Protocol;
use anb_suite::Case;
use anb_term::{Op, Term, Terms};
use std::alloc::Global;

/// A term with the spare name at one place, and the part that stood there.
#[derive(Drop)]
pub(crate) struct Inner {
    pub(crate) term: Term,
    pub(crate) part: Term,
}

/// Operands with the spare name at one place of theirs, and the part that stood there.
#[derive(Drop)]
pub(crate) struct InnerOperands {
    pub(crate) operands: Vec<Term>,
    pub(crate) part: Term,
}

/// How many parts of a term are tried alone at most. Each has all that arrives anew.
const PARTS: usize = 64;

/// Of a check's case a case for each part of the term that is made wrong: none where that can't be opened,
/// is too large for a plan, or has more parts than are tried.
pub(crate) fn cases_within(
    alloc: Global,
    p: &Protocol,
    spare: u32,
    case: &Case,
) -> Result<Vec<Case>, NoMemory>
    ensures { IfOk result (λ cases. AreWithin p.now spare case.now cases.items) }
{
    if may_stand(alloc, p, &case.wrong)? {
        cases_of_parts(alloc, spare, case)
    } else {
        Ok(Vec::new(alloc))
    }
}

/// The same of a term that may stand in a plan.
fn cases_of_parts(alloc: Global, spare: u32, case: &Case) -> Result<Vec<Case>, NoMemory>
    ensures { IfOk result (λ cases. AllZip (IsWithin spare case.now)
        (few_within spare (tree_of case.now.wrong)) cases.items) }
{
    let inner = few_parts(alloc, spare, &case.wrong)?;
    let mut cases = Vec::new(alloc);
    for inner in inner {
        let within = case_within(alloc, spare, case, inner)?;
        cases.push(within)?;
    }
    Ok(cases)
}

/// The parts of a term that can be opened, where they are few.
fn few_parts(alloc: Global, spare: u32, t: &Term) -> Result<Vec<Inner>, NoMemory>
    ensures { IfOk result (λ inner.
        map inner_value inner.items ≡ few_within spare (tree_of t.now)) }
{
    let inner = parts_within(alloc, spare, t)?;
    if inner.len() <= PARTS {
        Ok(inner)
    } else {
        Ok(Vec::new(alloc))
    }
}

/// The parts of a term that can be opened.
fn parts_within(alloc: Global, spare: u32, t: &Term) -> Result<Vec<Inner>, NoMemory>
    ensures { IfOk result (λ inner.
        map inner_value inner.items ≡ inner_within spare (tree_of t.now)) }
{
    match t {
        Term::Atom(_) => Ok(Vec::new(alloc)),
        Term::Node(op, operands) => {
            if !op.undoes() {
                return Ok(Vec::new(alloc));
            }
            let lists = inner_from(alloc, spare, op.keys(), operands.as_slice())?;
            nodes(alloc, *op, lists)
        }
    }
}

/// The case with the spare name at an inner place.
fn case_within(alloc: Global, spare: u32, case: &Case, inner: Inner) -> Result<Case, NoMemory>
    ensures { IfOk result (IsWithin spare case.now (inner_value inner)) }
{
    let arrivals = put_all(alloc, spare, &inner.term, &case.arrivals)?;
    let messages = put_all(alloc, spare, &inner.term, &case.messages)?;
    let one = put(alloc, spare, &inner.term, &case.one)?;
    let other = put(alloc, spare, &inner.term, &case.other)?;
    Ok(Case {
        check: case.check,
        event: case.event,
        arrivals,
        messages,
        wrong: inner.part,
        one,
        other,
    })
}

/// The inner places of a term: those of its parts where it can be opened, and else the term itself.
#[cycle(inner)]
fn inner_of(alloc: Global, spare: u32, t: &Term) -> Result<Vec<Inner>, NoMemory>
    ensures { IfOk result (λ inner. map inner_value inner.items ≡ inner_of spare (tree_of t.now)) }
{
    match t {
        Term::Atom(_) => itself(alloc, spare, t),
        Term::Node(op, operands) => {
            if !op.undoes() {
                return itself(alloc, spare, t);
            }
            let lists = inner_from(alloc, spare, op.keys(), operands.as_slice())?;
            nodes(alloc, *op, lists)
        }
    }
}

/// The same within operands, of which so many, the first ones, are keys.
#[cycle(inner)]
fn inner_from(
    alloc: Global,
    spare: u32,
    keys: u16,
    operands: &[Term],
) -> Result<Vec<InnerOperands>, NoMemory>
    ensures { IfOk result (λ lists. map operands_value lists.items
        ≡ inner_from spare keys (trees_of (map tree_of operands.now))) }
{
    let Some((first, rest)) = operands.split_first() else {
        return Ok(Vec::new(alloc));
    };
    if keys > 0 {
        let lists = inner_from(alloc, spare, keys - 1, rest)?;
        return in_front(alloc, first, lists);
    }
    let inner = inner_of(alloc, spare, first)?;
    let mut here = before(alloc, inner, rest)?;
    let lists = inner_from(alloc, spare, 0, rest)?;
    let mut later = in_front(alloc, first, lists)?;
    here.append(&mut later)?;
    Ok(here)
}

/// The term itself.
fn itself(alloc: Global, spare: u32, t: &Term) -> Result<Vec<Inner>, NoMemory>
    ensures { IfOk result (λ inner.
        map inner_value inner.items ≡ itself spare (tree_of t.now) ∷ []) }
{
    let mut inner = Vec::new(alloc);
    inner.push(Inner {
        term: Term::Atom(spare),
        part: t.copy(alloc)?,
    })?;
    Ok(inner)
}

/// An operator on each of these operands.
fn nodes(alloc: Global, op: Op, lists: Vec<InnerOperands>) -> Result<Vec<Inner>, NoMemory>
    ensures { IfOk result (λ inner. map inner_value inner.items
        ≡ map (inner_node op) (map operands_value lists.items)) }
{
    let mut inner = Vec::new(alloc);
    for list in lists {
        inner.push(Inner {
            term: Term::Node(op, Terms::new(list.operands)),
            part: list.part,
        })?;
    }
    Ok(inner)
}

/// Each of these terms before the others.
fn before(alloc: Global, inner: Vec<Inner>, rest: &[Term]) -> Result<Vec<InnerOperands>, NoMemory>
    ensures { IfOk result (λ lists. map operands_value lists.items
        ≡ map (inner_before (trees_of (map tree_of rest.now))) (map inner_value inner.items)) }
{
    let mut lists = Vec::new(alloc);
    for first in inner {
        let mut operands = Vec::new(alloc);
        operands.push(first.term)?;
        put_copies(alloc, &mut operands, rest)?;
        lists.push(InnerOperands {
            operands,
            part: first.part,
        })?;
    }
    Ok(lists)
}

/// A term before each of these operands.
fn in_front(
    alloc: Global,
    first: &Term,
    lists: Vec<InnerOperands>,
) -> Result<Vec<InnerOperands>, NoMemory>
    ensures { IfOk result (λ longer. map operands_value longer.items
        ≡ map (inner_behind (tree_of first.now)) (map operands_value lists.items)) }
{
    let mut longer = Vec::new(alloc);
    for list in lists {
        let mut rest = list.operands;
        let mut operands = Vec::new(alloc);
        operands.push(first.copy(alloc)?)?;
        operands.append(&mut rest)?;
        longer.push(InnerOperands {
            operands,
            part: list.part,
        })?;
    }
    Ok(longer)
}

/// Appends copies of these terms.
fn put_copies(alloc: Global, operands: &mut Vec<Term>, terms: &[Term]) -> Result<(), NoMemory>
    ensures { OnOk result (map tree_of operands.new.items
        ≡ map tree_of operands.old.items ++ map tree_of terms.now) }
{
    for t in terms {
        operands.push(t.copy(alloc)?)?;
    }
    Ok(())
}

/// The term with another one in place of the spare name.
#[cycle(put)]
fn put(alloc: Global, spare: u32, other: &Term, t: &Term) -> Result<Term, NoMemory>
    ensures { IfOk result (λ made. tree_of made
        ≡ put_in (in_place_of spare (tree_of other.now)) (tree_of t.now)) }
{
    match t {
        Term::Atom(n) => put_atom(alloc, spare, other, *n),
        Term::Node(op, operands) => {
            let operands = put_all(alloc, spare, other, operands.as_slice())?;
            Ok(Term::Node(*op, Terms::new(operands)))
        }
    }
}

/// The same of each of these.
#[cycle(put)]
fn put_all(alloc: Global, spare: u32, other: &Term, terms: &[Term]) -> Result<Vec<Term>, NoMemory>
    ensures { IfOk result (λ made. map tree_of made.items
        ≡ map (put_in (in_place_of spare (tree_of other.now))) (map tree_of terms.now)) }
{
    let mut made = Vec::new(alloc);
    for t in terms {
        let one = put(alloc, spare, other, t)?;
        made.push(one)?;
    }
    Ok(made)
}

/// The same of an atom.
fn put_atom(alloc: Global, spare: u32, other: &Term, n: u32) -> Result<Term, NoMemory>
    ensures { IfOk result (λ made. tree_of made ≡ in_place_of spare (tree_of other.now) n) }
{
    if n == spare {
        other.copy(alloc)
    } else {
        Ok(Term::Atom(n))
    }
}
