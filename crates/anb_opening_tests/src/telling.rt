//! Cases for tests, and terms to compare them with.
use anb_base::{NoMemory, SMALL_FILE};
use anb_compile::compile;
use anb_openings::{Obstacle, OpeningCase, OpeningFinding, opening_finding, openings};
use anb_term::{Op, Term, Terms};
use anb_test_protocols::protocol_in;
use std::alloc::Global;
use std::process::Abort;
use std::test::Fail;

/// What is found of the opening with this number, from 0, of a role's compiled code.
fn finding_in(
    rt: &impl Abort,
    alloc: Global,
    text: &str,
    role: u32,
    number: usize,
) -> Result<OpeningFinding, Fail> {
    assert!(rt; text.len() <= SMALL_FILE as usize);
    let p = protocol_in(alloc, text.as_bytes())?;
    assert!(rt; (role as usize) < p.roles().len());
    let code = compile(alloc, &p, role)?;
    let list = openings(alloc, &code)?;
    assert!(rt; number < list.len());
    Ok(opening_finding(alloc, &p, role, &code, list[number])?)
}

/// Its case, where it has one.
pub(crate) fn case_in(
    rt: &impl Abort,
    alloc: Global,
    text: &str,
    role: u32,
    number: usize,
) -> Result<Option<OpeningCase>, Fail> {
    match finding_in(rt, alloc, text, role, number)? {
        OpeningFinding::Case(case) => Ok(Some(case)),
        OpeningFinding::NoCase(_) => Ok(None),
    }
}

/// What is in the way of a case, where it has none.
pub(crate) fn obstacle_in(
    rt: &impl Abort,
    alloc: Global,
    text: &str,
    role: u32,
    number: usize,
) -> Result<Option<Obstacle>, Fail> {
    match finding_in(rt, alloc, text, role, number)? {
        OpeningFinding::Case(_) => Ok(None),
        OpeningFinding::NoCase(lack) => Ok(Some(lack.why)),
    }
}

/// How many openings a role's compiled code has behind its first arrival.
pub(crate) fn count_in(
    rt: &impl Abort,
    alloc: Global,
    text: &str,
    role: u32,
) -> Result<usize, Fail> {
    assert!(rt; text.len() <= SMALL_FILE as usize);
    let p = protocol_in(alloc, text.as_bytes())?;
    assert!(rt; (role as usize) < p.roles().len());
    let code = compile(alloc, &p, role)?;
    Ok(openings(alloc, &code)?.len())
}

/// Asserts that these are the terms, in order.
pub(crate) fn assert_terms(rt: &impl Abort, terms: &[Term], expected: &[Term]) {
    assert_eq!(rt; terms.len(), expected.len());
    for (i, term) in terms.iter().enumerate() {
        assert!(rt; i < expected.len() && term.same(&expected[i]));
    }
}

/// An operator on two names or terms.
pub(crate) fn pair(alloc: Global, op: Op, one: Term, other: Term) -> Result<Term, NoMemory> {
    Ok(Term::Node(op, Terms::new(vec![in alloc; one, other]?)))
}

/// The format at a place, on these names.
pub(crate) fn format(alloc: Global, index: u16, names: &[u32]) -> Result<Term, NoMemory> {
    let mut operands = Vec::new(alloc);
    for name in names {
        operands.push(Term::Atom(*name))?;
    }
    let Ok(arity) = u16::try_from(names.len()) else {
        return Err(NoMemory);
    };
    Ok(Term::Node(Op::Format { index, arity }, Terms::new(operands)))
}
