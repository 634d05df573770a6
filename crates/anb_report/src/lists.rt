//! Lists of registers, and the texts of their terms.
ghost use Rattle.std.specs.Prelude.{◌≡◌, ◌<◌, ◌++◌, map, filter, length, slice_get, unwrap_or, Some, None, false, IfOk, IfSome, IfNone, OnOk};
ghost use Rattle.std.specs.List.{AllByRecursion};
ghost use Rattle.anb_term.specs.Tree.{tree_eqb};
ghost use Rattle.anb_term.specs.View.{tree_of};
ghost use Rattle.anb_protocol.specs.Texts.{IsTermOf};
ghost use Rattle.anb_report.specs.Looking.{is_other, without};
ghost use Rattle.anb_report.specs.News.{AreNew, is_told};
ghost use Rattle.anb_report.specs.Noting.{is_named, is_new, is_new_term, is_term_of, is_term_of_one, once, once_more, register_text, register_texts};

use anb_base::NoMemory;
use anb_protocol::Protocol;
use anb_term::Term;
use std::alloc::Global;

/// All but some of these registers.
pub(crate) fn without(alloc: Global, some: &[u32], all: &[u32]) -> Result<Vec<u32>, NoMemory>
    ensures { IfOk result (λ rs. rs.items ≡ without some.now all.now) }
{
    let mut out = Vec::new(alloc);
    for r in all {
        if is_other(some, *r) {
            out.push(*r)?;
        }
    }
    Ok(out)
}

fn is_other(some: &[u32], r: u32) -> bool
    ensures { result ≡ is_other some.now r }
{
    !some.contains(&r)
}

/// Whether a register has a term that none before it has, as it is told, and none of the ones that were
/// built.
pub(crate) fn is_new(terms: &[Term], told: &[bool], built: &[u32], r: u32) -> bool
    requires { AreNew (map tree_of terms.now) told.now }
    ensures { result ≡ is_new (map tree_of terms.now) built.now r }
{
    match term_at(terms, r) {
        Some(term) => is_new_term(terms, told, built, r as usize, term),
        None => false,
    }
}

fn is_new_term(terms: &[Term], told: &[bool], built: &[u32], r: usize, term: &Term) -> bool
    requires told { AreNew (map tree_of terms.now) told.now }
    requires there { slice_get (map tree_of terms.now) r ≡ Some (tree_of term.now) }
    ensures { result ≡ is_new_term (map tree_of terms.now) built.now r (tree_of term.now) }
{
    is_told(told, r) && !has_at(terms, built, term)
}

fn is_told(told: &[bool], r: usize) -> bool
    ensures { result ≡ is_told told.now r }
{
    match told.get(r) {
        Some(so) => *so,
        None => false,
    }
}

/// These registers, each term by the first one that has it.
pub(crate) fn once(alloc: Global, terms: &[Term], registers: &[u32]) -> Result<Vec<u32>, NoMemory>
    ensures { IfOk result (λ rs. rs.items ≡ once (map tree_of terms.now) registers.now) }
{
    let mut out = Vec::new(alloc);
    for r in registers {
        put_once(&mut out, terms, *r)?;
    }
    Ok(out)
}

/// Appends a register that has another term than these.
fn put_once(out: &mut Vec<u32>, terms: &[Term], r: u32) -> Result<(), NoMemory>
    ensures { OnOk result (out.new.items ≡ once_more (map tree_of terms.now) out.old.items r) }
{
    if !is_named(terms, out, r) {
        out.push(r)?;
    }
    Ok(())
}

/// Whether one of these registers has the term of another one.
fn is_named(terms: &[Term], named: &[u32], r: u32) -> bool
    ensures { result ≡ is_named (map tree_of terms.now) named.now r }
{
    match term_at(terms, r) {
        Some(term) => has_at(terms, named, term),
        None => false,
    }
}

/// Those of these registers of which it is told.
pub(crate) fn told_among(
    alloc: Global,
    told: &[bool],
    registers: &[u32],
) -> Result<Vec<u32>, NoMemory>
    ensures { IfOk result (λ rs. rs.items ≡ filter (is_told told.now) registers.now) }
{
    let mut out = Vec::new(alloc);
    for r in registers {
        if is_told(told, *r as usize) {
            out.push(*r)?;
        }
    }
    Ok(out)
}

/// The term of a register.
fn term_at(terms: &[Term], r: u32) -> Option<&Term>
    ensures some { IfSome result (λ term.
        slice_get (map tree_of terms.now) r ≡ Some (tree_of term.now)) }
    ensures none { IfNone result (slice_get (map tree_of terms.now) r ≡ None) }
    ensures within { IfSome result (λ term. r < length terms.now) }
{
    if (r as usize) < terms.len() {
        return Some(&terms[r as usize]);
    }
    None
}

/// Whether two terms are one.
pub(crate) fn is_same(one: &Term, other: &Term) -> bool
    ensures { result ≡ tree_eqb (tree_of one.now) (tree_of other.now) }
{
    one.same(other)
}

/// Whether one of these registers has a term.
fn has_at(terms: &[Term], registers: &[u32], term: &Term) -> bool
    ensures { result
        ≡ is_term_of_one (map tree_of terms.now) registers.now (tree_of term.now) }
{
    for r in registers {
        if is_term_of(terms, term, *r) {
            return true;
        }
    }
    false
}

fn is_term_of(terms: &[Term], term: &Term, r: u32) -> bool
    ensures { result ≡ is_term_of (map tree_of terms.now) (tree_of term.now) r }
{
    match term_at(terms, r) {
        Some(other) => is_same(term, other),
        None => false,
    }
}

/// Appends the terms of registers.
pub(crate) fn put_terms(
    alloc: Global,
    out: &mut Vec<u8>,
    protocol: &Protocol,
    terms: &[Term],
    registers: &[u32],
) -> Result<(), NoMemory>
    requires { AllByRecursion (IsTermOf protocol.now) (map tree_of terms.now) }
    ensures { OnOk result (out.new.items ≡ out.old.items
        ++ register_texts protocol.now (map tree_of terms.now) registers.now) }
{
    let [first, rest @ ..] = registers else {
        return Ok(());
    };
    put_term(alloc, out, protocol, terms, *first)?;
    for r in rest {
        out.extend_from_slice(b", ")?;
        put_term(alloc, out, protocol, terms, *r)?;
    }
    Ok(())
}

fn put_term(
    alloc: Global,
    out: &mut Vec<u8>,
    protocol: &Protocol,
    terms: &[Term],
    r: u32,
) -> Result<(), NoMemory>
    requires { AllByRecursion (IsTermOf protocol.now) (map tree_of terms.now) }
    ensures { OnOk result (out.new.items
        ≡ out.old.items ++ register_text protocol.now (map tree_of terms.now) r) }
{
    if let Some(term) = term_at(terms, r) {
        let text = protocol.text_of_term(alloc, term)?;
        out.extend_from_slice(text.as_str().as_bytes())?;
    }
    Ok(())
}
