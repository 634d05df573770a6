//! Terms that a partner's plan may have.
ghost use Rattle.std.specs.Prelude.{◌≡◌, ◌<◌, ◌≤◌, ◌+◌, ◌-◌, ◌==◌, ◌&&◌, ◌↔◌, length, map, IsTrue, IfOk, All};
ghost use Rattle.std.specs.Option.{SomeIff, option_map};
ghost use Rattle.std.specs.List.{AllByRecursion};
ghost use Rattle.anb_base.specs.declared.TheConstants.{ARRIVAL, WIDE};
ghost use Rattle.anb_format.specs.Formats.{field_count, is_sound};
ghost use Rattle.anb_term.specs.Operator.{arity};
ghost use Rattle.anb_term.specs.Tree.{trees_of, tree_size, trees_size, IsFormed, AreFormed};
ghost use Rattle.anb_term.specs.View.{tree_of};
ghost use Rattle.anb_algebra.specs.ByteMeaning.{has_operator};
ghost use Rattle.anb_protocol.specs.Laws.{HoldsOf};
ghost use Rattle.anb_protocol.specs.Widths.{at_most, fits_width, op_width, sealed_width, width_if, widths_if};
ghost use Rattle.anb_partner.specs.Plans.{MayStand};

use anb_base::{ARRIVAL, NoMemory, WIDE};
use anb_format::Format;
use anb_protocol::{Protocol, protocols_hold};
use anb_term::{Op, Term, Terms};
use std::alloc::Global;

/// Whether a term may stand in a partner's plan: its operators are the protocol's and have as many
/// operands as they take, it has 1,024 nodes at most, and no part of it is too wide. Linear in its nodes.
pub fn may_stand(alloc: Global, p: &Protocol, t: &Term) -> Result<bool, NoMemory>
    ensures { IfOk result (λ b. IsTrue b ↔ MayStand p.now (tree_of t.now)) }
{
    protocols_hold();
    let _ = p.name();
    let formats = p.formats();
    if is_formed(formats, t) {
        if let Some(_left) = left_of(t, MOST_NODES) {
            return fits(alloc, formats, t);
        }
    }
    Ok(false)
}

/// The most nodes of a term that is heard or said.
const MOST_NODES: u32 = 1_024;

/// Whether a term is over the operators of these formats, on as many operands as each takes.
#[cycle(formed)]
fn is_formed(formats: &[Format], t: &Term) -> bool
    requires { AllByRecursion (λ format. field_count format.pieces ≤ 32) formats.now }
    ensures { IsTrue result ↔ IsFormed (has_operator formats.now) (tree_of t.now) }
{
    match t {
        Term::Atom(_) => true,
        Term::Node(op, operands) => {
            if takes(formats, *op, operands) {
                are_formed(formats, operands.as_slice())
            } else {
                false
            }
        }
    }
}

/// The same of each of these.
#[cycle(formed)]
fn are_formed(formats: &[Format], terms: &[Term]) -> bool
    requires { AllByRecursion (λ format. field_count format.pieces ≤ 32) formats.now }
    ensures { IsTrue result
        ↔ AreFormed (has_operator formats.now) (trees_of (map tree_of terms.now)) }
{
    for t in terms {
        if !is_formed(formats, t) {
            return false;
        }
    }
    true
}

/// Whether these formats have an operator that takes so many operands.
fn takes(formats: &[Format], op: Op, operands: &Terms) -> bool
    requires { AllByRecursion (λ format. field_count format.pieces ≤ 32) formats.now }
    ensures { result ≡ (has_operator formats.now op && (length operands.now == arity op)) }
{
    has(formats, op) && operands.len() == op.arity() as usize
}

/// Whether these formats have an operator.
fn has(formats: &[Format], op: Op) -> bool
    requires { AllByRecursion (λ format. field_count format.pieces ≤ 32) formats.now }
    ensures { result ≡ has_operator formats.now op }
{
    match op {
        Op::Hash | Op::Mac | Op::Seal | Op::Wrap => true,
        Op::Format { index, arity } => match formats.get(index as usize) {
            Some(format) => has_fields(format, arity),
            None => false,
        },
    }
}

/// Whether a format has so many fields.
fn has_fields(format: &Format, count: u16) -> bool
    requires { field_count format.now.pieces ≤ 32 }
    ensures { result ≡ (is_sound format.now.pieces && (field_count format.now.pieces == count)) }
{
    let _ = format.pieces();
    format.arity() == count
}

/// How many nodes are left of so many behind those of a term; None, where it has more.
#[cycle(left)]
fn left_of(t: &Term, nodes: u32) -> Option<u32>
    ensures { SomeIff result (tree_size (tree_of t.now) ≤ nodes) (nodes - tree_size (tree_of t.now)) }
{
    match t {
        Term::Atom(_) => nodes.checked_sub(1),
        Term::Node(_, operands) => match nodes.checked_sub(1) {
            Some(left) => left_of_all(operands.as_slice(), left),
            None => None,
        },
    }
}

/// The same of these together.
#[cycle(left)]
fn left_of_all(terms: &[Term], nodes: u32) -> Option<u32>
    ensures { SomeIff result (trees_size (trees_of (map tree_of terms.now)) ≤ nodes)
        (nodes - trees_size (trees_of (map tree_of terms.now))) }
{
    let mut left = nodes;
    for t in terms {
        match left_of(t, left) {
            Some(less) => left = less,
            None => return None,
        }
    }
    Some(left)
}

/// Whether no subterm of a term is too wide.
fn fits(alloc: Global, formats: &[Format], t: &Term) -> Result<bool, NoMemory>
    requires { IsFormed (has_operator formats.now) (tree_of t.now) }
    ensures { IfOk result (λ b. b ≡ fits_width ARRIVAL formats.now WIDE (tree_of t.now)) }
{
    let width = width_of(alloc, formats, t)?;
    Ok(width.is_some())
}

/// The width of a term, where no subterm of it is too wide.
#[cycle(width)]
fn width_of(alloc: Global, formats: &[Format], t: &Term) -> Result<Option<u32>, NoMemory>
    requires { IsFormed (has_operator formats.now) (tree_of t.now) }
    ensures { IfOk result (λ w. w ≡ width_if ARRIVAL formats.now WIDE (tree_of t.now)) }
{
    match t {
        Term::Atom(_) => Ok(Some(ARRIVAL)),
        Term::Node(op, operands) => {
            let Some(widths) = widths_of(alloc, formats, operands.as_slice())? else {
                return Ok(None);
            };
            Ok(op_width(formats, *op, &widths))
        }
    }
}

/// The widths of these terms, where no subterm of them is too wide.
#[cycle(width)]
fn widths_of(
    alloc: Global,
    formats: &[Format],
    terms: &[Term],
) -> Result<Option<Vec<u32>>, NoMemory>
    requires { AreFormed (has_operator formats.now) (trees_of (map tree_of terms.now)) }
    ensures { IfOk result (λ ws.
        option_map (λ v. v.items) ws
        ≡ widths_if ARRIVAL formats.now WIDE (trees_of (map tree_of terms.now))) }
{
    let mut widths = Vec::new(alloc);
    for t in terms {
        let Some(width) = width_of(alloc, formats, t)? else {
            return Ok(None);
        };
        widths.push(width)?;
    }
    Ok(Some(widths))
}

/// The width of an operator on operands of these widths, where it isn't too wide.
fn op_width(formats: &[Format], op: Op, widths: &[u32]) -> Option<u32>
    requires has { IsTrue (has_operator formats.now op) }
    requires count { length widths.now ≡ arity op }
    requires within { All (λ w. w ≤ WIDE) widths.now }
    ensures { result ≡ at_most WIDE (op_width ARRIVAL formats.now op widths.now) }
{
    match op {
        Op::Hash | Op::Mac => Some(ARRIVAL),
        Op::Seal | Op::Wrap => sealed_width(widths),
        Op::Format { index, .. } => formats[index as usize].width(widths),
    }
}

/// The width of a seal and of a wrap, where it isn't too wide.
fn sealed_width(widths: &[u32]) -> Option<u32>
    requires some { 0 < length widths.now }
    ensures { result ≡ at_most WIDE (sealed_width widths.now) }
{
    let body = widths[widths.len() - 1];
    if body <= WIDE - 32 {
        Some(body + 32)
    } else {
        None
    }
}
