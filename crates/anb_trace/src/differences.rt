//! Where two values of one term differ.
ghost use Rattle.std.specs.Prelude.{◌≡◌, ◌++◌, ◌+◌, ◌-◌, length, map, IsTrue, IfOk, OnOk, IfSome, IfNone, Some, None};
ghost use Rattle.std.specs.Option.{option_map};
ghost use Rattle.hex.specs.Hex.{encode_lower};
ghost use Rattle.anb_algebra.specs.ByteMeaning.{has_operator};
ghost use Rattle.anb_term.specs.Operator.{arity};
ghost use Rattle.anb_term.specs.View.{tree_of};
ghost use Rattle.anb_protocol.specs.Texts.{IsTermOf};
ghost use Rattle.anb_trace.specs.Differences.{held, held_each, innermost, opened, parsed, unlocked};
ghost use Rattle.anb_trace.specs.Inside.{HasArity, difference_of, difference_over, first_apart, inner_of, inward_over, part_value};
ghost use Rattle.anb_trace.specs.Words.{place_text};

use crate::fronts::is_same;
use crate::subject::{put_term, term_at};
use crate::values::put_hex;
use anb_algebra::ByteAlgebra;
use anb_base::{Bytes, NoMemory};
use anb_code::RoleCode;
use anb_format::Format;
use anb_protocol::Protocol;
use anb_term::{Algebra, Op, Term};
use std::alloc::Global;

/// What a role has: the terms of its code's registers, and the values of those that were written so
/// far.
#[derive(Clone, Copy, Drop)]
pub(crate) struct Holding<'t> {
    pub(crate) code: &'t RoleCode,
    pub(crate) terms: &'t [Term],
    pub(crate) registers: &'t [Bytes],
}

/// Two values of one term, of which the first is due.
#[derive(Drop)]
pub(crate) struct Sides {
    pub(crate) due: Bytes,
    pub(crate) came: Bytes,
}

/// A part of a term, with both sides of it.
#[derive(Drop)]
pub(crate) struct Part<'t> {
    pub(crate) term: &'t Term,
    pub(crate) sides: Sides,
}

/// Appends how two values of a term differ, of which the second came, or neither did.
pub(crate) fn put_difference(
    alloc: Global,
    out: &mut Vec<u8>,
    protocol: &Protocol,
    holding: &Holding<'_>,
    came: bool,
    term: &Term,
    sides: Sides,
) -> Result<(), NoMemory>
    requires { IsTermOf protocol.now (tree_of term.now) }
    ensures { OnOk result (out.new.items ≡ out.old.items
        ++ difference_over protocol.now holding.now came (difference_of (tree_of term.now) sides)) }
{
    if came {
        let inner = put_place(alloc, out, protocol, holding, term, sides)?;
        put_both(alloc, out, b" differs: ", &inner, b" is due, ")?;
        out.extend_from_slice(b" came")?;
        return Ok(());
    }
    out.extend_from_slice(b"the values don't fit each other: ")?;
    let inner = put_place(alloc, out, protocol, holding, term, sides)?;
    put_both(alloc, out, b" is ", &inner, b" and ")
}

/// Appends words and both sides, with words between them.
fn put_both(
    alloc: Global,
    out: &mut Vec<u8>,
    before: &[u8],
    sides: &Sides,
    between: &[u8],
) -> Result<(), NoMemory>
    ensures { OnOk result (out.new.items ≡ out.old.items ++ (before.now
        ++ (encode_lower sides.now.due ++ (between.now ++ encode_lower sides.now.came)))) }
{
    out.extend_from_slice(before)?;
    put_hex(alloc, out, sides.due.as_slice())?;
    out.extend_from_slice(between)?;
    put_hex(alloc, out, sides.came.as_slice())
}

/// Appends the innermost part of a term whose sides differ, with what it stands in, and gives its
/// sides. Each part is opened once.
fn put_place(
    alloc: Global,
    out: &mut Vec<u8>,
    protocol: &Protocol,
    holding: &Holding<'_>,
    term: &Term,
    sides: Sides,
) -> Result<Sides, NoMemory>
    requires { IsTermOf protocol.now (tree_of term.now) }
    ensures place { OnOk result (let d = difference_of (tree_of term.now) sides in
        out.new.items ≡ out.old.items ++ place_text protocol.now d (inward_over holding.now d)) }
    ensures due { IfOk result (λ inner. let d = difference_of (tree_of term.now) sides in
        inner.due ≡ (innermost d (inward_over holding.now d)).due) }
    ensures came { IfOk result (λ inner. let d = difference_of (tree_of term.now) sides in
        inner.came ≡ (innermost d (inward_over holding.now d)).came) }
{
    match inner_part(alloc, holding, term, &sides)? {
        None => {
            put_term(alloc, out, protocol, term)?;
            Ok(sides)
        }
        Some(
            Part {
                term: inner,
                sides: inner_sides,
            },
        ) => {
            let innermost = put_place(alloc, out, protocol, holding, inner, inner_sides)?;
            out.extend_from_slice(b" in ")?;
            put_term(alloc, out, protocol, term)?;
            Ok(innermost)
        }
    }
}

/// The first part of a term whose sides differ, where both sides of the term open.
fn inner_part<'t>(
    alloc: Global,
    holding: &Holding<'_>,
    term: &'t Term,
    sides: &Sides,
) -> Result<Option<Part<'t>>, NoMemory>
    requires { HasArity (tree_of term.now) }
    ensures { IfOk result (λ part. option_map part_value part ≡ inner_of holding.now
        (tree_of term.now) sides.now.due sides.now.came) }
{
    let Term::Node(op, operands) = term else {
        return Ok(None);
    };
    let operands = operands.as_slice();
    let Some(dues) = opened(alloc, holding, *op, operands, &sides.due)? else {
        return Ok(None);
    };
    let Some(cames) = opened(alloc, holding, *op, operands, &sides.came)? else {
        return Ok(None);
    };
    first_apart(alloc, &operands[op.keys() as usize..], &dues, &cames)
}

/// The first of the parts with these terms whose sides differ.
fn first_apart<'t>(
    alloc: Global,
    terms: &'t [Term],
    dues: &[Bytes],
    cames: &[Bytes],
) -> Result<Option<Part<'t>>, NoMemory>
    ensures { IfOk result (λ part. option_map part_value part
        ≡ first_apart (map tree_of terms.now) dues.now cames.now) }
{
    for (i, term) in terms.iter().enumerate() {
        let Some(due) = dues.get(i) else {
            return Ok(None);
        };
        let Some(came) = cames.get(i) else {
            return Ok(None);
        };
        if !is_same(due.as_slice(), came.as_slice()) {
            let sides = Sides {
                due: due.copy(alloc)?,
                came: came.copy(alloc)?,
            };
            return Ok(Some(Part { term, sides }));
        }
    }
    Ok(None)
}

/// What bytes of a term that is this operator on these operands open to.
fn opened(
    alloc: Global,
    holding: &Holding<'_>,
    op: Op,
    operands: &[Term],
    bytes: &Bytes,
) -> Result<Option<Vec<Bytes>>, NoMemory>
    requires { length operands.now ≡ arity op }
    ensures { IfOk result (λ parts. option_map (λ ps. ps.items) parts
        ≡ opened holding.now.code.now (map tree_of holding.now.terms.now)
        holding.now.registers.now op (map tree_of operands.now) bytes.now) }
{
    match op {
        Op::Hash | Op::Mac => Ok(None),
        Op::Seal => unlocked(alloc, holding, Op::Seal, operands, bytes),
        Op::Wrap => unlocked(alloc, holding, Op::Wrap, operands, bytes),
        Op::Format { index, .. } => parsed(alloc, holding.code.formats(), index, bytes),
    }
}

/// The parts of a message of the format at a place.
fn parsed(
    alloc: Global,
    formats: &[Format],
    index: u16,
    bytes: &Bytes,
) -> Result<Option<Vec<Bytes>>, NoMemory>
    ensures { IfOk result (λ parts. option_map (λ ps. ps.items) parts
        ≡ parsed formats.now index bytes.now) }
{
    match formats.get(index as usize) {
        Some(format) => format.parts(alloc, bytes.as_slice()),
        None => Ok(None),
    }
}

/// What was sealed or wrapped, under keys that are held.
fn unlocked(
    alloc: Global,
    holding: &Holding<'_>,
    op: Op,
    operands: &[Term],
    bytes: &Bytes,
) -> Result<Option<Vec<Bytes>>, NoMemory>
    requires count { length operands.now ≡ arity op }
    requires has { IsTrue (has_operator holding.now.code.now.formats op) }
    ensures { IfOk result (λ parts. option_map (λ ps. ps.items) parts
        ≡ unlocked holding.now.code.now (map tree_of holding.now.terms.now)
        holding.now.registers.now op (map tree_of operands.now) bytes.now) }
{
    let keys = &operands[..op.keys() as usize];
    let Holding {
        code,
        terms,
        registers,
    } = holding;
    let Some(mut table) = held_each(alloc, terms, registers, keys)? else {
        return Ok(None);
    };
    let of = table.len();
    table.push(bytes.copy(alloc)?)?;
    let algebra = ByteAlgebra::new(code.formats(), code.suite());
    algebra.undo(alloc, op, &table, &[0, 1][..of], of as u32)
}

/// The values of each of some terms, where registers have them all.
fn held_each(
    alloc: Global,
    terms: &[Term],
    registers: &[Bytes],
    keys: &[Term],
) -> Result<Option<Vec<Bytes>>, NoMemory>
    ensures { IfOk result (λ values. option_map (λ vs. vs.items) values
        ≡ held_each (map tree_of terms.now) registers.now (map tree_of keys.now)) }
{
    let mut values = Vec::new(alloc);
    for key in keys {
        let Some(value) = held(terms, registers, key) else {
            return Ok(None);
        };
        values.push(value.copy(alloc)?)?;
    }
    Ok(Some(values))
}

/// The value of the first register that has a term.
fn held<'r>(terms: &[Term], registers: &'r [Bytes], term: &Term) -> Option<&'r Bytes>
    ensures some { IfSome result (λ value.
        held (map tree_of terms.now) registers.now (tree_of term.now) ≡ Some value.now) }
    ensures none { IfNone result (
        held (map tree_of terms.now) registers.now (tree_of term.now) ≡ None) }
{
    for (i, value) in registers.iter().enumerate() {
        let Some(known) = term_at(terms, i) else {
            return None;
        };
        if known.same(term) {
            return Some(value);
        }
    }
    None
}
