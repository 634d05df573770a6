//! How what a role unseals or unwraps gets a false tag.
//!
//! The stream of a false tag is made of the key, so the partner makes two values: what is opened, and its
//! key. They are one value in a format of the protocol, whichever has room for both, and it goes nowhere
//! but to who makes the false tag of it.
ghost use Rattle.std.specs.Prelude.{◌≡◌, ◌≤◌, length, map, IfOk};
ghost use Rattle.std.specs.List.{AllByRecursion};
ghost use Rattle.std.specs.Option.{option_map};
ghost use Rattle.anb_format.specs.Formats.{field_count};
ghost use Rattle.anb_protocol.specs.Protocols.{ProtocolValue};
ghost use Rattle.anb_term.specs.Tree.{trees_of};
ghost use Rattle.anb_term.specs.View.{tree_of};
ghost use Rattle.anb_attempts.specs.Retagging.{pair_from, pair_of, retagging_at, retagging_by, retagging_of};
ghost use Rattle.anb_attempts.specs.Parts.{retagging_value};

use anb_base::NoMemory;
use anb_format::Format;
use anb_protocol::{Protocol, protocols_hold};
use anb_spoil::{Closing, Wrong};
use anb_term::{Op, Term, Terms};
use std::alloc::Global;

/// The value that the partner makes, and what is made of it.
#[derive(Drop)]
pub(crate) struct Retagging {
    pub(crate) pair: Term,
    pub(crate) way: Wrong,
}

/// How what an instruction opens gets a false tag: None, where it parses a format, or the protocol has
/// no format with two fields.
pub(crate) fn retagging_at(
    alloc: Global,
    p: &Protocol,
    parsed: Option<u16>,
    opened: &Term,
) -> Result<Option<Retagging>, NoMemory>
    ensures { IfOk result (λ tag. option_map retagging_value tag
        ≡ retagging_at p.now parsed (tree_of opened.now)) }
{
    match parsed {
        Some(_format) => Ok(None),
        None => retagging_of(alloc, p, opened),
    }
}

/// The same of a term.
fn retagging_of(alloc: Global, p: &Protocol, opened: &Term) -> Result<Option<Retagging>, NoMemory>
    ensures { IfOk result (λ tag. option_map retagging_value tag
        ≡ retagging_of p.now (tree_of opened.now)) }
{
    match opened {
        Term::Atom(_) => Ok(None),
        Term::Node(op, operands) => match op {
            Op::Seal => retagging_by(alloc, p, Closing::Seal, opened, operands.as_slice()),
            Op::Wrap => retagging_by(alloc, p, Closing::Wrap, opened, operands.as_slice()),
            Op::Hash | Op::Mac | Op::Format { .. } => Ok(None),
        },
    }
}

/// The same of a term that is closed in this way, of these operands.
fn retagging_by(
    alloc: Global,
    p: &Protocol,
    way: Closing,
    closed: &Term,
    operands: &[Term],
) -> Result<Option<Retagging>, NoMemory>
    ensures { IfOk result (λ tag. option_map retagging_value tag
        ≡ retagging_by p.now way (tree_of closed.now) (trees_of (map tree_of operands.now))) }
{
    protocols_hold();
    let _ = p.name();
    let Some((key, _)) = operands.split_first() else {
        return Ok(None);
    };
    match pair_format(p.formats()) {
        Some((place, fields)) => Ok(Some(Retagging {
            pair: pair_of(alloc, place, fields, closed, key)?,
            way: Wrong::FalseTag(p.suite(), way, place),
        })),
        None => Ok(None),
    }
}

/// The place of the first of these formats that has two fields or more, and how many it has.
fn pair_format(formats: &[Format]) -> Option<(u16, u16)>
    requires few { length formats.now ≤ 64 }
    requires fields { AllByRecursion (λ format. field_count format.pieces ≤ 32) formats.now }
    ensures { result ≡ pair_from 0 formats.now }
{
    for (i, format) in formats.iter().enumerate() {
        let fields = format.arity();
        if fields >= 2 {
            return Some((i as u16, fields));
        }
    }
    None
}

/// A closed term and its key in the format at a place, which has so many fields: the key stands in all
/// behind the first one.
fn pair_of(
    alloc: Global,
    place: u16,
    fields: u16,
    closed: &Term,
    key: &Term,
) -> Result<Term, NoMemory>
    ensures { IfOk result (λ pair. tree_of pair
        ≡ pair_of place fields (tree_of closed.now) (tree_of key.now)) }
{
    let mut operands = Vec::new(alloc);
    operands.push(closed.copy(alloc)?)?;
    for _ in 0..fields.saturating_sub(1) {
        operands.push(key.copy(alloc)?)?;
    }
    let op = Op::Format {
        index: place,
        arity: fields,
    };
    Ok(Term::Node(op, Terms::new(operands)))
}
