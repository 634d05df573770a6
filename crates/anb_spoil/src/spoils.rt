//! Bytes of a format that are spoilt in the way of a row.
ghost use Rattle.std.specs.Prelude.{◌≡◌, ℕ, List, length, IfOk, IfSome};
ghost use Rattle.std.specs.List.{AllByRecursion};
ghost use Rattle.std.specs.Option.{option_map};
ghost use Rattle.anb_base.specs.Bytes.{IsBytes};
ghost use Rattle.anb_format.specs.Formats.{IsParts, IsSound, field_count};
ghost use Rattle.anb_spoil.specs.Rows.{spoilt};

use crate::changes::{string, tell_bytes};
use crate::pieces::{field_count, put_pieces, wrong_piece};
use crate::rows::has_rest;
use crate::{Row, Spoiling};
use anb_base::{Bytes, NoMemory};
use anb_format::Format;
use std::alloc::Global;

/// What the format builds of these parts, spoilt in the way of a row, where it can be: capital
/// digits ask for a letter among the digits, and a row of another format may ask for what isn't
/// there.
pub fn spoil(
    alloc: Global,
    format: &Format,
    row: Row,
    parts: &[Bytes],
) -> Result<Option<Bytes>, NoMemory>
    requires { length parts.now ≡ field_count format.now.pieces }
    ensures value { IfOk result (λ r. r ≡ spoilt format.now.pieces row parts.now) }
    ensures refused { IfOk result (λ r. IfSome r (λ bytes. (others : List (List ℕ))
        → IsParts format.now.pieces bytes others → ⊥)) }
    ensures strings { IfOk result (λ r. IfSome r IsBytes) }
{
    tell(format, parts);
    match made(alloc, format, row, parts)? {
        Some(wrong) => Ok(Some(string(wrong))),
        None => Ok(None),
    }
}

/// Does nothing. Contracts then know that the format is sound and each part a string of bytes.
fn tell(format: &Format, parts: &[Bytes])
    ensures sound { IsSound format.now.pieces }
    ensures strings { AllByRecursion IsBytes parts.now }
{
    let _pieces = format.pieces();
    for part in parts {
        tell_bytes(part.as_slice());
    }
}

fn made(
    alloc: Global,
    format: &Format,
    row: Row,
    parts: &[Bytes],
) -> Result<Option<Vec<u8>>, NoMemory>
    requires { length parts.now ≡ field_count format.now.pieces }
    ensures { IfOk result (λ r. option_map (λ v. v.items) r
        ≡ spoilt format.now.pieces row parts.now) }
{
    match row {
        Row::At(place, spoiling) => spoil_piece(alloc, format, place as usize, spoiling, parts),
        Row::Behind => byte_behind(alloc, format, parts),
    }
}

fn spoil_piece(
    alloc: Global,
    format: &Format,
    place: usize,
    spoiling: Spoiling,
    parts: &[Bytes],
) -> Result<Option<Vec<u8>>, NoMemory>
    requires { length parts.now ≡ field_count format.now.pieces }
    ensures { IfOk result (λ r. option_map (λ v. v.items) r
        ≡ spoilt format.now.pieces (Row.At place spoiling) parts.now) }
{
    let pieces = format.pieces();
    if place >= pieces.len() {
        return Ok(None);
    }
    let (before, from) = pieces.split_at(place);
    let (through, after) = pieces.split_at(place + 1);
    let (parts_before, parts_from) = parts.split_at(field_count(before));
    let (_, parts_after) = parts.split_at(field_count(through));
    let Some(wrong) = wrong_piece(alloc, spoiling, from, parts_from)? else {
        return Ok(None);
    };
    let mut out = Vec::new(alloc);
    put_pieces(alloc, &mut out, before, parts_before)?;
    out.extend_from_slice(wrong.as_slice())?;
    put_pieces(alloc, &mut out, after, parts_after)?;
    Ok(Some(out))
}

fn byte_behind(alloc: Global, format: &Format, parts: &[Bytes]) -> Result<Option<Vec<u8>>, NoMemory>
    requires { length parts.now ≡ field_count format.now.pieces }
    ensures { IfOk result (λ r. option_map (λ v. v.items) r
        ≡ spoilt format.now.pieces Row.Behind parts.now) }
{
    if has_rest(format.pieces()) {
        return Ok(None);
    }
    let mut out = Vec::new(alloc);
    put_pieces(alloc, &mut out, format.pieces(), parts)?;
    out.push(0)?;
    Ok(Some(out))
}
