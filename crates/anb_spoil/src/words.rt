//! How a report names changes, rows and false tags.
ghost use Rattle.std.specs.Prelude.{◌≡◌, ◌++◌, OnOk};
ghost use Rattle.anb_spoil.specs.Words.{argument_of, around_name, change_words, false_tag_words, field_words, literal_words, piece_words, row_words};

use crate::pieces::field_count;
use crate::{Change, Row, Spoiling};
use anb_base::NoMemory;
use anb_format::{Format, Piece, literal_text};
use std::alloc::Global;

/// How a report names a false tag.
pub fn false_tag_words() -> &'static str
    ensures { result.now ≡ false_tag_words }
{
    "with another tag, and its stream"
}

/// How a report names what the change makes of a value of this many bytes.
pub fn change_words(change: Change, size: usize) -> &'static str
    ensures { result.now ≡ change_words change size }
{
    match change {
        Change::LastByte => "with its last byte changed",
        Change::WithoutLast => {
            if size > 1 {
                "without its last byte"
            } else {
                "with a byte more"
            }
        }
        Change::FirstByte => "with its first byte changed",
        Change::ByteMore => "with a byte more",
        Change::ZeroInFront => "with a zero byte in front",
    }
}

/// The number, from 0, of the argument that a row of the format speaks of: that of a field.
pub fn argument_of(format: &Format, row: Row) -> Option<usize>
    ensures { result ≡ argument_of format.now.pieces row }
{
    let Row::At(place, _) = row else {
        return None;
    };
    let pieces = format.pieces();
    match pieces.get(place as usize) {
        Some(Piece::Field(_)) => Some(field_count(&pieces[..place as usize])),
        Some(Piece::Lit(_)) => None,
        None => None,
    }
}

/// Appends how a report names a row of the format, where the argument that it speaks of has this
/// name.
pub fn put_row_words(
    alloc: Global,
    out: &mut Vec<u8>,
    format: &Format,
    row: Row,
    name: &[u8],
) -> Result<(), NoMemory>
    ensures { OnOk result (out.new.items
        ≡ out.old.items ++ row_words format.now.pieces row name.now) }
{
    match row {
        Row::At(place, spoiling) => {
            let pieces = format.pieces();
            let (_, from) = pieces.split_at((place as usize).min(pieces.len()));
            put_piece_words(alloc, out, spoiling, from, name)?;
        }
        Row::Behind => out.extend_from_slice("with a byte after its end".as_bytes())?,
    }
    Ok(())
}

/// The same of the first of these pieces.
fn put_piece_words(
    alloc: Global,
    out: &mut Vec<u8>,
    spoiling: Spoiling,
    pieces: &[Piece],
    name: &[u8],
) -> Result<(), NoMemory>
    ensures { OnOk result (out.new.items
        ≡ out.old.items ++ piece_words spoiling pieces.now name.now) }
{
    let Some((piece, _)) = pieces.split_first() else {
        return Ok(());
    };
    match piece {
        Piece::Lit(text) => put_literal_words(alloc, out, text.as_slice())?,
        Piece::Field(_) => put_field_words(out, spoiling, name)?,
    }
    Ok(())
}

/// The same of a literal.
fn put_literal_words(alloc: Global, out: &mut Vec<u8>, text: &[u8]) -> Result<(), NoMemory>
    ensures { OnOk result (out.new.items ≡ out.old.items ++ literal_words text.now) }
{
    let literal = literal_text(alloc, text)?;
    out.extend_from_slice("with another byte in ".as_bytes())?;
    out.extend_from_slice(literal.as_slice())?;
    Ok(())
}

/// The same of a field with an argument of this name.
fn put_field_words(out: &mut Vec<u8>, spoiling: Spoiling, name: &[u8]) -> Result<(), NoMemory>
    ensures { OnOk result (out.new.items ≡ out.old.items ++ field_words spoiling name.now) }
{
    let (front, back) = around_name(spoiling);
    out.extend_from_slice(front.as_bytes())?;
    out.extend_from_slice(name)?;
    out.extend_from_slice(back.as_bytes())?;
    Ok(())
}

/// What stands before the name of a field's argument, and behind it.
fn around_name(spoiling: Spoiling) -> (&'static str, &'static str)
    ensures front { result.0.now ≡ (around_name spoiling).0 }
    ensures back { result.1.now ≡ (around_name spoiling).1 }
{
    match spoiling {
        Spoiling::OtherByte => ("with another byte in ", ""),
        Spoiling::LongLength => ("with a length of ", " that isn't minimal"),
        Spoiling::LengthBeyond => ("with a length of ", " beyond the end"),
        Spoiling::LeadingZero => ("with a length of ", " that begins with a zero"),
        Spoiling::Semicolon => ("with \";\" in front of ", ""),
        Spoiling::Dot => ("with \".\" after ", ""),
        Spoiling::Capitals => ("with capital digits of ", ""),
        Spoiling::Comma => ("with \",\" after ", ""),
    }
}
