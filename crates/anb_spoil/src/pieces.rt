//! Pieces of a format: what several build, and what one is in a wrong way.
ghost use Rattle.std.specs.Prelude.{◌≡◌, ◌≤◌, ◌+◌, ◌++◌, ◌∷◌, ◌%◌, List, [], length, drop, map, IfOk, OnOk};
ghost use Rattle.std.specs.Option.{option_map};
ghost use Rattle.anb_format.specs.Fields.{field_bytes, leb128};
ghost use Rattle.anb_format.specs.Formats.{field_count, format_bytes};
ghost use Rattle.anb_format.specs.declared.pieces.Piece.{Piece};
ghost use Rattle.anb_spoil.specs.Rows.{long_leb128, wrong_hex, wrong_len, wrong_literal, wrong_net, wrong_piece};

use crate::Spoiling;
use crate::changes::last_changed;
use anb_base::{Bytes, NoMemory, Text};
use anb_format::{FieldKind, Format, Piece};
use std::alloc::Global;

/// How many fields pieces have.
pub(crate) fn field_count(pieces: &[Piece]) -> usize
    ensures fields { result ≡ field_count pieces.now }
    ensures most { result ≤ length pieces.now }
{
    let mut count = 0;
    for piece in pieces {
        match piece {
            Piece::Lit(_) => {}
            Piece::Field(_) => count += 1,
        }
    }
    count
}

/// Appends what these pieces build of these arguments.
pub(crate) fn put_pieces(
    alloc: Global,
    out: &mut Vec<u8>,
    pieces: &[Piece],
    arguments: &[Bytes],
) -> Result<(), NoMemory>
    requires { length arguments.now ≡ field_count pieces.now }
    ensures { OnOk result (out.new.items
        ≡ out.old.items ++ format_bytes pieces.now arguments.now) }
{
    let mut left = arguments;
    for piece in pieces {
        left = put_piece(alloc, out, piece, left)?;
    }
    Ok(())
}

/// Appends what the piece writes, and gives the arguments that are left for those behind it.
fn put_piece<'a>(
    alloc: Global,
    out: &mut Vec<u8>,
    piece: &Piece,
    arguments: &'a [Bytes],
) -> Result<&'a [Bytes], NoMemory>
    requires { field_count (piece.now ∷ []) ≤ length arguments.now }
    ensures left { IfOk result (λ left.
        left.now ≡ drop (field_count (piece.now ∷ [])) arguments.now) }
    ensures put { IfOk result (λ left. (pieces : List Piece)
        → out.new.items ++ format_bytes pieces left.now
        ≡ out.old.items ++ format_bytes (piece.now ∷ pieces) arguments.now) }
{
    match piece {
        Piece::Lit(text) => {
            out.extend_from_slice(text.as_slice())?;
            Ok(arguments)
        }
        Piece::Field(kind) => {
            let field = written(alloc, *kind, arguments[0].as_slice())?;
            out.extend_from_slice(field.as_slice())?;
            Ok(&arguments[1..])
        }
    }
}

/// What a field of this kind writes for b. No format is a field alone, so a literal stands before
/// it there, of one byte, which is left out.
fn written(alloc: Global, kind: FieldKind, b: &[u8]) -> Result<Vec<u8>, NoMemory>
    ensures { IfOk result (λ v. v.items ≡ field_bytes kind b.now) }
{
    let literal = Piece::Lit(Bytes::new(vec![in alloc; 0]?));
    let pieces = vec![in alloc; literal, Piece::Field(kind)]?;
    let format = Format::new(Text::new(String::new(alloc)), pieces);
    let arguments = vec![in alloc; Bytes::new(Vec::from_slice(alloc, b)?)]?;
    let bytes = format.build(alloc, arguments.as_slice(), &[0])?;
    let (_, field) = bytes.as_slice().split_at(1);
    Ok(Vec::from_slice(alloc, field)?)
}

/// The first of these pieces in a wrong way, where it can be. The first of these arguments is its
/// own.
pub(crate) fn wrong_piece(
    alloc: Global,
    spoiling: Spoiling,
    pieces: &[Piece],
    arguments: &[Bytes],
) -> Result<Option<Vec<u8>>, NoMemory>
    requires { length arguments.now ≡ field_count pieces.now }
    ensures { IfOk result (λ r. option_map (λ v. v.items) r
        ≡ wrong_piece spoiling pieces.now arguments.now) }
{
    let Some((piece, after)) = pieces.split_first() else {
        return Ok(None);
    };
    match piece {
        Piece::Lit(text) => wrong_literal(alloc, spoiling, text.as_slice()),
        Piece::Field(kind) => {
            let last = after.is_empty();
            let b = arguments[0].as_slice();
            match kind {
                FieldKind::Len => wrong_len(alloc, spoiling, last, b),
                FieldKind::Net => wrong_net(alloc, spoiling, b),
                FieldKind::Hex => wrong_hex(alloc, spoiling, b),
                FieldKind::Rest => Ok(None),
            }
        }
    }
}

fn wrong_literal(
    alloc: Global,
    spoiling: Spoiling,
    text: &[u8],
) -> Result<Option<Vec<u8>>, NoMemory>
    ensures { IfOk result (λ r. option_map (λ v. v.items) r ≡ wrong_literal spoiling text.now) }
{
    match spoiling {
        Spoiling::OtherByte => {
            if text.is_empty() {
                return Ok(None);
            }
            Ok(Some(last_changed(alloc, text)?))
        }
        _ => Ok(None),
    }
}

fn wrong_len(
    alloc: Global,
    spoiling: Spoiling,
    last: bool,
    b: &[u8],
) -> Result<Option<Vec<u8>>, NoMemory>
    ensures { IfOk result (λ r. option_map (λ v. v.items) r ≡ wrong_len spoiling last b.now) }
{
    match spoiling {
        Spoiling::LongLength => Ok(Some(long_length(alloc, b)?)),
        Spoiling::LengthBeyond => {
            if last {
                Ok(Some(length_beyond(alloc, b)?))
            } else {
                Ok(None)
            }
        }
        _ => Ok(None),
    }
}

/// The length in one byte more than it needs, and b.
fn long_length(alloc: Global, b: &[u8]) -> Result<Vec<u8>, NoMemory>
    ensures { IfOk result (λ v. v.items ≡ long_leb128 (length b.now) ++ b.now) }
{
    let right = written(alloc, FieldKind::Len, b)?;
    let (length, _) = right.split_at(right.len() - b.len());
    let mut wrong = Vec::new(alloc);
    put_high(&mut wrong, length)?;
    wrong.push(0)?;
    wrong.extend_from_slice(b)?;
    Ok(wrong)
}

/// Appends each of the bytes with its high bit set.
fn put_high(out: &mut Vec<u8>, bytes: &[u8]) -> Result<(), NoMemory>
    ensures { OnOk result (out.new.items
        ≡ out.old.items ++ map (λ b. 128 + b % 128) bytes.now) }
{
    for b in bytes {
        out.push(128 + *b % 128)?;
    }
    Ok(())
}

/// The length of one byte more than b has, and b: what is written for one byte more, without it.
fn length_beyond(alloc: Global, b: &[u8]) -> Result<Vec<u8>, NoMemory>
    ensures { IfOk result (λ v. v.items ≡ leb128 (length b.now + 1) ++ b.now) }
{
    let mut longer = Vec::from_slice(alloc, b)?;
    longer.push(0)?;
    let mut wrong = written(alloc, FieldKind::Len, longer.as_slice())?;
    wrong.pop();
    Ok(wrong)
}

fn wrong_net(alloc: Global, spoiling: Spoiling, b: &[u8]) -> Result<Option<Vec<u8>>, NoMemory>
    ensures { IfOk result (λ r. option_map (λ v. v.items) r ≡ wrong_net spoiling b.now) }
{
    match spoiling {
        Spoiling::LeadingZero => {
            let mut wrong = vec![in alloc; b'0']?;
            wrong.extend_from_slice(&written(alloc, FieldKind::Net, b)?)?;
            Ok(Some(wrong))
        }
        Spoiling::Semicolon => {
            let mut wrong = written(alloc, FieldKind::Net, b)?;
            let place = wrong.len() - b.len() - 2;
            wrong[place] = b';';
            Ok(Some(wrong))
        }
        Spoiling::Dot => {
            let mut wrong = written(alloc, FieldKind::Net, b)?;
            let place = wrong.len() - 1;
            wrong[place] = b'.';
            Ok(Some(wrong))
        }
        _ => Ok(None),
    }
}

fn wrong_hex(alloc: Global, spoiling: Spoiling, b: &[u8]) -> Result<Option<Vec<u8>>, NoMemory>
    ensures { IfOk result (λ r. option_map (λ v. v.items) r ≡ wrong_hex spoiling b.now) }
{
    match spoiling {
        Spoiling::Capitals => capitals(alloc, b),
        Spoiling::Comma => {
            let mut wrong = written(alloc, FieldKind::Hex, b)?;
            let place = wrong.len() - 1;
            wrong[place] = b',';
            Ok(Some(wrong))
        }
        _ => Ok(None),
    }
}

/// b in capital digits, where some have letters, and `;`.
fn capitals(alloc: Global, b: &[u8]) -> Result<Option<Vec<u8>>, NoMemory>
    ensures { IfOk result (λ r. option_map (λ v. v.items) r ≡ wrong_hex Spoiling.Capitals b.now) }
{
    let right = hex::encode(alloc, b)?;
    let upper = hex::encode_upper(alloc, b)?;
    if upper.as_str().as_bytes() == right.as_str().as_bytes() {
        return Ok(None);
    }
    let mut wrong = Vec::from_slice(alloc, upper.as_str().as_bytes())?;
    wrong.push(b';')?;
    Ok(Some(wrong))
}
