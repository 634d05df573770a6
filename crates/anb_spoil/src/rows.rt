//! In what ways the bytes of a format can be spoilt.
ghost use Rattle.std.specs.Prelude.{◌≡◌, ◌==◌, ◌++◌, take, IfOk, OnOk, map};
ghost use Rattle.anb_spoil.specs.Rows.{has_rest, is_default, rows_of, spoilings_of};
ghost use Rattle.anb_format.specs.Formats.{field_count};

use crate::pieces::field_count;
use anb_base::NoMemory;
use anb_format::{FieldKind, Format, Piece};
use std::alloc::Global;

/// In what wrong way a piece of a format is written.
#[derive(Clone, Copy, Debug, PartialEq, Eq, Drop)]
pub enum Spoiling {
    /// The last byte of a literal is xor 1.
    OtherByte,
    /// The length of a `len` has one byte more than it needs.
    LongLength,
    /// The length of a `len` that ends the format is one above what follows it.
    LengthBeyond,
    /// The length of a `net` begins with a zero.
    LeadingZero,
    /// `;` follows the length of a `net`.
    Semicolon,
    /// `.` ends a `net`.
    Dot,
    /// The digits of a `hex` are capital.
    Capitals,
    /// `,` ends a `hex`.
    Comma,
}

/// A way to spoil bytes of a format.
#[derive(Clone, Copy, Debug, PartialEq, Eq, Drop)]
pub enum Row {
    /// The piece at this place, from 0, is written so.
    At(u32, Spoiling),
    /// A zero byte follows the end.
    Behind,
}

/// The rows of a format, in the order of its pieces.
pub fn rows_of(alloc: Global, format: &Format) -> Result<Vec<Row>, NoMemory>
    ensures { IfOk result (λ rows. rows.items ≡ rows_of format.now.pieces) }
{
    let pieces = format.pieces();
    let mut rows = Vec::new(alloc);
    for (i, piece) in pieces.iter().enumerate() {
        put_rows(&mut rows, i as u32, piece, i + 1 == pieces.len())?;
    }
    if !has_rest(pieces) {
        rows.push(Row::Behind)?;
    }
    Ok(rows)
}

/// Appends the rows of a piece at this place, which is the last one or isn't.
fn put_rows(rows: &mut Vec<Row>, place: u32, piece: &Piece, last: bool) -> Result<(), NoMemory>
    ensures { OnOk result (rows.new.items
        ≡ rows.old.items ++ map (Row.At place) (spoilings_of piece.now last)) }
{
    match piece {
        Piece::Lit(text) => {
            if !text.as_slice().is_empty() {
                rows.push(Row::At(place, Spoiling::OtherByte))?;
            }
        }
        Piece::Field(FieldKind::Len) => {
            rows.push(Row::At(place, Spoiling::LongLength))?;
            if last {
                rows.push(Row::At(place, Spoiling::LengthBeyond))?;
            }
        }
        Piece::Field(FieldKind::Net) => {
            rows.push(Row::At(place, Spoiling::LeadingZero))?;
            rows.push(Row::At(place, Spoiling::Semicolon))?;
            rows.push(Row::At(place, Spoiling::Dot))?;
        }
        Piece::Field(FieldKind::Hex) => {
            rows.push(Row::At(place, Spoiling::Capitals))?;
            rows.push(Row::At(place, Spoiling::Comma))?;
        }
        Piece::Field(FieldKind::Rest) => {}
    }
    Ok(())
}

/// Whether a row is tried by default. A length that isn't minimal is tried at the first field
/// alone, since one reader of lengths mostly serves all fields.
pub fn is_default(format: &Format, row: Row) -> bool
    ensures { result ≡ is_default format.now.pieces row }
{
    match row {
        Row::At(place, Spoiling::LongLength) => is_first_field(format.pieces(), place as usize),
        Row::At(place, Spoiling::LeadingZero) => is_first_field(format.pieces(), place as usize),
        _ => true,
    }
}

/// Whether no field stands before this place.
fn is_first_field(pieces: &[Piece], place: usize) -> bool
    ensures { result ≡ (field_count (take place pieces.now) == 0) }
{
    let (before, _) = pieces.split_at(place.min(pieces.len()));
    field_count(before) == 0
}

/// Whether a field of these pieces takes the bytes up to the end.
pub(crate) fn has_rest(pieces: &[Piece]) -> bool
    ensures { result ≡ has_rest pieces.now }
{
    for piece in pieces {
        if matches!(piece, Piece::Field(FieldKind::Rest)) {
            return true;
        }
    }
    false
}
