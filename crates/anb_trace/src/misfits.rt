//! What isn't right with bytes that aren't of a format.
ghost use Rattle.std.specs.Prelude.{◌≡◌, ◌+◌, ◌≤◌, ◌++◌, ◌∷◌, [], IfOk, OnOk, codes};
ghost use Rattle.anb_format.specs.Formats.{field_count};
ghost use Rattle.anb_trace.specs.Misfits.{at_byte, counted, end_due, field_found, hex_found, len_found, literal_found, misfit, net_found, no_length, piece_found, place_of};
ghost use Rattle.anb_trace.specs.Passing.{Passes};

use crate::fronts::{
    count_digits, count_lower_digits, end_of_length, front, length_at, read_number,
};
use crate::shown::{all_shown, literal_text, put_due, put_lacking, shown};
use anb_base::NoMemory;
use anb_format::{FieldKind, Piece};
use std::alloc::Global;

/// Appends what isn't right with bytes that aren't these pieces. The time grows with the bytes.
pub(crate) fn put_misfit(
    alloc: Global,
    out: &mut Vec<u8>,
    pieces: &[Piece],
    bytes: &[u8],
) -> Result<(), NoMemory>
    ensures { OnOk result (out.new.items ≡ out.old.items ++ misfit pieces.now bytes.now) }
{
    let mut rest = bytes;
    let mut field = 1;
    for piece in pieces {
        let Some(behind) = pass_piece(alloc, out, bytes.len(), field, piece, rest)? else {
            return Ok(());
        };
        rest = behind;
        field += fields_of(piece);
    }
    put_end_due(alloc, out, bytes.len(), rest)?;
    Ok(())
}

/// How many fields a piece is.
fn fields_of(piece: &Piece) -> usize
    ensures fields { result ≡ field_count (piece.now ∷ []) }
    ensures few { result ≤ 1 }
{
    match piece {
        Piece::Lit(_) => 0,
        Piece::Field(_) => 1,
    }
}

/// Appends that the end is due where more is there.
fn put_end_due(alloc: Global, out: &mut Vec<u8>, all: usize, bytes: &[u8]) -> Result<(), NoMemory>
    ensures { OnOk result (out.new.items ≡ out.old.items ++ end_due all bytes.now) }
{
    match bytes {
        [] => Ok(()),
        _ => {
            let there = shown(alloc, bytes)?;
            put_due(out, place_of(all, bytes), b"the end", there.as_slice())
        }
    }
}

/// Gives what follows a piece, which is this field if it is one, or appends what isn't right with
/// it.
fn pass_piece<'b>(
    alloc: Global,
    out: &mut Vec<u8>,
    all: usize,
    field: usize,
    piece: &Piece,
    bytes: &'b [u8],
) -> Result<Option<&'b [u8]>, NoMemory>
    ensures { IfOk result (λ r. Passes (piece_found all piece.now field bytes.now)
        r out.old.items out.new.items) }
{
    match piece {
        Piece::Lit(text) => pass_literal(alloc, out, all, text.as_slice(), bytes),
        Piece::Field(FieldKind::Len) => pass_len(alloc, out, all, field, bytes),
        Piece::Field(FieldKind::Net) => pass_net(alloc, out, all, field, bytes),
        Piece::Field(FieldKind::Hex) => pass_hex(alloc, out, all, bytes),
        Piece::Field(FieldKind::Rest) => Ok(Some(&[])),
    }
}

/// Gives what follows a literal, or appends that it is due.
fn pass_literal<'b>(
    alloc: Global,
    out: &mut Vec<u8>,
    all: usize,
    text: &[u8],
    bytes: &'b [u8],
) -> Result<Option<&'b [u8]>, NoMemory>
    ensures { IfOk result (λ r. Passes (literal_found all text.now bytes.now)
        r out.old.items out.new.items) }
{
    match bytes.strip_prefix(text) {
        Some(rest) => Ok(Some(rest)),
        None => {
            let what = literal_text(alloc, text)?;
            let there = all_shown(alloc, front(bytes, text.len()))?;
            put_due(out, place_of(all, bytes), what.as_slice(), there.as_slice())?;
            Ok(None)
        }
    }
}

/// Gives what follows so many bytes of a field, or appends that there are fewer.
fn pass_counted<'b>(
    out: &mut Vec<u8>,
    all: usize,
    field: usize,
    bytes: &[u8],
    n: usize,
    behind: &'b [u8],
) -> Result<Option<&'b [u8]>, NoMemory>
    ensures { IfOk result (λ r. Passes (counted all field bytes.now n behind.now)
        r out.old.items out.new.items) }
{
    if behind.len() < n {
        put_lacking(out, place_of(all, bytes), field, n, behind.len())?;
        Ok(None)
    } else {
        Ok(Some(&behind[n..]))
    }
}

/// Gives what follows a field of the kind `len`, or appends what isn't right with it.
fn pass_len<'b>(
    alloc: Global,
    out: &mut Vec<u8>,
    all: usize,
    field: usize,
    bytes: &'b [u8],
) -> Result<Option<&'b [u8]>, NoMemory>
    ensures { IfOk result (λ r. Passes (len_found all field bytes.now)
        r out.old.items out.new.items) }
{
    match length_at(bytes, 8) {
        Some((n, behind)) => pass_counted(out, all, field, bytes, n, behind),
        None => {
            put_no_length(alloc, out, all, bytes)?;
            Ok(None)
        }
    }
}

/// Appends that a length is due.
fn put_no_length(alloc: Global, out: &mut Vec<u8>, all: usize, bytes: &[u8]) -> Result<(), NoMemory>
    ensures { OnOk result (out.new.items
        ≡ out.old.items ++ at_byte (place_of all bytes.now) (no_length bytes.now)) }
{
    let longest = front(bytes, 9);
    match end_of_length(longest) {
        Some(end) => {
            let there = all_shown(alloc, front(bytes, end + 1))?;
            put_due(
                out,
                place_of(all, bytes),
                b"a minimal length",
                there.as_slice(),
            )
        }
        None => {
            let there = all_shown(alloc, longest)?;
            put_due(out, place_of(all, bytes), b"a length", there.as_slice())
        }
    }
}

/// Gives what follows a field of the kind `net`, or appends what isn't right with it.
fn pass_net<'b>(
    alloc: Global,
    out: &mut Vec<u8>,
    all: usize,
    field: usize,
    bytes: &'b [u8],
) -> Result<Option<&'b [u8]>, NoMemory>
    ensures { IfOk result (λ r. Passes (net_found all field bytes.now)
        r out.old.items out.new.items) }
{
    let digits = count_digits(bytes);
    let Some(n) = read_number(&bytes[..digits]) else {
        let there = shown(alloc, front(bytes, digits.max(1)))?;
        put_due(
            out,
            place_of(all, bytes),
            b"a decimal length",
            there.as_slice(),
        )?;
        return Ok(None);
    };
    let Some(behind) = pass_literal(alloc, out, all, b":", &bytes[digits..])? else {
        return Ok(None);
    };
    let Some(end) = pass_counted(out, all, field, bytes, n as usize, behind)? else {
        return Ok(None);
    };
    pass_literal(alloc, out, all, b",", end)
}

/// Gives what follows a field of the kind `hex`, or appends what isn't right with it.
fn pass_hex<'b>(
    alloc: Global,
    out: &mut Vec<u8>,
    all: usize,
    bytes: &'b [u8],
) -> Result<Option<&'b [u8]>, NoMemory>
    ensures { IfOk result (λ r. Passes (hex_found all bytes.now) r out.old.items out.new.items) }
{
    let digits = count_lower_digits(bytes);
    let end = &bytes[digits - digits % 2..];
    match end {
        [b';', rest @ ..] => Ok(Some(rest)),
        _ => {
            let there = all_shown(alloc, front(end, 2))?;
            put_due(
                out,
                place_of(all, end),
                b"a pair of lower-case hexadecimal digits or 3b",
                there.as_slice(),
            )?;
            Ok(None)
        }
    }
}

/// The place where the last bytes of so many begin.
fn place_of(all: usize, bytes: &[u8]) -> usize
    ensures { result ≡ place_of all bytes.now }
{
    all.saturating_sub(bytes.len())
}
