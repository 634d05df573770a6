//! Formats by published encodings and by worked examples.
ghost use Rattle.std.specs.Prelude.{◌≡◌, ◌<◌, ◌^◌, All, IfOk, length, vec_len};
ghost use Rattle.anb_format.specs.Formats.{field_count};

use crate::values::{are_parts, bytes_of, table};
use anb_base::{Bytes, NoMemory, Text};
use anb_format::{FieldKind, Format, FormatNo, Piece, apart};
use std::alloc::Global;

/// The format of these pieces, where they are one.
fn checked(alloc: Global, pieces: Vec<Piece>) -> Result<Format, NoMemory>
    ensures { IfOk result (λ f. f.pieces ≡ pieces.items) }
{
    if pieces.len() >= 100 {
        return Err(NoMemory);
    }
    match Format::check(pieces.as_slice()) {
        Ok(()) => Ok(Format::new(Text::new(String::new(alloc)), pieces)),
        Err(_) => Err(NoMemory),
    }
}

/// A format of the literal `M` and one field.
fn one_field(alloc: Global, kind: FieldKind) -> Result<Format, NoMemory>
    ensures { IfOk result (λ f. field_count f.pieces ≡ 1) }
{
    let literal = Piece::Lit(bytes_of(alloc, "M")?);
    checked(alloc, vec![in alloc; literal, Piece::Field(kind)]?)
}

/// A format of the literal `M` and a field of each kind.
fn all_kinds(alloc: Global) -> Result<Format, NoMemory>
    ensures { IfOk result (λ f. field_count f.pieces ≡ 4) }
{
    let literal = Piece::Lit(bytes_of(alloc, "M")?);
    let pieces = vec![in alloc;
        literal,
        Piece::Field(FieldKind::Len),
        Piece::Field(FieldKind::Net),
        Piece::Field(FieldKind::Hex),
        Piece::Field(FieldKind::Rest),
    ]?;
    checked(alloc, pieces)
}

/// The numbers of all places of the table, in order.
fn every_place(alloc: Global, table: &Vec<Bytes>) -> Result<Vec<u32>, NoMemory>
    requires { vec_len table.now < 2 ^ 32 }
    ensures within { IfOk result (λ places. All (λ i. i < vec_len table.now) places.items) }
    ensures count { IfOk result (λ places. length places.items ≡ vec_len table.now) }
{
    let mut places = Vec::new(alloc);
    for i in 0..table.len() as u32 {
        places.push(i)?;
    }
    Ok(places)
}

/// What the format builds of the bytes that these texts stand for.
fn built(alloc: Global, format: &Format, arguments: &[&str]) -> Result<Bytes, NoMemory>
    requires count { field_count format.now.pieces ≡ length arguments.now }
    requires few { length arguments.now < 100 }
{
    let table = table(alloc, arguments)?;
    let places = every_place(alloc, &table)?;
    format.build(alloc, table.as_slice(), places.as_slice())
}

/// Whether the arguments build these bytes, and these have them as their parts.
fn goes_both_ways(
    alloc: Global,
    format: &Format,
    arguments: &[&str],
    want: &[u8],
) -> Result<bool, NoMemory>
    requires count { field_count format.now.pieces ≡ length arguments.now }
    requires few { length arguments.now < 100 }
{
    let built = built(alloc, format, arguments)?;
    let parts = format.parts(alloc, want)?;
    Ok(built.as_slice() == want && are_parts(alloc, &parts, arguments)?)
}

/// The bytes that these texts stand for, one behind another.
fn joined(alloc: Global, texts: &[&str]) -> Result<Vec<u8>, NoMemory> {
    let mut joined = Vec::new(alloc);
    for text in texts {
        let bytes = bytes_of(alloc, text)?;
        joined.extend_from_slice(bytes.as_slice())?;
    }
    Ok(joined)
}

/// The same of a format of one field, where these bytes stand before and after the argument.
fn one_goes_both_ways(
    alloc: Global,
    kind: FieldKind,
    front: &str,
    argument: &str,
    back: &str,
) -> Result<bool, NoMemory> {
    let want = joined(alloc, &["M", front, argument, back])?;
    let format = one_field(alloc, kind)?;
    goes_both_ways(alloc, &format, &[argument], want.as_slice())
}

/// Whether a format of one field builds no bytes that are these.
fn has_no_parts(alloc: Global, kind: FieldKind, bytes: &[u8]) -> Result<bool, NoMemory> {
    let format = one_field(alloc, kind)?;
    let parts = format.parts(alloc, bytes)?;
    Ok(parts.is_none())
}

/// Whether the format with a field of each kind goes both ways.
fn each_goes_both_ways(
    alloc: Global,
    arguments: &[&str; 4],
    want: &[u8],
) -> Result<bool, NoMemory> {
    let format = all_kinds(alloc)?;
    if format.arity() != 4 {
        return Ok(false);
    }
    goes_both_ways(alloc, &format, arguments, want)
}

/// Whether that format builds no bytes that are these.
fn each_has_no_parts(alloc: Global, bytes: &[u8]) -> Result<bool, NoMemory> {
    let format = all_kinds(alloc)?;
    let parts = format.parts(alloc, bytes)?;
    Ok(parts.is_none())
}

const EACH: [&str; 4] = ["a", "", "0xff", "z"];

#[test]
fn a_field_of_each_kind(rt: HostRuntime) -> Result<(), NoMemory> {
    assert!(rt; each_goes_both_ways(rt.alloc(), &EACH, b"M\x01a0:,ff;z")?);
    assert!(rt; each_has_no_parts(rt.alloc(), b"M\x01a0:,Ff;z")?);
    Ok(())
}

/// The first of these arguments that doesn't go both ways, where the second text of its row stands
/// before it.
fn wrong_length(
    alloc: Global,
    kind: FieldKind,
    back: &str,
    rows: &[(&'static str, &str)],
) -> Option<&'static str> {
    for (argument, front) in rows {
        if !matches!(
            one_goes_both_ways(alloc, kind, front, argument, back),
            Ok(true)
        ) {
            return Some(*argument);
        }
    }
    None
}

const LENGTHS_IN_LEB128: [(&str, &str); 5] = [
    ("", "0x00"),
    ("0xa5*127", "0x7f"),
    ("0xa5*128", "0x8001"),
    ("0xa5*16383", "0xff7f"),
    ("0xa5*16384", "0x808001"),
];

const LENGTHS_IN_DECIMAL: [(&str, &str); 5] = [
    ("", "0:"),
    ("0x3a*9", "9:"),
    ("0x3a*10", "10:"),
    ("0x3a*99", "99:"),
    ("0x3a*100", "100:"),
];

#[test]
fn lengths_in_leb128_and_in_decimal(rt: HostRuntime) {
    assert_eq!(rt;
        wrong_length(rt.alloc(), FieldKind::Len, "", &LENGTHS_IN_LEB128),
        None
    );
    assert_eq!(rt;
        wrong_length(rt.alloc(), FieldKind::Net, ",", &LENGTHS_IN_DECIMAL),
        None
    );
}

/// The first of these bytes that have parts by a format of one field.
fn with_parts(alloc: Global, kind: FieldKind, rows: &[&'static [u8]]) -> Option<&'static [u8]> {
    for bytes in rows {
        if !matches!(has_no_parts(alloc, kind, bytes), Ok(true)) {
            return Some(*bytes);
        }
    }
    None
}

const NOT_LEN: [&[u8]; 7] = [
    b"",
    b"M",
    b"N\x00",
    b"M\x80\x00",
    b"M\x81\x00a",
    b"M\x01",
    b"M\x00a",
];

const NOT_NET: [&[u8]; 7] = [
    b"M:,", b"M00:,", b"M01:a,", b"M+1:a,", b"M1:a;", b"M1:a", b"M1:a,b",
];

const NOT_HEX: [&[u8]; 5] = [b"M", b"Mff", b"Mf;", b"MFF;", b"Mff;;"];

const NOT_REST: [&[u8]; 1] = [b"N"];

#[test]
fn only_what_is_built_has_parts(rt: HostRuntime) {
    assert_eq!(rt; with_parts(rt.alloc(), FieldKind::Len, &NOT_LEN), None);
    assert_eq!(rt; with_parts(rt.alloc(), FieldKind::Net, &NOT_NET), None);
    assert_eq!(rt; with_parts(rt.alloc(), FieldKind::Hex, &NOT_HEX), None);
    assert_eq!(rt; with_parts(rt.alloc(), FieldKind::Rest, &NOT_REST), None);
}

/// A format of these literals alone.
fn literals(alloc: Global, texts: &[&str]) -> Result<Format, NoMemory> {
    let mut pieces = Vec::new(alloc);
    for text in texts {
        let literal = bytes_of(alloc, text)?;
        pieces.push(Piece::Lit(literal))?;
    }
    checked(alloc, pieces)
}

/// Whether two formats of literals are apart.
fn are_apart(alloc: Global, first: &[&str], second: &[&str]) -> Result<bool, NoMemory> {
    let first = literals(alloc, first)?;
    let second = literals(alloc, second)?;
    Ok(apart(&first, &second))
}

#[test]
fn heads_that_begin_alike_are_not_apart(rt: HostRuntime) -> Result<(), NoMemory> {
    assert!(rt; !are_apart(rt.alloc(), &["AB"], &["AB"])?);
    assert!(rt; !are_apart(rt.alloc(), &["AB"], &["A", "", "BC"])?);
    assert!(rt; !are_apart(rt.alloc(), &["A", "", "BC"], &["AB"])?);
    assert!(rt; are_apart(rt.alloc(), &["AB"], &["A", "D"])?);
    assert!(rt; are_apart(rt.alloc(), &["A", "D"], &["A", "", "BC"])?);
    Ok(())
}

/// The piece that a word names: a field up to the end, or else a literal.
fn piece(alloc: Global, word: &str) -> Result<Piece, NoMemory> {
    if word == "rest" {
        Ok(Piece::Field(FieldKind::Rest))
    } else {
        Ok(Piece::Lit(bytes_of(alloc, word)?))
    }
}

/// Why the pieces that these words name are no format, where they aren't one.
fn fault(alloc: Global, words: &[&str]) -> Result<Option<FormatNo>, NoMemory> {
    let mut pieces = Vec::new(alloc);
    for word in words {
        let piece = piece(alloc, word)?;
        pieces.push(piece)?;
    }
    if pieces.len() < 100 {
        Ok(Format::check(pieces.as_slice()).err())
    } else {
        Err(NoMemory)
    }
}

/// Whether the pieces that these words name are no format for want of a head.
fn has_no_head(alloc: Global, words: &[&str]) -> Result<bool, NoMemory> {
    Ok(matches!(fault(alloc, words)?, Some(FormatNo::NoHead)))
}

/// Whether they are none because a field up to the end, at this place, isn't the last.
fn has_early_rest(alloc: Global, words: &[&str], place: u32) -> Result<bool, NoMemory> {
    match fault(alloc, words)? {
        Some(FormatNo::RestNotLast(early)) => Ok(early == place),
        _ => Ok(false),
    }
}

#[test]
fn what_is_no_format(rt: HostRuntime) -> Result<(), NoMemory> {
    assert!(rt; has_no_head(rt.alloc(), &[])?);
    assert!(rt; has_no_head(rt.alloc(), &["", "rest", "A"])?);
    assert!(rt; has_early_rest(rt.alloc(), &["A", "rest", "rest"], 1)?);
    Ok(())
}

/// The width of the format with a field of each kind.
fn width_of_each(alloc: Global, widths: &[u32; 4]) -> Result<Option<u32>, NoMemory> {
    let format = all_kinds(alloc)?;
    Ok(format.width(widths))
}

#[test]
fn a_width_is_the_sum_over_the_pieces(rt: HostRuntime) -> Result<(), NoMemory> {
    // 1 + (100000 + 10) + (200000 + 22) + (2 * 300000 + 1) + 400000
    let width = width_of_each(rt.alloc(), &[100_000, 200_000, 300_000, 400_000])?;
    assert_eq!(rt; width, Some(1_300_034));
    Ok(())
}

/// The first of these widths of the field for which a format of one field has another width.
fn wrong_width(alloc: Global, kind: FieldKind, rows: &[(u32, Option<u32>)]) -> Option<u32> {
    for (width, want) in rows {
        if !matches!(has_width(alloc, kind, *width, *want), Ok(true)) {
            return Some(*width);
        }
    }
    None
}

fn has_width(
    alloc: Global,
    kind: FieldKind,
    width: u32,
    want: Option<u32>,
) -> Result<bool, NoMemory> {
    let format = one_field(alloc, kind)?;
    Ok(format.width(&[width]) == want)
}

/// No width is below that of an arrival.
const LOWEST: [(u32, Option<u32>); 2] = [(262_133, Some(262_144)), (262_134, Some(262_145))];

/// A width above the limit is none.
const HIGHEST: [(u32, Option<u32>); 2] = [(33_554_431, Some(67_108_864)), (33_554_432, None)];

#[test]
fn a_width_has_a_lowest_and_a_highest_value(rt: HostRuntime) {
    assert_eq!(rt; wrong_width(rt.alloc(), FieldKind::Len, &LOWEST), None);
    assert_eq!(rt; wrong_width(rt.alloc(), FieldKind::Hex, &HIGHEST), None);
}
