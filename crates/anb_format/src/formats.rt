//! Formats: checked, built, and taken apart.
ghost use Rattle.std.specs.Prelude.{◌≡◌, ◌≢◌, ◌↔◌, ◌≤◌, ◌<◌, ◌^◌, ◌+◌, ◌++◌, ◌∷◌, ℕ, List, [], length, drop, min, IsSomeAnd, OnSome, vec_len, slice_get, filter_map, All, IsTrue, IsOk, IfOk, IfSome, IfNone, Some};
ghost use Rattle.std.specs.Option.{option_map, SomeIff};
ghost use Rattle.std.specs.List.{AllByRecursion};
ghost use Rattle.anb_base.specs.Bytes.{IsBytes};
ghost use Rattle.anb_format.specs.Formats.{AreApart, HasParts, IsBytesPiece, IsEarlyRest, IsFirstEarlyRest, IsParts, IsSound, field_count, format_bytes, head};
ghost use Rattle.anb_format.specs.Reading.{parts_of};
ghost use Rattle.anb_format.specs.Widths.{field_width, format_width, pieces_width};
ghost use Rattle.anb_format.specs.declared.pieces.Piece.{Piece};

use crate::fields::{field_at, put_field, tell_bytes};
use crate::heads::Head;
use crate::{FieldKind, FormatNo, Piece, copy_pieces};
use anb_base::{ARRIVAL, Bytes, NoMemory, Text, WIDE};
use std::alloc::Global;
use std::marker::Model;

/// A format that was checked: a name, and the pieces in order.
#[derive(Debug, Drop)]
pub struct Format {
    name: Text,
    pieces: Vec<Piece>,
}

impl Model for Format {
    ghost use Rattle.std.specs.Prelude.{◌<◌, ◌^◌, vec_len};
    ghost use Rattle.anb_format.specs.Formats.{FormatValue, IsSound};

    ghost Value = { FormatValue };

    ghost view = { λ f. record { name = f.name; pieces = f.pieces.items } };

    ghost invariant = { λ f. (vec_len f.pieces < 2 ^ 32) × IsSound f.pieces.items };
}

impl Format {
    /// Says whether these pieces make a format.
    pub fn check(pieces: &[Piece]) -> Result<(), FormatNo>
        requires { length pieces.now < 2 ^ 32 }
        ensures sound { IsOk result ↔ IsSound pieces.now }
        ensures no_head { (result ≡ Err FormatNo.NoHead) ↔ (head pieces.now ≡ []) }
        ensures rest_not_last { (i : ℕ) → (result ≡ Err (FormatNo.RestNotLast i))
            ↔ ((head pieces.now ≢ []) × IsFirstEarlyRest pieces.now i) }
    {
        if Head::new(pieces).next().is_none() {
            return Err(FormatNo::NoHead);
        }
        tell_literals(pieces);
        match early_rest(pieces) {
            Some(i) => Err(FormatNo::RestNotLast(i)),
            None => Ok(()),
        }
    }

    /// A format of pieces for which `check` says Ok.
    pub fn new(name: Text, pieces: Vec<Piece>) -> Self
        requires few { vec_len pieces < 2 ^ 32 }
        requires sound { IsSound pieces.items }
        ensures name { result.name ≡ name }
        ensures pieces { result.pieces ≡ pieces.items }
    {
        Format { name, pieces }
    }

    pub fn copy(&self, alloc: Global) -> Result<Self, NoMemory>
        ensures { IfOk result (λ copy. copy ≡ self.now) }
    {
        let pieces = copy_pieces(alloc, self.pieces())?;
        Ok(Format::new(self.name.copy(alloc)?, pieces))
    }

    pub fn name(&self) -> &Text
        ensures { result.now ≡ self.now.name }
    {
        &self.name
    }

    /// The pieces, for which `check` says Ok.
    pub fn pieces(&self) -> &[Piece]
        ensures pieces { result.now ≡ self.now.pieces }
        ensures few { length self.now.pieces < 2 ^ 32 }
        ensures sound { IsSound self.now.pieces }
    {
        self.pieces.as_slice()
    }

    /// How many arguments the format takes.
    pub fn arity(&self) -> u16
        requires { field_count self.now.pieces ≤ 32 }
        ensures { result ≡ field_count self.now.pieces }
    {
        let mut count = 0;
        for piece in &self.pieces {
            if matches!(piece, Piece::Field(_)) {
                count += 1;
            }
        }
        count
    }

    /// The width of what the format builds from arguments of these widths, where it is at most
    /// [`WIDE`]. A width bounds a number of bytes, and none is below [`ARRIVAL`].
    pub fn width(&self, widths: &[u32]) -> Option<u32>
        requires { length widths.now ≡ field_count self.now.pieces }
        ensures { SomeIff result (format_width ARRIVAL self.now.pieces widths.now ≤ WIDE)
            (format_width ARRIVAL self.now.pieces widths.now) }
    {
        let mut sum = 0;
        let mut left = widths;
        for piece in &self.pieces {
            left = add_width(&mut sum, piece, left);
        }
        let width = sum.max(u64::from(ARRIVAL));
        if width <= u64::from(WIDE) {
            Some(width as u32)
        } else {
            None
        }
    }

    /// The bytes of the arguments that stand at these places of the table. The memory for them is
    /// taken at once.
    pub fn build(&self, alloc: Global, table: &[Bytes], at: &[u32]) -> Result<Bytes, NoMemory>
        requires within { All (λ i. i < length table.now) at.now }
        requires count { length at.now ≡ field_count self.now.pieces }
        ensures { IfOk result (λ bytes.
            bytes ≡ format_bytes self.now.pieces (filter_map (slice_get table.now) at.now)) }
    {
        let mut out = Vec::with_capacity(alloc, room(&self.pieces, table, at))?;
        let mut left = at;
        for piece in &self.pieces {
            left = put_piece(alloc, &mut out, piece, table, left)?;
        }
        Ok(Bytes::new(out))
    }

    /// The arguments that build these bytes, where there are any.
    pub fn parts(&self, alloc: Global, bytes: &[u8]) -> Result<Option<Vec<Bytes>>, NoMemory>
        ensures some { IfOk result (λ r.
            IfSome r (λ parts. IsParts self.now.pieces bytes.now parts.items)) }
        ensures none { IfOk result (λ r.
            IfNone r ((arguments : List (List ℕ)) → IsParts self.now.pieces bytes.now arguments
            → ⊥)) }
        ensures computed { IfOk result (λ r.
            option_map (λ parts. parts.items) r ≡ parts_of self.now.pieces bytes.now) }
    {
        let Some(parts) = arguments_at(alloc, self.pieces.as_slice(), bytes)? else {
            return Ok(None);
        };
        let places = every_place(alloc, &parts)?;
        let again = self.build(alloc, parts.as_slice(), places.as_slice())?;
        if again.as_slice() == bytes {
            Ok(Some(parts))
        } else {
            Ok(None)
        }
    }
}

/// Says whether neither format's head, which is what its literals before the first field spell, is a
/// prefix of the other's. No bytes then belong to both.
pub fn apart(f: &Format, g: &Format) -> bool
    ensures { IsTrue result ↔ AreApart f.now.pieces g.now.pieces }
{
    let mut ours = Head::new(f.pieces());
    let mut theirs = Head::new(g.pieces());
    while let (Some(a), Some(b)) = (ours.next(), theirs.next()) {
        if a != b {
            return true;
        }
    }
    false
}

/// At least as many bytes as these pieces build of the arguments at these places, for large ones
/// few more.
fn room(pieces: &[Piece], table: &[Bytes], at: &[u32]) -> usize {
    let mut sum = 0usize;
    let mut left = at;
    for piece in pieces {
        match piece {
            Piece::Lit(text) => sum = sum.saturating_add(text.as_slice().len()),
            Piece::Field(kind) => {
                if let Some((i, rest)) = left.split_first() {
                    sum = sum.saturating_add(field_room(*kind, table.get(*i as usize)));
                    left = rest;
                }
            }
        }
    }
    sum
}

fn field_room(kind: FieldKind, argument: Option<&Bytes>) -> usize {
    let Some(argument) = argument else {
        return 0;
    };
    let length = argument.as_slice().len();
    match kind {
        FieldKind::Len => length.saturating_add(10),
        FieldKind::Net => length.saturating_add(22),
        FieldKind::Hex => length.saturating_mul(2).saturating_add(1),
        FieldKind::Rest => length,
    }
}

/// Does nothing. Contracts then know that each literal is a string of bytes.
fn tell_literals(pieces: &[Piece])
    ensures { AllByRecursion IsBytesPiece pieces.now }
{
    for piece in pieces {
        tell_literal(piece);
    }
}

fn tell_literal(piece: &Piece)
    ensures { IsBytesPiece piece.now }
{
    if let Piece::Lit(text) = piece {
        tell_bytes(text.as_slice());
    }
}

/// The place of the first `rest` that a piece follows.
fn early_rest(pieces: &[Piece]) -> Option<u32>
    requires { length pieces.now < 2 ^ 32 }
    ensures some { IfSome result (IsFirstEarlyRest pieces.now) }
    ensures none { IfNone result ((i : ℕ) → IsEarlyRest pieces.now i → ⊥) }
{
    for (i, piece) in pieces.iter().enumerate() {
        if matches!(piece, Piece::Field(FieldKind::Rest)) && i + 1 < pieces.len() {
            return Some(i as u32);
        }
    }
    None
}

/// Appends what the piece writes, where a field takes the argument at the first of these places, and
/// gives the places that are left.
fn put_piece<'a>(
    alloc: Global,
    out: &mut Vec<u8>,
    piece: &Piece,
    table: &[Bytes],
    at: &'a [u32],
) -> Result<&'a [u32], NoMemory>
    requires within { All (λ i. i < length table.now) at.now }
    requires some { field_count (piece.now ∷ []) ≤ length at.now }
    ensures left { IfOk result (λ left. left.now ≡ drop (field_count (piece.now ∷ [])) at.now) }
    ensures put { IfOk result (λ left. (pieces : List Piece)
        → out.new.items ++ format_bytes pieces (filter_map (slice_get table.now) left.now)
        ≡ out.old.items ++ format_bytes (piece.now ∷ pieces)
        (filter_map (slice_get table.now) at.now)) }
{
    match piece {
        Piece::Lit(text) => {
            out.extend_from_slice(text.as_slice())?;
            Ok(at)
        }
        Piece::Field(kind) => {
            put_field(alloc, out, *kind, table[at[0] as usize].as_slice())?;
            Ok(&at[1..])
        }
    }
}

/// Adds the piece's width, where a field's argument has the first of these widths, and gives the
/// widths that are left. The sum stops at the last value of a `u64`.
fn add_width<'a>(sum: &mut u64, piece: &Piece, widths: &'a [u32]) -> &'a [u32]
    requires { field_count (piece.now ∷ []) ≤ length widths.now }
    ensures left { result.now ≡ drop (field_count (piece.now ∷ [])) widths.now }
    ensures sum { (pieces : List Piece) → min (sum.new + pieces_width pieces result.now) u64.MAX
        ≡ min (sum.old + pieces_width (piece.now ∷ pieces) widths.now) u64.MAX }
{
    match piece {
        Piece::Lit(text) => {
            *sum = sum.saturating_add(text.as_slice().len() as u64);
            widths
        }
        Piece::Field(kind) => {
            *sum = sum.saturating_add(field_width(*kind, widths[0]));
            &widths[1..]
        }
    }
}

fn field_width(kind: FieldKind, width: u32) -> u64
    ensures { result ≡ field_width kind width }
{
    let width = u64::from(width);
    match kind {
        FieldKind::Len => width + 10,
        FieldKind::Net => width + 22,
        FieldKind::Hex => 2 * width + 1,
        FieldKind::Rest => width,
    }
}

/// The arguments that these pieces seem to have in the bytes. Where there are arguments that build
/// these bytes, they are found; whether these do, building again shows.
fn arguments_at(
    alloc: Global,
    pieces: &[Piece],
    bytes: &[u8],
) -> Result<Option<Vec<Bytes>>, NoMemory>
    requires { (i : ℕ) → IsEarlyRest pieces.now i → ⊥ }
    ensures count { IfOk result (λ r.
        IfSome r (λ arguments. length arguments.items ≡ field_count pieces.now)) }
    ensures strings { IfOk result (λ r.
        IfSome r (λ arguments. AllByRecursion IsBytes arguments.items)) }
    ensures again { IfOk result (λ r. (wanted : List (List ℕ)) → IsParts pieces.now bytes.now wanted
        → IsSomeAnd r (λ arguments. arguments.items ≡ wanted)) }
{
    let mut arguments = Vec::new(alloc);
    let mut rest = bytes;
    for piece in pieces {
        let Some(after) = take_piece(alloc, &mut arguments, piece, rest)? else {
            return Ok(None);
        };
        rest = after;
    }
    Ok(Some(arguments))
}

/// Takes the piece from the front of the bytes, where it seems to stand there: appends the argument
/// of a field, and gives what follows the piece.
fn take_piece<'a>(
    alloc: Global,
    arguments: &mut Vec<Bytes>,
    piece: &Piece,
    bytes: &'a [u8],
) -> Result<Option<&'a [u8]>, NoMemory>
    ensures count { IfOk result (λ r.
        OnSome r (length arguments.new.items
        ≡ length arguments.old.items + field_count (piece.now ∷ []))) }
    ensures strings { IfOk result (λ r.
        OnSome r (AllByRecursion IsBytes arguments.old.items
        → AllByRecursion IsBytes arguments.new.items)) }
    ensures again { IfOk result (λ r. (pieces : List Piece) (wanted : List (List ℕ))
        → (piece.now ≡ Piece.Field FieldKind.Rest → pieces ≡ [])
        → IsParts (piece.now ∷ pieces) bytes.now wanted
        → IsSomeAnd r (λ after.
        HasParts pieces after.now arguments.new.items (arguments.old.items ++ wanted))) }
{
    match piece {
        Piece::Lit(text) => Ok(bytes.strip_prefix(text.as_slice())),
        Piece::Field(kind) => {
            let Some((argument, after)) = field_at(alloc, *kind, bytes)? else {
                return Ok(None);
            };
            arguments.push(argument)?;
            Ok(Some(after))
        }
    }
}

/// The numbers of all places of the table, in order.
fn every_place(alloc: Global, table: &Vec<Bytes>) -> Result<Vec<u32>, NoMemory>
    requires { vec_len table.now < 2 ^ 32 }
    ensures within { IfOk result (λ places. All (λ i. i < vec_len table.now) places.items) }
    ensures count { IfOk result (λ places. length places.items ≡ vec_len table.now) }
    ensures whole { IfOk result (λ places.
        filter_map (slice_get table.now.items) places.items ≡ table.now.items) }
{
    let mut places = Vec::new(alloc);
    for i in 0..table.len() as u32 {
        places.push(i)?;
    }
    Ok(places)
}
