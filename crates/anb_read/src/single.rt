//! Reads single words.

ghost use Rattle.std.specs.Prelude.{◌≡◌, ◌≤◌, length, drop, bytes_eq, IfOk};
ghost use Rattle.anb_base.specs.declared.TheConstants.{SMALL_FILE};
ghost use Rattle.anb_base.specs.Bytes.{IsBytes};
ghost use Rattle.anb_syntax.specs.Words.{head, sign, name, end, word_eqb};
ghost use Rattle.anb_read.specs.Productions.{expect, name_at, sort_at, suite_at, piece_at, word_sort, word_suite, is_word, is_some_name, is_sort, is_piece, begins_term, some_of};
ghost use Rattle.anb_read.specs.Places.{toks, literal_here, Finds};

use crate::places::{Place, Word, first, others};
use crate::refusal::{ReadNo, refusal};
use anb_base::{Bytes, NoMemory, Suite, Text};
use anb_format::{Piece, read_literal};
use anb_syntax::{Sort, is_name, kind_of_word, name_text, suite_of_word};
use std::alloc::Global;

fn is_same(a: &[u8], b: &[u8]) -> bool
    ensures { result ≡ bytes_eq a.now b.now }
{
    a == b
}

/// Whether the word is this sign.
pub(crate) fn is_sign(c: u8, text: &[u8], places: &[Place]) -> bool
    ensures { result ≡ word_eqb (sign c) (head (toks text.now places.now)) }
{
    match first(text, places) {
        Word::Sign(b) => c == b,
        _ => false,
    }
}

/// Whether the word is this one.
pub(crate) fn is_word(wanted: &[u8], text: &[u8], places: &[Place]) -> bool
    ensures { result ≡ is_word wanted.now (head (toks text.now places.now)) }
{
    match first(text, places) {
        Word::Name(b) => is_same(wanted, b),
        _ => false,
    }
}

/// Passes a sign.
#[tactic(auto, unfolding(crate::specs::Productions::expect))]
pub(crate) fn expect_sign<'p>(
    c: u8,
    text: &[u8],
    places: &'p [Place],
) -> Result<&'p [Place], ReadNo>
    ensures { Finds (λ r. (tt, toks text.now r.now)) result
        (expect (sign c) (toks text.now places.now)) }
{
    if is_sign(c, text, places) {
        Ok(others(places))
    } else {
        Err(refusal(text, places))
    }
}

/// Passes a word.
#[tactic(auto, unfolding(crate::specs::Productions::expect))]
pub(crate) fn expect_word<'p>(
    wanted: &[u8],
    text: &[u8],
    places: &'p [Place],
) -> Result<&'p [Place], ReadNo>
    ensures { Finds (λ r. (tt, toks text.now r.now)) result
        (expect (name wanted.now) (toks text.now places.now)) }
{
    if is_word(wanted, text, places) {
        Ok(others(places))
    } else {
        Err(refusal(text, places))
    }
}

/// Passes the end.
#[tactic(auto, unfolding(crate::specs::Productions::expect))]
pub(crate) fn expect_end<'p>(text: &[u8], places: &'p [Place]) -> Result<&'p [Place], ReadNo>
    ensures { Finds (λ r. (tt, toks text.now r.now)) result
        (expect end (toks text.now places.now)) }
{
    match first(text, places) {
        Word::End => Ok(others(places)),
        _ => Err(refusal(text, places)),
    }
}

/// Whether the word is a name of the grammar.
pub(crate) fn is_some_name(text: &[u8], places: &[Place]) -> bool
    ensures { result ≡ is_some_name (head (toks text.now places.now)) }
{
    match first(text, places) {
        Word::Name(bytes) => is_name(bytes),
        _ => false,
    }
}

/// Whether a term begins with the word.
pub(crate) fn begins_term(text: &[u8], places: &[Place]) -> bool
    ensures { result ≡ begins_term (head (toks text.now places.now)) }
{
    is_word(b"h", text, places)
        || is_word(b"mac", text, places)
        || is_word(b"scrypt", text, places)
        || is_word(b"wrap", text, places)
        || is_some_name(text, places)
}

/// Reads a name.
#[tactic(auto, unfolding(crate::specs::Productions::name_at))]
pub(crate) fn name<'p>(
    alloc: Global,
    text: &[u8],
    places: &'p [Place],
) -> Result<(Text, &'p [Place]), ReadNo>
    ensures { Finds (λ x. (x.0, toks text.now x.1.now)) result
        (name_at (toks text.now places.now)) }
{
    match first(text, places) {
        Word::Name(bytes) => {
            if !is_name(bytes) {
                return Err(refusal(text, places));
            }
            Ok((name_text(alloc, bytes)?, others(places)))
        }
        _ => Err(refusal(text, places)),
    }
}

/// The sort that the word is.
pub(crate) fn sort_of(text: &[u8], places: &[Place]) -> Option<Sort>
    ensures { result ≡ word_sort (head (toks text.now places.now)) }
{
    match first(text, places) {
        Word::Name(bytes) => {
            if is_same(b"Agent", bytes) {
                Some(Sort::Agent)
            } else if is_same(b"Number", bytes) {
                Some(Sort::Number)
            } else if is_same(b"Key", bytes) {
                Some(Sort::Key)
            } else {
                None
            }
        }
        _ => None,
    }
}

/// Reads a sort.
#[tactic(auto, unfolding(crate::specs::Productions::sort_at))]
pub(crate) fn sort<'p>(text: &[u8], places: &'p [Place]) -> Result<(Sort, &'p [Place]), ReadNo>
    ensures { Finds (λ x. (x.0, toks text.now x.1.now)) result
        (sort_at (toks text.now places.now)) }
{
    match sort_of(text, places) {
        Some(sort) => Ok((sort, others(places))),
        None => Err(refusal(text, places)),
    }
}

/// The suite that the word names.
fn suite_of(text: &[u8], places: &[Place]) -> Option<Suite>
    ensures { result ≡ word_suite (head (toks text.now places.now)) }
{
    match first(text, places) {
        Word::Name(bytes) => suite_of_word(bytes),
        _ => None,
    }
}

/// Reads a suite's hash.
#[tactic(auto, unfolding(crate::specs::Productions::suite_at))]
pub(crate) fn suite<'p>(text: &[u8], places: &'p [Place]) -> Result<(Suite, &'p [Place]), ReadNo>
    ensures { Finds (λ x. (x.0, toks text.now x.1.now)) result
        (suite_at (toks text.now places.now)) }
{
    match suite_of(text, places) {
        Some(suite) => Ok((suite, others(places))),
        None => Err(refusal(text, places)),
    }
}

/// Whether the word is a piece of a format.
pub(crate) fn is_piece(text: &[u8], places: &[Place]) -> bool
    ensures { result ≡ is_piece (head (toks text.now places.now)) }
{
    match first(text, places) {
        Word::Name(bytes) => kind_of_word(bytes).is_some(),
        Word::Literal(_) | Word::Quotes => true,
        _ => false,
    }
}

/// The bytes of the literal at an offset.
fn literal(alloc: Global, text: &[u8], at: u32) -> Result<Bytes, NoMemory>
    requires { length text.now ≤ SMALL_FILE }
    ensures { IfOk result (λ b. b ≡ literal_here (drop at text.now)) }
{
    if at as usize > text.len() {
        return Ok(Bytes::new(Vec::new(alloc)));
    }
    match read_literal(alloc, text, at)? {
        Some(literal) => Ok(literal.bytes),
        None => Ok(Bytes::new(Vec::new(alloc))),
    }
}

/// The bytes as a slice, each of which is below 256.
fn slice_of(bytes: &Bytes) -> &[u8]
    ensures same { result.now ≡ bytes.now }
    ensures small { IsBytes bytes.now }
{
    let slice = bytes.as_slice();
    slice
}

/// A piece that stands as it is.
fn literal_piece(bytes: Bytes) -> Piece
    ensures piece { result ≡ Piece.Lit bytes }
    ensures bytes { IsBytes bytes }
{
    let _slice = slice_of(&bytes);
    Piece::Lit(bytes)
}

/// Reads a piece of a format.
#[tactic(auto, unfolding(crate::specs::Productions::piece_at))]
pub(crate) fn piece<'p>(
    alloc: Global,
    text: &[u8],
    places: &'p [Place],
) -> Result<(Piece, &'p [Place]), ReadNo>
    requires { length text.now ≤ SMALL_FILE }
    ensures { Finds (λ x. (x.0, toks text.now x.1.now)) result
        (piece_at (toks text.now places.now)) }
{
    match first(text, places) {
        Word::Name(bytes) => match kind_of_word(bytes) {
            Some(kind) => Ok((Piece::Field(kind), others(places))),
            None => Err(refusal(text, places)),
        },
        Word::Literal(at) => {
            let bytes = literal(alloc, text, at)?;
            Ok((literal_piece(bytes), others(places)))
        }
        Word::Quotes => Ok((Piece::Lit(Bytes::new(Vec::new(alloc))), others(places))),
        _ => Err(refusal(text, places)),
    }
}
