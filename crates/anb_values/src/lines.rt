//! The lines of a values text.
ghost use Rattle.std.specs.Prelude.{◌≡◌, ◌≤◌, ◌↔◌, ◌⊎◌, ◌==◌, ◌<◌, ℕ, not, List, ◌∷◌, length, filter, IsTrue, IfOk, IfErr, IfSome, IfNone, MatchOption, Ok, []};
ghost use Rattle.std.specs.List.{before_first};
ghost use Rattle.anb_base.specs.declared.TheConstants.{SMALL_FILE};
ghost use Rattle.hex.specs.Hex.{decode_of};
ghost use Rattle.anb_format.specs.Literals.{IsLiteral};
ghost use Rattle.anb_values.specs.Lines.{is_space, is_edge, is_label_byte, after_leading, before_trailing, content, value_text, IsGiven, IsLabel, IsHex, IsValue, Gives, AreSaid, lines_of, seed_label};
ghost use Rattle.anb_values.specs.Reading.{IsLine, IsFaulty};

use crate::ValuesNo;
use anb_base::{Bytes, NoMemory, Text};
use anb_format::read_literal;
use hex::FromHexError;
use std::alloc::Global;

pub(crate) const SEED: &str = "@seed";

/// The label and the value of a line.
#[derive(Debug, Drop)]
pub(crate) struct Entry {
    pub label: Text,
    pub value: Bytes,
}

/// What a line is.
#[derive(Debug, Drop)]
enum Line {
    PassedOver,
    Entry(Entry),
    Faulty,
}

/// The labels and values of the lines, in order.
pub(crate) fn entries(alloc: Global, text: &[u8]) -> Result<Vec<Entry>, ValuesNo>
    requires { length text.now ≤ SMALL_FILE }
    ensures said { IfOk result (λ entries. AreSaid (lines_of text.now) entries.items) }
    ensures refused { IfErr result (IsFaulty text.now) }
{
    let mut entries = Vec::new(alloc);
    let mut number = 0;
    for line in text.split(|byte| *byte == b'\n') {
        number += 1;
        match read_line(alloc, line)? {
            Line::PassedOver => {}
            Line::Entry(entry) => entries.push(entry)?,
            Line::Faulty => return Err(ValuesNo::Line(number)),
        }
    }
    Ok(entries)
}

fn read_line(alloc: Global, line: &[u8]) -> Result<Line, NoMemory>
    requires { length line.now ≤ SMALL_FILE }
    ensures { IfOk result (IsLine line.now) }
{
    let content = content(line);
    if let [] | [b'#', ..] = content {
        return Ok(Line::PassedOver);
    }
    match read_entry(alloc, content)? {
        Some(entry) => Ok(Line::Entry(entry)),
        None => Ok(Line::Faulty),
    }
}

fn is_space(byte: u8) -> bool
    ensures { result ≡ is_space byte }
{
    byte == b' ' || byte == b'\t'
}

fn is_edge(byte: u8) -> bool
    ensures { result ≡ is_edge byte }
{
    is_space(byte) || byte == b'\r'
}

/// The line without what is dropped at its ends.
fn content(line: &[u8]) -> &[u8]
    ensures { result.now ≡ content line.now }
{
    let start = line.iter().take_while(|byte| is_edge(**byte)).count();
    before_edges(&line[start..])
}

fn before_edges(bytes: &[u8]) -> &[u8]
    ensures { result.now ≡ before_trailing is_edge bytes.now }
{
    let mut kept = bytes;
    while let [rest @ .., last] = kept
        && is_edge(*last)
    {
        kept = rest;
    }
    kept
}

fn after_spaces(bytes: &[u8]) -> &[u8]
    ensures { result.now ≡ after_leading is_space bytes.now }
{
    let start = bytes.iter().take_while(|byte| is_space(**byte)).count();
    &bytes[start..]
}

/// The label and the value of a line with this content.
fn read_entry(alloc: Global, content: &[u8]) -> Result<Option<Entry>, NoMemory>
    requires { length content.now ≤ SMALL_FILE }
    ensures some { IfOk result (λ r. IfSome r (Gives content.now)) }
    ensures none { IfOk result (λ r. IfNone r ((entry : Entry) → Gives content.now entry → ⊥)) }
{
    let Some((label, text)) = sides(content) else {
        return Ok(None);
    };
    let Some(label) = read_label(alloc, label)? else {
        return Ok(None);
    };
    match read_value(alloc, label.as_str(), text)? {
        Some(value) => Ok(Some(Entry { label, value })),
        None => Ok(None),
    }
}

/// What stands before the first `=`, and what stands after it and after spaces.
fn sides(content: &[u8]) -> Option<(&[u8], &[u8])>
    ensures some { IfSome result (λ sides. (sides.0.now ≡ before_first (λ b. b == 61) content.now)
        × (sides.1.now ≡ value_text content.now)) }
    ensures none { IfNone result (value_text content.now ≡ []) }
{
    let equals = content.iter().position(|byte| *byte == b'=')?;
    Some((&content[..equals], after_spaces(&content[equals + 1..])))
}

/// The label that stands there once spaces are dropped, where one does.
fn read_label(alloc: Global, text: &[u8]) -> Result<Option<Text>, NoMemory>
    ensures some { IfOk result (λ r.
        IfSome r (λ label. (label ≡ filter (λ b. not (is_space b)) text.now)
        × (IsLabel label ⊎ (label ≡ seed_label)))) }
    ensures none { IfOk result (λ r.
        IfNone r (IsLabel (filter (λ b. not (is_space b)) text.now)
        ⊎ (filter (λ b. not (is_space b)) text.now ≡ seed_label) → ⊥)) }
{
    let bytes: Vec<u8> = text
        .iter()
        .copied()
        .filter(|byte| !is_space(*byte))
        .collect(alloc)?;
    if !is_label(&bytes) && bytes.as_slice() != SEED.as_bytes() {
        return Ok(None);
    }
    let label = String::from_utf8(bytes).unwrap();
    Ok(Some(Text::new(label)))
}

/// Whether this is a label text: one or more letters, digits, `_`, `(`, `)` and `,`.
pub fn is_label(bytes: &[u8]) -> bool
    ensures { IsTrue result ↔ IsLabel bytes.now }
{
    !bytes.is_empty() && bytes.iter().all(|byte| is_label_byte(*byte))
}

fn is_label_byte(byte: u8) -> bool
    ensures { result ≡ is_label_byte byte }
{
    byte.is_ascii_alphanumeric() || matches!(byte, b'_' | b'(' | b')' | b',')
}

/// The bytes of the value of a line with this label, where the text is one.
fn read_value(alloc: Global, label: &str, text: &[u8]) -> Result<Option<Bytes>, NoMemory>
    requires label { IsLabel label.now ⊎ (label.now ≡ seed_label) }
    requires size { length text.now ≤ SMALL_FILE }
    ensures some { IfOk result (λ r. IfSome r (IsGiven label.now text.now)) }
    ensures none { IfOk result (λ r.
        IfNone r ((bytes : List ℕ) → IsGiven label.now text.now bytes → ⊥)) }
{
    if label == SEED {
        read_seed(alloc, text)
    } else {
        read_bytes(alloc, text)
    }
}

/// The 32 bytes of a seed.
#[tactic(auto, using(crate::proofs::LineLemmas::seed_digits))]
fn read_seed(alloc: Global, text: &[u8]) -> Result<Option<Bytes>, NoMemory>
    ensures some { IfOk result (λ r.
        IfSome r (λ bytes. IsHex text.now bytes × (length bytes ≡ 32))) }
    ensures none { IfOk result (λ r.
        IfNone r ((bytes : List ℕ) → IsHex text.now bytes → length bytes ≡ 32 → ⊥)) }
{
    let Some(digits) = digits_of(text) else {
        return Ok(None);
    };
    if digits.len() != 64 {
        return Ok(None);
    }
    decoded(alloc, digits)
}

/// The bytes of a literal or of digits after `x`.
fn read_bytes(alloc: Global, text: &[u8]) -> Result<Option<Bytes>, NoMemory>
    requires { length text.now ≤ SMALL_FILE }
    ensures some { IfOk result (λ r. IfSome r (IsValue text.now)) }
    ensures none { IfOk result (λ r. IfNone r ((bytes : List ℕ) → IsValue text.now bytes → ⊥)) }
{
    match digits_of(text) {
        Some(digits) => decoded(alloc, digits),
        None => literal(alloc, text),
    }
}

/// What follows the `x` at the front.
fn digits_of(text: &[u8]) -> Option<&[u8]>
    ensures { MatchOption result ((digits : List ℕ) → text.now ≡ 120 ∷ digits
        → ⊥) (λ digits. text.now ≡ 120 ∷ digits.now) }
{
    match text {
        [b'x', digits @ ..] => Some(digits),
        _ => None,
    }
}

/// The bytes that these digits write, two each.
fn decoded(alloc: Global, digits: &[u8]) -> Result<Option<Bytes>, NoMemory>
    ensures some { IfOk result (λ r. IfSome r (λ bytes. decode_of digits.now ≡ Ok bytes)) }
    ensures none { IfOk result (λ r.
        IfNone r ((bytes : List ℕ) → decode_of digits.now ≡ Ok bytes → ⊥)) }
{
    match hex::decode(alloc, digits) {
        Ok(bytes) => Ok(Some(Bytes::new(bytes))),
        Err(FromHexError::OutOfMemory) => Err(NoMemory),
        Err(FromHexError::OddLength)
        | Err(FromHexError::InvalidStringLength)
        | Err(FromHexError::InvalidHexCharacter { .. }) => Ok(None),
    }
}

/// The bytes of a literal, where the whole text is one.
fn literal(alloc: Global, text: &[u8]) -> Result<Option<Bytes>, NoMemory>
    requires { length text.now ≤ SMALL_FILE }
    ensures some { IfOk result (λ r. IfSome r (IsLiteral text.now)) }
    ensures none { IfOk result (λ r. IfNone r ((bytes : List ℕ) → IsLiteral text.now bytes → ⊥)) }
{
    let Some(literal) = read_literal(alloc, text, 0)? else {
        return Ok(None);
    };
    if (literal.end as usize) < text.len() {
        return Ok(None);
    }
    Ok(Some(literal.bytes))
}
