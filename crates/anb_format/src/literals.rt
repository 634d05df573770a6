//! Literals of narrations: read, and written in one way.
ghost use Rattle.std.specs.Prelude.{◌≡◌, ◌≤◌, ◌<◌, ◌+◌, ℕ, List, ◌∷◌, ◌++◌, length, drop, MatchOption, IfOk, OnOk, IfSome, IfNone, IsSomeAnd};
ghost use Rattle.anb_base.specs.Bytes.{IsBytes};
ghost use Rattle.anb_base.specs.declared.TheConstants.{LARGE_FILE};
ghost use Rattle.hex.specs.Hex.{hex_digit_value};
ghost use Rattle.anb_format.specs.Literals.{AreCharactersAt, BeginsNoCharacter, IsCharacterAt, IsLiteralAt, canonical_literal, canonical_spelling};

use anb_base::{Bytes, NoMemory};
use std::alloc::Global;

const LOWER_DIGITS: [u8; 16] = *b"0123456789abcdef";

/// A literal that was read: its bytes, and the offset after it.
#[derive(Debug, Drop)]
pub struct Literal {
    pub bytes: Bytes,
    pub end: u32,
}

/// Reads the literal that begins at this offset, where one does. A literal is `"`, then characters,
/// then `"`. A character is a byte from 20 to 7E other than `"` and `\`, which stands for itself, or
/// `\"`, `\\`, or `\x` with two hexadecimal digits of either case.
pub fn read_literal(alloc: Global, text: &[u8], from: u32) -> Result<Option<Literal>, NoMemory>
    requires from { from ≤ length text.now }
    requires size { length text.now ≤ LARGE_FILE }
    ensures some { IfOk result (λ r.
        IfSome r (λ literal. IsLiteralAt text.now from literal.bytes literal.end)) }
    ensures none { IfOk result (λ r.
        IfNone r ((bytes : List ℕ) (end : ℕ) → IsLiteralAt text.now from bytes end → ⊥)) }
    ensures canonical { (bytes rest : List ℕ) → IsBytes bytes
        → drop from text.now ≡ canonical_literal bytes ++ rest
        → IfOk result (λ r. IsSomeAnd r (λ literal. (literal.bytes ≡ bytes)
        × (literal.end ≡ from + length (canonical_literal bytes)))) }
{
    let Some(body) = after_quote(&text[from as usize..]) else {
        return Ok(None);
    };
    let (bytes, rest) = characters(alloc, body)?;
    let Some(after) = after_quote(rest) else {
        return Ok(None);
    };
    let end = (text.len() - after.len()) as u32;
    Ok(Some(Literal {
        bytes: Bytes::new(bytes),
        end,
    }))
}

/// What follows the quote at the front.
fn after_quote(text: &[u8]) -> Option<&[u8]>
    ensures { MatchOption result ((rest : List ℕ) → text.now ≡ 34 ∷ rest
        → ⊥) (λ rest. text.now ≡ 34 ∷ rest.now) }
{
    match text {
        [b'"', rest @ ..] => Some(rest),
        _ => None,
    }
}

/// The bytes of the characters at the front, as many as stand there, and what follows them.
fn characters(alloc: Global, text: &[u8]) -> Result<(Vec<u8>, &[u8]), NoMemory>
    ensures bytes { IfOk result (λ r. AreCharactersAt text.now r.0.items r.1.now) }
    ensures all { IfOk result (λ r. BeginsNoCharacter r.1.now) }
{
    let mut bytes = Vec::new(alloc);
    let mut rest = text;
    while let Some((byte, after)) = character(rest) {
        bytes.push(byte)?;
        rest = after;
    }
    Ok((bytes, rest))
}

/// The byte of the character at the front, and what follows it.
fn character(text: &[u8]) -> Option<(u8, &[u8])>
    ensures some { IfSome result (λ r. IsCharacterAt text.now r.0 r.1.now) }
    ensures none { IfNone result (BeginsNoCharacter text.now) }
{
    match text {
        [b'\\', rest @ ..] => escaped(rest),
        [b'"', ..] => None,
        [byte @ b' '..=b'~', rest @ ..] => Some((*byte, rest)),
        _ => None,
    }
}

/// The same of a character whose `\` was read.
fn escaped(text: &[u8]) -> Option<(u8, &[u8])>
    ensures some { IfSome result (λ r. IsCharacterAt (92 ∷ text.now) r.0 r.1.now) }
    ensures none { IfNone result (BeginsNoCharacter (92 ∷ text.now)) }
{
    match text {
        [b'"', rest @ ..] => Some((b'"', rest)),
        [b'\\', rest @ ..] => Some((b'\\', rest)),
        [b'x', high, low, rest @ ..] => {
            let byte = hex_digit(*high)? * 16 + hex_digit(*low)?;
            Some((byte, rest))
        }
        _ => None,
    }
}

/// The value of a hexadecimal digit of either case.
fn hex_digit(digit: u8) -> Option<u8>
    ensures value { result ≡ hex_digit_value digit }
    ensures small { IfSome result (λ value. value < 16) }
{
    match digit {
        b'0'..=b'9' => Some(digit - b'0'),
        b'a'..=b'f' => Some(digit - b'a' + 10),
        b'A'..=b'F' => Some(digit - b'A' + 10),
        _ => None,
    }
}

/// The canonical literal of the bytes: those from 20 to 7E as themselves, but `\"` and `\\`, and
/// every other as `\x` with two lower-case digits.
pub fn literal_text(alloc: Global, bytes: &[u8]) -> Result<Bytes, NoMemory>
    ensures { IfOk result (λ text. text ≡ canonical_literal bytes.now) }
{
    let mut text = Vec::new(alloc);
    text.push(b'"')?;
    for byte in bytes {
        put_character(&mut text, *byte)?;
    }
    text.push(b'"')?;
    Ok(Bytes::new(text))
}

/// Appends the byte as a canonical literal writes it.
fn put_character(text: &mut Vec<u8>, byte: u8) -> Result<(), NoMemory>
    ensures { OnOk result (text.new.items ≡ text.old.items ++ canonical_spelling byte) }
{
    match byte {
        b'"' => text.extend_from_slice(b"\\\"")?,
        b'\\' => text.extend_from_slice(b"\\\\")?,
        b' '..=b'~' => text.push(byte)?,
        _ => {
            text.extend_from_slice(b"\\x")?;
            text.push(LOWER_DIGITS[byte as usize / 16])?;
            text.push(LOWER_DIGITS[byte as usize % 16])?;
        }
    }
    Ok(())
}
