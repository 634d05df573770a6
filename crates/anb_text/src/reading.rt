//! The words of a line.
ghost use Rattle.std.specs.Prelude.{◌≡◌, ◌≤◌, ◌<◌, ◌^◌, ◌==◌, ◌++◌, ◌∷◌, [], ℕ, List, true, length, position, codes, decimal, MatchOption, IfOk, IfSome, IfNone};
ghost use Rattle.std.specs.List.{AllByRecursion, flat_map};
ghost use Rattle.std.specs.Option.{option_map};
ghost use Rattle.std.specs.Str.{bytes_eq};
ghost use Rattle.anb_base.specs.declared.TheConstants.{LARGE_FILE};
ghost use Rattle.anb_base.specs.Bytes.{IsBytes};
ghost use Rattle.anb_format.specs.Formats.{FormatValue, IsBytesPiece};
ghost use Rattle.anb_format.specs.Literals.{canonical_literal};
ghost use Rattle.anb_syntax.specs.Words.{is_name, kind_word};
ghost use Rattle.anb_text.specs.Lines.{IsFormat, IsLine, line_bytes, spaced_piece};
ghost use Rattle.anb_text.specs.Reading.{IsEnd, IsWord, after_equals, counts_are, ended_front, front_of, head_of, instr_of, is_label, line_of, named, named_if, number_of, operation, option_name, register_of, texts, version_of, what_of, words_of};

use crate::lines::{Line, Version};
use anb_base::{Bytes, NoMemory, Text};
use anb_code::{RawFormat, RawInstr, What};
use anb_format::{FieldKind, Piece, literal_text, read_literal};
use anb_syntax::{is_name, kind_of_word, name_text, suite_of_word};
use anb_values::is_label;
use std::alloc::{AllocError, Global};

/// Reads a line, without the byte 0A that ends it.
pub(crate) fn read_line(alloc: Global, line: &[u8]) -> Result<Option<Line>, NoMemory>
    requires size { length line.now ≤ LARGE_FILE }
    ensures some { IfOk result (λ r. IfSome r (λ l. IsLine l × (line.now ≡ line_bytes l))) }
    ensures none { IfOk result (λ r.
        IfNone r ((l : Line) → IsLine l → line.now ≡ line_bytes l → ⊥)) }
{
    if let Some(format) = after_prefix(b"format ", line) {
        return match read_format(alloc, format)? {
            Some(format) => Ok(Some(Line::Format(format))),
            None => Ok(None),
        };
    }
    let words = words(alloc, line)?;
    read_words(alloc, &words)
}

fn is_same(a: &[u8], b: &[u8]) -> bool
    ensures { result ≡ bytes_eq a.now b.now }
{
    a == b
}

/// What follows these bytes, where they stand at the front.
fn after_prefix<'t>(prefix: &[u8], text: &'t [u8]) -> Option<&'t [u8]>
    ensures { MatchOption result ((rest : List ℕ) → text.now ≡ prefix.now ++ rest
        → ⊥) (λ rest. text.now ≡ prefix.now ++ rest.now) }
{
    text.strip_prefix(prefix)
}

/// The words of a line, with a space between each two.
fn words(alloc: Global, line: &[u8]) -> Result<Vec<&[u8]>, AllocError>
    ensures { IfOk result (λ words. texts words.items ≡ words_of line.now) }
{
    line.split(|byte| *byte == b' ').collect(alloc)
}

/// Reads the words of a line that is no format line.
fn read_words(alloc: Global, words: &[&[u8]]) -> Result<Option<Line>, NoMemory>
    ensures { IfOk result (λ r. r ≡ line_of (texts words.now)) }
{
    if let Some(line) = read_head(alloc, words)? {
        return Ok(Some(line));
    }
    match read_instr(alloc, words)? {
        Some(instr) => Ok(Some(Line::Instr(instr))),
        None => Ok(None),
    }
}

/// Reads a line of one word, or of two of which the first says its kind.
#[tactic(auto, unfolding(crate::specs::Reading::head_of))]
fn read_head(alloc: Global, words: &[&[u8]]) -> Result<Option<Line>, NoMemory>
    ensures { IfOk result (λ r. r ≡ head_of (texts words.now)) }
{
    match words {
        [] => Ok(None),
        [word] => Ok(read_single(word)),
        [word, value] => read_pair(alloc, word, value),
        [_, _, _, ..] => Ok(None),
    }
}

#[tactic(auto, unfolding(crate::specs::Reading::head_of))]
fn read_single(word: &[u8]) -> Option<Line>
    ensures { result ≡ head_of (word.now ∷ []) }
{
    if is_same(b"code", word) {
        Some(Line::Code)
    } else if is_same(b"end", word) {
        Some(Line::End)
    } else {
        None
    }
}

#[tactic(auto, unfolding(crate::specs::Reading::head_of))]
fn read_pair(alloc: Global, word: &[u8], value: &[u8]) -> Result<Option<Line>, NoMemory>
    ensures { IfOk result (λ r. r ≡ head_of (word.now ∷ value.now ∷ [])) }
{
    if is_same(b"anb-role", word) {
        Ok(read_version(value).map(Line::Version))
    } else if is_same(b"protocol", word) {
        Ok(read_name(alloc, value)?.map(Line::Protocol))
    } else if is_same(b"role", word) {
        Ok(read_name(alloc, value)?.map(Line::Role))
    } else if is_same(b"suite", word) {
        Ok(suite_of_word(value).map(Line::Suite))
    } else {
        Ok(None)
    }
}

fn read_version(word: &[u8]) -> Option<Version>
    ensures { result ≡ version_of word.now }
{
    if is_same(b"1", word) {
        Some(Version::One)
    } else if is_same(b"2", word) {
        Some(Version::Two)
    } else {
        None
    }
}

fn read_name(alloc: Global, word: &[u8]) -> Result<Option<Text>, NoMemory>
    ensures { IfOk result (λ r. r ≡ option_name word.now) }
{
    if is_name(word) {
        Ok(Some(name_text(alloc, word)?))
    } else {
        Ok(None)
    }
}

/// Reads the words of an instruction.
#[tactic(auto, unfolding(crate::specs::Reading::instr_of))]
fn read_instr(alloc: Global, words: &[&[u8]]) -> Result<Option<RawInstr>, NoMemory>
    ensures { IfOk result (λ r. r ≡ instr_of (texts words.now)) }
{
    let (to, rest) = read_registers(alloc, words)?;
    let Some(operation) = after_equals(&to, rest) else {
        return Ok(None);
    };
    read_operation(alloc, to, operation)
}

/// The words behind the registers that are written: `=` stands there, unless there are none.
fn after_equals<'w, 't>(to: &[u32], words: &'w [&'t [u8]]) -> Option<&'w [&'t [u8]]>
    ensures { option_map (λ rest. texts rest.now) result ≡ after_equals to.now (texts words.now) }
{
    if to.is_empty() {
        return Some(words);
    }
    match words {
        [word, rest @ ..] => {
            if is_same(b"=", word) {
                Some(rest)
            } else {
                None
            }
        }
        [] => None,
    }
}

/// Reads an instruction that writes these registers, from the word for what it does.
#[tactic(auto, unfolding(crate::specs::Reading::operation))]
fn read_operation(
    alloc: Global,
    to: Vec<u32>,
    words: &[&[u8]],
) -> Result<Option<RawInstr>, NoMemory>
    ensures { IfOk result (λ r. r ≡ operation to.items (texts words.now)) }
{
    let [word, rest @ ..] = words else {
        return Ok(None);
    };
    let Some(what) = what_of(word) else {
        return Ok(None);
    };
    let Some((name, rest)) = read_name_for(alloc, what, rest)? else {
        return Ok(None);
    };
    let Some(args) = read_operands(alloc, rest)? else {
        return Ok(None);
    };
    if !has_counts(what, to.len(), args.len()) {
        return Ok(None);
    }
    Ok(Some(RawInstr {
        to,
        what,
        name,
        args,
    }))
}

fn what_of(word: &[u8]) -> Option<What>
    ensures { result ≡ what_of word.now }
{
    if is_same(b"take", word) {
        Some(What::Take)
    } else if is_same(b"fresh", word) {
        Some(What::Fresh)
    } else if is_same(b"recv", word) {
        Some(What::Recv)
    } else if is_same(b"hash", word) {
        Some(What::Hash)
    } else if is_same(b"mac", word) {
        Some(What::Mac)
    } else if is_same(b"seal", word) {
        Some(What::Seal)
    } else if is_same(b"unseal", word) {
        Some(What::Unseal)
    } else if is_same(b"wrap", word) {
        Some(What::Wrap)
    } else if is_same(b"unwrap", word) {
        Some(What::Unwrap)
    } else if is_same(b"build", word) {
        Some(What::Build)
    } else if is_same(b"parse", word) {
        Some(What::Parse)
    } else if is_same(b"equal", word) {
        Some(What::Equal)
    } else if is_same(b"send", word) {
        Some(What::Send)
    } else {
        None
    }
}

/// Whether an instruction may write and read so many registers.
fn has_counts(what: What, to: usize, args: usize) -> bool
    ensures { result ≡ counts_are what to args }
{
    match what {
        What::Take | What::Fresh | What::Recv => to == 1 && args == 0,
        What::Hash => to == 1 && args == 1,
        What::Mac | What::Seal | What::Unseal => to == 1 && args == 2,
        What::Wrap | What::Unwrap => to == 1 && args == 3,
        What::Build => to == 1,
        What::Parse => args == 1,
        What::Equal => to == 0 && args == 2,
        What::Send => to == 0 && args == 1,
    }
}

/// The name that stands behind the word for what an instruction does, and the words that follow.
fn read_name_for<'w, 't>(
    alloc: Global,
    what: What,
    words: &'w [&'t [u8]],
) -> Result<Option<(Text, &'w [&'t [u8]])>, NoMemory>
    ensures { IfOk result (λ r.
        option_map (λ x. record { name = x.0; rest = texts x.1.now }) r
        ≡ named what (texts words.now)) }
{
    match what {
        What::Take => read_label(alloc, words),
        What::Build | What::Parse => read_format_name(alloc, words),
        _ => Ok(Some((Text::new(String::new(alloc)), words))),
    }
}

fn read_label<'w, 't>(
    alloc: Global,
    words: &'w [&'t [u8]],
) -> Result<Option<(Text, &'w [&'t [u8]])>, NoMemory>
    ensures { IfOk result (λ r.
        option_map (λ x. record { name = x.0; rest = texts x.1.now }) r
        ≡ named_if is_label (texts words.now)) }
{
    let [word, rest @ ..] = words else {
        return Ok(None);
    };
    if !is_some_label(word) {
        return Ok(None);
    }
    Ok(Some((label_text(alloc, word)?, rest)))
}

fn is_some_label(word: &[u8]) -> bool
    ensures { result ≡ is_label word.now }
{
    is_label(word)
}

/// A label text as a text.
fn label_text(alloc: Global, label: &[u8]) -> Result<Text, NoMemory>
    requires { is_label label.now ≡ true }
    ensures { IfOk result (λ text. text ≡ label.now) }
{
    Ok(Text::new(String::from_utf8_lossy(alloc, label)?))
}

fn read_format_name<'w, 't>(
    alloc: Global,
    words: &'w [&'t [u8]],
) -> Result<Option<(Text, &'w [&'t [u8]])>, NoMemory>
    ensures { IfOk result (λ r.
        option_map (λ x. record { name = x.0; rest = texts x.1.now }) r
        ≡ named_if is_name (texts words.now)) }
{
    let [word, rest @ ..] = words else {
        return Ok(None);
    };
    match read_name(alloc, word)? {
        Some(name) => Ok(Some((name, rest))),
        None => Ok(None),
    }
}

/// The registers that are all of the words.
fn read_operands(alloc: Global, words: &[&[u8]]) -> Result<Option<Vec<u32>>, NoMemory>
    ensures { IfOk result (λ r.
        option_map (λ args. args.items) r ≡ ended_front (front_of (texts words.now))) }
{
    let (registers, rest) = read_registers(alloc, words)?;
    if rest.is_empty() {
        Ok(Some(registers))
    } else {
        Ok(None)
    }
}

/// The number below 2^32 that is written so.
fn read_number(digits: &[u8]) -> Option<u32>
    ensures { result ≡ number_of digits.now }
{
    let number = parsed(digits)?;
    let mut buffer = itoa::Buffer::new();
    if is_same(buffer.format(number).as_bytes(), digits) {
        Some(number)
    } else {
        None
    }
}

/// A number, which is the one that is written so where one is.
fn parsed(digits: &[u8]) -> Option<u32>
    ensures again { (n : ℕ) → n < 2 ^ 32 → digits.now ≡ decimal n → result ≡ Some n }
{
    match std::str::from_utf8(digits) {
        Ok(text) => text.parse::<u32>().ok(),
        Err(_) => None,
    }
}

fn read_register(word: &[u8]) -> Option<u32>
    ensures { result ≡ register_of word.now }
{
    match word {
        [b'r', digits @ ..] => read_number(digits),
        _ => None,
    }
}

/// The registers at the front, as many as stand there, and the words that follow.
fn read_registers<'w, 't>(
    alloc: Global,
    words: &'w [&'t [u8]],
) -> Result<(Vec<u32>, &'w [&'t [u8]]), NoMemory>
    ensures registers { IfOk result (λ r. r.0.items ≡ (front_of (texts words.now)).registers) }
    ensures rest { IfOk result (λ r. texts r.1.now ≡ (front_of (texts words.now)).rest) }
{
    let mut registers = Vec::new(alloc);
    for word in words {
        let Some(register) = read_register(word) else {
            break;
        };
        registers.push(register)?;
    }
    let rest = &words[registers.len()..];
    Ok((registers, rest))
}

/// Reads what follows the word for a format line.
fn read_format(alloc: Global, text: &[u8]) -> Result<Option<RawFormat>, NoMemory>
    requires size { length text.now ≤ LARGE_FILE }
    ensures some { IfOk result (λ r.
        IfSome r (λ f. IsFormat f × (text.now ≡ f.name ++ flat_map spaced_piece f.pieces))) }
    ensures none { IfOk result (λ r.
        IfNone r ((f : FormatValue) → IsFormat f
        → text.now ≡ f.name ++ flat_map spaced_piece f.pieces → ⊥)) }
{
    let (word, rest) = first_word(text);
    let Some(name) = read_name(alloc, word)? else {
        return Ok(None);
    };
    let Some(pieces) = read_pieces(alloc, rest)? else {
        return Ok(None);
    };
    if pieces.is_empty() {
        return Ok(None);
    }
    Ok(Some(RawFormat { name, pieces }))
}

/// What stands before the first space, and the rest from there on.
fn first_word(text: &[u8]) -> (&[u8], &[u8])
    ensures stands { text.now ≡ result.0.now ++ result.1.now }
    ensures word { IsWord result.0.now }
    ensures end { IsEnd result.1.now }
{
    match first_space(text) {
        Some(at) => text.split_at(at),
        None => text.split_at(text.len()),
    }
}

fn first_space(text: &[u8]) -> Option<usize>
    ensures { result ≡ position (λ b. b == 32) text.now }
{
    text.iter().position(|byte| *byte == b' ')
}

/// Reads pieces up to the end, each behind a space.
fn read_pieces(alloc: Global, text: &[u8]) -> Result<Option<Vec<Piece>>, NoMemory>
    requires size { length text.now ≤ LARGE_FILE }
    ensures some { IfOk result (λ r.
        IfSome r (λ pieces. AllByRecursion IsBytesPiece pieces.items
        × (text.now ≡ flat_map spaced_piece pieces.items))) }
    ensures none { IfOk result (λ r.
        IfNone r ((pieces : List Piece) → AllByRecursion IsBytesPiece pieces
        → text.now ≡ flat_map spaced_piece pieces → ⊥)) }
{
    let mut pieces = Vec::new(alloc);
    let mut rest = text;
    while !rest.is_empty() {
        let Some((piece, after)) = read_piece(alloc, rest)? else {
            return Ok(None);
        };
        pieces.push(piece)?;
        rest = after;
    }
    Ok(Some(pieces))
}

/// The piece at the front, behind a space, and what follows it.
fn read_piece(alloc: Global, text: &[u8]) -> Result<Option<(Piece, &[u8])>, NoMemory>
    requires size { length text.now ≤ LARGE_FILE }
    ensures some { IfOk result (λ r.
        IfSome r (λ x. IsBytesPiece x.0 × (text.now ≡ spaced_piece x.0 ++ x.1.now))) }
    ensures none { IfOk result (λ r.
        IfNone r ((piece : Piece) (rest : List ℕ) → IsBytesPiece piece → IsEnd rest
        → text.now ≡ spaced_piece piece ++ rest → ⊥)) }
{
    match text {
        [b' ', b'"', ..] => read_quoted(alloc, &text[1..]),
        [b' ', word @ ..] => Ok(read_field(word)),
        _ => Ok(None),
    }
}

/// The canonical literal at the front, and what follows it.
fn read_quoted(alloc: Global, text: &[u8]) -> Result<Option<(Piece, &[u8])>, NoMemory>
    requires size { length text.now ≤ LARGE_FILE }
    ensures some { IfOk result (λ r.
        IfSome r (λ x. IsBytesPiece x.0 × (32 ∷ text.now ≡ spaced_piece x.0 ++ x.1.now))) }
    ensures none { IfOk result (λ r.
        IfNone r ((bytes rest : List ℕ) → IsBytes bytes → text.now ≡ canonical_literal bytes ++ rest
        → ⊥)) }
{
    let Some(literal) = read_literal(alloc, text, 0)? else {
        return Ok(None);
    };
    let written = canonical(alloc, literal.bytes.as_slice())?;
    match after_prefix(written.as_slice(), text) {
        Some(rest) => Ok(Some((Piece::Lit(literal.bytes), rest))),
        None => Ok(None),
    }
}

/// The canonical literal of the bytes. Contracts then know that these are bytes.
fn canonical(alloc: Global, bytes: &[u8]) -> Result<Bytes, NoMemory>
    ensures text { IfOk result (λ text. text ≡ canonical_literal bytes.now) }
    ensures bytes { IsBytes bytes.now }
{
    literal_text(alloc, bytes)
}

/// The kind of field at the front, and what follows it.
fn read_field(text: &[u8]) -> Option<(Piece, &[u8])>
    ensures some { IfSome result (λ x. IsBytesPiece x.0
        × (32 ∷ text.now ≡ spaced_piece x.0 ++ x.1.now)) }
    ensures none { IfNone result ((kind : FieldKind) (rest : List ℕ) → IsEnd rest
        → text.now ≡ kind_word kind ++ rest → ⊥) }
{
    let (word, rest) = first_word(text);
    let kind = kind_of_word(word)?;
    Some((Piece::Field(kind), rest))
}
