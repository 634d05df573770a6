//! Transcripts from their texts.
ghost use Rattle.std.specs.Prelude.{◌≡◌, ◌<◌, ◌≤◌, ℕ, List, [], ◌∷◌, length, IfOk, IfSome, IfNone, All, Ok};
ghost use Rattle.hex.specs.Hex.{decode_of};
ghost use Rattle.anb_base.specs.declared.TheConstants.{ARRIVAL, LARGE_FILE};
ghost use Rattle.anb_transcript.specs.Replays.{arrivals_of};
ghost use Rattle.anb_transcript.specs.Texts.{Says, Reads, lines_of};

use crate::transcript::{Transcript, TranscriptLine, TranscriptNo};
use anb_base::{ARRIVAL, Bytes, NoMemory};
use hex::FromHexError;
use std::alloc::Global;

/// Reads a transcript. Its lines are ended by LF, which the last may lack.
pub fn read_transcript(alloc: Global, text: &[u8]) -> Result<Transcript, TranscriptNo>
    requires { length text.now ≤ LARGE_FILE }
    ensures reads { Reads text.now result }
    ensures few { IfOk result (λ transcript. length transcript ≤ length text.now) }
    ensures arrivals { IfOk result (λ transcript.
        All (λ arrival. length arrival ≤ ARRIVAL) (arrivals_of transcript)) }
{
    let mut lines = Vec::new(alloc);
    let mut rest = text;
    while let Some((line, after)) = first_line(rest) {
        match read_line(alloc, line)? {
            Some(line) => lines.push(line)?,
            None => return Err(TranscriptNo::Line(lines.len() as u32 + 1)),
        }
        rest = after;
    }
    Ok(Transcript::new(lines))
}

/// The first line without its end, and what stands behind it.
fn first_line(text: &[u8]) -> Option<(&[u8], &[u8])>
    ensures some { IfSome result (λ parts. lines_of text.now ≡ parts.0.now ∷ lines_of parts.1.now) }
    ensures less { IfSome result (λ parts. length parts.1.now < length text.now) }
    ensures none { IfNone result (text.now ≡ []) }
{
    if text.is_empty() {
        return None;
    }
    match text.iter().position(|byte| *byte == b'\n') {
        Some(end) => Some((&text[..end], &text[end + 1..])),
        None => Some((text, &text[text.len()..])),
    }
}

/// What a line says, where it is of the grammar.
fn read_line(alloc: Global, line: &[u8]) -> Result<Option<TranscriptLine>, NoMemory>
    ensures some { IfOk result (λ r. IfSome r (Says line.now)) }
    ensures none { IfOk result (λ r. IfNone r ((said : TranscriptLine) → Says line.now said → ⊥)) }
{
    match line {
        [b'<', b' ', digits @ ..] => arrival(alloc, digits),
        [b'>', b' ', digits @ ..] => message(alloc, digits),
        _ => Ok(None),
    }
}

/// The arrival of these digits, which has at most [`ARRIVAL`] bytes.
fn arrival(alloc: Global, digits: &[u8]) -> Result<Option<TranscriptLine>, NoMemory>
    ensures some { IfOk result (λ r. IfSome r (Says (60 ∷ 32 ∷ digits.now))) }
    ensures none { IfOk result (λ r.
        IfNone r ((said : TranscriptLine) → Says (60 ∷ 32 ∷ digits.now) said → ⊥)) }
{
    let Some(bytes) = decoded(alloc, digits)? else {
        return Ok(None);
    };
    if bytes.as_slice().len() > ARRIVAL as usize {
        return Ok(None);
    }
    Ok(Some(TranscriptLine::In(bytes)))
}

/// The message of these digits.
fn message(alloc: Global, digits: &[u8]) -> Result<Option<TranscriptLine>, NoMemory>
    ensures some { IfOk result (λ r. IfSome r (Says (62 ∷ 32 ∷ digits.now))) }
    ensures none { IfOk result (λ r.
        IfNone r ((said : TranscriptLine) → Says (62 ∷ 32 ∷ digits.now) said → ⊥)) }
{
    match decoded(alloc, digits)? {
        Some(bytes) => Ok(Some(TranscriptLine::Out(bytes))),
        None => Ok(None),
    }
}

/// The bytes that these digits write, two each.
fn decoded(alloc: Global, digits: &[u8]) -> Result<Option<Bytes>, NoMemory>
    ensures some { IfOk result (λ r. IfSome r (λ bytes. decode_of digits.now ≡ Ok bytes)) }
    ensures none { IfOk result (λ r.
        IfNone r ((bytes : List ℕ) → decode_of digits.now ≡ Ok bytes → ⊥)) }
{
    match hex::decode(alloc, digits) {
        Ok(bytes) => Ok(Some(Bytes::new(bytes))),
        Err(FromHexError::OutOfMemory) => Err(NoMemory),
        Err(FromHexError::OddLength)
        | Err(FromHexError::InvalidStringLength)
        | Err(FromHexError::InvalidHexCharacter { .. }) => Ok(None),
    }
}
