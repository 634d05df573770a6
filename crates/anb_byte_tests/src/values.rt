//! Bytes that a test names by a short text.
ghost use Rattle.std.specs.Prelude.{◌≡◌, IfOk, length, vec_len};

use anb_base::{Bytes, NoMemory};
use std::alloc::Global;

/// The bytes that a text stands for: behind `0x` hexadecimal digits, or the digits of one byte and
/// how often it stands, as in `0x0b*20`; and else the text itself.
pub(crate) fn bytes_of(alloc: Global, text: &str) -> Result<Bytes, NoMemory> {
    let Some(digits) = text.strip_prefix("0x") else {
        return Ok(Bytes::new(Vec::from_slice(alloc, text.as_bytes())?));
    };
    match digits.split_once('*') {
        None => decoded(alloc, digits),
        Some((byte, count)) => repeated(alloc, byte, count),
    }
}

fn decoded(alloc: Global, digits: &str) -> Result<Bytes, NoMemory> {
    match hex::decode(alloc, digits.as_bytes()) {
        Ok(bytes) => Ok(Bytes::new(bytes)),
        Err(_) => Err(NoMemory),
    }
}

fn repeated(alloc: Global, byte: &str, count: &str) -> Result<Bytes, NoMemory> {
    let byte = decoded(alloc, byte)?;
    let mut bytes = Vec::new(alloc);
    for _ in 0..count.parse::<u32>().unwrap_or(0) {
        bytes.extend_from_slice(byte.as_slice())?;
    }
    Ok(Bytes::new(bytes))
}

/// The bytes that each text stands for.
pub(crate) fn table(alloc: Global, texts: &[&str]) -> Result<Vec<Bytes>, NoMemory>
    ensures { IfOk result (λ table. vec_len table ≡ length texts.now) }
{
    let mut table = Vec::new(alloc);
    for text in texts {
        let bytes = bytes_of(alloc, text)?;
        table.push(bytes)?;
    }
    Ok(table)
}

/// Whether the bytes are those that a text stands for.
pub(crate) fn are(alloc: Global, bytes: &[u8], text: &str) -> Result<bool, NoMemory> {
    let expected = bytes_of(alloc, text)?;
    Ok(expected.as_slice() == bytes)
}

/// Whether there are bytes exactly where there is a text, and are those that it stands for.
pub(crate) fn may_be(
    alloc: Global,
    bytes: &Option<Bytes>,
    text: Option<&str>,
) -> Result<bool, NoMemory> {
    match text {
        None => Ok(bytes.is_none()),
        Some(text) => match bytes {
            None => Ok(false),
            Some(bytes) => are(alloc, bytes.as_slice(), text),
        },
    }
}

/// Whether there are parts, and are those that the texts stand for.
pub(crate) fn are_parts(
    alloc: Global,
    parts: &Option<Vec<Bytes>>,
    texts: &[&str],
) -> Result<bool, NoMemory> {
    match parts {
        None => Ok(false),
        Some(parts) => {
            let expected = table(alloc, texts)?;
            Ok(same(parts, &expected))
        }
    }
}

fn same(parts: &[Bytes], expected: &[Bytes]) -> bool {
    parts.len() == expected.len()
        && parts
            .iter()
            .zip(expected)
            .all(|(part, bytes)| part.as_slice() == bytes.as_slice())
}
