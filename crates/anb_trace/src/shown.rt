//! Bytes that are due and bytes that are there, in words.
ghost use Rattle.std.specs.Prelude.{◌≡◌, ◌++◌, [], IfOk, OnOk, codes, decimal};
ghost use Rattle.hex.specs.Hex.{encode_lower};
ghost use Rattle.anb_trace.specs.Misfits.{all_shown, at_byte, count_text, count_there, due, shown};

use crate::values::put_hex;
use anb_base::NoMemory;
use itoa::Buffer;
use std::alloc::Global;

/// Appends that something is due at a place, where something else is.
pub(crate) fn put_due(
    out: &mut Vec<u8>,
    place: usize,
    what: &[u8],
    there: &[u8],
) -> Result<(), NoMemory>
    ensures { OnOk result (out.new.items ≡ out.old.items ++ at_byte place (due what.now there.now)) }
{
    put_place(out, place)?;
    out.extend_from_slice(what)?;
    out.extend_from_slice(b" is due, ")?;
    out.extend_from_slice(there)?;
    out.extend_from_slice(b" is there")?;
    Ok(())
}

/// Appends a place, with a space behind.
fn put_place(out: &mut Vec<u8>, place: usize) -> Result<(), NoMemory>
    ensures { OnOk result (out.new.items ≡ out.old.items ++ at_byte place []) }
{
    let mut buffer = Buffer::new();
    out.extend_from_slice(b"at byte ")?;
    out.extend_from_slice(buffer.format(place).as_bytes())?;
    out.push(b' ')?;
    Ok(())
}

/// Appends that a field at a place is said to have so many bytes, where fewer are.
pub(crate) fn put_lacking(
    out: &mut Vec<u8>,
    place: usize,
    field: usize,
    length: usize,
    there: usize,
) -> Result<(), NoMemory>
    ensures { OnOk result (out.new.items ≡ out.old.items ++ at_byte place (codes "field "
        ++ (decimal field ++ (codes " has the length " ++ (decimal length
        ++ (codes ", " ++ count_there there)))))) }
{
    put_place(out, place)?;
    put_number(out, b"field ", field)?;
    put_number(out, b" has the length ", length)?;
    out.extend_from_slice(b", ")?;
    put_count_there(out, there)
}

/// Appends that so many bytes are there.
fn put_count_there(out: &mut Vec<u8>, there: usize) -> Result<(), NoMemory>
    ensures { OnOk result (out.new.items ≡ out.old.items ++ count_there there) }
{
    put_count(out, there)?;
    let verb: &[u8] = if there == 1 {
        b" is there"
    } else {
        b" are there"
    };
    out.extend_from_slice(verb)?;
    Ok(())
}

/// Appends words and a number.
fn put_number(out: &mut Vec<u8>, words: &[u8], number: usize) -> Result<(), NoMemory>
    ensures { OnOk result (out.new.items ≡ out.old.items ++ (words.now ++ decimal number)) }
{
    let mut buffer = Buffer::new();
    out.extend_from_slice(words)?;
    out.extend_from_slice(buffer.format(number).as_bytes())?;
    Ok(())
}

/// Appends a number of bytes.
pub(crate) fn put_count(out: &mut Vec<u8>, count: usize) -> Result<(), NoMemory>
    ensures { OnOk result (out.new.items ≡ out.old.items ++ count_text count) }
{
    put_number(out, b"", count)?;
    let unit: &[u8] = if count == 1 { b" byte" } else { b" bytes" };
    out.extend_from_slice(unit)?;
    Ok(())
}

/// What is said of a literal that is due.
pub(crate) fn literal_text(alloc: Global, text: &[u8]) -> Result<Vec<u8>, NoMemory>
    ensures { IfOk result (λ words. words.items ≡ codes "the literal " ++ encode_lower text.now) }
{
    let mut words = Vec::from_slice(alloc, b"the literal ")?;
    put_hex(alloc, &mut words, text)?;
    Ok(words)
}

/// Bytes in hexadecimal, all of them.
pub(crate) fn all_shown(alloc: Global, bytes: &[u8]) -> Result<Vec<u8>, NoMemory>
    ensures { IfOk result (λ words. words.items ≡ all_shown bytes.now) }
{
    let mut words = Vec::new(alloc);
    match bytes {
        [] => words.extend_from_slice(b"nothing")?,
        _ => put_hex(alloc, &mut words, bytes)?,
    }
    Ok(words)
}

/// The first sixteen bytes in hexadecimal.
pub(crate) fn shown(alloc: Global, bytes: &[u8]) -> Result<Vec<u8>, NoMemory>
    ensures { IfOk result (λ words. words.items ≡ shown bytes.now) }
{
    if bytes.len() <= 16 {
        return all_shown(alloc, bytes);
    }
    let mut words = Vec::new(alloc);
    put_hex(alloc, &mut words, &bytes[..16])?;
    words.extend_from_slice(b"..")?;
    Ok(words)
}
