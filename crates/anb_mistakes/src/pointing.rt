//! Messages at places of a text.
ghost use Rattle.std.specs.Prelude.{◌≡◌, ◌+◌, ◌-◌, ◌≤◌, ◌++◌, IfOk, OnOk, length, decimal, drop, replicate, take};
ghost use Rattle.std.specs.List.{flat_map};
ghost use Rattle.anb_base.specs.declared.TheConstants.{SMALL_FILE};
ghost use Rattle.anb_mistakes.specs.Pointing.{below, blank, gap, heading, located, padded, part, pointed, pointed_in, shown, skipped, space, unreturned};

use crate::placing::{first_line, place};
use anb_base::NoMemory;
use anb_visible::visible;
use itoa::Buffer;
use std::alloc::Global;

/// A message at an offset of a file's text, with what would mend it.
pub fn pointed(
    alloc: Global,
    name: &[u8],
    text: &[u8],
    at: usize,
    message: &[u8],
    mend: &[u8],
) -> Result<Vec<u8>, NoMemory>
    requires size { length text.now ≤ SMALL_FILE }
    requires within { at ≤ length text.now }
    ensures { IfOk result (λ v. v.items ≡ pointed name.now text.now at message.now mend.now) }
{
    let mut out = located(alloc, name, text, at, message)?;
    put(&mut out, mend)?;
    put(&mut out, b"\n")?;
    Ok(out)
}

/// A message at an offset of a file's text, with the source line.
pub(crate) fn located(
    alloc: Global,
    name: &[u8],
    text: &[u8],
    at: usize,
    message: &[u8],
) -> Result<Vec<u8>, NoMemory>
    requires size { length text.now ≤ SMALL_FILE }
    requires within { at ≤ length text.now }
    ensures { IfOk result (λ v. v.items ≡ located name.now text.now at message.now) }
{
    let (line, column) = place(text, at);
    let start = at + 1 - column;
    let mut out = Vec::new(alloc);
    put_heading(&mut out, name, line, column, message)?;
    put_shown(
        alloc,
        &mut out,
        line,
        &text[start..at],
        first_line(&text[start..]),
    )?;
    Ok(out)
}

/// A message on one line of a file, which has this number, behind so many of its bytes, with what would
/// mend it.
pub fn pointed_in(
    alloc: Global,
    name: &[u8],
    number: usize,
    line: &[u8],
    before: usize,
    message: &[u8],
    mend: &[u8],
) -> Result<Vec<u8>, NoMemory>
    requires size { length line.now ≤ SMALL_FILE }
    requires within { before ≤ length line.now }
    ensures { IfOk result (λ v.
        v.items ≡ pointed_in name.now number line.now before message.now mend.now) }
{
    let mut out = Vec::new(alloc);
    put_heading(&mut out, name, number, before + 1, message)?;
    put_shown(alloc, &mut out, number, &line[..before], line)?;
    put(&mut out, mend)?;
    put(&mut out, b"\n")?;
    Ok(out)
}

/// Appends the line that says where and why.
fn put_heading(
    out: &mut Vec<u8>,
    name: &[u8],
    line: usize,
    column: usize,
    message: &[u8],
) -> Result<(), NoMemory>
    ensures { OnOk result (out.new.items
        ≡ out.old.items ++ heading name.now line column message.now) }
{
    let mut digits = Buffer::new();
    put(out, name)?;
    put(out, b":")?;
    put(out, digits.format(line).as_bytes())?;
    put(out, b":")?;
    put(out, digits.format(column).as_bytes())?;
    put(out, b": ")?;
    put(out, message)?;
    put(out, b"\n")?;
    Ok(())
}

/// Appends the source line, or a part of it, and the sign below what follows these bytes of it.
fn put_shown(
    alloc: Global,
    out: &mut Vec<u8>,
    line: usize,
    before: &[u8],
    source: &[u8],
) -> Result<(), NoMemory>
    ensures { OnOk result (out.new.items
        ≡ out.old.items ++ shown line before.now source.now) }
{
    let source = unreturned(source);
    let from = skipped(source.len(), before.len());
    put_padded(out, line)?;
    put(out, b" | ")?;
    put_part(out, from, source)?;
    put(out, b"\n")?;
    put_blank(out, line)?;
    put(out, b" | ")?;
    put_space(alloc, out, from, before)?;
    put(out, b"^\n")?;
    Ok(())
}

/// A line without the carriage return that ends it.
fn unreturned(line: &[u8]) -> &[u8]
    ensures { result.now ≡ unreturned line.now }
{
    let count = line.len();
    if count > 0 && line[count - 1] == b'\r' {
        &line[..count - 1]
    } else {
        line
    }
}

/// How many bytes are left out at a line's front.
fn skipped(all: usize, before: usize) -> usize
    ensures { result ≡ skipped all before }
{
    if all <= 120 {
        0
    } else {
        before.saturating_sub(60)
    }
}

/// Appends the part of a line behind so many bytes.
fn put_part(out: &mut Vec<u8>, from: usize, line: &[u8]) -> Result<(), NoMemory>
    ensures { OnOk result (out.new.items ≡ out.old.items ++ part from line.now) }
{
    let rest = behind(line, from);
    put(out, gap(from > 0))?;
    put(out, first(rest, 120))?;
    put(out, gap(rest.len() > 120))?;
    Ok(())
}

/// What stands behind so many bytes.
fn behind(bytes: &[u8], count: usize) -> &[u8]
    ensures { result.now ≡ drop count bytes.now }
{
    if count <= bytes.len() {
        &bytes[count..]
    } else {
        &[]
    }
}

/// The first bytes, so many where there are as many.
fn first(bytes: &[u8], count: usize) -> &[u8]
    ensures { result.now ≡ take count bytes.now }
{
    if count <= bytes.len() {
        &bytes[..count]
    } else {
        bytes
    }
}

/// What stands where bytes are left out.
fn gap(is: bool) -> &'static [u8]
    ensures { result.now ≡ gap is }
{
    if is { b".." } else { b"" }
}

/// Appends as wide a space as these bytes of a line take, behind so many that aren't shown.
fn put_space(alloc: Global, out: &mut Vec<u8>, from: usize, before: &[u8]) -> Result<(), NoMemory>
    ensures { OnOk result (out.new.items ≡ out.old.items ++ space from before.now) }
{
    let mut part = Vec::from_slice(alloc, gap(from > 0))?;
    put(&mut part, behind(before, from))?;
    let shown = visible(alloc, &part)?;
    put_below(out, &shown)?;
    Ok(())
}

/// Appends a number in five columns.
fn put_padded(out: &mut Vec<u8>, number: usize) -> Result<(), NoMemory>
    ensures { OnOk result (out.new.items ≡ out.old.items ++ padded number) }
{
    let mut buffer = Buffer::new();
    let digits = buffer.format(number).as_bytes();
    put_spaces(out, 5usize.saturating_sub(digits.len()))?;
    put(out, digits)?;
    Ok(())
}

/// Appends as many spaces.
fn put_blank(out: &mut Vec<u8>, number: usize) -> Result<(), NoMemory>
    ensures { OnOk result (out.new.items ≡ out.old.items ++ blank number) }
{
    let mut buffer = Buffer::new();
    let digits = buffer.format(number).as_bytes();
    put_spaces(out, digits.len().max(5))?;
    Ok(())
}

fn put_spaces(out: &mut Vec<u8>, count: usize) -> Result<(), NoMemory>
    ensures { OnOk result (out.new.items ≡ out.old.items ++ replicate count 32) }
{
    for _ in 0..count {
        out.push(b' ')?;
    }
    Ok(())
}

/// Appends what stands below the bytes.
fn put_below(out: &mut Vec<u8>, before: &[u8]) -> Result<(), NoMemory>
    ensures { OnOk result (out.new.items ≡ out.old.items ++ flat_map below before.now) }
{
    for b in before {
        put(out, below(*b))?;
    }
    Ok(())
}

/// What stands below a byte.
fn below(b: u8) -> &'static [u8]
    ensures { result.now ≡ below b }
{
    if (128..192).contains(&b) { b"" } else { b" " }
}

/// Appends bytes.
pub(crate) fn put(out: &mut Vec<u8>, bytes: &[u8]) -> Result<(), NoMemory>
    ensures { OnOk result (out.new.items ≡ out.old.items ++ bytes.now) }
{
    out.extend_from_slice(bytes)?;
    Ok(())
}
