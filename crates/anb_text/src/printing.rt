//! A code as a role file, written to a sink or in memory.
ghost use Rattle.std.specs.Prelude.{[], ◌≡◌, ◌≤◌, ◌<◌, ◌+◌, ◌-◌, ◌^◌, ◌++◌, ◌∷◌, All, decimal, length, map, slice_get, take, Some, IfOk, OnOk};
ghost use Rattle.std.specs.List.{flat_map, range_with_len};
ghost use Rattle.anb_format.specs.Formats.{field_count, pieces_at};
ghost use Rattle.anb_syntax.specs.Words.{hash_name};
ghost use Rattle.anb_code.specs.Registers.{count_written};
ghost use Rattle.anb_code.specs.Spelling.{name_at, raw_instr, raw_instrs};
ghost use Rattle.anb_code.specs.Verified.{count_registers};
ghost use Rattle.anb_text.specs.declared.lines.Line.TheVariants as line;
ghost use Rattle.anb_text.specs.declared.lines.Version.TheVariants as version;
ghost use Rattle.anb_text.specs.Lines.{destinations, format_line, instr_line, operands, register, spaced_piece};
ghost use Rattle.anb_text.specs.RoleFiles.{ended, instr_lines, lines_text, role_text};
ghost use Rattle.anb_text.specs.Writing.{IsWritten};

use crate::page::Page;
use crate::writing::{WriteNo, write_bytes, write_part};
use anb_base::{Bytes, NoMemory, Sink, Suite, Text};
use anb_code::{Instr, RoleCode};
use anb_format::{Format, Piece};
use anb_syntax::put_piece;
use itoa::Buffer;
use std::alloc::Global;

/// The role file of a code, of version 2.
pub fn print(alloc: Global, code: &RoleCode) -> Result<Bytes, NoMemory>
    ensures { IfOk result (λ text. text ≡ role_text code.now) }
{
    let mut page = Page::new(alloc);
    match write_role_file(alloc, &mut page, code) {
        Ok(()) => Ok(page.into_bytes()),
        Err(_) => Err(NoMemory),
    }
}

/// Writes the role file of a code, of version 2. A line is in memory at a time.
pub fn write_role_file<K: Sink>(alloc: Global, snk: &mut K, code: &RoleCode) -> Result<(), WriteNo>
    ensures written { IsWritten (role_text code.now) result
        (K.written snk.old) (K.written snk.new) (K.faults snk.old) (K.faults snk.new) }
    ensures kept { K.kept snk.new ≡ K.kept snk.old }
{
    match write_part(snk, head_text(alloc, code)) {
        Ok(()) => {}
        Err(no) => return Err(no),
    }
    match write_formats(alloc, snk, code.formats()) {
        Ok(()) => {}
        Err(no) => return Err(no),
    }
    match write_bytes(snk, b"code\n") {
        Ok(()) => {}
        Err(no) => return Err(no),
    }
    match write_instrs(alloc, snk, code.formats(), code.instrs()) {
        Ok(()) => {}
        Err(no) => return Err(no),
    }
    write_bytes(snk, b"end\n")
}

/// The line of an instruction, numbered from 1, as it stands in the role file, without its end.
/// It counts the registers of all instructions before it.
pub fn instr_text(alloc: Global, code: &RoleCode, at: u32) -> Result<Bytes, NoMemory>
    requires from_one { 0 < at }
    requires there { at ≤ length code.now.instrs }
    ensures { IfOk result (λ text. slice_get (instr_lines code.now) (at - 1) ≡ Some text) }
{
    let i = (at - 1) as usize;
    let written = count_registers(code.formats(), &code.instrs()[..i]);
    instr_text_behind(alloc, code, at, written)
}

/// The same, where the instructions before it write so many registers. They aren't looked at.
pub fn instr_text_behind(
    alloc: Global,
    code: &RoleCode,
    at: u32,
    written: u32,
) -> Result<Bytes, NoMemory>
    requires from_one { 0 < at }
    requires there { at ≤ length code.now.instrs }
    requires written { written ≡ count_registers code.now.formats (take (at - 1) code.now.instrs) }
    ensures { IfOk result (λ text. slice_get (instr_lines code.now) (at - 1) ≡ Some text) }
{
    let i = (at - 1) as usize;
    let mut out = Vec::new(alloc);
    put_instr(&mut out, code.formats(), written, &code.instrs()[i])?;
    Ok(Bytes::new(out))
}

/// The lines above the formats.
fn head_text(alloc: Global, code: &RoleCode) -> Result<Vec<u8>, NoMemory>
    ensures { IfOk result (λ bytes. bytes.items ≡ lines_text
        (line.Version version.Two ∷ line.Protocol code.now.protocol ∷ line.Role code.now.role
        ∷ line.Suite code.now.suite ∷ [])) }
{
    let mut out = Vec::new(alloc);
    out.extend_from_slice(b"anb-role 2\nprotocol ")?;
    put_text(&mut out, code.protocol())?;
    out.extend_from_slice(b"\nrole ")?;
    put_text(&mut out, code.role())?;
    out.extend_from_slice(b"\nsuite ")?;
    put_suite(&mut out, code.suite())?;
    out.extend_from_slice(b"\n")?;
    Ok(out)
}

fn put_text(out: &mut Vec<u8>, text: &Text) -> Result<(), NoMemory>
    ensures { OnOk result (out.new.items ≡ out.old.items ++ text.now) }
{
    out.extend_from_slice(text.as_str().as_bytes())?;
    Ok(())
}

fn put_suite(out: &mut Vec<u8>, suite: Suite) -> Result<(), NoMemory>
    ensures { OnOk result (out.new.items ≡ out.old.items ++ hash_name suite) }
{
    match suite {
        Suite::One => out.extend_from_slice(b"sha256")?,
        Suite::Two => out.extend_from_slice(b"sha512")?,
    }
    Ok(())
}

fn write_formats<K: Sink>(alloc: Global, snk: &mut K, formats: &[Format]) -> Result<(), WriteNo>
    ensures written { IsWritten (lines_text (map line.Format formats.now)) result
        (K.written snk.old) (K.written snk.new) (K.faults snk.old) (K.faults snk.new) }
    ensures kept { K.kept snk.new ≡ K.kept snk.old }
{
    for format in formats {
        match write_part(snk, format_text(alloc, format)) {
            Ok(()) => {}
            Err(no) => return Err(no),
        }
    }
    Ok(())
}

/// The line of a format.
fn format_text(alloc: Global, format: &Format) -> Result<Vec<u8>, NoMemory>
    ensures { IfOk result (λ bytes. bytes.items ≡ ended (line.Format format.now)) }
{
    let mut out = Vec::new(alloc);
    put_format(alloc, &mut out, format)?;
    out.extend_from_slice(b"\n")?;
    Ok(out)
}

fn put_format(alloc: Global, out: &mut Vec<u8>, format: &Format) -> Result<(), NoMemory>
    ensures { OnOk result (out.new.items ≡ out.old.items ++ format_line format.now) }
{
    out.extend_from_slice(b"format ")?;
    put_text(out, format.name())?;
    put_pieces(alloc, out, format.pieces())?;
    Ok(())
}

/// Appends pieces, each behind a space.
fn put_pieces(alloc: Global, out: &mut Vec<u8>, pieces: &[Piece]) -> Result<(), NoMemory>
    ensures { OnOk result (out.new.items ≡ out.old.items ++ flat_map spaced_piece pieces.now) }
{
    for piece in pieces {
        put_piece(alloc, out, piece)?;
    }
    Ok(())
}

/// Writes the lines of instructions, whose registers are numbered from 0.
fn write_instrs<K: Sink>(
    alloc: Global,
    snk: &mut K,
    formats: &[Format],
    instrs: &[Instr],
) -> Result<(), WriteNo>
    requires fields { All (λ format. field_count format.pieces ≤ 32) formats.now }
    requires few { count_registers formats.now instrs.now < 2 ^ 32 }
    ensures written { IsWritten (lines_text (map line.Instr (raw_instrs formats.now 0 instrs.now))) result
        (K.written snk.old) (K.written snk.new) (K.faults snk.old) (K.faults snk.new) }
    ensures kept { K.kept snk.new ≡ K.kept snk.old }
{
    let mut next = 0;
    for instr in instrs {
        match write_part(snk, instr_text_at(alloc, formats, next, instr)) {
            Ok(()) => {}
            Err(no) => return Err(no),
        }
        next += count_written(formats, instr);
    }
    Ok(())
}

/// The line of an instruction whose first register is this one.
fn instr_text_at(
    alloc: Global,
    formats: &[Format],
    next: u32,
    instr: &Instr,
) -> Result<Vec<u8>, NoMemory>
    requires fields { All (λ format. field_count format.pieces ≤ 32) formats.now }
    requires few { next + count_written formats.now instr.now < 2 ^ 32 }
    ensures { IfOk result (λ bytes. bytes.items
        ≡ ended (line.Instr (raw_instr formats.now next instr.now))) }
{
    let mut out = Vec::new(alloc);
    put_instr(&mut out, formats, next, instr)?;
    out.extend_from_slice(b"\n")?;
    Ok(out)
}

/// Appends an instruction whose first register is this one.
fn put_instr(
    out: &mut Vec<u8>,
    formats: &[Format],
    next: u32,
    instr: &Instr,
) -> Result<(), NoMemory>
    requires fields { All (λ format. field_count format.pieces ≤ 32) formats.now }
    requires few { next + count_written formats.now instr.now < 2 ^ 32 }
    ensures { OnOk result (out.new.items
        ≡ out.old.items ++ instr_line (raw_instr formats.now next instr.now)) }
{
    put_destinations(out, next, count_written(formats, instr))?;
    match instr {
        Instr::Take(text) => put_call(out, "take ", text.as_str(), &[]),
        Instr::Fresh => put_call(out, "fresh", "", &[]),
        Instr::Recv => put_call(out, "recv", "", &[]),
        Instr::Hash(r) => put_call(out, "hash", "", &[*r]),
        Instr::Mac(k, b) => put_call(out, "mac", "", &[*k, *b]),
        Instr::Seal(k, b) => put_call(out, "seal", "", &[*k, *b]),
        Instr::Unseal(k, c) => put_call(out, "unseal", "", &[*k, *c]),
        Instr::Wrap(k, d, b) => put_call(out, "wrap", "", &[*k, *d, *b]),
        Instr::Unwrap(k, d, c) => put_call(out, "unwrap", "", &[*k, *d, *c]),
        Instr::Build(f, rs) => put_call(out, "build ", name_at(formats, *f), rs.as_slice()),
        Instr::Parse(f, r) => put_call(out, "parse ", name_at(formats, *f), &[*r]),
        Instr::Equal(a, b) => put_call(out, "equal", "", &[*a, *b]),
        Instr::Send(r) => put_call(out, "send", "", &[*r]),
    }
}

/// Appends a word with a name right behind it, and the registers that are read, each behind a space.
fn put_call(out: &mut Vec<u8>, word: &str, name: &str, registers: &[u32]) -> Result<(), NoMemory>
    ensures { OnOk result (out.new.items
        ≡ out.old.items ++ (word.now ++ (name.now ++ operands registers.now))) }
{
    out.extend_from_slice(word.as_bytes())?;
    out.extend_from_slice(name.as_bytes())?;
    for r in registers {
        out.extend_from_slice(b" ")?;
        put_register(out, *r)?;
    }
    Ok(())
}

/// Appends so many registers from this one on, and what stands behind them; nothing, where there are
/// none.
fn put_destinations(out: &mut Vec<u8>, first: u32, count: u32) -> Result<(), NoMemory>
    requires { first + count < 2 ^ 32 }
    ensures { OnOk result (out.new.items
        ≡ out.old.items ++ destinations (range_with_len first count)) }
{
    if count == 0 {
        return Ok(());
    }
    for k in 0..count {
        put_register(out, first + k)?;
        out.extend_from_slice(b" ")?;
    }
    out.extend_from_slice(b"= ")?;
    Ok(())
}

fn put_register(out: &mut Vec<u8>, r: u32) -> Result<(), NoMemory>
    ensures { OnOk result (out.new.items ≡ out.old.items ++ register r) }
{
    let mut digits = Buffer::new();
    out.extend_from_slice(b"r")?;
    out.extend_from_slice(digits.format(r).as_bytes())?;
    Ok(())
}

/// The name of a format, or nothing where it isn't there.
fn name_at(formats: &[Format], place: u16) -> &str
    ensures { result.now ≡ name_at formats.now place }
{
    match formats.get(usize::from(place)) {
        Some(format) => format.name().as_str(),
        None => "",
    }
}

/// How many registers instructions write.
fn count_registers(formats: &[Format], instrs: &[Instr]) -> u32
    requires fields { All (λ format. field_count format.pieces ≤ 32) formats.now }
    requires few { count_registers formats.now instrs.now < 2 ^ 32 }
    ensures { result ≡ count_registers formats.now instrs.now }
{
    let mut count = 0;
    for instr in instrs {
        count += count_written(formats, instr);
    }
    count
}

fn count_written(formats: &[Format], instr: &Instr) -> u32
    requires { All (λ format. field_count format.pieces ≤ 32) formats.now }
    ensures { result ≡ count_written formats.now instr.now }
{
    match instr {
        Instr::Parse(f, _) => count_fields(formats, *f),
        Instr::Equal(_, _) | Instr::Send(_) => 0,
        _ => 1,
    }
}

/// How many fields a format has, or 0 where it isn't there.
fn count_fields(formats: &[Format], place: u16) -> u32
    requires { All (λ format. field_count format.pieces ≤ 32) formats.now }
    ensures { result ≡ field_count (pieces_at formats.now place) }
{
    match formats.get(usize::from(place)) {
        Some(format) => u32::from(format.arity()),
        None => 0,
    }
}
