//! The check of a code, row by row of the table of faults.
ghost use Rattle.std.specs.Prelude.{◌≡◌, ◌≢◌, ◌<◌, ◌≤◌, ◌+◌, ◌^◌, ◌==◌, ◌&&◌, ◌||◌, ◌↔◌, not, nat_lt, ℕ, List, [], ◌∷◌, ◌++◌, length, map, replicate, slice_get, slice_index, vec_len, find, option_copied, Some, All, Any, SomeIff, nat_le, IfOk, IfErr, OnOk, IsTrue};
ghost use Rattle.std.specs.List.{list_any, range_with_len};
ghost use Rattle.std.specs.Str.{bytes_eq};
ghost use Rattle.anb_format.specs.Formats.{IsSound, field_count, pieces_at};
ghost use Rattle.anb_format.specs.Widths.{format_width};
ghost use Rattle.anb_code.specs.RawValue.{RawInstrValue};
ghost use Rattle.anb_code.specs.Registers.{count_written, register_widths, width_of, written_widths};
ghost use Rattle.anb_code.specs.Spelling.{instr_of, is_named, place_of};
ghost use Rattle.anb_code.specs.Table.{BeginsWith, HasCounts, faults_from, format_faults, has_fields, has_its_format, instr_faults, is_late, is_take, is_taken, reads_unwritten, shape_faults, written};
ghost use Rattle.anb_code.specs.Checking.{Knows, KnowsTakes};

use crate::takes::Takes;
use crate::{CodeNo, RawFormat, RawInstr, What};
use anb_base::{ARRIVAL, NoMemory, WIDE};
use anb_format::{Format, FormatNo, Piece};
use std::alloc::Global;

/// The most formats, and the most fields of one.
const FORMATS: usize = 64;

const FIELDS: usize = 32;

pub(crate) fn check_formats(formats: &[RawFormat]) -> Result<(), CodeNo>
    requires few { length formats.now + 1 < 2 ^ 32 }
    requires pieces { All (λ format. length format.pieces < 2 ^ 32) formats.now }
    ensures fine { OnOk result (faults_from format_faults [] formats.now ≡ []) }
    ensures sound { OnOk result (All (λ format. IsSound format.pieces) formats.now) }
    ensures refused { IfErr result (BeginsWith (faults_from format_faults [] formats.now)) }
{
    for (i, format) in formats.iter().enumerate() {
        check_format(&formats[..i], format)?;
    }
    Ok(())
}

fn check_format(before: &[RawFormat], format: &RawFormat) -> Result<(), CodeNo>
    requires few { length before.now + 1 < 2 ^ 32 }
    requires pieces { length format.now.pieces < 2 ^ 32 }
    ensures fine { OnOk result (format_faults before.now format.now ≡ []) }
    ensures sound { OnOk result (IsSound format.now.pieces) }
    ensures refused { IfErr result (BeginsWith (format_faults before.now format.now)) }
{
    let f = before.len() as u32;
    if are_many(before, format) {
        return Err(CodeNo::Many(f));
    }
    if is_named_before(before, format) {
        return Err(CodeNo::Twice(f));
    }
    match check_shape(format) {
        Ok(()) => Ok(()),
        Err(fault) => Err(CodeNo::Shape(f, fault)),
    }
}

fn are_many(before: &[RawFormat], format: &RawFormat) -> bool
    ensures { result ≡ (length before.now == 64 || nat_lt 32 (field_count format.now.pieces)) }
{
    before.len() == FORMATS || count_fields(&format.pieces) > FIELDS
}

fn is_named_before(before: &[RawFormat], format: &RawFormat) -> bool
    ensures { result ≡ list_any (is_named format.now.name) before.now }
{
    is_any_named(before, format.name.as_str())
}

fn is_any_named(formats: &[RawFormat], name: &str) -> bool
    ensures { result ≡ list_any (is_named name.now) formats.now }
{
    formats.iter().any(|format| format.name.as_str() == name)
}

fn check_shape(format: &RawFormat) -> Result<(), FormatNo>
    requires { length format.now.pieces < 2 ^ 32 }
    ensures fine { OnOk result (shape_faults format.now.pieces ≡ []) }
    ensures sound { OnOk result (IsSound format.now.pieces) }
    ensures refused { IfErr result (BeginsWith (shape_faults format.now.pieces)) }
{
    Format::check(&format.pieces)
}

pub(crate) fn count_fields(pieces: &[Piece]) -> usize
    ensures { result ≡ field_count pieces.now }
{
    let mut count = 0;
    for piece in pieces {
        if matches!(piece, Piece::Field(_)) {
            count += 1;
        }
    }
    count
}

pub(crate) fn check_code(alloc: Global, formats: &[Format], code: &[RawInstr]) -> Result<(), CodeNo>
    requires counts { All HasCounts code.now }
    requires instrs { length code.now + 1 < 2 ^ 32 }
    requires destinations { length (written code.now) + 1 < 2 ^ 32 }
    ensures fine { OnOk result (faults_from (instr_faults ARRIVAL WIDE formats.now) [] code.now
        ≡ []) }
    ensures refused { IfErr result (λ no. no ≢ CodeNo.NoMemory
        → BeginsWith (faults_from (instr_faults ARRIVAL WIDE formats.now) [] code.now) no) }
{
    let mut widths = Vec::new(alloc);
    let mut takes = Takes::new(alloc);
    for (i, instr) in code.iter().enumerate() {
        check_instr(alloc, &mut widths, &takes, formats, &code[..i], instr)?;
        takes.push(instr)?;
    }
    Ok(())
}

/// Checks an instruction, where the instructions before it have no fault and write registers of these
/// widths, and appends the widths of those that it writes.
fn check_instr(
    alloc: Global,
    widths: &mut Vec<u32>,
    takes: &Takes<'_>,
    formats: &[Format],
    before: &[RawInstr],
    instr: &RawInstr,
) -> Result<(), CodeNo>
    requires counts { HasCounts instr.now }
    requires instrs { length before.now + 2 < 2 ^ 32 }
    requires destinations { length (written before.now) + length instr.now.to + 1 < 2 ^ 32 }
    requires known { Knows formats.now before.now widths.old.items }
    requires takes { KnowsTakes before.now takes.now }
    ensures fine { OnOk result (instr_faults ARRIVAL WIDE formats.now before.now instr.now ≡ []) }
    ensures known { OnOk result
        (Knows formats.now (before.now ++ instr.now ∷ []) widths.new.items) }
    ensures refused { IfErr result (λ no. no ≢ CodeNo.NoMemory
        → BeginsWith (instr_faults ARRIVAL WIDE formats.now before.now instr.now) no) }
{
    let at = before.len() as u32 + 1;
    let registers = widths.len() as u32;
    if takes.is_late(instr) {
        return Err(CodeNo::Late(at));
    }
    if takes.is_taken(instr) {
        return Err(CodeNo::TakeTwice(at));
    }
    if !has_its_format(formats, instr) {
        return Err(CodeNo::BadFormat(at));
    }
    if reads_unwritten(registers, instr) {
        return Err(CodeNo::Unwritten(at));
    }
    if !writes_next(registers, instr) {
        return Err(CodeNo::Order(at));
    }
    let Some(width) = width_of(alloc, formats, widths, instr)? else {
        return Err(CodeNo::Wide(at));
    };
    put_copies(widths, width, count_destinations(instr))?;
    Ok(())
}

fn has_its_format(formats: &[Format], instr: &RawInstr) -> bool
    ensures { result ≡ has_its_format formats.now instr.now instr.now.what }
{
    match instr.what {
        What::Build => has_fields(formats, instr.name.as_str(), instr.args.len()),
        What::Parse => has_fields(formats, instr.name.as_str(), instr.to.len()),
        _ => true,
    }
}

/// Whether a format has this name, and the first such has so many fields.
fn has_fields(formats: &[Format], name: &str, count: usize) -> bool
    ensures { result ≡ has_fields (find (is_named name.now) formats.now) count }
{
    match named(formats, name) {
        Some(format) => count_fields(format.pieces()) == count,
        None => false,
    }
}

fn named<'a>(formats: &'a [Format], name: &str) -> Option<&'a Format>
    ensures { option_copied result ≡ find (is_named name.now) formats.now }
{
    formats.iter().find(|format| format.name().as_str() == name)
}

/// Whether an operand isn't one of the registers written, which are the first so many.
fn reads_unwritten(registers: u32, instr: &RawInstr) -> bool
    ensures { result ≡ list_any (nat_le registers) instr.now.args }
{
    instr.args.iter().any(|r| registers <= *r)
}

/// Whether the registers that it writes are the next ones, from the first one on.
fn writes_next(first: u32, instr: &RawInstr) -> bool
    ensures { result ≡ bytes_eq instr.now.to (range_with_len first (length instr.now.to)) }
{
    are_next(first, &instr.to)
}

fn count_destinations(instr: &RawInstr) -> usize
    ensures { result ≡ length instr.now.to }
{
    instr.to.len()
}

/// Whether these are the next registers, from the first one on.
fn are_next(first: u32, registers: &[u32]) -> bool
    ensures { result ≡ bytes_eq registers.now (range_with_len first (length registers.now)) }
{
    for (k, r) in registers.iter().enumerate() {
        if u64::from(*r) != u64::from(first) + k as u64 {
            return false;
        }
    }
    true
}

/// The width of what it writes, where it is at most [`WIDE`].
fn width_of(
    alloc: Global,
    formats: &[Format],
    widths: &[u32],
    instr: &RawInstr,
) -> Result<Option<u32>, NoMemory>
    requires counts { HasCounts instr.now }
    requires written { All (λ r. r < length widths.now) instr.now.args }
    requires format { IsTrue (has_its_format formats.now instr.now instr.now.what) }
    requires narrow { All (λ width. width ≤ WIDE) widths.now }
    ensures { IfOk result (λ r.
        let width = width_of ARRIVAL formats.now widths.now
        (instr_of formats.now instr.now) in SomeIff r (width ≤ WIDE) width) }
{
    let args = &instr.args;
    let width = match instr.what {
        What::Seal => sealed_width(widths[args[1] as usize]),
        What::Wrap => sealed_width(widths[args[2] as usize]),
        What::Unseal => Some(widths[args[1] as usize]),
        What::Unwrap => Some(widths[args[2] as usize]),
        What::Parse => Some(widths[args[0] as usize]),
        What::Build => return built_width(alloc, formats, widths, instr.name.as_str(), args),
        _ => Some(ARRIVAL),
    };
    Ok(width)
}

fn sealed_width(width: u32) -> Option<u32>
    requires { width ≤ WIDE }
    ensures { SomeIff result (width + 32 ≤ WIDE) (width + 32) }
{
    let sealed = width + 32;
    if sealed <= WIDE { Some(sealed) } else { None }
}

fn built_width(
    alloc: Global,
    formats: &[Format],
    widths: &[u32],
    name: &str,
    args: &[u32],
) -> Result<Option<u32>, NoMemory>
    requires written { All (λ r. r < length widths.now) args.now }
    requires format { IsTrue (has_fields (find (is_named name.now) formats.now) (length args.now)) }
    ensures { IfOk result (λ r.
        let width = format_width ARRIVAL (pieces_at formats.now (place_of formats.now name.now))
        (map (slice_index widths.now) args.now)
        in SomeIff r (width ≤ WIDE) width) }
{
    let operands = widths_at(alloc, widths, args)?;
    match named(formats, name) {
        Some(format) => Ok(format.width(&operands)),
        None => Ok(None),
    }
}

fn widths_at(alloc: Global, widths: &[u32], registers: &[u32]) -> Result<Vec<u32>, NoMemory>
    requires { All (λ r. r < length widths.now) registers.now }
    ensures { IfOk result (λ v. v.items ≡ map (slice_index widths.now) registers.now) }
{
    let mut found = Vec::new(alloc);
    for r in registers {
        found.push(widths[*r as usize])?;
    }
    Ok(found)
}

/// Appends this number so many times.
pub(crate) fn put_copies(numbers: &mut Vec<u32>, number: u32, count: usize) -> Result<(), NoMemory>
    ensures { OnOk result (numbers.new.items ≡ numbers.old.items ++ replicate count number) }
{
    for done in 0..count {
        numbers.push(number)?;
    }
    Ok(())
}
