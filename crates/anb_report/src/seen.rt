//! The registers on which the checks of a code depend, and those that it takes unchecked.
ghost use Rattle.std.specs.Prelude.{◌≡◌, ◌+◌, ◌≤◌, ◌<◌, ◌^◌, ◌-◌, ◌&&◌, ◌++◌, ◌∷◌, [], filter, not, replicate, false, true, slice_index_or, if◌then◌else◌, IfOk, OnOk};
ghost use Rattle.std.specs.List.{AllByRecursion, flat_map, list_any, range_with_len};
ghost use Rattle.anb_format.specs.Formats.{field_count};
ghost use Rattle.anb_code.specs.Verified.{count_registers};
ghost use Rattle.anb_protocol.specs.Seen.{marked};
ghost use Rattle.anb_report.specs.Looking.{asked, brought, built_of, compared, opened, opened_by, seen, unchecked, with_operands};

use crate::marks::{is_marked, mark, mark_all, mark_between, mark_if, marks_of, marks_of_repeated};
use crate::registers::{Use, used, written};
use anb_base::NoMemory;
use anb_code::{Instr, RoleCode};
use anb_explain::count_written;
use anb_format::Format;
use std::alloc::Global;

/// The registers that a code takes unchecked, in the order of writing. Time and memory are linear in
/// the code.
pub fn unchecked(alloc: Global, code: &RoleCode) -> Result<Vec<u32>, NoMemory>
    ensures { IfOk result (λ rs. rs.items ≡ unchecked code.now.formats code.now.instrs) }
{
    unchecked_in(alloc, code.formats(), code.instrs())
}

fn unchecked_in(alloc: Global, formats: &[Format], instrs: &[Instr]) -> Result<Vec<u32>, NoMemory>
    requires fields { AllByRecursion (λ format. field_count format.pieces ≤ 32) formats.now }
    requires few { count_registers formats.now instrs.now < 2 ^ 32 }
    requires written { AllByRecursion (λ r. r < count_registers formats.now instrs.now)
        (opened instrs.now) }
    ensures { IfOk result (λ rs. rs.items ≡ unchecked formats.now instrs.now) }
{
    let count = count_registers(formats, instrs);
    let came = marks_of(alloc, count, &written(alloc, formats, false, 0, instrs)?)?;
    let registers = used(alloc, Use::Opened, instrs)?;
    let seen = marks_of_seen(alloc, formats, &came, &registers, instrs)?;
    let opened = marks_of(alloc, count, &registers)?;
    neither(alloc, count, &came, &opened, &seen)
}

/// How many registers instructions write.
fn count_registers(formats: &[Format], instrs: &[Instr]) -> u32
    requires fields { AllByRecursion (λ format. field_count format.pieces ≤ 32) formats.now }
    requires few { count_registers formats.now instrs.now < 2 ^ 32 }
    ensures { result ≡ count_registers formats.now instrs.now }
{
    let mut count = 0;
    for instr in instrs {
        count += count_written(formats, instr) as u32;
    }
    count
}

/// The registers below a count that are marked first, and neither second nor third.
fn neither(
    alloc: Global,
    count: u32,
    first: &[bool],
    second: &[bool],
    third: &[bool],
) -> Result<Vec<u32>, NoMemory>
    ensures { IfOk result (λ rs. rs.items ≡ filter (λ r. slice_index_or first.now r true
        && (not (slice_index_or second.now r true) && not (slice_index_or third.now r true)))
        (range_with_len 0 count)) }
{
    let mut out = Vec::new(alloc);
    for r in 0..count {
        put_if(&mut out, r, is_first_alone(first, second, third, r))?;
    }
    Ok(out)
}

fn put_if(out: &mut Vec<u32>, r: u32, so: bool) -> Result<(), NoMemory>
    ensures { OnOk result (out.new.items ≡ out.old.items ++ (if so then r ∷ [] else [])) }
{
    if so {
        out.push(r)?;
    }
    Ok(())
}

fn is_first_alone(first: &[bool], second: &[bool], third: &[bool], r: u32) -> bool
    ensures { result ≡ (slice_index_or first.now r true
        && (not (slice_index_or second.now r true) && not (slice_index_or third.now r true))) }
{
    is_marked(first, r) && !is_marked(second, r) && !is_marked(third, r)
}

/// Marks for what is looked at as a whole, by marks for what came, and by what is opened.
fn marks_of_seen(
    alloc: Global,
    formats: &[Format],
    came: &[bool],
    registers: &[u32],
    instrs: &[Instr],
) -> Result<Vec<bool>, NoMemory>
    requires fields { AllByRecursion (λ format. field_count format.pieces ≤ 32) formats.now }
    requires few { count_registers formats.now instrs.now < 2 ^ 32 }
    requires written { AllByRecursion (λ r. r < count_registers formats.now instrs.now)
        (opened instrs.now) }
    requires came { came.now ≡ marked (replicate (count_registers formats.now instrs.now) false)
        (brought formats.now instrs.now) }
    requires opened { registers.now ≡ opened instrs.now }
    ensures { IfOk result (λ marks. marks.items
        ≡ marked (replicate (count_registers formats.now instrs.now) false)
        (seen formats.now instrs.now)) }
{
    let count = count_registers(formats, instrs);
    let twice = marks_of_repeated(alloc, count, registers)?;
    let mut seen = marks_of(alloc, count, &used(alloc, Use::Key, instrs)?)?;
    mark_compared(&mut seen, instrs);
    mark_unless_once(&mut seen, came, &twice, registers);
    mark_operands(&mut seen, formats, instrs);
    mark_parts(&mut seen, formats, instrs);
    Ok(seen)
}

/// Marks what instructions compare.
fn mark_compared(marks: &mut Vec<bool>, instrs: &[Instr])
    ensures { marks.new.items ≡ marked marks.old.items (flat_map compared instrs.now) }
{
    for instr in instrs {
        mark_compared_by(marks, instr);
    }
}

fn mark_compared_by(marks: &mut Vec<bool>, instr: &Instr)
    ensures { marks.new.items ≡ marked marks.old.items (compared instr.now) }
{
    if let Instr::Equal(a, b) = instr {
        mark(marks, *a);
        mark(marks, *b);
    }
}

/// Marks these registers, but for those that came and aren't opened twice.
fn mark_unless_once(marks: &mut Vec<bool>, came: &[bool], twice: &[bool], registers: &[u32])
    ensures { marks.new.items ≡ marked marks.old.items (filter (λ r.
        not (slice_index_or came.now r true && not (slice_index_or twice.now r true)))
        registers.now) }
{
    for r in registers {
        mark_if(marks, *r, !is_once(came, twice, *r));
    }
}

/// Whether a register came and isn't opened twice.
fn is_once(came: &[bool], twice: &[bool], r: u32) -> bool
    ensures { result
        ≡ (slice_index_or came.now r true && not (slice_index_or twice.now r true)) }
{
    is_marked(came, r) && !is_marked(twice, r)
}

/// Marks what marked registers are built of, from the last instruction back.
fn mark_operands(marks: &mut Vec<bool>, formats: &[Format], instrs: &[Instr])
    requires fields { AllByRecursion (λ format. field_count format.pieces ≤ 32) formats.now }
    requires few { count_registers formats.now instrs.now < 2 ^ 32 }
    requires asked { marks.old.items
        ≡ marked (replicate (count_registers formats.now instrs.now) false)
        (asked formats.now instrs.now) }
    ensures { marks.new.items ≡ marked (replicate (count_registers formats.now instrs.now) false)
        (with_operands formats.now (asked formats.now instrs.now) 0 instrs.now) }
{
    let mut next = count_registers(formats, instrs);
    let count = instrs.len();
    for k in 0..count {
        let instr = &instrs[count - 1 - k];
        next -= count_written(formats, instr) as u32;
        mark_operands_of(marks, next, instr);
    }
}

/// Marks what an instruction builds of, where the register is marked that it writes first.
fn mark_operands_of(marks: &mut Vec<bool>, next: u32, instr: &Instr)
    ensures { marks.new.items ≡ marked marks.old.items
        (if slice_index_or marks.old.items next true then built_of instr.now else []) }
{
    if is_marked(marks, next) {
        mark_built_of(marks, instr);
    }
}

fn mark_built_of(marks: &mut Vec<bool>, instr: &Instr)
    ensures { marks.new.items ≡ marked marks.old.items (built_of instr.now) }
{
    match instr {
        Instr::Hash(r) => {
            mark(marks, *r);
        }
        Instr::Mac(k, b) | Instr::Seal(k, b) => {
            mark(marks, *k);
            mark(marks, *b);
        }
        Instr::Wrap(k, d, b) => {
            mark(marks, *k);
            mark(marks, *d);
            mark(marks, *b);
        }
        Instr::Build(_, rs) => mark_all(marks, rs.as_slice()),
        _ => {}
    }
}

/// Marks the parts of what is marked.
fn mark_parts(marks: &mut Vec<bool>, formats: &[Format], instrs: &[Instr])
    requires fields { AllByRecursion (λ format. field_count format.pieces ≤ 32) formats.now }
    requires few { count_registers formats.now instrs.now < 2 ^ 32 }
    requires written { AllByRecursion (λ r. r < count_registers formats.now instrs.now)
        (opened instrs.now) }
    requires some { marks.old.items
        ≡ marked (replicate (count_registers formats.now instrs.now) false)
        (with_operands formats.now (asked formats.now instrs.now) 0 instrs.now) }
    ensures { marks.new.items ≡ marked (replicate (count_registers formats.now instrs.now) false)
        (seen formats.now instrs.now) }
{
    let mut next = 0;
    for instr in instrs {
        let end = next + count_written(formats, instr) as u32;
        mark_parts_of(marks, next, end, instr);
        next = end;
    }
}

/// Marks the registers from one on up to another, where an instruction opens a marked one.
fn mark_parts_of(marks: &mut Vec<bool>, start: u32, end: u32, instr: &Instr)
    requires { start ≤ end }
    ensures { marks.new.items ≡ marked marks.old.items
        (if list_any (λ r. slice_index_or marks.old.items r true) (opened_by instr.now)
        then range_with_len start (end - start) else []) }
{
    if opens_marked(marks, instr) {
        mark_between(marks, start, end);
    }
}

/// Whether an instruction opens a marked register.
fn opens_marked(marks: &[bool], instr: &Instr) -> bool
    ensures { result
        ≡ list_any (λ r. slice_index_or marks.now r true) (opened_by instr.now) }
{
    match instr {
        Instr::Unseal(_, c) | Instr::Unwrap(_, _, c) | Instr::Parse(_, c) => is_marked(marks, *c),
        _ => false,
    }
}
