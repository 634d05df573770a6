//! Registers that instructions read and write, by what for.
ghost use Rattle.std.specs.Prelude.{◌≡◌, ◌+◌, ◌-◌, ◌≤◌, ◌<◌, ◌^◌, ◌++◌, [], if◌then◌else◌, IfOk, OnOk};
ghost use Rattle.std.specs.List.{AllByRecursion, flat_map, range_with_len};
ghost use Rattle.anb_format.specs.Formats.{field_count};
ghost use Rattle.anb_code.specs.Verified.{count_registers};
ghost use Rattle.anb_report.specs.Collecting.{used, writes};
ghost use Rattle.anb_report.specs.Looking.{brings, builds, checked_by, keys_of, opened_by, written_by};

use anb_base::NoMemory;
use anb_code::Instr;
use anb_explain::count_written;
use anb_format::Format;
use std::alloc::Global;

/// What an instruction has an operand for.
#[derive(Clone, Copy, Debug, Drop)]
pub(crate) enum Use {
    Key,
    Opened,
    Checked,
}

/// The registers that instructions use so.
pub(crate) fn used(alloc: Global, how: Use, instrs: &[Instr]) -> Result<Vec<u32>, NoMemory>
    ensures { IfOk result (λ rs. rs.items ≡ flat_map (used how) instrs.now) }
{
    let mut out = Vec::new(alloc);
    for instr in instrs {
        put_used(&mut out, how, instr)?;
    }
    Ok(out)
}

fn put_used(out: &mut Vec<u32>, how: Use, instr: &Instr) -> Result<(), NoMemory>
    ensures { OnOk result (out.new.items ≡ out.old.items ++ used how instr.now) }
{
    match how {
        Use::Key => put_keys(out, instr),
        Use::Opened => put_opened(out, instr),
        Use::Checked => put_checked(out, instr),
    }
}

/// Appends the keys with which an instruction opens.
pub(crate) fn put_keys(out: &mut Vec<u32>, instr: &Instr) -> Result<(), NoMemory>
    ensures { OnOk result (out.new.items ≡ out.old.items ++ keys_of instr.now) }
{
    match instr {
        Instr::Unseal(k, _) => out.push(*k)?,
        Instr::Unwrap(k, d, _) => {
            out.push(*k)?;
            out.push(*d)?;
        }
        _ => {}
    }
    Ok(())
}

/// Appends what an instruction opens.
pub(crate) fn put_opened(out: &mut Vec<u32>, instr: &Instr) -> Result<(), NoMemory>
    ensures { OnOk result (out.new.items ≡ out.old.items ++ opened_by instr.now) }
{
    match instr {
        Instr::Unseal(_, c) | Instr::Unwrap(_, _, c) | Instr::Parse(_, c) => out.push(*c)?,
        _ => {}
    }
    Ok(())
}

fn put_checked(out: &mut Vec<u32>, instr: &Instr) -> Result<(), NoMemory>
    ensures { OnOk result (out.new.items ≡ out.old.items ++ checked_by instr.now) }
{
    if let Instr::Equal(_, b) = instr {
        out.push(*b)?;
    }
    Ok(())
}

/// The registers that instructions write by building, or by bringing what arrives. The first one to be
/// written is given.
pub(crate) fn written(
    alloc: Global,
    formats: &[Format],
    built: bool,
    first: u32,
    instrs: &[Instr],
) -> Result<Vec<u32>, NoMemory>
    requires fields { AllByRecursion (λ format. field_count format.pieces ≤ 32) formats.now }
    requires few { first + count_registers formats.now instrs.now < 2 ^ 32 }
    ensures { IfOk result (λ rs. rs.items ≡ written_by formats.now (writes built) first instrs.now) }
{
    let mut out = Vec::new(alloc);
    let mut next = first;
    for instr in instrs {
        let end = next + count_written(formats, instr) as u32;
        put_written(&mut out, built, next, end, instr)?;
        next = end;
    }
    Ok(out)
}

/// Appends the registers from one on up to another, where an instruction writes so.
fn put_written(
    out: &mut Vec<u32>,
    built: bool,
    start: u32,
    end: u32,
    instr: &Instr,
) -> Result<(), NoMemory>
    requires { start ≤ end }
    ensures { OnOk result (out.new.items ≡ out.old.items
        ++ (if writes built instr.now then range_with_len start (end - start) else [])) }
{
    if writes(built, instr) {
        put_between(out, start, end)?;
    }
    Ok(())
}

/// Appends the registers from one on up to another.
pub(crate) fn put_between(out: &mut Vec<u32>, start: u32, end: u32) -> Result<(), NoMemory>
    requires { start ≤ end }
    ensures { OnOk result (out.new.items ≡ out.old.items ++ range_with_len start (end - start)) }
{
    for r in start..end {
        out.push(r)?;
    }
    Ok(())
}

/// Whether an instruction builds, or else brings what arrives.
fn writes(built: bool, instr: &Instr) -> bool
    ensures { result ≡ writes built instr.now }
{
    if built { builds(instr) } else { brings(instr) }
}

fn brings(instr: &Instr) -> bool
    ensures { result ≡ brings instr.now }
{
    match instr {
        Instr::Recv | Instr::Unseal(_, _) | Instr::Unwrap(_, _, _) | Instr::Parse(_, _) => true,
        _ => false,
    }
}

fn builds(instr: &Instr) -> bool
    ensures { result ≡ builds instr.now }
{
    match instr {
        Instr::Hash(_)
        | Instr::Mac(_, _)
        | Instr::Seal(_, _)
        | Instr::Wrap(_, _, _)
        | Instr::Build(_, _) => true,
        _ => false,
    }
}
