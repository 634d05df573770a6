//! How long a register is still to be read.
ghost use Rattle.std.specs.Prelude.{◌≡◌, ◌<◌, ◌+◌, ◌^◌, ◌++◌, [], length, replicate};
ghost use Rattle.std.specs.Prelude.{All, IfOk, OnOk};
ghost use Rattle.anb_format.specs.Formats.{field_count, pieces_at};
ghost use Rattle.anb_code.specs.Registers.{count_written as count_of, operands};
ghost use Rattle.anb_code.specs.Uses.{AreLastUses, AreMarked};
ghost use Rattle.anb_code.specs.Verified.{EachAfter, IsInstrAfter};

use crate::Instr;
use crate::checks::{count_fields, put_copies};
use anb_base::NoMemory;
use anb_format::Format;
use std::alloc::Global;

/// For each register, how many instructions there are up to the last that reads it. One pass.
pub(crate) fn last_uses(
    alloc: Global,
    formats: &[Format],
    instrs: &[Instr],
) -> Result<Vec<u32>, NoMemory>
    requires verified { EachAfter (IsInstrAfter formats.now) [] instrs.now }
    requires few { length instrs.now + 1 < 2 ^ 32 }
    ensures { IfOk result (λ uses. AreLastUses formats.now instrs.now uses.items) }
{
    let mut uses = Vec::new(alloc);
    for (i, instr) in instrs.iter().enumerate() {
        mark_operands(&mut uses, instr, i as u32 + 1);
        put_copies(&mut uses, 0, count_written(formats, instr))?;
    }
    Ok(uses)
}

/// Gives the instruction's operands this number.
fn mark_operands(uses: &mut Vec<u32>, instr: &Instr, at: u32)
    requires { All (λ r. r < length uses.old.items) (operands instr.now) }
    ensures { AreMarked at (operands instr.now) uses.old.items uses.new.items }
{
    match instr {
        Instr::Take(_) | Instr::Fresh | Instr::Recv => {}
        Instr::Hash(r) | Instr::Parse(_, r) | Instr::Send(r) => mark(uses, &[*r], at),
        Instr::Mac(a, b) | Instr::Seal(a, b) | Instr::Unseal(a, b) | Instr::Equal(a, b) => {
            mark(uses, &[*a, *b], at)
        }
        Instr::Wrap(a, b, c) | Instr::Unwrap(a, b, c) => mark(uses, &[*a, *b, *c], at),
        Instr::Build(_, operands) => mark(uses, operands.as_slice(), at),
    }
}

fn mark(uses: &mut Vec<u32>, registers: &[u32], at: u32)
    requires { All (λ r. r < length uses.old.items) registers.now }
    ensures { AreMarked at registers.now uses.old.items uses.new.items }
{
    for r in registers {
        uses[*r as usize] = at;
    }
}

/// How many registers an instruction writes.
fn count_written(formats: &[Format], instr: &Instr) -> usize
    ensures { result ≡ count_of formats.now instr.now }
{
    match instr {
        Instr::Parse(format, _) => count_parts(formats, *format),
        Instr::Equal(..) | Instr::Send(_) => 0,
        _ => 1,
    }
}

fn count_parts(formats: &[Format], place: u16) -> usize
    ensures { result ≡ field_count (pieces_at formats.now place) }
{
    match formats.get(place as usize) {
        Some(format) => count_fields(format.pieces()),
        None => 0,
    }
}
