//! The registers of a run: the memory for them, and what is dropped of them. A register whose bytes
//! are dropped is empty and keeps its place.
ghost use Rattle.std.specs.Prelude.{◌≡◌, ◌==◌, ◌≤◌, ◌||◌, not, nat_le, nat_lt, true, [], IfOk, if◌then◌else◌};
ghost use Rattle.std.specs.Prelude.{length, slice_index, vec_capacity};
ghost use Rattle.anb_code.specs.Registers.{operands};
ghost use Rattle.anb_code.specs.Uses.{is_among};
ghost use Rattle.anb_machine.specs.Keeping.{AreOver};

use anb_base::{Bytes, NoMemory};
use anb_code::Instr;
use std::alloc::Global;

/// Registers with these initial values, without those that no instruction reads, and with room for
/// as many as there are last uses.
pub(crate) fn initial_registers(
    alloc: Global,
    last_uses: &[u32],
    init: &[Bytes],
) -> Result<Vec<Bytes>, NoMemory>
    ensures values { IfOk result (λ table.
        AreOver last_uses.now 0 (λ r. true) init.now table.items) }
    ensures room { IfOk result (λ table. length last_uses.now ≤ vec_capacity table) }
{
    let mut table = Vec::with_capacity(alloc, last_uses.len())?;
    for (r, value) in init.iter().enumerate() {
        table.push(initial_register(alloc, last_uses, r, value)?)?;
    }
    Ok(table)
}

fn initial_register(
    alloc: Global,
    last_uses: &[u32],
    r: usize,
    value: &Bytes,
) -> Result<Bytes, NoMemory>
    ensures { IfOk result (λ kept.
        kept ≡ (if not (nat_lt 0 (slice_index last_uses.now r)) then [] else value.now)) }
{
    if is_over(last_uses, 0, r) {
        Ok(empty(alloc))
    } else {
        value.copy(alloc)
    }
}

/// After so many instructions, of which this was the last, drops its operands and the registers from
/// one on, as far as none that comes reads them.
pub(crate) fn drop_unread(
    alloc: Global,
    registers: &mut Vec<Bytes>,
    last_uses: &[u32],
    done: usize,
    instr: &Instr,
    from: usize,
)
    ensures dropped { AreOver last_uses.now done (λ r.
        is_among (operands instr.now) r || nat_le from r) registers.old.items registers.new.items }
    ensures capacity { vec_capacity registers.new ≡ vec_capacity registers.old }
{
    drop_operands(alloc, registers, last_uses, done, instr);
    drop_from(alloc, registers, last_uses, done, from);
}

fn drop_operands(
    alloc: Global,
    registers: &mut Vec<Bytes>,
    last_uses: &[u32],
    done: usize,
    instr: &Instr,
)
    ensures dropped { AreOver last_uses.now done
        (is_among (operands instr.now)) registers.old.items registers.new.items }
    ensures capacity { vec_capacity registers.new ≡ vec_capacity registers.old }
{
    match instr {
        Instr::Take(_) | Instr::Fresh | Instr::Recv => {}
        Instr::Hash(r) | Instr::Parse(_, r) | Instr::Send(r) => {
            drop_each(alloc, registers, last_uses, done, &[*r])
        }
        Instr::Mac(a, b) | Instr::Seal(a, b) | Instr::Unseal(a, b) | Instr::Equal(a, b) => {
            drop_each(alloc, registers, last_uses, done, &[*a, *b])
        }
        Instr::Wrap(a, b, c) | Instr::Unwrap(a, b, c) => {
            drop_each(alloc, registers, last_uses, done, &[*a, *b, *c])
        }
        Instr::Build(_, operands) => {
            drop_each(alloc, registers, last_uses, done, operands.as_slice())
        }
    }
}

fn drop_each(
    alloc: Global,
    registers: &mut Vec<Bytes>,
    last_uses: &[u32],
    done: usize,
    which: &[u32],
)
    ensures dropped { AreOver last_uses.now done
        (is_among which.now) registers.old.items registers.new.items }
    ensures capacity { vec_capacity registers.new ≡ vec_capacity registers.old }
{
    for r in which {
        drop_one(alloc, registers, last_uses, done, *r as usize);
    }
}

fn drop_from(alloc: Global, registers: &mut Vec<Bytes>, last_uses: &[u32], done: usize, from: usize)
    ensures dropped { AreOver last_uses.now done
        (nat_le from) registers.old.items registers.new.items }
    ensures capacity { vec_capacity registers.new ≡ vec_capacity registers.old }
{
    for r in from..registers.len() {
        drop_one(alloc, registers, last_uses, done, r);
    }
}

/// Drops one register's bytes, where it is over.
fn drop_one(alloc: Global, registers: &mut Vec<Bytes>, last_uses: &[u32], done: usize, r: usize)
    ensures dropped { AreOver last_uses.now done (λ k.
        r == k) registers.old.items registers.new.items }
    ensures capacity { vec_capacity registers.new ≡ vec_capacity registers.old }
{
    if r < registers.len() && is_over(last_uses, done, r) {
        registers[r] = empty(alloc);
    }
}

/// Whether no instruction after so many reads a register.
fn is_over(last_uses: &[u32], done: usize, r: usize) -> bool
    ensures { result ≡ not (nat_lt done (slice_index last_uses.now r)) }
{
    match last_uses.get(r) {
        Some(last) => *last as usize <= done,
        None => true,
    }
}

fn empty(alloc: Global) -> Bytes
    ensures { result ≡ [] }
{
    Bytes::new(Vec::new(alloc))
}
