//! Instructions that work on registers alone.
ghost use Rattle.std.specs.Prelude.{◌≡◌, ◌≤◌, ◌++◌, length, true, false, vec_capacity, IfOk, OnErr, Some, None, option_map, if◌then◌else◌};
ghost use Rattle.anb_format.specs.Formats.{field_count};
ghost use Rattle.anb_plays.specs.Codes.{make, undo, equal};
ghost use Rattle.anb_plays.specs.Exec.{worked, IsReady};
ghost use Rattle.anb_code.specs.Meaning.{act_of};
ghost use Rattle.anb_machine.specs.Standing.{IsWorkReady, IsWorkDone};
ghost use Rattle.anb_machine.specs.Works.{HasFewFields};

use anb_base::NoMemory;
use anb_code::Instr;
use anb_format::Format;
use anb_term::{Algebra, Op};
use std::alloc::Global;

/// Does an instruction that works on registers. The answer is whether its demand is true.
pub fn work<A: Algebra>(
    algebra: &A,
    alloc: Global,
    formats: &[Format],
    registers: &mut Vec<A::Value>,
    instr: &Instr,
) -> Result<bool, NoMemory>
    requires ready { IsWorkReady (A.meaning algebra.now).has (length registers.old.items)
        (act_of formats.now instr.now) }
    requires few { HasFewFields formats.now instr.now }
    ensures done { IfOk result (λ went.
        IsWorkDone (A.meaning algebra.now) registers.old.items
        (act_of formats.now instr.now) went registers.new.items) }
    ensures stays { IfOk result (λ went. went ≡ false → registers.new.items ≡ registers.old.items) }
    ensures err { OnErr result (registers.new.items ≡ registers.old.items) }
    ensures capacity { vec_capacity registers.old ≤ vec_capacity registers.new }
{
    match instr {
        Instr::Hash(body) => make_into(algebra, alloc, registers, Op::Hash, &[*body]),
        Instr::Mac(key, body) => make_into(algebra, alloc, registers, Op::Mac, &[*key, *body]),
        Instr::Seal(key, body) => make_into(algebra, alloc, registers, Op::Seal, &[*key, *body]),
        Instr::Wrap(key, context, body) => {
            make_into(
                algebra,
                alloc,
                registers,
                Op::Wrap,
                &[*key, *context, *body],
            )
        }
        Instr::Build(format, operands) => {
            let operands = operands.as_slice();
            let op = Op::Format {
                index: *format,
                arity: operands.len() as u16,
            };
            make_into(algebra, alloc, registers, op, operands)
        }
        Instr::Unseal(key, sealed) => {
            undo_into(algebra, alloc, registers, Op::Seal, &[*key], *sealed)
        }
        Instr::Unwrap(key, context, wrapped) => {
            undo_into(
                algebra,
                alloc,
                registers,
                Op::Wrap,
                &[*key, *context],
                *wrapped,
            )
        }
        Instr::Parse(format, of) => {
            let op = Op::Format {
                index: *format,
                arity: formats[*format as usize].arity(),
            };
            undo_into(algebra, alloc, registers, op, &[], *of)
        }
        Instr::Equal(a, b) => Ok(algebra.same(registers, *a, *b)),
        Instr::Take(_) | Instr::Fresh | Instr::Recv | Instr::Send(_) => Ok(true),
    }
}

/// Writes what an operator gives into the next register.
fn make_into<A: Algebra>(
    algebra: &A,
    alloc: Global,
    registers: &mut Vec<A::Value>,
    op: Op,
    operands: &[u32],
) -> Result<bool, NoMemory>
    requires { IsReady (A.meaning algebra.now).has (length registers.old.items)
        (make op operands.now) }
    ensures done { IfOk result (λ went.
        option_map (λ ws. registers.old.items ++ ws)
        (worked (A.meaning algebra.now) registers.old.items (make op operands.now))
        ≡ Some registers.new.items) }
    ensures went { IfOk result (λ went. went ≡ true) }
    ensures err { OnErr result (registers.new.items ≡ registers.old.items) }
    ensures capacity { vec_capacity registers.old ≤ vec_capacity registers.new }
{
    let value = algebra.build(alloc, op, registers, operands)?;
    registers.push(value)?;
    Ok(true)
}

/// Writes the parts of a value into the next registers, where it can be undone.
fn undo_into<A: Algebra>(
    algebra: &A,
    alloc: Global,
    registers: &mut Vec<A::Value>,
    op: Op,
    keys: &[u32],
    of: u32,
) -> Result<bool, NoMemory>
    requires { IsReady (A.meaning algebra.now).has (length registers.old.items)
        (undo op keys.now of) }
    ensures done { IfOk result (λ went.
        option_map (λ ws. registers.old.items ++ ws)
        (worked (A.meaning algebra.now) registers.old.items (undo op keys.now of))
        ≡ (if went then Some registers.new.items else None)) }
    ensures stays { IfOk result (λ went. went ≡ false → registers.new.items ≡ registers.old.items) }
    ensures err { OnErr result (registers.new.items ≡ registers.old.items) }
    ensures capacity { vec_capacity registers.old ≤ vec_capacity registers.new }
{
    match algebra.undo(alloc, op, registers, keys, of)? {
        None => Ok(false),
        Some(mut parts) => {
            registers.append(&mut parts)?;
            Ok(true)
        }
    }
}
