//! Which of two registers has what is due, and which what came.
ghost use Rattle.std.specs.Prelude.{◌≡◌, ◌≤◌, ◌<◌, ◌^◌, ◌+◌, ◌++◌, replicate, slice_index, IfOk, OnOk, IfSome, IfNone, Some, None};
ghost use Rattle.anb_trace.specs.Arrivals.{arrival_of, comes_first, last_arrivals, latest, rank, rank_at, ranks_first, received_by, writer};

use anb_base::NoMemory;
use anb_code::{Instr, RoleCode};
use anb_explain::count_written;
use std::alloc::Global;

/// For each register of a code the number of the last arrival that it is made of, from 1, or 0 where
/// none is in it. One pass.
pub(crate) fn last_arrivals(alloc: Global, code: &RoleCode) -> Result<Vec<u32>, NoMemory>
    ensures { IfOk result (λ arrivals. arrivals.items ≡ last_arrivals code.now) }
{
    let formats = code.formats();
    let mut arrivals = Vec::new(alloc);
    let mut received = 0;
    for instr in code.instrs() {
        let arrival = arrival_of(&arrivals, received, instr);
        put_copies(&mut arrivals, arrival, count_written(formats, instr))?;
        received += received_by(instr);
    }
    Ok(arrivals)
}

/// Appends a number so many times.
fn put_copies(numbers: &mut Vec<u32>, number: u32, count: usize) -> Result<(), NoMemory>
    ensures { OnOk result (numbers.new.items ≡ numbers.old.items ++ replicate count number) }
{
    for done in 0..count {
        numbers.push(number)?;
    }
    Ok(())
}

/// The last arrival in what an instruction writes.
fn arrival_of(arrivals: &[u32], received: u32, instr: &Instr) -> u32
    requires { received + 1 < 2 ^ 32 }
    ensures { result ≡ arrival_of arrivals.now received instr.now }
{
    match instr {
        Instr::Take(_) | Instr::Fresh => 0,
        Instr::Recv => received + 1,
        Instr::Hash(r) | Instr::Parse(_, r) | Instr::Send(r) => latest(arrivals, &[*r]),
        Instr::Mac(a, b) | Instr::Seal(a, b) | Instr::Unseal(a, b) | Instr::Equal(a, b) => {
            latest(arrivals, &[*a, *b])
        }
        Instr::Wrap(a, b, c) | Instr::Unwrap(a, b, c) => latest(arrivals, &[*a, *b, *c]),
        Instr::Build(_, operands) => latest(arrivals, operands.as_slice()),
    }
}

/// The latest of the arrivals in these registers.
fn latest(arrivals: &[u32], registers: &[u32]) -> u32
    ensures { result ≡ latest arrivals.now registers.now }
{
    let mut last = 0;
    for register in registers {
        let arrival = arrival_at(arrivals, *register);
        if last < arrival {
            last = arrival;
        }
    }
    last
}

/// How many arrivals an instruction takes.
fn received_by(instr: &Instr) -> u32
    ensures is { result ≡ received_by instr.now }
    ensures few { result ≤ 1 }
{
    match instr {
        Instr::Recv => 1,
        _ => 0,
    }
}

/// The last arrival in a register, where those of all registers are given.
pub(crate) fn arrival_at(arrivals: &[u32], register: u32) -> u32
    ensures { result ≡ slice_index arrivals.now register }
{
    match arrivals.get(register as usize) {
        Some(arrival) => *arrival,
        None => 0,
    }
}

/// Whether the first of two registers has what is due.
pub(crate) fn comes_first(code: &RoleCode, arrivals: &[u32], a: u32, b: u32) -> bool
    requires { arrivals.now ≡ last_arrivals code.now }
    ensures { result ≡ comes_first code.now a b }
{
    let (x, y) = (arrival_at(arrivals, a), arrival_at(arrivals, b));
    if x == y {
        ranks_first(code, a, b)
    } else {
        x < y
    }
}

/// Whether the first of two registers has what is due, where the last arrival in both is the same.
fn ranks_first(code: &RoleCode, a: u32, b: u32) -> bool
    ensures { result ≡ ranks_first code.now a b }
{
    let (x, y) = (rank_at(code, a), rank_at(code, b));
    x < y || (x == y && a < b)
}

/// The rank of a register.
fn rank_at(code: &RoleCode, register: u32) -> u32
    ensures { result ≡ rank_at code.now register }
{
    match writer(code, register) {
        Some(instr) => rank(instr),
        None => 0,
    }
}

/// The rank of a register that this instruction writes.
fn rank(instr: &Instr) -> u32
    ensures { result ≡ rank instr.now }
{
    match instr {
        Instr::Take(_) | Instr::Fresh => 0,
        Instr::Recv | Instr::Unseal(_, _) | Instr::Unwrap(_, _, _) | Instr::Parse(_, _) => 2,
        _ => 1,
    }
}

/// The instruction that writes a register.
pub(crate) fn writer(code: &RoleCode, register: u32) -> Option<&Instr>
    ensures some { IfSome result (λ instr.
        writer code.now.formats code.now.instrs register ≡ Some instr.now) }
    ensures none { IfNone result (writer code.now.formats code.now.instrs register ≡ None) }
{
    let formats = code.formats();
    let mut left = register as usize;
    for instr in code.instrs() {
        let count = count_written(formats, instr);
        if left < count {
            return Some(instr);
        }
        left -= count;
    }
    None
}
