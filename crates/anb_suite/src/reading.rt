//! What a program reads behind a check that it lacks.
ghost use Rattle.std.specs.Prelude.{◌≡◌, List, map, IfOk};
ghost use Rattle.anb_code.specs.Meaning.{act_of};
ghost use Rattle.anb_code.specs.Verified.{HasItsFormat};
ghost use Rattle.anb_format.specs.Formats.{FormatValue};
ghost use Rattle.anb_suite.specs.Reading.{act_for, read_for};

use anb_base::NoMemory;
use anb_code::{Instr, Registers};
use std::alloc::Global;

/// Which of the two values that a check compares a program reads behind it, where it lacks the check.
#[derive(Clone, Copy, Debug, PartialEq, Eq, Drop)]
pub enum Reading {
    /// Each where the code reads it.
    Both,
    /// The first one for both.
    First,
    /// The second one for both.
    Second,
}

/// An instruction that reads one register for another.
pub(crate) fn read_for(
    alloc: Global,
    instr: &Instr,
    gone: u32,
    used: u32,
) -> Result<Instr, NoMemory>
    ensures act { IfOk result (λ x. (formats : List FormatValue)
        → act_of formats x ≡ act_for gone used (act_of formats instr.now)) }
    ensures format { IfOk result (λ x. (formats : List FormatValue)
        → HasItsFormat formats instr.now → HasItsFormat formats x) }
{
    match instr {
        Instr::Take(text) => Ok(Instr::Take(text.copy(alloc)?)),
        Instr::Fresh => Ok(Instr::Fresh),
        Instr::Recv => Ok(Instr::Recv),
        Instr::Build(f, operands) => {
            let operands = read_all(alloc, operands.as_slice(), gone, used)?;
            Ok(Instr::Build(*f, Registers::new(operands)))
        }
        Instr::Hash(m) => Ok(Instr::Hash(read(*m, gone, used))),
        Instr::Mac(k, m) => Ok(Instr::Mac(read(*k, gone, used), read(*m, gone, used))),
        Instr::Seal(k, m) => Ok(Instr::Seal(read(*k, gone, used), read(*m, gone, used))),
        Instr::Unseal(k, c) => Ok(Instr::Unseal(read(*k, gone, used), read(*c, gone, used))),
        Instr::Wrap(k, d, m) => Ok(Instr::Wrap(
            read(*k, gone, used),
            read(*d, gone, used),
            read(*m, gone, used),
        )),
        Instr::Unwrap(k, d, c) => Ok(Instr::Unwrap(
            read(*k, gone, used),
            read(*d, gone, used),
            read(*c, gone, used),
        )),
        Instr::Parse(f, r) => Ok(Instr::Parse(*f, read(*r, gone, used))),
        Instr::Equal(a, b) => Ok(Instr::Equal(read(*a, gone, used), read(*b, gone, used))),
        Instr::Send(r) => Ok(Instr::Send(read(*r, gone, used))),
    }
}

/// A register, or the one that is read for it.
fn read(register: u32, gone: u32, used: u32) -> u32
    ensures { result ≡ read_for gone used register }
{
    if register == gone { used } else { register }
}

/// The same of each of these.
fn read_all(alloc: Global, registers: &[u32], gone: u32, used: u32) -> Result<Vec<u32>, NoMemory>
    ensures { IfOk result (λ all. all.items ≡ map (read_for gone used) registers.now) }
{
    let mut all = Vec::new(alloc);
    for register in registers {
        all.push(read(*register, gone, used))?;
    }
    Ok(all)
}
