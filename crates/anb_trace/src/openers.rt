//! What else opens bytes that were sealed or wrapped.
ghost use Rattle.std.specs.Prelude.{◌≡◌, ◌∷◌, [], IfOk, None, Some, length, nat_lt, slice_set};
ghost use Rattle.anb_trace.specs.Openers.{context_of, first_below, key_of, opens, seal_key, wrap_context, wrap_key};
ghost use Rattle.anb_trace.specs.Trying.{IsMarked, is_opener, opens_with, use_of};

use anb_algebra::ByteAlgebra;
use anb_base::{Bytes, NoMemory};
use anb_code::{Instr, RoleCode};
use anb_term::{Algebra, Op};
use std::alloc::Global;

/// What is tried on the bytes of a register: other keys on a seal, other keys with a context on a
/// wrapping, or other contexts with a key.
#[derive(Clone, Copy, Drop)]
pub(crate) enum Trial {
    SealKeys { of: u32 },
    WrapKeys { context: u32, of: u32 },
    WrapContexts { key: u32, of: u32 },
}

/// The first key that unseals a register. This and the two below take one look at each instruction
/// and at each register, and one opening for each register that the code uses as a key, or as a
/// context.
#[tactic(auto, unfolding(crate::specs::Openers::seal_key))]
pub(crate) fn seal_key(
    alloc: Global,
    code: &RoleCode,
    registers: &[Bytes],
    of: u32,
) -> Result<Option<u32>, NoMemory>
    ensures { IfOk result (λ key. key ≡ seal_key code.now registers.now of) }
{
    opener(alloc, code, registers, Trial::SealKeys { of })
}

/// The first key that unwraps a register with this context.
#[tactic(auto, unfolding(crate::specs::Openers::wrap_key))]
pub(crate) fn wrap_key(
    alloc: Global,
    code: &RoleCode,
    registers: &[Bytes],
    context: u32,
    of: u32,
) -> Result<Option<u32>, NoMemory>
    ensures { IfOk result (λ key. key ≡ wrap_key code.now registers.now context of) }
{
    opener(alloc, code, registers, Trial::WrapKeys { context, of })
}

/// The first context with which this key unwraps a register.
#[tactic(auto, unfolding(crate::specs::Openers::wrap_context))]
pub(crate) fn wrap_context(
    alloc: Global,
    code: &RoleCode,
    registers: &[Bytes],
    key: u32,
    of: u32,
) -> Result<Option<u32>, NoMemory>
    ensures { IfOk result (λ context. context ≡ wrap_context code.now registers.now key of) }
{
    opener(alloc, code, registers, Trial::WrapContexts { key, of })
}

/// The first register that opens the bytes of a trial.
fn opener(
    alloc: Global,
    code: &RoleCode,
    registers: &[Bytes],
    trial: Trial,
) -> Result<Option<u32>, NoMemory>
    ensures { IfOk result (λ r. r
        ≡ first_below (is_opener code.now registers.now trial) (length registers.now)) }
{
    let marks = marks(alloc, code.instrs(), registers.len(), trial)?;
    for mark in &marks {
        if let Some(register) = mark {
            if opens_with(alloc, code, registers, trial, *register)? {
                return Ok(Some(*register));
            }
        }
    }
    Ok(None)
}

/// For each of so many registers, its number where an instruction uses it as a trial does.
fn marks(
    alloc: Global,
    instrs: &[Instr],
    count: usize,
    trial: Trial,
) -> Result<Vec<Option<u32>>, NoMemory>
    ensures { IfOk result (λ marks. IsMarked (use_of trial) instrs.now count marks.items) }
{
    let mut marks = vec![in alloc; None; count]?;
    for instr in instrs {
        if let Some(register) = used(instr, trial) {
            mark(&mut marks, register);
        }
    }
    Ok(marks)
}

/// Marks a register with its number.
fn mark(marks: &mut Vec<Option<u32>>, register: u32)
    ensures { marks.new.items ≡ slice_set marks.old.items register (Some register) }
{
    if let Some(mark) = marks.get_mut(register as usize) {
        *mark = Some(register);
    }
}

/// The register that an instruction uses as a trial does.
fn used(instr: &Instr, trial: Trial) -> Option<u32>
    ensures { result ≡ use_of trial instr.now }
{
    match trial {
        Trial::SealKeys { .. } | Trial::WrapKeys { .. } => key_of(instr),
        Trial::WrapContexts { .. } => context_of(instr),
    }
}

/// The register that an instruction uses as a key.
fn key_of(instr: &Instr) -> Option<u32>
    ensures { result ≡ key_of instr.now }
{
    match instr {
        Instr::Mac(key, _) | Instr::Seal(key, _) | Instr::Unseal(key, _) => Some(*key),
        Instr::Wrap(key, _, _) | Instr::Unwrap(key, _, _) => Some(*key),
        _ => None,
    }
}

/// The register that an instruction uses as a context.
fn context_of(instr: &Instr) -> Option<u32>
    ensures { result ≡ context_of instr.now }
{
    match instr {
        Instr::Wrap(_, context, _) | Instr::Unwrap(_, context, _) => Some(*context),
        _ => None,
    }
}

/// Whether a register opens the bytes of a trial.
fn opens_with(
    alloc: Global,
    code: &RoleCode,
    registers: &[Bytes],
    trial: Trial,
    register: u32,
) -> Result<bool, NoMemory>
    ensures { IfOk result (λ yes. yes ≡ opens_with code.now registers.now trial register) }
{
    match trial {
        Trial::SealKeys { of } => unseals(alloc, code, registers, register, of),
        Trial::WrapKeys { context, of } => unwraps(alloc, code, registers, register, context, of),
        Trial::WrapContexts { key, of } => unwraps(alloc, code, registers, key, register, of),
    }
}

/// Whether a key unseals a register.
fn unseals(
    alloc: Global,
    code: &RoleCode,
    registers: &[Bytes],
    key: u32,
    of: u32,
) -> Result<bool, NoMemory>
    ensures { IfOk result (λ yes. yes ≡ opens code.now registers.now Op.Seal (key ∷ []) of) }
{
    if !is_there(registers, key) || !is_there(registers, of) {
        return Ok(false);
    }
    let algebra = ByteAlgebra::new(code.formats(), code.suite());
    match algebra.undo(alloc, Op::Seal, registers, &[key], of) {
        Ok(parts) => Ok(parts.is_some()),
        Err(_) => Err(NoMemory),
    }
}

/// Whether a key unwraps a register with a context.
fn unwraps(
    alloc: Global,
    code: &RoleCode,
    registers: &[Bytes],
    key: u32,
    context: u32,
    of: u32,
) -> Result<bool, NoMemory>
    ensures { IfOk result (λ yes. yes
        ≡ opens code.now registers.now Op.Wrap (key ∷ context ∷ []) of) }
{
    if !is_there(registers, key) || !is_there(registers, context) || !is_there(registers, of) {
        return Ok(false);
    }
    let algebra = ByteAlgebra::new(code.formats(), code.suite());
    match algebra.undo(alloc, Op::Wrap, registers, &[key, context], of) {
        Ok(parts) => Ok(parts.is_some()),
        Err(_) => Err(NoMemory),
    }
}

/// Whether a register was written.
fn is_there(registers: &[Bytes], register: u32) -> bool
    ensures { result ≡ nat_lt register (length registers.now) }
{
    (register as usize) < registers.len()
}
