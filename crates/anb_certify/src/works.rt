//! What instructions do on registers alone.
ghost use Rattle.std.specs.Prelude.{◌≡◌, ◌≤◌, false, slice_get, Some, IfOk, MatchOption};
ghost use Rattle.std.specs.List.{AllByRecursion};
ghost use Rattle.anb_format.specs.Formats.{FormatValue, field_count, pieces_at};
ghost use Rattle.anb_term.specs.declared.term.Op.TheVariants as op;
ghost use Rattle.anb_plays.specs.Codes.{works, make, undo};
ghost use Rattle.anb_code.specs.Meaning.{act_of};
ghost use Rattle.anb_code.specs.Verified.{HasItsFormat};
ghost use Rattle.anb_certify.specs.Certified.{is_work};
ghost use Rattle.anb_certify.specs.Works.{work_of};

use anb_base::NoMemory;
use anb_code::Instr;
use anb_format::Format;
use anb_term::Op;
use std::alloc::Global;

/// What an instruction does on registers alone.
#[derive(Drop)]
pub(crate) enum Job {
    /// An operator on registers.
    Make(Op, Vec<u32>),
    /// A register that is undone by an operator with keys.
    Undo(Op, Vec<u32>, u32),
    /// A comparison of two registers.
    Equal(u32, u32),
}

/// A job that was done, with the number of registers before it, which is the first that it writes.
#[derive(Drop)]
pub(crate) struct Done {
    pub(crate) at: u32,
    pub(crate) job: Job,
}

/// What an instruction does on registers alone, or None where it does an event.
pub(crate) fn job_of(
    alloc: Global,
    formats: &[Format],
    instr: &Instr,
) -> Result<Option<Job>, NoMemory>
    requires fields { AllByRecursion (λ format. field_count format.pieces ≤ 32) formats.now }
    requires format { HasItsFormat formats.now instr.now }
    ensures { IfOk result (λ job. MatchOption job (is_work instr.now ≡ false)
        (λ job. act_of formats.now instr.now ≡ works (work_of job))) }
{
    let job = match instr {
        Instr::Take(_) => return Ok(None),
        Instr::Fresh => return Ok(None),
        Instr::Recv => return Ok(None),
        Instr::Send(_) => return Ok(None),
        Instr::Equal(a, b) => Job::Equal(*a, *b),
        Instr::Hash(m) => made(alloc, Op::Hash, &[*m])?,
        Instr::Mac(k, m) => made(alloc, Op::Mac, &[*k, *m])?,
        Instr::Seal(k, m) => made(alloc, Op::Seal, &[*k, *m])?,
        Instr::Unseal(k, c) => undone(alloc, Op::Seal, &[*k], *c)?,
        Instr::Wrap(k, d, m) => made(alloc, Op::Wrap, &[*k, *d, *m])?,
        Instr::Unwrap(k, d, c) => undone(alloc, Op::Wrap, &[*k, *d], *c)?,
        Instr::Build(f, operands) => made(alloc, format_op(formats, *f), operands.as_slice())?,
        Instr::Parse(f, r) => undone(alloc, format_op(formats, *f), &[], *r)?,
    };
    Ok(Some(job))
}

fn made(alloc: Global, op: Op, operands: &[u32]) -> Result<Job, NoMemory>
    ensures { IfOk result (λ job. work_of job ≡ make op operands.now) }
{
    let mut copies = Vec::new(alloc);
    copies.extend_from_slice(operands)?;
    Ok(Job::Make(op, copies))
}

fn undone(alloc: Global, op: Op, keys: &[u32], of: u32) -> Result<Job, NoMemory>
    ensures { IfOk result (λ job. work_of job ≡ undo op keys.now of) }
{
    let mut copies = Vec::new(alloc);
    copies.extend_from_slice(keys)?;
    Ok(Job::Undo(op, copies, of))
}

/// The operator of the format at a place.
fn format_op(formats: &[Format], f: u16) -> Op
    requires fields { AllByRecursion (λ format. field_count format.pieces ≤ 32) formats.now }
    requires there { (format : FormatValue) × (slice_get formats.now f ≡ Some format) }
    ensures { result ≡ op.Format f (field_count (pieces_at formats.now f)) }
{
    Op::Format {
        index: f,
        arity: formats[f as usize].arity(),
    }
}
