//! The lines of instructions.
ghost use Rattle.std.specs.Prelude.{◌≡◌, ◌+◌, ◌<◌, ◌≤◌, ◌^◌, ◌++◌, IfOk, OnOk, Some, drop, length, map, slice_get, take};
ghost use Rattle.anb_term.specs.View.{tree_of};
ghost use Rattle.anb_text.specs.Lines.{instr_line};
ghost use Rattle.anb_code.specs.Spelling.{raw_instr};
ghost use Rattle.anb_code.specs.Verified.{count_registers};
ghost use Rattle.anb_trace.specs.Tracing.{IsOurs, subject_in};
ghost use Rattle.anb_trace.specs.Words.{instr_lines};

use crate::subject::Subject;
use crate::values::put_value_lines;
use anb_base::{Bytes, NoMemory};
use anb_code::Instr;
use anb_explain::Explanation;
use anb_term::Term;
use anb_text::instr_text_behind;
use std::alloc::Global;

/// Appends the line of the instruction at this place, which writes these values into the registers from
/// `first` on, and their lines.
pub(crate) fn put_instr_lines(
    alloc: Global,
    out: &mut Vec<u8>,
    subject: &Subject<'_>,
    at: usize,
    instr: &Instr,
    first: u32,
    values: &[Bytes],
) -> Result<(), NoMemory>
    requires ours { IsOurs subject.now }
    requires at { slice_get subject.now.code.now.instrs at ≡ Some instr.now }
    requires few { at + 1 < 2 ^ 32 }
    requires first { first ≡ count_registers subject.now.code.now.formats
        (take at subject.now.code.now.instrs) }
    ensures { OnOk result (out.new.items
        ≡ out.old.items ++ instr_lines (subject_in subject.now) instr.now first values.now) }
{
    let text = said(alloc, subject, at, instr, first)?;
    let terms = terms_from(subject.explanation, first);
    out.extend_from_slice(b"  ")?;
    out.extend_from_slice(text.as_slice())?;
    out.push(b'\n')?;
    put_value_lines(alloc, out, subject.protocol, terms, values)
}

/// The instruction at this place, as role files have it.
fn said(
    alloc: Global,
    subject: &Subject<'_>,
    at: usize,
    instr: &Instr,
    first: u32,
) -> Result<Bytes, NoMemory>
    requires at { slice_get subject.now.code.now.instrs at ≡ Some instr.now }
    requires few { at + 1 < 2 ^ 32 }
    requires first { first ≡ count_registers subject.now.code.now.formats
        (take at subject.now.code.now.instrs) }
    ensures { IfOk result (λ text.
        text ≡ instr_line (raw_instr subject.now.code.now.formats first instr.now)) }
{
    instr_text_behind(alloc, subject.code, at as u32 + 1, first)
}

/// The terms of the registers from one on.
fn terms_from(explanation: &Explanation, first: u32) -> &[Term]
    requires { first ≤ length explanation.now.terms }
    ensures { map tree_of result.now ≡ drop first explanation.now.terms }
{
    &explanation.terms()[first as usize..]
}
