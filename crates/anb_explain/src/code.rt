//! The lines of a code, with the terms of registers.
ghost use Rattle.std.specs.Prelude.{◌≡◌, ◌≤◌, ◌<◌, ◌-◌, ◌++◌, map, length, slice_get, take, IfOk, IfSome, OnOk};
ghost use Rattle.std.specs.List.{AllByRecursion};
ghost use Rattle.anb_format.specs.Formats.{field_count};
ghost use Rattle.anb_term.specs.View.{tree_of};
ghost use Rattle.anb_code.specs.Registers.{count_written};
ghost use Rattle.anb_code.specs.Verified.{count_registers};
ghost use Rattle.anb_protocol.specs.Texts.{IsTermOf, term_text};
ghost use Rattle.anb_explain.specs.Explained.{code_text, line, note};
ghost use Rattle.anb_text.specs.RoleFiles.{instr_lines};
ghost use Rattle.anb_text.specs.Writing.{IsWritten};

use crate::writing::put_term;
use anb_base::{NoMemory, Sink};
use anb_code::{Instr, RoleCode};
use anb_format::Format;
use anb_protocol::Protocol;
use anb_term::Term;
use anb_text::{WriteNo, instr_text_behind, write_part};
use std::alloc::Global;

/// Writes the lines of a code's instructions. The terms are those of all registers.
pub(crate) fn write_code<K: Sink>(
    alloc: Global,
    snk: &mut K,
    protocol: &Protocol,
    code: &RoleCode,
    terms: &[Term],
) -> Result<(), WriteNo>
    requires terms { AllByRecursion (IsTermOf protocol.now) (map tree_of terms.now) }
    requires count { length terms.now ≡ count_registers code.now.formats code.now.instrs }
    ensures written { IsWritten (code_text protocol.now (map tree_of terms.now) code.now) result
        (K.written snk.old) (K.written snk.new) (K.faults snk.old) (K.faults snk.new) }
    ensures kept { K.kept snk.new ≡ K.kept snk.old }
{
    let formats = code.formats();
    let mut next = 0;
    for (i, instr) in code.instrs().iter().enumerate() {
        let end = next + count_written(formats, instr);
        let line = instr_text(
            alloc,
            protocol,
            code,
            i as u32 + 1,
            next as u32,
            &terms[next..end],
        );
        match write_part(snk, line) {
            Ok(()) => {}
            Err(no) => return Err(no),
        }
        next = end;
    }
    Ok(())
}

/// How many registers an instruction writes.
pub fn count_written(formats: &[Format], instr: &Instr) -> usize
    requires { AllByRecursion (λ format. field_count format.pieces ≤ 32) formats.now }
    ensures { result ≡ count_written formats.now instr.now }
{
    match instr {
        Instr::Parse(f, _) => match formats.get(*f as usize) {
            Some(format) => format.arity() as usize,
            None => 0,
        },
        Instr::Equal(_, _) | Instr::Send(_) => 0,
        _ => 1,
    }
}

/// The line of an instruction, numbered from 1, that writes registers with these terms, where those
/// before it write so many.
fn instr_text(
    alloc: Global,
    protocol: &Protocol,
    code: &RoleCode,
    at: u32,
    written: u32,
    terms: &[Term],
) -> Result<Vec<u8>, NoMemory>
    requires from_one { 0 < at }
    requires there { at ≤ length code.now.instrs }
    requires written { written ≡ count_registers code.now.formats (take (at - 1) code.now.instrs) }
    requires terms { AllByRecursion (IsTermOf protocol.now) (map tree_of terms.now) }
    ensures { IfOk result (λ bytes. IfSome (slice_get (instr_lines code.now) (at - 1)) (λ said.
        bytes.items ≡ line
        (said ++ note (map (term_text protocol.now) (map tree_of terms.now))))) }
{
    let mut out = instr_text_behind(alloc, code, at, written)?.into_vec();
    put_note(alloc, &mut out, protocol, terms)?;
    out.push(b'\n')?;
    Ok(out)
}

/// Appends the note of what is written.
fn put_note(
    alloc: Global,
    out: &mut Vec<u8>,
    protocol: &Protocol,
    terms: &[Term],
) -> Result<(), NoMemory>
    requires { AllByRecursion (IsTermOf protocol.now) (map tree_of terms.now) }
    ensures { OnOk result (out.new.items
        ≡ out.old.items ++ note (map (term_text protocol.now) (map tree_of terms.now))) }
{
    if terms.is_empty() {
        return Ok(());
    }
    out.extend_from_slice(b" #")?;
    for term in terms {
        put_term(alloc, out, protocol, term)?;
    }
    Ok(())
}
