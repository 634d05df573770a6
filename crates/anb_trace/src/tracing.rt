//! Traces, written an instruction at a time.
ghost use Rattle.std.specs.Prelude.{◌≡◌, length, map, IfOk};
ghost use Rattle.anb_term.specs.View.{tree_of};
ghost use Rattle.anb_code.specs.Taking.{take_texts};
ghost use Rattle.anb_explain.specs.Explanations.{AreOurs};
ghost use Rattle.anb_seal.specs.Streams.{draw_of};
ghost use Rattle.anb_text.specs.Writing.{IsWritten};
ghost use Rattle.anb_trace.specs.Traces.{known_lines, told_all, trace};
ghost use Rattle.anb_trace.specs.Tracing.{IsOurs, subject_in};
ghost use Rattle.anb_trace.specs.Words.{subject_of};

use crate::steps::{Standing, Told, step};
use crate::subject::Subject;
use crate::values::put_value_lines;
use anb_base::{Bytes, NoMemory, Sink};
use anb_code::RoleCode;
use anb_explain::{Explanation, count_written};
use anb_protocol::Protocol;
use anb_text::{WriteNo, write_bytes, write_part};
use std::alloc::Global;

/// Writes the trace of a code's run over these arrivals, with these initial values and the draws of
/// the session. In memory are all registers, and what is told of one instruction at a time.
pub fn write_trace<K: Sink>(
    alloc: Global,
    snk: &mut K,
    protocol: &Protocol,
    code: &RoleCode,
    explanation: &Explanation,
    initial: &[Bytes],
    seed: &[u8; 32],
    session: u32,
    arrivals: &[Bytes],
) -> Result<(), WriteNo>
    requires ours { AreOurs protocol.now code.now explanation.now }
    requires count { length initial.now ≡ length (take_texts code.now.instrs) }
    ensures written { IsWritten
        (trace (subject_of protocol.now code.now explanation.now) initial.now seed.now session
        arrivals.now)
        result (K.written snk.old) (K.written snk.new) (K.faults snk.old) (K.faults snk.new) }
    ensures kept { K.kept snk.new ≡ K.kept snk.old }
{
    let subject = Subject {
        protocol,
        code,
        explanation,
    };
    match write_part(snk, known_lines(alloc, &subject, initial)) {
        Ok(()) => {}
        Err(no) => return Err(no),
    }
    match copies(alloc, initial) {
        Ok(registers) => write_run(alloc, snk, &subject, registers, seed, session, arrivals),
        Err(NoMemory) => Err(WriteNo::NoMemory),
    }
}

/// What is known at the beginning.
fn known_lines(alloc: Global, subject: &Subject<'_>, initial: &[Bytes]) -> Result<Vec<u8>, NoMemory>
    requires { IsOurs subject.now }
    ensures { IfOk result (λ bytes.
        bytes.items ≡ known_lines (subject_in subject.now) initial.now) }
{
    let mut out = Vec::from_slice(alloc, b"event 0\n  known\n")?;
    let terms = subject.explanation.terms();
    put_value_lines(alloc, &mut out, subject.protocol, terms, initial)?;
    Ok(out)
}

/// The same values again.
fn copies(alloc: Global, values: &[Bytes]) -> Result<Vec<Bytes>, NoMemory>
    ensures { IfOk result (λ copies. copies.items ≡ values.now) }
{
    let mut out = Vec::with_capacity(alloc, values.len())?;
    for value in values {
        out.push(value.copy(alloc)?)?;
    }
    Ok(out)
}

/// Writes what is told of all instructions, where these registers were written before.
fn write_run<K: Sink>(
    alloc: Global,
    snk: &mut K,
    subject: &Subject<'_>,
    registers: Vec<Bytes>,
    seed: &[u8; 32],
    session: u32,
    arrivals: &[Bytes],
) -> Result<(), WriteNo>
    requires ours { IsOurs subject.now }
    requires count { length registers.items ≡ length (take_texts subject.now.code.now.instrs) }
    ensures written { IsWritten
        (told_all (subject_in subject.now) (draw_of seed.now session) subject.now.code.now.instrs
        registers.items 0 0 0 0 arrivals.now)
        result (K.written snk.old) (K.written snk.new) (K.faults snk.old) (K.faults snk.new) }
    ensures kept { K.kept snk.new ≡ K.kept snk.old }
{
    let formats = subject.code.formats();
    let mut standing = Standing {
        registers,
        events: 0,
        drawn: 0,
        arrivals,
    };
    let mut first = 0;
    for (at, instr) in subject.code.instrs().iter().enumerate() {
        let Told { text, goes_on } = match step(
            alloc,
            subject,
            seed,
            session,
            &mut standing,
            instr,
            at,
            first,
        ) {
            Ok(told) => told,
            Err(NoMemory) => return Err(WriteNo::NoMemory),
        };
        match write_bytes(snk, &text) {
            Ok(()) => {}
            Err(no) => return Err(no),
        }
        if !goes_on {
            return Ok(());
        }
        first += count_written(formats, instr) as u32;
    }
    write_bytes(snk, b"done\n")
}
