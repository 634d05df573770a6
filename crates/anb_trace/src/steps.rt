//! One instruction of a trace.
ghost use Rattle.std.specs.Prelude.{◌≡◌, ◌+◌, ◌<◌, ◌≤◌, ◌^◌, ◌++◌, [], IfOk, OnOk, Some, codes, decimal, length, slice_get, take};
ghost use Rattle.anb_algebra.specs.ByteMeaning.{has_operator};
ghost use Rattle.anb_code.specs.Meaning.{act_of};
ghost use Rattle.anb_code.specs.Verified.{count_registers};
ghost use Rattle.anb_plays.specs.Plays.{stopped, waiting};
ghost use Rattle.anb_machine.specs.Standing.{IsWorkReady};
ghost use Rattle.anb_machine.specs.Works.{HasFewFields};
ghost use Rattle.anb_trace.specs.Traces.{end_line};
ghost use Rattle.anb_trace.specs.Tracing.{HasWritten, IsActReady, IsOurs, IsWithin, Tells, subject_in};
ghost use Rattle.anb_trace.specs.Tracing.{TellsDraw, TellsReceive, TellsSend, TellsWork};
ghost use Rattle.anb_trace.specs.Words.{why};

use crate::events::put_event_line;
use crate::instrs::put_instr_lines;
use crate::reasons::put_reason;
use crate::subject::Subject;
use crate::values::put_bytes_line;
use anb_algebra::ByteAlgebra;
use anb_base::{Bytes, NoMemory};
use anb_code::Instr;
use anb_machine::do_work;
use anb_seal::draw;
use itoa::Buffer;
use std::alloc::Global;

/// Where a trace stands: the registers, the sends and receives and the draws so far, and the arrivals
/// to come.
#[derive(Drop)]
pub(crate) struct Standing<'t> {
    pub(crate) registers: Vec<Bytes>,
    pub(crate) events: u32,
    pub(crate) drawn: u32,
    pub(crate) arrivals: &'t [Bytes],
}

/// What is told of an instruction, and whether more follows.
#[derive(Drop)]
pub(crate) struct Told {
    pub(crate) text: Vec<u8>,
    pub(crate) goes_on: bool,
}

/// Does an instruction, the next one behind so many, whose first register has this number.
pub(crate) fn step(
    alloc: Global,
    subject: &Subject<'_>,
    seed: &[u8; 32],
    session: u32,
    standing: &mut Standing<'_>,
    instr: &Instr,
    at: usize,
    first: u32,
) -> Result<Told, NoMemory>
    requires ours { IsOurs subject.now }
    requires at { slice_get subject.now.code.now.instrs at ≡ Some instr.now }
    requires first { first ≡ count_registers subject.now.code.now.formats
        (take at subject.now.code.now.instrs) }
    requires within { IsWithin standing.old at }
    requires few { at + 1 < 2 ^ 32 }
    requires ready { IsActReady (has_operator subject.now.code.now.formats)
        (length standing.old.registers.items) (act_of subject.now.code.now.formats instr.now) }
    requires fields { HasFewFields subject.now.code.now.formats instr.now }
    ensures tells { IfOk result (λ told. Tells (subject_in subject.now) seed.now session
        instr.now first at standing.old told standing.new) }
    ensures written { IfOk result (λ told. HasWritten
        (act_of subject.now.code.now.formats instr.now) standing.old told standing.new) }
    ensures within { IfOk result (λ told. IsWithin standing.new (at + 1)) }
{
    match instr {
        Instr::Take(_) => Ok(Told {
            text: Vec::new(alloc),
            goes_on: true,
        }),
        Instr::Fresh => draws(alloc, subject, seed, session, standing, instr, at, first),
        Instr::Recv => receives(alloc, subject, standing),
        Instr::Send(register) => sends(alloc, subject, standing, *register),
        _ => works(alloc, subject, standing, instr, at, first),
    }
}

/// Writes the next draw.
fn draws(
    alloc: Global,
    subject: &Subject<'_>,
    seed: &[u8; 32],
    session: u32,
    standing: &mut Standing<'_>,
    instr: &Instr,
    at: usize,
    first: u32,
) -> Result<Told, NoMemory>
    requires ours { IsOurs subject.now }
    requires at { slice_get subject.now.code.now.instrs at ≡ Some instr.now }
    requires first { first ≡ count_registers subject.now.code.now.formats
        (take at subject.now.code.now.instrs) }
    requires few { at + 1 < 2 ^ 32 }
    requires drawn { standing.old.drawn ≤ at }
    ensures told { IfOk result (λ told. TellsDraw (subject_in subject.now) seed.now session
        instr.now first standing.old told standing.new) }
{
    let before = standing.registers.len();
    let nonce = Vec::from_slice(alloc, &draw(seed, session, standing.drawn))?;
    standing.registers.push(Bytes::new(nonce))?;
    standing.drawn += 1;
    let mut text = Vec::new(alloc);
    let values = &standing.registers[before..];
    put_instr_lines(alloc, &mut text, subject, at, instr, first, values)?;
    Ok(Told {
        text,
        goes_on: true,
    })
}

/// Takes the next arrival, or waits for it.
fn receives(
    alloc: Global,
    subject: &Subject<'_>,
    standing: &mut Standing<'_>,
) -> Result<Told, NoMemory>
    requires ours { IsOurs subject.now }
    requires few { standing.old.events + 1 < 2 ^ 32 }
    ensures told { IfOk result (λ told.
        TellsReceive (subject_in subject.now) standing.old told standing.new) }
{
    let mut text = Vec::new(alloc);
    let Subject {
        protocol,
        explanation,
        ..
    } = subject;
    put_event_line(
        alloc,
        &mut text,
        protocol,
        explanation.events(),
        standing.events,
    )?;
    standing.events += 1;
    let [arrival, rest @ ..] = standing.arrivals else {
        put_waiting(&mut text, standing.events)?;
        return Ok(Told {
            text,
            goes_on: false,
        });
    };
    put_bytes_line(alloc, &mut text, arrival.as_slice())?;
    standing.registers.push(arrival.copy(alloc)?)?;
    standing.arrivals = rest;
    Ok(Told {
        text,
        goes_on: true,
    })
}

/// Appends that a run waits.
fn put_waiting(out: &mut Vec<u8>, event: u32) -> Result<(), NoMemory>
    ensures { OnOk result (out.new.items ≡ out.old.items ++ end_line (waiting event) []) }
{
    let mut buffer = Buffer::new();
    out.extend_from_slice(b"waiting at event ")?;
    out.extend_from_slice(buffer.format(event).as_bytes())?;
    out.push(b'\n')?;
    Ok(())
}

/// Sends a register.
fn sends(
    alloc: Global,
    subject: &Subject<'_>,
    standing: &mut Standing<'_>,
    register: u32,
) -> Result<Told, NoMemory>
    requires ours { IsOurs subject.now }
    requires few { standing.old.events + 1 < 2 ^ 32 }
    ensures told { IfOk result (λ told.
        TellsSend (subject_in subject.now) register standing.old told standing.new) }
{
    let mut text = Vec::new(alloc);
    let Subject {
        protocol,
        explanation,
        ..
    } = subject;
    put_event_line(
        alloc,
        &mut text,
        protocol,
        explanation.events(),
        standing.events,
    )?;
    if let Some(bytes) = standing.registers.get(register as usize) {
        put_bytes_line(alloc, &mut text, bytes.as_slice())?;
    }
    standing.events += 1;
    Ok(Told {
        text,
        goes_on: true,
    })
}

/// Works on registers, and stops where the demand fails.
fn works(
    alloc: Global,
    subject: &Subject<'_>,
    standing: &mut Standing<'_>,
    instr: &Instr,
    at: usize,
    first: u32,
) -> Result<Told, NoMemory>
    requires ours { IsOurs subject.now }
    requires at { slice_get subject.now.code.now.instrs at ≡ Some instr.now }
    requires first { first ≡ count_registers subject.now.code.now.formats
        (take at subject.now.code.now.instrs) }
    requires few { at + 1 < 2 ^ 32 }
    requires ready { IsWorkReady (has_operator subject.now.code.now.formats)
        (length standing.old.registers.items) (act_of subject.now.code.now.formats instr.now) }
    requires fields { HasFewFields subject.now.code.now.formats instr.now }
    ensures told { IfOk result (λ told. TellsWork (subject_in subject.now)
        (act_of subject.now.code.now.formats instr.now) instr.now
        first at standing.old told standing.new) }
{
    let code = subject.code;
    let algebra = ByteAlgebra::new(code.formats(), code.suite());
    let before = standing.registers.len();
    let went = do_work(
        &algebra,
        alloc,
        code.formats(),
        &mut standing.registers,
        instr,
    )?;
    let mut text = Vec::new(alloc);
    if went {
        let values = &standing.registers[before..];
        put_instr_lines(alloc, &mut text, subject, at, instr, first, values)?;
        return Ok(Told {
            text,
            goes_on: true,
        });
    }
    put_instr_lines(alloc, &mut text, subject, at, instr, first, &[])?;
    put_stop(alloc, &mut text, subject, standing, instr, at)?;
    Ok(Told {
        text,
        goes_on: false,
    })
}

/// Appends that an instruction failed, and why.
fn put_stop(
    alloc: Global,
    out: &mut Vec<u8>,
    subject: &Subject<'_>,
    standing: &Standing<'_>,
    instr: &Instr,
    at: usize,
) -> Result<(), NoMemory>
    requires ours { IsOurs subject.now }
    requires few { at + 1 < 2 ^ 32 }
    ensures { OnOk result (out.new.items ≡ out.old.items
        ++ end_line (stopped standing.now.events (at + 1))
        (why (subject_in subject.now) standing.now.registers.items instr.now)) }
{
    put_stopped(out, standing.events)?;
    put_place(out, at)?;
    put_reason(alloc, out, subject, &standing.registers, instr)?;
    out.push(b'\n')?;
    Ok(())
}

/// Appends the event of a stop.
fn put_stopped(out: &mut Vec<u8>, event: u32) -> Result<(), NoMemory>
    ensures { OnOk result (out.new.items
        ≡ out.old.items ++ (codes "stopped at event " ++ decimal event)) }
{
    let mut buffer = Buffer::new();
    out.extend_from_slice(b"stopped at event ")?;
    out.extend_from_slice(buffer.format(event).as_bytes())?;
    Ok(())
}

/// Appends the number of the instruction at this place.
fn put_place(out: &mut Vec<u8>, at: usize) -> Result<(), NoMemory>
    requires { at + 1 < 2 ^ 32 }
    ensures { OnOk result (out.new.items
        ≡ out.old.items ++ (codes ", instruction " ++ (decimal (at + 1) ++ codes ": "))) }
{
    let mut buffer = Buffer::new();
    out.extend_from_slice(b", instruction ")?;
    out.extend_from_slice(buffer.format(at + 1).as_bytes())?;
    out.extend_from_slice(b": ")?;
    Ok(())
}
