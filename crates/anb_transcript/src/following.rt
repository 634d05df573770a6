//! Transcripts against runs, line by line.
ghost use Rattle.std.specs.Prelude.{◌≡◌, ◌+◌, ◌<◌, ◌≤◌, ◌^◌, ℕ, [], length, All, OnOk, IfErr, IsTrue, Ok};
ghost use Rattle.anb_machine.specs.Machines.{gives, waits};
ghost use Rattle.anb_transcript.specs.Replays.{IsDue, Replays, arrivals_of, due_after};
ghost use Rattle.anb_transcript.specs.Turns.{Covers, EndsAt, EndsBehind, IsShort};

use crate::transcript::{Transcript, TranscriptLine};
use anb_base::{ARRIVAL, Bytes};
use anb_machine::{Halt, Machine, Turn};
use std::alloc::Global;

/// What is due at a place of a run.
#[derive(Debug, Drop)]
pub enum Due {
    /// This message.
    Send(Bytes),
    /// An arrival.
    Receive,
    /// No further line.
    End,
}

/// How a transcript compares with a run. Lines are numbered from 1.
#[derive(Debug, Drop)]
pub enum ReplayEnd {
    /// The lines are what the run hears and sends, up to its end.
    Follows,
    /// This line isn't what is due there.
    Differs { line: u32, due: Due },
    /// The lines end before this event, which is their number and one.
    Short(u32),
    /// The run stops. The line is that of the last arrival before, or 0 where there is none.
    Stopped { halt: Halt, line: u32 },
    /// No memory was left.
    NoMemory,
}

/// Compares a transcript with what a machine does from where it stands, for a whole run a machine
/// that was newly started.
pub fn replay(alloc: Global, machine: &mut Machine<'_>, transcript: &Transcript) -> ReplayEnd
    requires few { length transcript.now + 1 < 2 ^ 32 }
    requires arrivals { All (λ arrival. length arrival ≤ ARRIVAL) (arrivals_of transcript.now) }
    ensures { Replays (gives machine.old) transcript.now result }
{
    let mut covered = 0;
    let mut heard = 0;
    for line in transcript.lines() {
        if let Err(end) = cover(alloc, machine, line, covered + 1, heard) {
            return end;
        }
        covered += 1;
        if let TranscriptLine::In(_) = line {
            heard = covered;
        }
    }
    end_behind(alloc, machine, covered, heard)
}

/// Covers the line of this number by the machine's next turn, or tells the end that it makes.
fn cover(
    alloc: Global,
    machine: &mut Machine<'_>,
    line: &TranscriptLine,
    number: u32,
    heard: u32,
) -> Result<(), ReplayEnd>
    requires { IsShort line.now }
    ensures covers { OnOk result (Covers (gives machine.old) (gives machine.new) line.now) }
    ensures ends { IfErr result (EndsAt (gives machine.old) line.now number heard) }
{
    match machine.advance(alloc) {
        Turn::Message(message) => compare(message, line, number),
        Turn::Wants(_) => hear(alloc, machine, line, number),
        Turn::Done => Err(ReplayEnd::Differs {
            line: number,
            due: Due::End,
        }),
        Turn::Stopped(halt) => Err(ReplayEnd::Stopped { halt, line: heard }),
        Turn::NoMemory => Err(ReplayEnd::NoMemory),
    }
}

/// Compares the line of this number with a message that is due.
fn compare(message: Bytes, line: &TranscriptLine, number: u32) -> Result<(), ReplayEnd>
    ensures same { OnOk result (line.now ≡ TranscriptLine.Out message) }
    ensures differs { IfErr result (λ end. (end ≡ ReplayEnd.Differs number (Due.Send message))
        × (IsDue (Ok (Due.Send message)) line.now → ⊥)) }
{
    match line {
        TranscriptLine::Out(bytes) if bytes.as_slice() == message.as_slice() => Ok(()),
        _ => Err(ReplayEnd::Differs {
            line: number,
            due: Due::Send(message),
        }),
    }
}

/// Hands a machine that waits the arrival of this line.
fn hear(
    alloc: Global,
    machine: &mut Machine<'_>,
    line: &TranscriptLine,
    number: u32,
) -> Result<(), ReplayEnd>
    requires waits { IsTrue (waits machine.old) }
    requires due { due_after (gives machine.old) [] ≡ Ok Due.Receive }
    requires short { IsShort line.now }
    ensures covers { OnOk result (Covers (gives machine.old) (gives machine.new) line.now) }
    ensures ends { IfErr result (λ end. (heard : ℕ)
        → EndsAt (gives machine.old) line.now number heard end) }
{
    match line {
        TranscriptLine::In(arrival) => match arrival.copy(alloc) {
            Ok(arrival) => {
                machine.arrive(arrival);
                Ok(())
            }
            Err(_) => Err(ReplayEnd::NoMemory),
        },
        TranscriptLine::Out(_) => Err(ReplayEnd::Differs {
            line: number,
            due: Due::Receive,
        }),
    }
}

/// How it ends behind so many lines, which were all.
fn end_behind(alloc: Global, machine: &mut Machine<'_>, covered: u32, heard: u32) -> ReplayEnd
    requires few { covered + 1 < 2 ^ 32 }
    ensures { EndsBehind (gives machine.old) covered heard result }
{
    match machine.advance(alloc) {
        Turn::Message(_) | Turn::Wants(_) => ReplayEnd::Short(covered + 1),
        Turn::Done => ReplayEnd::Follows,
        Turn::Stopped(halt) => ReplayEnd::Stopped { halt, line: heard },
        Turn::NoMemory => ReplayEnd::NoMemory,
    }
}
