//! A transcript judged by somebody who sees the role.
ghost use Rattle.std.specs.Prelude.{◌≡◌, ◌≢◌, ◌+◌, ◌<◌, ◌≤◌, ◌^◌, ◌∷◌, [], ℕ, List, Bool, length, map, All, IfOk, IfSome, IfNone};
ghost use Rattle.std.specs.List.{AllByRecursion};
ghost use Rattle.anb_base.specs.Bytes.{IsBytes};
ghost use Rattle.anb_base.specs.declared.TheConstants.{ARRIVAL};
ghost use Rattle.anb_machine.specs.Machines.{gives, turn_of};
ghost use Rattle.anb_machine.specs.declared.turn.Turn.TheVariants as turn;
ghost use Rattle.anb_protocol.specs.Texts.{known_by};
ghost use Rattle.anb_protocol.specs.Views.{plan_event};
ghost use Rattle.anb_protocol.specs.Plays.{event_of};
ghost use Rattle.anb_transcript.specs.declared.transcript.TranscriptLine.{TranscriptLine};
ghost use Rattle.anb_judge.specs.Observers.{IsVerdict};
ghost use Rattle.anb_judge.specs.Verdicts.{Judges, due_at, in_place, is_said, line_bytes, sides};

use crate::laws::{conversations_are_observed, observed_are_conversations};
use crate::watching::observer;
use anb_algebra::ByteAlgebra;
use anb_base::{ARRIVAL, Bytes, NoMemory};
use anb_machine::{Halt, Machine, Turn};
use anb_plays::laws::runs_as_played;
use anb_protocol::{Event, Protocol, made_is_new, plans_know_first, protocols_hold};
use anb_transcript::{Due, ReplayEnd, Transcript, TranscriptLine};
use std::alloc::Global;

/// What comes of a transcript of a role that begins with these values and has draws of its own. It
/// takes as long as compiling the role and running it.
pub fn judge(
    alloc: Global,
    p: &Protocol,
    role: u32,
    initial: &[Bytes],
    transcript: &Transcript,
) -> Result<ReplayEnd, NoMemory>
    requires role { role < length p.now.roles }
    requires count { length initial.now ≡ length (known_by p.now role) }
    requires bytes { AllByRecursion IsBytes initial.now }
    requires short { All (λ value. length value ≤ ARRIVAL) initial.now }
    requires few { length transcript.now + 1 < 2 ^ 32 }
    requires lines { All (λ line. length (line_bytes line) ≤ ARRIVAL) transcript.now }
    ensures { IfOk result (Judges (record {
      protocol = p.now;
      role = role;
      initial = initial.now;
      lines = transcript.now;
    })) }
{
    protocols_hold();
    made_is_new();
    plans_know_first();
    let algebra = ByteAlgebra::new(p.formats(), p.suite());
    runs_as_played(&algebra);
    conversations_are_observed(&algebra);
    observed_are_conversations(&algebra);
    let plan = p.plan(alloc, role)?;
    let sides = sides(alloc, plan.events())?;
    let arrivals = in_place(alloc, &sides, transcript.lines())?;
    let code = observer(alloc, p, role, plan)?;
    let mut machine = Machine::start(alloc, &code, initial, &[0; 32], 0)?;
    let turn = turn_over(alloc, &mut machine, arrivals);
    verdict(alloc, turn, &sides, transcript.lines().len() as u32)
}

/// Of each message of a plan, in order: whether the role says it.
pub fn sides(alloc: Global, events: &[Event]) -> Result<Vec<bool>, NoMemory>
    ensures { IfOk result (λ said. said.items ≡ sides (map event_of (map plan_event events.now))) }
{
    let mut said = Vec::new(alloc);
    for event in events {
        match event {
            Event::Know(_) | Event::Fresh(_) => {}
            Event::Send { .. } => said.push(true)?,
            Event::Recv { .. } => said.push(false)?,
        }
    }
    Ok(said)
}

/// The bytes of the first lines, as long as each goes the way that is due.
fn in_place(alloc: Global, sides: &[bool], lines: &[TranscriptLine]) -> Result<Vec<Bytes>, NoMemory>
    ensures placed { IfOk result (λ arrivals. arrivals.items ≡ in_place sides.now lines.now) }
    ensures bytes { IfOk result (λ arrivals. AllByRecursion IsBytes arrivals.items) }
{
    let mut arrivals = Vec::new(alloc);
    for i in 0..lines.len() {
        if i >= sides.len() {
            return Ok(arrivals);
        }
        match bytes_of(&lines[i], sides[i]) {
            Some(bytes) => arrivals.push(copy(alloc, bytes)?)?,
            None => return Ok(arrivals),
        }
    }
    Ok(arrivals)
}

/// The bytes of a line, where it goes this way.
fn bytes_of(line: &TranscriptLine, said: bool) -> Option<&[u8]>
    ensures some { IfSome result (λ bytes. (sides : List Bool) (lines : List TranscriptLine)
        → in_place (said ∷ sides) (line.now ∷ lines) ≡ bytes.now ∷ in_place sides lines) }
    ensures none { IfNone result ((sides : List Bool) (lines : List TranscriptLine)
        → in_place (said ∷ sides) (line.now ∷ lines) ≡ []) }
{
    match line {
        TranscriptLine::In(arrival) if !said => Some(arrival.as_slice()),
        TranscriptLine::Out(message) if said => Some(message.as_slice()),
        _ => None,
    }
}

fn copy(alloc: Global, bytes: &[u8]) -> Result<Bytes, NoMemory>
    ensures same { IfOk result (λ copy. copy ≡ bytes.now) }
    ensures bytes { IfOk result IsBytes }
{
    Ok(Bytes::new(Vec::from_slice(alloc, bytes)?))
}

/// The turn that comes behind these arrivals, or before one of them that the machine doesn't want.
fn turn_over(alloc: Global, machine: &mut Machine<'_>, arrivals: Vec<Bytes>) -> Turn
    requires { All (λ arrival. length arrival ≤ ARRIVAL) arrivals.items }
    ensures { result ≢ turn.NoMemory → result ≡ turn_of (gives machine.old arrivals.items) }
{
    for arrival in arrivals {
        match machine.advance(alloc) {
            Turn::Wants(_) => machine.arrive(arrival),
            turn => return turn,
        }
    }
    machine.advance(alloc)
}

/// The answer by the turn that comes behind the lines in place, which are the first of so many.
fn verdict(alloc: Global, turn: Turn, sides: &[bool], lines: u32) -> Result<ReplayEnd, NoMemory>
    ensures { IfOk result (IsVerdict sides.now lines turn) }
{
    match turn {
        Turn::Stopped(halt) => {
            let event = halt.event;
            if is_said(sides, event) {
                Ok(ReplayEnd::Differs {
                    line: event,
                    due: due_at(alloc, sides, event),
                })
            } else {
                Ok(ReplayEnd::Stopped {
                    halt: Halt { event, at: 0 },
                    line: event,
                })
            }
        }
        Turn::Wants(event) => {
            if event <= lines {
                Ok(ReplayEnd::Differs {
                    line: event,
                    due: due_at(alloc, sides, event),
                })
            } else {
                Ok(ReplayEnd::Short(event))
            }
        }
        Turn::Done => {
            if sides.len() < lines as usize {
                Ok(ReplayEnd::Differs {
                    line: sides.len() as u32 + 1,
                    due: Due::End,
                })
            } else {
                Ok(ReplayEnd::Follows)
            }
        }
        Turn::Message(_) | Turn::NoMemory => Err(NoMemory),
    }
}

/// What is due at an event. Of a message that the role says nothing is told.
fn due_at(alloc: Global, sides: &[bool], event: u32) -> Due
    ensures { result ≡ due_at sides.now event }
{
    if is_said(sides, event) {
        Due::Send(Bytes::new(Vec::new(alloc)))
    } else {
        Due::Receive
    }
}

/// Whether the role says the message of this event, of which the first has the number 1.
pub fn is_said(sides: &[bool], event: u32) -> bool
    ensures { result ≡ is_said sides.now event }
{
    let Some(before) = event.checked_sub(1) else {
        return false;
    };
    match sides.get(before as usize) {
        Some(said) => *said,
        None => false,
    }
}
