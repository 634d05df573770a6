//! The partner's talk with a child, line by line.
ghost use Rattle.std.specs.Prelude.{◌≡◌, ◌≤◌, ◌<◌, ◌+◌, ◌++◌, ◌^◌, [], ◌∷◌, ℕ, List, length, map, All, Ok, Some, IsTrue, IfOk, OnOk, OnErr, IfErr};
ghost use Rattle.anb_base.specs.Bytes.{IsBytes};
ghost use Rattle.anb_base.specs.Wires.{WireState};
ghost use Rattle.anb_base.specs.declared.TheConstants.{ARRIVAL};
ghost use Rattle.anb_machine.specs.Machines.{gives, left, waits};
ghost use Rattle.anb_machine.specs.declared.turn.Halt.{Halt};
ghost use Rattle.anb_spoil.specs.Wrongs.{wrong_by};
ghost use Rattle.anb_transcript.specs.declared.transcript.TranscriptLine.TheVariants.{In, Out};
ghost use Rattle.anb_transcript.specs.declared.following.Due.{Due};
ghost use Rattle.anb_transcript.specs.declared.following.Due.TheVariants.{Send, Receive};
ghost use Rattle.anb_transcript.specs.Replays.{due_after};
ghost use Rattle.anb_partner.specs.Talks.{Corruption, Drained, Passed, Talks};
ghost use Rattle.anb_partner.specs.Steps.{GoesOnBy, IsChanged, IsOver, IsTalk, Reaches, Stops};
ghost use Rattle.anb_partner.specs.declared.conversation.TalkEnd.{TalkEnd};
ghost use Rattle.anb_partner.specs.declared.talking.Stop.TheVariants as stops;

use crate::{BEHIND, TalkEnd};
use anb_base::{ARRIVAL, Bytes, NoMemory, Wire};
use anb_format::Format;
use anb_frame::{FrameNo, Taken, put, take};
use anb_machine::{Machine, Turn};
use anb_spoil::{Wrong, wrong_for};
use anb_transcript::TranscriptLine;
use std::alloc::{AllocError, AllocFailed, Global};

/// Why a talk doesn't go on: it is over, or no memory was left.
#[derive(Clone, Copy, Drop)]
pub(crate) enum Stop {
    Over(TalkEnd),
    NoMemory,
}

impl From<NoMemory> for Stop {
    ghost from_gives = { λ _ stop. stop ≡ stops.NoMemory };

    fn from(_error: NoMemory) -> Self {
        Stop::NoMemory
    }
}

impl From<AllocError> for Stop {
    ghost from_gives = { λ _ stop. stop ≡ stops.NoMemory };

    fn from(_error: AllocError) -> Self {
        Stop::NoMemory
    }
}

impl<T: Drop> From<AllocFailed<T>> for Stop {
    ghost from_gives = { λ _ stop. stop ≡ stops.NoMemory };

    fn from(_failed: AllocFailed<T>) -> Self {
        Stop::NoMemory
    }
}

/// Hands the machine these values, for each of which it waits: they are those of terms that agree with
/// one another.
pub(crate) fn hand_in(
    alloc: Global,
    machine: &mut Machine<'_>,
    values: &[Bytes],
) -> Result<(), NoMemory>
    requires { All (λ value. length value ≤ ARRIVAL) values.now }
    ensures { OnOk result (Reaches (gives machine.old) (gives machine.new) (map In values.now)) }
{
    for value in values {
        hand(alloc, machine, value)?;
    }
    Ok(())
}

/// Hands the machine a value for which it waits.
fn hand(alloc: Global, machine: &mut Machine<'_>, value: &Bytes) -> Result<(), NoMemory>
    requires { length value.now ≤ ARRIVAL }
    ensures { OnOk result (Reaches (gives machine.old) (gives machine.new) (In value.now ∷ [])) }
{
    let Turn::Wants(_) = machine.advance(alloc) else {
        return Err(NoMemory);
    };
    machine.arrive(value.copy(alloc)?);
    Ok(())
}

/// Plays the machine against a child to the end of the talk. Behind so many lines, where it says so, the
/// right value is changed.
pub(crate) fn talk<W: Wire>(
    alloc: Global,
    machine: &mut Machine<'_>,
    hook: Option<u32>,
    formats: &[Format],
    wrong: Wrong,
    lines: &mut Vec<TranscriptLine>,
    child: &mut W,
    buffer: &mut [u8],
) -> Result<TalkEnd, NoMemory>
    requires room { length buffer.old ≡ ARRIVAL }
    requires none { lines.old.items ≡ [] }
    ensures talks { IfOk result (Talks (gives machine.old) [] hook
        (wrong_by formats.now wrong) (W.state child.old) (W.state child.new) lines.new.items) }
    ensures room { length buffer.new ≡ ARRIVAL }
{
    match stop_of_talk(alloc, machine, hook, formats, wrong, lines, child, buffer) {
        Stop::Over(end) => Ok(end),
        Stop::NoMemory => Err(NoMemory),
    }
}

/// Why the talk doesn't go on at its end.
fn stop_of_talk<W: Wire>(
    alloc: Global,
    machine: &mut Machine<'_>,
    hook: Option<u32>,
    formats: &[Format],
    wrong: Wrong,
    lines: &mut Vec<TranscriptLine>,
    child: &mut W,
    buffer: &mut [u8],
) -> Stop
    requires room { length buffer.old ≡ ARRIVAL }
    requires none { lines.old.items ≡ [] }
    ensures talk { IsTalk (gives machine.old) hook (wrong_by formats.now wrong)
        (W.state child.old) (W.state child.new) lines.new.items result }
    ensures room { length buffer.new ≡ ARRIVAL }
{
    match hook {
        None => go_to_end(alloc, machine, lines, child, buffer),
        Some(before) => stop_of_change(
            alloc, machine, before, formats, wrong, lines, child, buffer,
        ),
    }
}

/// Why the talk doesn't go on at its end, where a value is changed behind so many lines.
fn stop_of_change<W: Wire>(
    alloc: Global,
    machine: &mut Machine<'_>,
    before: u32,
    formats: &[Format],
    wrong: Wrong,
    lines: &mut Vec<TranscriptLine>,
    child: &mut W,
    buffer: &mut [u8],
) -> Stop
    requires room { length buffer.old ≡ ARRIVAL }
    requires none { lines.old.items ≡ [] }
    ensures talk { IsTalk (gives machine.old) (Some before) (wrong_by formats.now wrong)
        (W.state child.old) (W.state child.new) lines.new.items result }
    ensures room { length buffer.new ≡ ARRIVAL }
{
    match go_on(alloc, machine, before, lines, child, buffer) {
        Ok(()) => match change_value(alloc, machine, formats, wrong) {
            Ok(()) => go_to_end(alloc, machine, lines, child, buffer),
            Err(stop) => stop,
        },
        Err(stop) => stop,
    }
}

/// Goes on by so many lines.
fn go_on<W: Wire>(
    alloc: Global,
    machine: &mut Machine<'_>,
    count: u32,
    lines: &mut Vec<TranscriptLine>,
    child: &mut W,
    buffer: &mut [u8],
) -> Result<(), Stop>
    requires room { length buffer.old ≡ ARRIVAL }
    requires few { length lines.old.items + 1 < 2 ^ 32 }
    ensures goes_on { OnOk result (GoesOnBy count (gives machine.old) (gives machine.new)
        lines.old.items lines.new.items (W.state child.old) (W.state child.new)) }
    ensures over { IfErr result (λ stop. (corrupt : Corruption) → IsOver (gives machine.old)
        lines.old.items lines.new.items (W.state child.old) (W.state child.new) corrupt stop) }
    ensures most { length lines.new.items ≤ length lines.old.items + count }
    ensures few { length lines.new.items + 1 < 2 ^ 32 }
    ensures room { length buffer.new ≡ ARRIVAL }
{
    for _ in 0..count {
        if let Err(stop) = turn(alloc, machine, lines, child, buffer) {
            return Err(stop);
        }
    }
    Ok(())
}

/// Goes on to the end.
fn go_to_end<W: Wire>(
    alloc: Global,
    machine: &mut Machine<'_>,
    lines: &mut Vec<TranscriptLine>,
    child: &mut W,
    buffer: &mut [u8],
) -> Stop
    requires room { length buffer.old ≡ ARRIVAL }
    requires few { length lines.old.items + 1 < 2 ^ 32 }
    ensures over { (corrupt : Corruption) → IsOver (gives machine.old) lines.old.items lines.new.items
        (W.state child.old) (W.state child.new) corrupt result }
    ensures few { length lines.new.items + 1 < 2 ^ 32 }
    ensures room { length buffer.new ≡ ARRIVAL }
{
    loop {
        if let Err(stop) = turn(alloc, machine, lines, child, buffer) {
            return stop;
        }
    }
}

/// Goes on by one line.
fn turn<W: Wire>(
    alloc: Global,
    machine: &mut Machine<'_>,
    lines: &mut Vec<TranscriptLine>,
    child: &mut W,
    buffer: &mut [u8],
) -> Result<(), Stop>
    requires room { length buffer.old ≡ ARRIVAL }
    requires few { length lines.old.items + 1 < 2 ^ 32 }
    ensures goes_on { OnOk result (GoesOnBy 1 (gives machine.old) (gives machine.new)
        lines.old.items lines.new.items (W.state child.old) (W.state child.new)) }
    ensures further { OnOk result (left machine.new < left machine.old) }
    ensures over { IfErr result (λ stop. (corrupt : Corruption)
        → Stops corrupt (due_after (gives machine.old) []) (W.state child.old) (W.state child.new) stop) }
    ensures no_line { IfErr result (λ stop. lines.new.items ≡ lines.old.items) }
    ensures few { length lines.new.items + 1 < 2 ^ 32 }
    ensures room { length buffer.new ≡ ARRIVAL }
{
    if lines.len() + 1 >= MOST_LINES {
        return Err(Stop::NoMemory);
    }
    match machine.advance(alloc) {
        Turn::Message(message) => match say(child, message.as_slice()) {
            Ok(()) => match put_line(lines, TranscriptLine::In(message)) {
                Ok(()) => Ok(()),
                Err(NoMemory) => Err(Stop::NoMemory),
            },
            Err(stop) => Err(stop),
        },
        Turn::Wants(_) => match hear(alloc, child, buffer) {
            Ok(message) => match take_in(alloc, machine, lines, message) {
                Ok(()) => Ok(()),
                Err(NoMemory) => Err(Stop::NoMemory),
            },
            Err(stop) => Err(stop),
        },
        Turn::Done => Err(Stop::Over(TalkEnd::Done)),
        Turn::Stopped(_) => Err(Stop::Over(TalkEnd::Refused)),
        Turn::NoMemory => Err(Stop::NoMemory),
    }
}

/// Appends a line.
fn put_line(lines: &mut Vec<TranscriptLine>, line: TranscriptLine) -> Result<(), NoMemory>
    ensures put { OnOk result (lines.new.items ≡ lines.old.items ++ line ∷ []) }
    ensures none { OnErr result (lines.new.items ≡ lines.old.items) }
{
    lines.push(line)?;
    Ok(())
}

/// Hands the machine that waits a message of the child, and keeps a copy of it as a line.
fn take_in(
    alloc: Global,
    machine: &mut Machine<'_>,
    lines: &mut Vec<TranscriptLine>,
    message: Bytes,
) -> Result<(), NoMemory>
    requires waits { IsTrue (waits machine.old) }
    requires short { length message ≤ ARRIVAL }
    ensures put { OnOk result (lines.new.items ≡ lines.old.items ++ Out message ∷ []) }
    ensures gives { OnOk result ((arrivals : List (List ℕ))
        → gives machine.old (message ∷ arrivals) ≡ gives machine.new arrivals) }
    ensures further { OnOk result (left machine.new < left machine.old) }
    ensures none { OnErr result (lines.new.items ≡ lines.old.items) }
{
    lines.push(TranscriptLine::Out(message.copy(alloc)?))?;
    machine.arrive(message);
    Ok(())
}

/// More lines than any code has sends and receives.
const MOST_LINES: usize = 4_294_967_295;

/// Takes the right value of the machine, and hands it the wrong one that is made of it.
fn change_value(
    alloc: Global,
    machine: &mut Machine<'_>,
    formats: &[Format],
    wrong: Wrong,
) -> Result<(), Stop>
    ensures changed { OnOk result (IsChanged (wrong_by formats.now wrong)
        (gives machine.old) (gives machine.new)) }
    ensures over { IfErr result (λ stop. (s : WireState)
        → Stops (wrong_by formats.now wrong) (due_after (gives machine.old) []) s s stop) }
{
    match machine.advance(alloc) {
        Turn::Message(right) => hand_wrong(alloc, machine, formats, wrong, right.as_slice()),
        Turn::Done => Err(Stop::Over(TalkEnd::Done)),
        Turn::Stopped(_) => Err(Stop::Over(TalkEnd::Refused)),
        // Of a partner's plan the value comes here.
        Turn::Wants(_) => Err(Stop::NoMemory),
        Turn::NoMemory => Err(Stop::NoMemory),
    }
}

/// Hands the machine the wrong value that is made of this one.
fn hand_wrong(
    alloc: Global,
    machine: &mut Machine<'_>,
    formats: &[Format],
    wrong: Wrong,
    right: &[u8],
) -> Result<(), Stop>
    ensures handed { OnOk result ((bytes : List ℕ) × (wrong_by formats.now wrong right.now ≡ Some bytes)
        × IsBytes bytes × Reaches (gives machine.old) (gives machine.new) (In bytes ∷ [])) }
    ensures over { IfErr result (λ stop. (s : WireState)
        → Stops (wrong_by formats.now wrong) (Ok (Send right.now)) s s stop) }
{
    match wrong_for(alloc, formats, wrong, right) {
        Ok(Some(bytes)) => {
            if bytes.as_slice().len() > ARRIVAL as usize {
                return Err(Stop::Over(TalkEnd::Unchanged));
            }
            are_bytes(bytes.as_slice());
            match hand(alloc, machine, &bytes) {
                Ok(()) => Ok(()),
                Err(NoMemory) => Err(Stop::NoMemory),
            }
        }
        Ok(None) => Err(Stop::Over(TalkEnd::Unchanged)),
        Err(NoMemory) => Err(Stop::NoMemory),
    }
}

/// A law: a slice of bytes is a string of bytes.
fn are_bytes(bytes: &[u8])
    ensures { IsBytes bytes.now }
{
    let _ = bytes;
}

/// Writes a message to the child in its frame.
fn say<W: Wire>(child: &mut W, message: &[u8]) -> Result<(), Stop>
    ensures passed { OnOk result
        (Passed (W.state child.old) (W.state child.new) (In message.now ∷ [])) }
    ensures short { OnOk result (length message.now ≤ ARRIVAL) }
    ensures over { IfErr result (λ stop. (corrupt : Corruption) → Stops corrupt (Ok (Send message.now))
        (W.state child.old) (W.state child.new) stop) }
{
    if message.len() > ARRIVAL as usize {
        return Err(Stop::Over(TalkEnd::TooLong));
    }
    match put(child, message) {
        Ok(()) => Ok(()),
        Err(_) => Err(Stop::Over(TalkEnd::WriteFault)),
    }
}

/// Takes the next message of the child, through the buffer.
fn hear<W: Wire>(alloc: Global, child: &mut W, buffer: &mut [u8]) -> Result<Bytes, Stop>
    requires { length buffer.old ≡ ARRIVAL }
    ensures passed { IfOk result (λ message.
        Passed (W.state child.old) (W.state child.new) (Out message ∷ [])) }
    ensures short { IfOk result (λ message. length message ≤ ARRIVAL) }
    ensures over { IfErr result (λ stop. (corrupt : Corruption) → Stops corrupt (Ok Receive)
        (W.state child.old) (W.state child.new) stop) }
    ensures room { length buffer.new ≡ ARRIVAL }
{
    match take(child, buffer) {
        Ok(Taken::Frame(n)) => match Vec::from_slice(alloc, &buffer[..n as usize]) {
            Ok(message) => Ok(Bytes::new(message)),
            Err(_) => Err(Stop::NoMemory),
        },
        Ok(Taken::End) => Err(Stop::Over(TalkEnd::Missing)),
        Err(FrameNo::Truncated { have, need }) => Err(Stop::Over(TalkEnd::Cut { have, need })),
        Err(FrameNo::TooLarge(len)) => Err(Stop::Over(TalkEnd::Long(len))),
        Err(FrameNo::Failed) => Err(Stop::Over(TalkEnd::ReadFault)),
    }
}

/// What is left of a child's output behind a talk: how many whole messages, and whether bytes follow
/// that are no whole frame.
#[derive(Clone, Copy, Drop)]
pub(crate) struct Left {
    pub(crate) behind: u32,
    pub(crate) loose: bool,
}

/// Reads what is left of the child's output.
pub(crate) fn drain<W: Wire>(child: &mut W, buffer: &mut [u8]) -> Left
    requires { length buffer.old ≡ ARRIVAL }
    ensures { (end : TalkEnd) → Drained (W.state child.old) (W.state child.new) end
        result.behind result.loose }
{
    for behind in 0..BEHIND {
        match take(child, buffer) {
            Ok(Taken::Frame(_)) => {}
            Ok(Taken::End) => {
                return Left {
                    behind,
                    loose: false,
                };
            }
            Err(FrameNo::Truncated { .. }) => {
                return Left {
                    behind,
                    loose: true,
                };
            }
            Err(FrameNo::TooLarge(_len)) => {
                return Left {
                    behind,
                    loose: true,
                };
            }
            Err(FrameNo::Failed) => {
                return Left {
                    behind,
                    loose: false,
                };
            }
        }
    }
    Left {
        behind: BEHIND,
        loose: false,
    }
}
