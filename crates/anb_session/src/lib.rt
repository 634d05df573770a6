//! What is played over a wire: its messages go out in frames, and its arrivals are the frames that
//! come in.
#![tactic(auto)]

ghost use Rattle.std.specs.Prelude.{◌≡◌, ◌≢◌, ◌⊎◌, ◌≤◌, ◌<◌, ℕ, List, [], length, true, IfOk, OnOk, IfErr, IfSome, IfNone};
ghost use Rattle.anb_base.specs.Moves.{Put};
ghost use Rattle.anb_base.specs.declared.TheConstants.{ARRIVAL, WIDE};
ghost use Rattle.anb_frame.specs.Frames.{frame};
ghost use Rattle.anb_frame.specs.Cuts.{Tail, CutLeft};
ghost use Rattle.anb_machine.specs.Machines.{gives, left as left_in, waits};
ghost use Rattle.anb_session.specs.Faults.{IsQuiet, TellsEnd};
ghost use Rattle.anb_session.specs.Sessions.{Runs, IsPrompt, waits_at};
ghost use Rattle.anb_session.specs.Standing.{CameTo, ComesOf, StandsAt};
ghost use Rattle.anb_session.specs.Turns.{EndsSending, EndsWaiting, Receives, Passes, Closes, AwaitsNow, WentOn, HeardAll};
ghost use Rattle.anb_session.specs.Turns.{WaitsPromptly, ReceivesPromptly, SendsPromptly, TookNothing};

mod playable;

use anb_base::{ARRIVAL, Bytes, NoMemory, Wire, write_whole};
use anb_frame::{FrameNo, Taken, framed, take};
use anb_machine::{Halt, Machine, Turn};
pub use playable::Playable;
use std::alloc::Global;

/// How a session ended.
#[derive(Clone, Copy, Debug, PartialEq, Eq, Drop)]
pub enum PlayEnd {
    /// All instructions are done.
    Done,
    /// A demand failed.
    Stopped(Halt),
    /// The run waits for the arrival of this event, and the input ended.
    Waiting(u32),
    /// The run waits, and the input ended within a frame. Both numbers count its four bytes of
    /// length: `need` is 4 while these aren't whole.
    Truncated { have: u64, need: u64 },
    /// The run waits, and the next frame has so many bytes, more than an arrival may have.
    TooLarge(u32),
    /// The wire failed as a source.
    ReadFault,
    /// The wire failed as a sink.
    WriteFault,
    /// No memory was left.
    NoMemory,
}

/// Runs a machine over a wire to the run's end, from wherever the machine stands. The buffer for
/// arrivals is taken before the first write, and each frame's before its first byte is written.
pub fn play<W: Wire>(alloc: Global, machine: &mut Machine<'_>, wire: &mut W) -> PlayEnd
    ensures runs { (arrivals : List (List ℕ)) (tail : Tail)
        → CutLeft ARRIVAL (W.left wire.old) arrivals tail
        → Runs (gives machine.old) arrivals tail (W.left wire.old) (W.left wire.new)
        (W.written wire.old) (W.written wire.new) result }
    ensures prompt { IsPrompt (gives machine.old) (W.state wire.old) (W.state wire.new) }
    ensures waits { waits_at result ≡ true → waits machine.new ≡ true }
    ensures faults { TellsEnd (W.state wire.old) (W.state wire.new) result }
{
    play_all(alloc, machine, wire)
}

/// Runs whatever can be played over a wire, as `play` runs a machine.
pub fn play_all<P: Playable, W: Wire>(alloc: Global, played: &mut P, wire: &mut W) -> PlayEnd
    ensures runs { (arrivals : List (List ℕ)) (tail : Tail)
        → CutLeft ARRIVAL (W.left wire.old) arrivals tail
        → Runs (gives (P.machine played.old)) arrivals tail (W.left wire.old) (W.left wire.new)
        (W.written wire.old) (W.written wire.new) result }
    ensures prompt { IsPrompt (gives (P.machine played.old))
        (W.state wire.old) (W.state wire.new) }
    ensures awaits { waits_at result ≡ true → AwaitsNow (P.machine played.new) }
    ensures heard { HeardAll P.Follows played.old played.new (W.state wire.old) result }
    ensures came { result ≢ PlayEnd.NoMemory
        → CameTo P.Follows played.old played.new (P.machine played.new) (W.state wire.old) result }
    ensures faults { TellsEnd (W.state wire.old) (W.state wire.new) result }
{
    let Ok(mut buffer) = vec![in alloc; 0u8; ARRIVAL as usize] else {
        return PlayEnd::NoMemory;
    };
    loop {
        if let Some(end) = turn(alloc, played, wire, &mut buffer) {
            return end;
        }
    }
}

/// Plays one turn, and tells the end that it makes.
fn turn<P: Playable, W: Wire>(
    alloc: Global,
    played: &mut P,
    wire: &mut W,
    buffer: &mut [u8],
) -> Option<PlayEnd>
    requires { length buffer.old ≡ ARRIVAL }
    ensures passes { IfNone result
        (Passes (gives (P.machine played.old)) (gives (P.machine played.new))
        (W.state wire.old) (W.state wire.new)) }
    ensures further { IfNone result
        (left_in (P.machine played.new) < left_in (P.machine played.old)) }
    ensures went_on { IfNone result
        (WentOn P.Follows played.old played.new (W.state wire.old) (W.state wire.new)) }
    ensures quiet { IfNone result (IsQuiet (W.state wire.old) (W.state wire.new)) }
    ensures closes { IfSome result
        (Closes (gives (P.machine played.old)) (W.state wire.old) (W.state wire.new)) }
    ensures awaits { IfSome result (λ end. waits_at end ≡ true → AwaitsNow (P.machine played.new)) }
    ensures heard { IfSome result
        (HeardAll P.Follows played.old played.new (W.state wire.old)) }
    ensures stood { IfSome result (λ end. end ≢ PlayEnd.NoMemory
        → P.Follows played.old [] played.new) }
    ensures stands { IfSome result (StandsAt (P.machine played.new)) }
    ensures faults { IfSome result (TellsEnd (W.state wire.old) (W.state wire.new)) }
{
    match played.advance(alloc) {
        Turn::Message(message) => send(alloc, wire, message.as_slice()).err(),
        Turn::Wants(event) => match receive(alloc, wire, buffer, event) {
            Ok(arrival) => match played.arrive(arrival) {
                Ok(()) => None,
                Err(NoMemory) => Some(PlayEnd::NoMemory),
            },
            Err(end) => Some(end),
        },
        Turn::Done => Some(PlayEnd::Done),
        Turn::Stopped(halt) => Some(PlayEnd::Stopped(halt)),
        Turn::NoMemory => Some(PlayEnd::NoMemory),
    }
}

/// Sends a message in its frame, with one write.
pub fn send<W: Wire>(alloc: Global, wire: &mut W, message: &[u8]) -> Result<(), PlayEnd>
    requires { length message.now ≤ WIDE }
    ensures put { OnOk result (Put (W.written wire.old) (W.written wire.new) (frame message.now)) }
    ensures ends { IfErr result (λ end.
        EndsSending message.now (W.left wire.old) (W.left wire.new)
        (W.written wire.old) (W.written wire.new) end) }
    ensures goes_on { OnOk result
        (SendsPromptly message.now (W.state wire.old) (W.state wire.new)) }
    ensures took_nothing { TookNothing (W.state wire.old) (W.state wire.new) }
    ensures waits { IfErr result (λ end. waits_at end ≢ true) }
    ensures cut_off { IfErr result (λ end.
        (end ≡ PlayEnd.WriteFault) ⊎ (end ≡ PlayEnd.NoMemory)) }
    ensures quiet { OnOk result (IsQuiet (W.state wire.old) (W.state wire.new)) }
    ensures faults { IfErr result (TellsEnd (W.state wire.old) (W.state wire.new)) }
{
    let Ok(frame) = framed(alloc, message) else {
        return Err(PlayEnd::NoMemory);
    };
    match write_whole(wire, frame.as_slice()) {
        Ok(()) => Ok(()),
        Err(_) => Err(PlayEnd::WriteFault),
    }
}

/// Takes the arrival of an event through the buffer, whose length is the most bytes that an
/// arrival has.
pub fn receive<W: Wire>(
    alloc: Global,
    wire: &mut W,
    buffer: &mut [u8],
    event: u32,
) -> Result<Bytes, PlayEnd>
    requires { length buffer.old ≡ ARRIVAL }
    ensures receives { IfOk result (λ arrival.
        Receives arrival (W.left wire.old) (W.left wire.new)) }
    ensures ends { IfErr result (λ end.
        EndsWaiting event (W.left wire.old) (W.left wire.new)
        (W.written wire.old) (W.written wire.new) end) }
    ensures goes_on { IfOk result (λ arrival.
        ReceivesPromptly event arrival (W.state wire.old) (W.state wire.new)) }
    ensures prompt { IfErr result (λ _.
        WaitsPromptly event (W.state wire.old) (W.state wire.new)) }
    ensures written { W.written wire.new ≡ W.written wire.old }
    ensures no_write_fault { result ≢ Err PlayEnd.WriteFault }
    ensures comes { IfErr result (ComesOf event) }
    ensures quiet { OnOk result (IsQuiet (W.state wire.old) (W.state wire.new)) }
    ensures faults { IfErr result (TellsEnd (W.state wire.old) (W.state wire.new)) }
{
    match take(wire, buffer) {
        Ok(Taken::Frame(n)) => match Vec::from_slice(alloc, &buffer[..n as usize]) {
            Ok(arrival) => Ok(Bytes::new(arrival)),
            Err(_) => Err(PlayEnd::NoMemory),
        },
        Ok(Taken::End) => Err(PlayEnd::Waiting(event)),
        Err(FrameNo::Truncated { have, need }) => Err(PlayEnd::Truncated { have, need }),
        Err(FrameNo::TooLarge(len)) => Err(PlayEnd::TooLarge(len)),
        Err(FrameNo::Failed) => Err(PlayEnd::ReadFault),
    }
}
