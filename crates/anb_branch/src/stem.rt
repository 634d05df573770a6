//! A role's play up to the arrival that tells the arm.
//!
//! Up to there the arms' plays are the same, so one machine does for all of them. A copy of each
//! arrival is kept, from which the machine of another arm goes on.
ghost use Rattle.std.specs.Prelude.{◌≡◌, ◌≢◌, ◌≤◌, ◌<◌, ℕ, List, [], ◌∷◌, ◌++◌, length, IsTrue, IfOk, IfErr, OnOk};
ghost use Rattle.anb_base.specs.Bytes.{IsBytes};
ghost use Rattle.anb_base.specs.declared.TheConstants.{ARRIVAL};
ghost use Rattle.anb_plays.specs.Runs.{without_place};
ghost use Rattle.anb_machine.specs.Machines.{gives, left, waits};
ghost use Rattle.anb_session.specs.Faults.{IsQuiet, TellsEnd};
ghost use Rattle.anb_session.specs.Standing.{IsNext};
ghost use Rattle.anb_session.specs.declared.PlayEnd.TheVariants as ended;
ghost use Rattle.anb_session.specs.Turns.{Closes};
ghost use Rattle.anb_branch.specs.Stems.{AreBytes, AreShort, CameBy, CameWithin, Chooses, EndsBefore, GoesAlong, HeardUpTo, RunsTo, Steps, TellsStep, WaitsAt, no_halt};

use anb_base::{ARRIVAL, Bytes, NoMemory, Wire};
use anb_machine::{Halt, Machine, Turn};
use anb_session::{PlayEnd, Playable, play_all, receive, send};
use std::alloc::Global;

/// What a turn comes to.
#[derive(Drop)]
pub(crate) enum Step {
    /// The play goes on before the choice.
    On,
    /// This is the arrival that tells the arm.
    Arrived(Bytes),
    Over(PlayEnd),
}

/// Where a play stands at the choice: the arrivals so far, and the one that tells the arm.
#[derive(Drop)]
pub(crate) struct Choice {
    pub(crate) past: Vec<Bytes>,
    pub(crate) arrival: Bytes,
}

/// Plays a machine to the arrival behind so many. The buffer for arrivals is given back then.
pub(crate) fn play_to_choice<P: Playable, W: Wire>(
    alloc: Global,
    played: &mut P,
    receives: usize,
    wire: &mut W,
) -> Result<Choice, PlayEnd>
    ensures chooses { IfOk result (λ choice.
        Chooses receives (P.machine played.old) (P.machine played.new)
        (W.state wire.old) (W.state wire.new) choice.past.items choice.arrival) }
    ensures heard { IfOk result (λ choice. HeardUpTo P.Follows played.old played.new
        choice.past.items choice.arrival (W.state wire.old) (W.state wire.new)) }
    ensures ends { IfErr result (λ end.
        EndsBefore receives (P.machine played.old) (P.machine played.new)
        (W.state wire.old) (W.state wire.new) end) }
    ensures came { IfErr result (λ end. end ≢ ended.NoMemory
        → CameWithin receives P.Follows played.old played.new (P.machine played.new)
        (W.state wire.old) end) }
    ensures quiet { OnOk result (IsQuiet (W.state wire.old) (W.state wire.new)) }
    ensures faults { IfErr result (TellsEnd (W.state wire.old) (W.state wire.new)) }
{
    let Ok(mut buffer) = vec![in alloc; 0u8; ARRIVAL as usize] else {
        return Err(PlayEnd::NoMemory);
    };
    let mut past = Vec::new(alloc);
    loop {
        match play_turn(alloc, played, &mut past, receives, wire, &mut buffer) {
            Step::On => {}
            Step::Arrived(arrival) => return Ok(Choice { past, arrival }),
            Step::Over(end) => return Err(end),
        }
    }
}

/// Plays one turn of a machine before the choice, which comes behind so many arrivals.
fn play_turn<P: Playable, W: Wire>(
    alloc: Global,
    played: &mut P,
    past: &mut Vec<Bytes>,
    receives: usize,
    wire: &mut W,
    buffer: &mut [u8],
) -> Step
    requires room { length buffer.old ≡ ARRIVAL }
    requires few { length past.old.items ≤ receives }
    requires bytes { AreBytes past.old.items }
    requires short { AreShort past.old.items }
    ensures steps { Steps receives (P.machine played.old) (P.machine played.new)
        past.old.items past.new.items (W.state wire.old) (W.state wire.new) result }
    ensures along { GoesAlong P.Follows played.old played.new (P.machine played.new)
        past.old.items past.new.items (W.state wire.old) (W.state wire.new) result }
    ensures faults { TellsStep (W.state wire.old) (W.state wire.new) result }
{
    match played.advance(alloc) {
        Turn::Message(message) => match send(alloc, wire, message.as_slice()) {
            Ok(()) => Step::On,
            Err(end) => Step::Over(end),
        },
        Turn::Wants(event) => match receive(alloc, wire, buffer, event) {
            Ok(arrival) => {
                are_bytes(arrival.as_slice());
                if past.len() == receives {
                    return Step::Arrived(arrival);
                }
                match hand_in(alloc, played, past, arrival) {
                    Ok(()) => Step::On,
                    Err(NoMemory) => Step::Over(PlayEnd::NoMemory),
                }
            }
            Err(end) => Step::Over(end),
        },
        Turn::Done => Step::Over(PlayEnd::Done),
        Turn::Stopped(halt) => Step::Over(PlayEnd::Stopped(placeless(halt))),
        Turn::NoMemory => Step::Over(PlayEnd::NoMemory),
    }
}

/// Hands an arrival to the machine that wants it, and keeps a copy of it.
fn hand_in<P: Playable>(
    alloc: Global,
    played: &mut P,
    past: &mut Vec<Bytes>,
    arrival: Bytes,
) -> Result<(), NoMemory>
    requires waits { IsTrue (waits (P.machine played.old)) }
    requires next { IsNext (P.machine played.old) }
    requires fits { length arrival ≤ ARRIVAL }
    ensures kept { OnOk result (past.new.items ≡ past.old.items ++ arrival ∷ []) }
    ensures gives { OnOk result ((more : List (List ℕ))
        → gives (P.machine played.old) (arrival ∷ more) ≡ gives (P.machine played.new) more) }
    ensures further { OnOk result (left (P.machine played.new) < left (P.machine played.old)) }
    ensures followed { OnOk result (P.Follows played.old (arrival ∷ []) played.new) }
{
    past.push(arrival.copy(alloc)?)?;
    played.arrive(arrival)
}

/// The same stop as a play tells it, which has no instruction.
fn placeless(halt: Halt) -> Halt
    ensures event { result.event ≡ halt.event }
    ensures at { result.at ≡ 0 }
{
    Halt {
        event: halt.event,
        at: 0,
    }
}

/// A law: a slice of bytes is a string of bytes.
pub(crate) fn are_bytes(bytes: &[u8])
    ensures { IsBytes bytes.now }
{
    let _ = bytes;
}

/// Runs a machine over these arrivals, behind which it waits, and drops its messages.
pub(crate) fn run_again(
    alloc: Global,
    machine: &mut Machine<'_>,
    past: Vec<Bytes>,
) -> Result<(), NoMemory>
    requires waits { WaitsAt (gives machine.old) past.items }
    requires short { AreShort past.items }
    ensures { OnOk result (RunsTo machine.old past.items machine.new) }
{
    let mut arrivals = past.into_iter();
    'turns: loop {
        match machine.advance(alloc) {
            Turn::Message(_) => {}
            Turn::Wants(_) => {
                let Some(arrival) = arrivals.next() else {
                    return Ok(());
                };
                machine.arrive(arrival);
            }
            Turn::Done => unreachable!(),
            Turn::Stopped(_) => unreachable!(),
            Turn::NoMemory => return Err(NoMemory),
        }
    }
}

/// Plays on from wherever it stands, with this arrival first.
pub(crate) fn play_on<P: Playable, W: Wire>(
    alloc: Global,
    played: &mut P,
    arrival: Bytes,
    wire: &mut W,
) -> PlayEnd
    requires waits { IsTrue (waits (P.machine played.old)) }
    requires next { IsNext (P.machine played.old) }
    requires fits { length arrival ≤ ARRIVAL }
    ensures closes { Closes (λ more. without_place (gives (P.machine played.old) (arrival ∷ more)))
        (W.state wire.old) (W.state wire.new) result }
    ensures came { result ≢ ended.NoMemory → CameBy P.Follows played.old played.new
        (P.machine played.new) (arrival ∷ []) (W.state wire.old) result }
    ensures faults { TellsEnd (W.state wire.old) (W.state wire.new) result }
{
    match played.arrive(arrival) {
        Ok(()) => play_whole(alloc, played, wire),
        Err(NoMemory) => PlayEnd::NoMemory,
    }
}

/// Plays on from wherever it stands, and tells no instruction.
pub(crate) fn play_whole<P: Playable, W: Wire>(
    alloc: Global,
    played: &mut P,
    wire: &mut W,
) -> PlayEnd
    ensures closes { Closes (λ more. without_place (gives (P.machine played.old) more))
        (W.state wire.old) (W.state wire.new) result }
    ensures came { result ≢ ended.NoMemory → CameBy P.Follows played.old played.new
        (P.machine played.new) [] (W.state wire.old) result }
    ensures faults { TellsEnd (W.state wire.old) (W.state wire.new) result }
{
    no_halt(play_all(alloc, played, wire))
}

/// The same end as a play tells it.
pub(crate) fn no_halt(end: PlayEnd) -> PlayEnd
    ensures { result ≡ no_halt end }
{
    match end {
        PlayEnd::Stopped(halt) => PlayEnd::Stopped(placeless(halt)),
        end => end,
    }
}
