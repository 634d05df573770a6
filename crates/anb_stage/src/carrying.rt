//! Messages from sender to receiver.

ghost use Rattle.std.specs.Prelude.{◌≡◌, ◌<◌, ◌≤◌, ◌+◌, ◌^◌, ℕ, List, length, IfErr, IfOk, OnOk, OnErr};
ghost use Rattle.anb_base.specs.Moves.{Rose, Put, PutPrefix, Stamped};
ghost use Rattle.anb_base.specs.declared.TheConstants.{ARRIVAL};
ghost use Rattle.anb_frame.specs.Frames.{frame};
ghost use Rattle.anb_frame.specs.Cuts.{Tail, CutLeft};
ghost use Rattle.anb_frame.specs.Answers.{Follows, OnFailed, UnlessFailed};
ghost use Rattle.anb_stage.specs.Children.{KeptByRead, KeptByWrite, written_to_all};
ghost use Rattle.anb_stage.specs.Relays.{AreCut, AreHeard, IsReported, SomeInTime, report};
ghost use Rattle.anb_stage.specs.Steps.{Begins, OthersStayBelow, AreWithin, AreRunning, FitsIn, OnFrame, Takes, IsMissing, Carries, CarryKeeps, FailsCarrying, IsCaused, Carried, FailsCarryingSome, CarryingKeeps, SameFaults};
ghost use Rattle.anb_stage.specs.Notes.{IsOfAction, IsTold, Note, TellsAlone, both_notes, notes_of};
ghost use Rattle.anb_stage.specs.declared.TheConstants.{ROLES};

use crate::ends::Ends;
use crate::sides::{Input, Output};
use crate::{Log, RelayNo, Spawner};
use anb_base::{ARRIVAL, Bytes, Failed, Sent};
use anb_frame::{FrameNo, Taken, put, take};
use std::alloc::Global;

/// Carries the messages of all actions, through the buffer, and tells the log of them.
pub(crate) fn carry_all<P: Spawner, L: Log>(
    alloc: Global,
    spawner: &mut P,
    log: &mut L,
    actions: &[Ends],
    buffer: &mut [u8],
) -> Result<Vec<Sent>, RelayNo>
    requires few { length actions.now + 1 < 2 ^ 32 }
    requires running { AreRunning (P.child spawner.old) actions.now }
    requires buffer { length buffer.old ≡ ARRIVAL }
    ensures carried { (roles : ℕ) (outputs : ℕ → List (List ℕ)) (tails : ℕ → Tail) → roles ≤ ROLES
        → AreWithin roles actions.now → AreCut roles (P.child spawner.old) outputs tails
        → OnOk result (Carried (P.child spawner.old) (P.child spawner.new) roles outputs tails
        actions.now) }
    ensures report { (roles : ℕ) (outputs : ℕ → List (List ℕ)) (tails : ℕ → Tail) → roles ≤ ROLES
        → AreWithin roles actions.now → AreCut roles (P.child spawner.old) outputs tails
        → IfOk result (λ sent. sent.items ≡ report outputs actions.now) }
    ensures failed { (roles : ℕ) (outputs : ℕ → List (List ℕ)) (tails : ℕ → Tail) → roles ≤ ROLES
        → AreWithin roles actions.now → AreCut roles (P.child spawner.old) outputs tails
        → IfErr result (FailsCarryingSome (P.child spawner.old) (P.child spawner.new) roles outputs
        tails actions.now) }
    ensures in_time { (roles : ℕ) (outputs : ℕ → List (List ℕ)) (tails : ℕ → Tail) → roles ≤ ROLES
        → AreWithin roles actions.now → AreCut roles (P.child spawner.old) outputs tails
        → AreHeard roles (P.child spawner.old) → OnErr result (SomeInTime roles
        (P.child spawner.old) (P.child spawner.new) outputs actions.now tails) }
    ensures cause { (roles : ℕ) → roles ≤ ROLES → AreWithin roles actions.now
        → IfErr result (IsCaused (P.child spawner.old) (P.child spawner.new) roles) }
    ensures quiet { OnOk result (SameFaults (P.child spawner.old) (P.child spawner.new)) }
    ensures reported { IfErr result (IsReported (P.child spawner.old) (P.child spawner.new)) }
    ensures kept { (roles : ℕ) → roles ≤ ROLES → AreWithin roles actions.now
        → CarryingKeeps (P.child spawner.old) (P.child spawner.new) roles }
    ensures told { IfOk result (λ sent.
        L.After log.old (notes_of actions.now sent.items) log.new) }
    ensures count { IfOk result (λ sent. length sent.items ≡ length actions.now) }
    ensures told_so_far { (roles : ℕ) → roles ≤ ROLES → AreWithin roles actions.now
        → IfErr result (λ no. (told : List Note)
        × IsTold actions.now roles (P.child spawner.old) no told
        × L.After log.old told log.new) }
{
    let mut sent = Vec::new(alloc);
    for (i, ends) in actions.iter().enumerate() {
        let action = i as u32 + 1;
        let bytes = match carry(alloc, spawner, log, *ends, action, buffer) {
            Ok(bytes) => bytes,
            Err(no) => return Err(no),
        };
        let Ok(()) = sent.push(Sent { action, bytes }) else {
            return Err(RelayNo::NoMemory);
        };
    }
    Ok(sent)
}

/// Carries the message of one action, through the buffer, and tells the log of it: once it was said, and
/// once it was heard.
fn carry<P: Spawner, L: Log>(
    alloc: Global,
    spawner: &mut P,
    log: &mut L,
    ends: Ends,
    action: u32,
    buffer: &mut [u8],
) -> Result<Bytes, RelayNo>
    requires from { ends.from < ROLES }
    requires to { ends.to < ROLES }
    requires sender { (P.child spawner.old ends.from).phase ≡ 1 }
    requires receiver { (P.child spawner.old ends.to).phase ≡ 1 }
    requires buffer { length buffer.old ≡ ARRIVAL }
    ensures carries { (bs : List (List ℕ)) (tail : Tail)
        → CutLeft ARRIVAL (P.child spawner.old ends.from).left bs tail
        → IfOk result (Carries (P.child spawner.old) (P.child spawner.new) bs tail
        ends.from ends.to) }
    ensures failed { (bs : List (List ℕ)) (tail : Tail)
        → CutLeft ARRIVAL (P.child spawner.old ends.from).left bs tail
        → IfErr result (FailsCarrying (P.child spawner.old) (P.child spawner.new) bs tail action
        ends.to) }
    ensures begins { (bs : List (List ℕ)) (tail : Tail)
        → CutLeft ARRIVAL (P.child spawner.old ends.from).left bs tail
        → Begins (P.child spawner.old ends.from).taken_at (P.child spawner.new ends.from).taken_at
        (written_to_all (P.child spawner.old)) bs tail }
    ensures cause { (roles : ℕ) → ends.from < roles → ends.to < roles
        → IfErr result (IsCaused (P.child spawner.old) (P.child spawner.new) roles) }
    ensures quiet { OnOk result (SameFaults (P.child spawner.old) (P.child spawner.new)) }
    ensures reported { IfErr result (IsReported (P.child spawner.old) (P.child spawner.new)) }
    ensures kept { CarryKeeps (P.child spawner.old) (P.child spawner.new) ends.from ends.to }
    ensures told { IfOk result (λ bytes. L.After log.old
        (both_notes ends (record { action = action; bytes = bytes })) log.new) }
    ensures told_alone { IfErr result (TellsAlone (λ told. L.After log.old told log.new)
        (P.child spawner.old ends.from).left action ends.from) }
{
    let bytes = match receive(alloc, spawner, ends.from, action, buffer) {
        Ok(bytes) => bytes,
        Err(no) => return Err(no),
    };
    log.said(action, ends.from, bytes.as_slice());
    match put_to(spawner, ends.to, bytes.as_slice()) {
        Ok(()) => {
            log.heard(action, ends.to, bytes.as_slice());
            Ok(bytes)
        }
        Err(_) => Err(RelayNo::Fault(ends.to)),
    }
}

/// Takes the message of an action from its sender, through the buffer.
fn receive<P: Spawner>(
    alloc: Global,
    spawner: &mut P,
    role: u32,
    action: u32,
    buffer: &mut [u8],
) -> Result<Bytes, RelayNo>
    requires within { role < ROLES }
    requires running { (P.child spawner.old role).phase ≡ 1 }
    requires buffer { length buffer.old ≡ ARRIVAL }
    ensures short { IfOk result (λ bytes. length bytes ≤ ARRIVAL) }
    ensures takes { (bs : List (List ℕ)) (tail : Tail)
        → CutLeft ARRIVAL (P.child spawner.old role).left bs tail
        → IfOk result (Takes (P.child spawner.new role).left bs tail) }
    ensures missing { (bs : List (List ℕ)) (tail : Tail)
        → CutLeft ARRIVAL (P.child spawner.old role).left bs tail
        → IfErr result (IsMissing bs tail action) }
    ensures at { IfErr result (IsOfAction action) }
    ensures stamped { IfOk result (λ bytes. Stamped (P.child spawner.old role).taken_at
        (P.child spawner.new role).taken_at (written_to_all (P.child spawner.old))
        (length (frame bytes))) }
    ensures begins { (bs : List (List ℕ)) (tail : Tail)
        → CutLeft ARRIVAL (P.child spawner.old role).left bs tail
        → Begins (P.child spawner.old role).taken_at (P.child spawner.new role).taken_at
        (written_to_all (P.child spawner.old)) bs tail }
    ensures cause { (roles : ℕ) → role < roles
        → IfErr result (IsCaused (P.child spawner.old) (P.child spawner.new) roles) }
    ensures quiet { OnOk result
        ((P.child spawner.new role).faults ≡ (P.child spawner.old role).faults) }
    ensures reported { IfErr result (IsReported (P.child spawner.old) (P.child spawner.new)) }
    ensures never_falls { (P.child spawner.old role).faults ≤ (P.child spawner.new role).faults }
    ensures kept { KeptByRead (P.child spawner.old role) (P.child spawner.new role) }
    ensures others { OthersStayBelow role (P.child spawner.old) (P.child spawner.new) }
{
    match take_from(spawner, role, buffer) {
        Ok(Taken::Frame(n)) => match Vec::from_slice(alloc, &buffer[..n as usize]) {
            Ok(message) => Ok(Bytes::new(message)),
            Err(_) => Err(RelayNo::NoMemory),
        },
        Ok(Taken::End) => Err(RelayNo::Ended(action)),
        Err(FrameNo::Truncated { have, need }) => Err(RelayNo::Cut { action, have, need }),
        Err(FrameNo::TooLarge(len)) => Err(RelayNo::Long { action, len }),
        Err(FrameNo::Failed) => Err(RelayNo::Fault(role)),
    }
}

/// Takes the next frame of a child's output into the buffer.
fn take_from<P: Spawner>(spawner: &mut P, role: u32, buffer: &mut [u8]) -> Result<Taken, FrameNo>
    requires within { role < ROLES }
    requires running { (P.child spawner.old role).phase ≡ 1 }
    requires buffer { length buffer.old ≡ ARRIVAL }
    ensures within { IfOk result (FitsIn ARRIVAL) }
    ensures follows { (bs : List (List ℕ)) (tail : Tail)
        → CutLeft ARRIVAL (P.child spawner.old role).left bs tail
        → Follows ARRIVAL bs tail (P.child spawner.new role).left buffer.new result }
    ensures stamped { OnFrame buffer.new result (λ bytes. Stamped
        (P.child spawner.old role).taken_at (P.child spawner.new role).taken_at
        (written_to_all (P.child spawner.old)) (length (frame bytes))) }
    ensures begins { (bs : List (List ℕ)) (tail : Tail)
        → CutLeft ARRIVAL (P.child spawner.old role).left bs tail
        → Begins (P.child spawner.old role).taken_at (P.child spawner.new role).taken_at
        (written_to_all (P.child spawner.old)) bs tail }
    ensures same_length { length buffer.new ≡ length buffer.old }
    ensures cause { OnFailed result
        (Rose (P.child spawner.old role).faults (P.child spawner.new role).faults) }
    ensures quiet { UnlessFailed result
        ((P.child spawner.new role).faults ≡ (P.child spawner.old role).faults) }
    ensures never_falls { (P.child spawner.old role).faults ≤ (P.child spawner.new role).faults }
    ensures kept { KeptByRead (P.child spawner.old role) (P.child spawner.new role) }
    ensures others { OthersStayBelow role (P.child spawner.old) (P.child spawner.new) }
{
    let mut output = Output { spawner, role };
    let taken = take(&mut output, buffer);
    let Output {
        spawner: _,
        role: _,
    } = output;
    taken
}

/// Hands a child the frame of these bytes.
fn put_to<P: Spawner>(spawner: &mut P, role: u32, bytes: &[u8]) -> Result<(), Failed>
    requires within { role < ROLES }
    requires running { (P.child spawner.old role).phase ≡ 1 }
    requires short { length bytes.now ≤ ARRIVAL }
    ensures put { OnOk result (Put (P.child spawner.old role).written
        (P.child spawner.new role).written (frame bytes.now)) }
    ensures failed { OnErr result (PutPrefix (P.child spawner.old role).written
        (P.child spawner.new role).written (frame bytes.now)) }
    ensures cause { OnErr result
        (Rose (P.child spawner.old role).faults (P.child spawner.new role).faults) }
    ensures quiet { OnOk result
        ((P.child spawner.new role).faults ≡ (P.child spawner.old role).faults) }
    ensures never_falls { (P.child spawner.old role).faults ≤ (P.child spawner.new role).faults }
    ensures kept { KeptByWrite (P.child spawner.old role) (P.child spawner.new role) }
    ensures others { OthersStayBelow role (P.child spawner.old) (P.child spawner.new) }
{
    let mut input = Input { spawner, role };
    let put = put(&mut input, bytes);
    let Input {
        spawner: _,
        role: _,
    } = input;
    put
}
