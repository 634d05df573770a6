//! Going on from a record.

ghost use Rattle.std.specs.Prelude.{◌≡◌, ◌≢◌, ◌≤◌, ◌⊎◌, ℕ, List, [], ◌∷◌, ◌++◌, length, true, false, IfOk, IfErr, OnOk};
ghost use Rattle.anb_machine.specs.Machines.{gives};
ghost use Rattle.anb_park.specs.Records.{Parked, body_of, count_takes, IsWaiting, Refuses, RefusesBody, Accepts, AcceptsBody};
ghost use Rattle.anb_park.specs.Lives.{IsParked};
ghost use Rattle.anb_park.specs.Going.{AreFrames, RunsTo, RunsElsewhere, GoesOnFrom};

use crate::Live;
use crate::body::{count_frames, read_head, read_values, split_frame};
use anb_base::Bytes;
use anb_code::RoleCode;
use anb_machine::{Machine, Turn};
use anb_seal::unseal;
use std::alloc::Global;

/// Why a record is refused: the first that holds.
#[derive(Clone, Copy, Debug, PartialEq, Eq, Drop)]
pub enum ParkNo {
    /// It isn't sealed under the key.
    Damaged,
    /// What it holds is no body of a session of the code.
    Body,
    /// It has another identity.
    Other,
    /// The session doesn't wait, or didn't use all that arrived.
    NotWaiting,
    NoMemory,
}

/// Goes on from a record, whose next turn is `Wants`. It costs what the session cost up to there,
/// and no message of it comes again. Nothing keeps a record from being used twice.
pub fn resume<'c>(
    alloc: Global,
    code: &'c RoleCode,
    id: [u8; 32],
    key: &[u8],
    parked: &[u8],
) -> Result<Live<'c>, ParkNo>
    ensures resumed { IfOk result (λ live. (p : Parked)
        × Accepts (count_takes code.now) (IsWaiting code.now) id key.now parked.now p
        × IsParked code.now p live) }
    ensures code { IfOk result (λ live. live.machine.code ≡ code.now) }
    ensures refused { IfErr result
        (Refuses (count_takes code.now) (IsWaiting code.now) id key.now parked.now) }
    ensures accepts { (p : Parked)
        → Accepts (count_takes code.now) (IsWaiting code.now) id key.now parked.now p
        → IfErr result (λ no. no ≡ ParkNo.NoMemory) }
{
    match unseal(alloc, key, parked) {
        Err(_) => Err(ParkNo::NoMemory),
        Ok(None) => Err(ParkNo::Damaged),
        Ok(Some(body)) => go_on(alloc, code, &id, body.into_vec()),
    }
}

/// Goes on from what a record holds.
fn go_on<'c>(
    alloc: Global,
    code: &'c RoleCode,
    id: &[u8; 32],
    body: Vec<u8>,
) -> Result<Live<'c>, ParkNo>
    ensures resumed { IfOk result (λ live. (p : Parked)
        × AcceptsBody (count_takes code.now) (IsWaiting code.now) id.now body.items p
        × IsParked code.now p live) }
    ensures code { IfOk result (λ live. live.machine.code ≡ code.now) }
    ensures refused { IfErr result
        (RefusesBody (count_takes code.now) (IsWaiting code.now) id.now body.items) }
{
    match run_again(alloc, code, id, &body) {
        Err(no) => Err(no),
        Ok(machine) => Ok(Live {
            machine,
            body,
            failed: false,
        }),
    }
}

/// Runs a code over what a body holds.
fn run_again<'c>(
    alloc: Global,
    code: &'c RoleCode,
    id: &[u8; 32],
    body: &[u8],
) -> Result<Machine<'c>, ParkNo>
    ensures resumed { IfOk result (λ machine. (p : Parked)
        × AcceptsBody (count_takes code.now) (IsWaiting code.now) id.now body.now p
        × GoesOnFrom code.now p machine) }
    ensures code { IfOk result (λ machine. machine.code ≡ code.now) }
    ensures refused { IfErr result
        (RefusesBody (count_takes code.now) (IsWaiting code.now) id.now body.now) }
{
    let Some((head, frames)) = read_head(body) else {
        return Err(ParkNo::Body);
    };
    let Some(count) = count_frames(frames) else {
        return Err(ParkNo::Body);
    };
    if count < code.takes() as usize {
        return Err(ParkNo::Body);
    }
    if differ(&head.id, id) {
        return Err(ParkNo::Other);
    }
    let Ok((init, arrivals)) = read_values(alloc, frames, code.takes()) else {
        return Err(ParkNo::NoMemory);
    };
    let Ok(mut machine) = Machine::start(alloc, code, &init, &head.seed, head.session) else {
        return Err(ParkNo::NoMemory);
    };
    match run_over(alloc, &mut machine, arrivals) {
        Err(no) => Err(no),
        Ok(()) => Ok(machine),
    }
}

fn differ(a: &[u8; 32], b: &[u8; 32]) -> bool
    ensures other { result ≡ true → a.now ≢ b.now }
    ensures same { result ≡ false → a.now ≡ b.now }
{
    a != b
}

/// Runs a machine over the arrivals in these frames, to where it waits for one more.
fn run_over(alloc: Global, machine: &mut Machine<'_>, frames: &[u8]) -> Result<(), ParkNo>
    ensures ok { OnOk result ((bs : List (List ℕ)) → AreFrames frames.now bs
        → RunsTo machine.old bs machine.new) }
    ensures code { machine.new.code ≡ machine.old.code }
    ensures err { IfErr result (λ no. (no ≡ ParkNo.NoMemory)
        ⊎ ((no ≡ ParkNo.NotWaiting) × ((bs : List (List ℕ)) → AreFrames frames.now bs
        → RunsElsewhere machine.old bs))) }
{
    let mut rest = frames;
    'turns: loop {
        match machine.advance(alloc) {
            Turn::Message(_) => {}
            Turn::Wants(_) => {
                let Some((arrival, behind)) = split_frame(rest) else {
                    return Ok(());
                };
                let Ok(arrival) = Vec::from_slice(alloc, arrival) else {
                    return Err(ParkNo::NoMemory);
                };
                machine.arrive(Bytes::new(arrival));
                rest = behind;
            }
            Turn::Done => return Err(ParkNo::NotWaiting),
            Turn::Stopped(_) => return Err(ParkNo::NotWaiting),
            Turn::NoMemory => return Err(ParkNo::NoMemory),
        }
    }
}
