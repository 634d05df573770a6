//! What calls do with a session, told in statuses and in the caller's buffers.
ghost use Rattle.std.specs.Prelude.{◌≡◌, ◌⊎◌, ◌≤◌, ◌<◌, ℕ, List, length, pos, take, true, false, Some};
ghost use Rattle.anb_base.specs.declared.TheConstants.{ARRIVAL};
ghost use Rattle.anb_code.specs.CodeValue.{CodeValue};
ghost use Rattle.anb_park.specs.Records.{Parked};
ghost use Rattle.anb_c.specs.Sessions.{IsArrival, IsAt, IsFailed, IsNext, IsParking};
ghost use Rattle.anb_c.specs.Turning.{IsWaiting, StandsSo};

use crate::session::{Session, give, next, record};
use crate::statuses::{DONE, MESSAGE, MISUSED, NO_MEMORY, SHORT, STOPPED, TOO_LARGE, WAITING};
use anb_base::{ARRIVAL, Bytes, NoMemory};
use anb_machine::Turn;
use std::alloc::Global;

/// Copies the bytes into the buffer where it has room, and tells how many there are.
pub(crate) fn copy_out(bytes: &[u8], out: &mut [u8], written: &mut usize) -> bool
    ensures written { written.new ≡ length bytes.now }
    ensures copied { result ≡ true → (take written.new out.new ≡ bytes.now)
        × (written.new ≤ length out.new) }
    ensures short { result ≡ false → (length out.new < written.new) × (out.new ≡ out.old) }
{
    let len = bytes.len();
    *written = len;
    if out.len() < len {
        return false;
    }
    out[..len].copy_from_slice(bytes);
    true
}

/// What comes next of a session.
pub(crate) fn tell(
    alloc: Global,
    session: &mut Session,
    out: &mut [u8],
    written: &mut usize,
    event: &mut u32,
    instruction: &mut u32,
) -> i32
    ensures next { (code : CodeValue) (p : Parked) (sent : List (List ℕ))
        → IsAt code p sent (Some session.old)
        → IsNext code p sent (Some session.new) result
        out.old out.new written.new event.new instruction.new }
    ensures failed { IsFailed (Some session.old)
        → (result ≡ pos 99) × IsFailed (Some session.new) }
{
    match next(alloc, session) {
        Turn::Message(message) => {
            if copy_out(message.as_slice(), out, written) {
                MESSAGE
            } else {
                session.pending = Some(message);
                SHORT
            }
        }
        Turn::Wants(at) => {
            *event = at;
            WAITING
        }
        Turn::Done => DONE,
        Turn::Stopped(halt) => {
            *event = halt.event;
            *instruction = halt.at;
            STOPPED
        }
        Turn::NoMemory => NO_MEMORY,
    }
}

/// Where a session stands, before an arrival or its parking.
#[derive(Clone, Copy, Drop)]
pub(crate) enum Stage {
    /// It waits for the arrival of this event.
    Waits(u32),
    /// It does something else first, or is over.
    Elsewhere,
    NoMemory,
}

/// Where a session stands; a message that comes first is pending then.
fn look_ahead(alloc: Global, session: &mut Session) -> Stage
    ensures stands { (code : CodeValue) (p : Parked) (sent : List (List ℕ))
        → IsAt code p sent (Some session.old) → StandsSo code p sent session.new result }
    ensures waits { (event : ℕ) → result ≡ Stage.Waits event → IsWaiting session.new }
    ensures failed { IsFailed (Some session.old)
        → (result ≡ Stage.NoMemory) × IsFailed (Some session.new) }
{
    match next(alloc, session) {
        Turn::Message(message) => {
            session.pending = Some(message);
            Stage::Elsewhere
        }
        Turn::Wants(event) => Stage::Waits(event),
        Turn::Done => Stage::Elsewhere,
        Turn::Stopped(_) => Stage::Elsewhere,
        Turn::NoMemory => Stage::NoMemory,
    }
}

/// Hands in an arrival.
pub(crate) fn hand_in(alloc: Global, session: &mut Session, bytes: &[u8]) -> i32
    ensures arrives { (code : CodeValue) (p : Parked) (sent : List (List ℕ))
        → IsAt code p sent (Some session.old)
        → IsArrival code p sent (Some session.new) result bytes.now }
    ensures failed { IsFailed (Some session.old)
        → ((result ≡ pos 99) ⊎ ((result ≡ pos 13) × (ARRIVAL < length bytes.now)))
        × IsFailed (Some session.new) }
{
    if bytes.len() > ARRIVAL as usize {
        return TOO_LARGE;
    }
    match look_ahead(alloc, session) {
        Stage::Waits(_) => {}
        Stage::Elsewhere => return MISUSED,
        Stage::NoMemory => return NO_MEMORY,
    }
    let Ok(arrival) = Vec::from_slice(alloc, bytes) else {
        return NO_MEMORY;
    };
    match give(session, Bytes::new(arrival)) {
        Ok(()) => DONE,
        Err(NoMemory) => NO_MEMORY,
    }
}

/// Writes the record of a session that waits.
pub(crate) fn park_into(
    alloc: Global,
    session: &mut Session,
    key: &[u8],
    out: &mut [u8],
    written: &mut usize,
) -> i32
    ensures parks { (code : CodeValue) (p : Parked) (sent : List (List ℕ))
        → IsAt code p sent (Some session.old)
        → IsParking code p sent (Some session.new) result
        key.now out.old out.new written.new }
    ensures failed { IsFailed (Some session.old)
        → (result ≡ pos 99) × IsFailed (Some session.new) }
{
    match look_ahead(alloc, session) {
        Stage::Waits(_) => {}
        Stage::Elsewhere => return MISUSED,
        Stage::NoMemory => return NO_MEMORY,
    }
    let sealed = match record(alloc, session, key) {
        Ok(sealed) => sealed,
        Err(NoMemory) => return NO_MEMORY,
    };
    if copy_out(sealed.as_slice(), out, written) {
        DONE
    } else {
        SHORT
    }
}
