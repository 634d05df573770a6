//! A session, turn by turn, and the message that nobody took yet.
ghost use Rattle.std.specs.Prelude.{◌≡◌, ◌≤◌, ℕ, List, ◌∷◌, [], length, IfOk, OnOk, OnErr, Some, None};
ghost use Rattle.anb_base.specs.declared.TheConstants.{ARRIVAL};
ghost use Rattle.anb_code.specs.CodeValue.{CodeValue};
ghost use Rattle.anb_park.specs.Records.{Parked, after, count_takes, record_of, Accepts, IsWaiting as IsWaitingRun};
ghost use Rattle.anb_c.specs.Sessions.{IsAt, IsFailed};
ghost use Rattle.anb_c.specs.Turning.{GoesOn, IsParkedIn, IsWaiting};

use crate::owned::Owned;
use anb_base::{Bytes, NoMemory};
use anb_machine::Turn;
use std::alloc::Global;

/// A session, which is out only while a call works on it, and a message that it handed out and
/// nobody took yet.
#[derive(Drop)]
pub struct Session {
    pub(crate) live: Option<Owned>,
    pub(crate) pending: Option<Bytes>,
}

/// What comes next: first the message that nobody took yet.
pub(crate) fn next(alloc: Global, session: &mut Session) -> Turn
    ensures goes { (code : CodeValue) (p : Parked) (sent : List (List ℕ))
        → IsAt code p sent (Some session.old) → GoesOn code p sent session.new result }
    ensures waits { (event : ℕ) → result ≡ Turn.Wants event → IsWaiting session.new }
    ensures failed { IsFailed (Some session.old)
        → (result ≡ Turn.NoMemory) × IsFailed (Some session.new) }
{
    match session.pending.take() {
        Some(message) => Turn::Message(message),
        None => advance(alloc, session),
    }
}

/// What comes next, where no message is pending.
fn advance(alloc: Global, session: &mut Session) -> Turn
    requires { session.old.pending ≡ None }
    ensures goes { (code : CodeValue) (p : Parked) (sent : List (List ℕ))
        → IsAt code p sent (Some session.old) → GoesOn code p sent session.new result }
    ensures waits { (event : ℕ) → result ≡ Turn.Wants event → IsWaiting session.new }
    ensures failed { IsFailed (Some session.old)
        → (result ≡ Turn.NoMemory) × IsFailed (Some session.new) }
{
    let Some(live) = session.live.take() else {
        return Turn::NoMemory;
    };
    let (turn, live) = live.advance(alloc);
    session.live = Some(live);
    turn
}

/// Hands in the arrival that the session waits for.
pub(crate) fn give(session: &mut Session, bytes: Bytes) -> Result<(), NoMemory>
    requires waits { IsWaiting session.old }
    requires short { length bytes ≤ ARRIVAL }
    ensures given { OnOk result ((code : CodeValue) (p : Parked) (sent : List (List ℕ))
        → IsAt code p sent (Some session.old)
        → IsAt code (after p (bytes ∷ [])) sent (Some session.new)) }
    ensures failed { OnErr result (IsFailed (Some session.new)) }
{
    let Some(live) = session.live.take() else {
        unreachable!()
    };
    let (taken, live) = live.arrive(bytes);
    session.live = Some(live);
    taken
}

/// The record of a session that waits.
pub(crate) fn record(alloc: Global, session: &mut Session, key: &[u8]) -> Result<Bytes, NoMemory>
    requires { IsWaiting session.old }
    ensures same { session.new ≡ session.old }
    ensures record { IfOk result (λ sealed. (code : CodeValue) (p : Parked) (sent : List (List ℕ))
        → IsAt code p sent (Some session.old) → sealed ≡ record_of key.now p) }
    ensures accepted { IfOk result (λ sealed. (code : CodeValue) (p : Parked)
        → IsParkedIn code p session.old.live
        → Accepts (count_takes code) (IsWaitingRun code) p.id key.now sealed p) }
{
    let Some(live) = session.live.take() else {
        unreachable!()
    };
    let (sealed, live) = live.park(alloc, key);
    session.live = Some(live);
    sealed
}
