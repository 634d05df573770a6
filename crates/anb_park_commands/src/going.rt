//! A session over a wire, which is parked where it waits.
ghost use Rattle.std.specs.Prelude.{◌≡◌, ◌⊎◌, ◌<◌, ◌^◌, ℕ, List, length, IsTrue, Some, true, OnOk, OnErr};
ghost use Rattle.anb_park_commands.specs.declared.ended.RecordWay.TheVariants.{ByWire};
ghost use Rattle.anb_base.specs.Moves.{Rose, Put, PutPrefix};
ghost use Rattle.anb_base.specs.declared.place.Place.{Place};
ghost use Rattle.anb_code.specs.CodeValue.{CodeValue};
ghost use Rattle.anb_frame.specs.Frames.{frame};
ghost use Rattle.anb_machine.specs.Machines.{waits};
ghost use Rattle.anb_park.specs.Lives.{Stands};
ghost use Rattle.anb_park.specs.Records.{Parked, record_of};
ghost use Rattle.anb_session.specs.Sessions.{IsPrompt};
ghost use Rattle.anb_command.specs.Causes.{HasWireCause};
ghost use Rattle.anb_words.specs.Commands.{place_by};
ghost use Rattle.anb_command.specs.OverWire.{OnlyWrites, OverWire, StaysReached};
ghost use Rattle.anb_command.specs.Reported.{TellsWireFaults};
ghost use Rattle.anb_status.specs.Statuses.{after_reach, before_reach, phase_of};
ghost use Rattle.anb_status.specs.declared.status.Status.TheVariants as status;
ghost use Rattle.anb_park_commands.specs.Going.{FitsFrame, HandsOut, IsKept, IsSaved, ParksOn, StandsSmall, Writes, ended_so, plays_on, saved};

use crate::ended::{Ended, RecordWay};
use anb_base::{Bytes, Failed, NoMemory, Wire};
use anb_command::{Endpoint, Halt, Status, reach};
use anb_frame::put;
use anb_park::{Live, play_on};
use anb_seal::seals_longer;
use anb_session::PlayEnd;
use std::alloc::Global;

/// Goes on with the session over the wire, which it reaches at the place, and parks it under the
/// key where it waits. A stop tells no instruction.
pub(crate) fn go_over<W: Wire>(
    alloc: Global,
    wire: &mut W,
    endpoint: Endpoint,
    live: &mut Live<'_>,
    key: &[u8],
    way: RecordWay,
) -> Ended
    requires { StandsSmall live.old }
    ensures parks { (code : CodeValue) (s : Parked) (sent : List (List ℕ))
        → Stands code s sent live.old
        → ParksOn way (plays_on live.old) (saved key.now s)
        (W.state wire.old) (W.state wire.new) result.status }
    ensures hands { HandsOut way (IsSaved live.old key.now (W.state wire.old).left)
        result.status result.record }
    ensures kept { (code : CodeValue) (s : Parked) (sent : List (List ℕ))
        → Stands code s sent live.old
        → IsKept code s (W.state wire.old).left result.status }
    ensures prompt { IsPrompt (plays_on live.old) (W.state wire.old) (W.state wire.new) }
    ensures late { phase_of result.status ≡ before_reach → ⊥ }
    ensures wire { OverWire (place_by endpoint.entry) true result.status
        (W.state wire.old) (W.state wire.new) }
{
    let place = match endpoint.place(alloc) {
        Ok(place) => place,
        Err(NoMemory) => return Ended {
            status: Status::NoMemory,
            record: None,
        },
    };
    match reach(wire, &place, endpoint.timeout()) {
        Ok(()) => go_now(alloc, wire, live, key, way),
        Err(Failed) => Ended {
            status: Status::Unreached(place),
            record: None,
        },
    }
}

/// Goes on over a wire that was reached.
fn go_now<W: Wire>(
    alloc: Global,
    wire: &mut W,
    live: &mut Live<'_>,
    key: &[u8],
    way: RecordWay,
) -> Ended
    requires { StandsSmall live.old }
    ensures parks { (code : CodeValue) (s : Parked) (sent : List (List ℕ))
        → Stands code s sent live.old
        → ParksOn way (plays_on live.old) (saved key.now s)
        (W.state wire.old) (W.state wire.new) result.status }
    ensures hands { HandsOut way (IsSaved live.old key.now (W.state wire.old).left)
        result.status result.record }
    ensures kept { (code : CodeValue) (s : Parked) (sent : List (List ℕ))
        → Stands code s sent live.old
        → IsKept code s (W.state wire.old).left result.status }
    ensures prompt { IsPrompt (plays_on live.old) (W.state wire.old) (W.state wire.new) }
    ensures after { (phase_of result.status ≡ after_reach) ⊎ (result.status ≡ status.NoMemory) }
    ensures cause { (place : Place)
        → HasWireCause (Some place) (W.state wire.old) (W.state wire.new) result.status }
    ensures told { TellsWireFaults (W.state wire.old) (W.state wire.new) result.status }
    ensures reached { StaysReached (W.state wire.old) (W.state wire.new) }
{
    match play_on(alloc, live, wire) {
        PlayEnd::Waiting(event) => keep(alloc, wire, live, key, event, way),
        end => Ended {
            status: status_of(end),
            record: None,
        },
    }
}

/// The status of a session that isn't parked.
fn status_of(end: PlayEnd) -> Status
    ensures { result ≡ ended_so end }
{
    match end {
        PlayEnd::Done => Status::Done,
        PlayEnd::Stopped(halt) => Status::Stopped(Halt {
            event: halt.event,
            at: 0,
        }),
        PlayEnd::Waiting(event) => Status::Waiting(event),
        PlayEnd::Truncated { have, need } => Status::Truncated { have, need },
        PlayEnd::TooLarge(len) => Status::TooLarge(len),
        PlayEnd::ReadFault => Status::ReadFault,
        PlayEnd::WriteFault => Status::WriteFault,
        PlayEnd::NoMemory => Status::NoMemory,
    }
}

/// Makes the record of a session that waits, and writes it over the wire or hands it out.
fn keep<W: Wire>(
    alloc: Global,
    wire: &mut W,
    live: &Live<'_>,
    key: &[u8],
    event: u32,
    way: RecordWay,
) -> Ended
    requires waits { IsTrue (waits live.now.machine) }
    requires small { FitsFrame live.now }
    ensures writes { (code : CodeValue) (s : Parked) (sent : List (List ℕ))
        → Stands code s sent live.now
        → Writes way (record_of key.now s) event (W.state wire.old) (W.state wire.new)
        result.status }
    ensures hands { HandsOut way (λ record_bytes. (code : CodeValue) (s : Parked)
        (sent : List (List ℕ)) → Stands code s sent live.now → record_bytes ≡ record_of key.now s)
        result.status result.record }
    ensures after { (phase_of result.status ≡ after_reach) ⊎ (result.status ≡ status.NoMemory) }
    ensures cause { (place : Place)
        → HasWireCause (Some place) (W.state wire.old) (W.state wire.new) result.status }
    ensures told { TellsWireFaults (W.state wire.old) (W.state wire.new) result.status }
    ensures only { OnlyWrites (W.state wire.old) (W.state wire.new) }
{
    seals_longer();
    let parked = match live.park(alloc, key) {
        Ok(parked) => parked,
        Err(NoMemory) => return Ended {
            status: Status::NoMemory,
            record: None,
        },
    };
    match way {
        RecordWay::ByWire => Ended {
            status: write_record(wire, parked, event),
            record: None,
        },
        RecordWay::ToFile => Ended {
            status: Status::Parked(event),
            record: Some(parked),
        },
    }
}

/// Writes a record in its frame.
fn write_record<W: Wire>(wire: &mut W, parked: Bytes, event: u32) -> Status
    requires { length parked < 2 ^ 32 }
    ensures writes { Writes ByWire parked event (W.state wire.old) (W.state wire.new)
        result }
    ensures after { (phase_of result ≡ after_reach) ⊎ (result ≡ status.NoMemory) }
    ensures cause { (place : Place)
        → HasWireCause (Some place) (W.state wire.old) (W.state wire.new) result }
    ensures told { TellsWireFaults (W.state wire.old) (W.state wire.new) result }
    ensures only { OnlyWrites (W.state wire.old) (W.state wire.new) }
{
    match put_record(wire, parked.as_slice()) {
        Ok(()) => Status::Parked(event),
        Err(Failed) => Status::WriteFault,
    }
}

/// Writes the bytes of a record in their frame.
fn put_record<W: Wire>(wire: &mut W, parked: &[u8]) -> Result<(), Failed>
    requires { length parked.now < 2 ^ 32 }
    ensures put { OnOk result
        (Put (W.state wire.old).written (W.state wire.new).written (frame parked.now)) }
    ensures failed { OnErr result
        (PutPrefix (W.state wire.old).written (W.state wire.new).written (frame parked.now)) }
    ensures cause { OnErr result
        (Rose (W.state wire.old).write_faults (W.state wire.new).write_faults) }
    ensures quiet { OnOk result
        ((W.state wire.new).write_faults ≡ (W.state wire.old).write_faults) }
    ensures only { OnlyWrites (W.state wire.old) (W.state wire.new) }
{
    put(wire, parked)
}
