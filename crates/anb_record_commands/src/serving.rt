//! Sessions of a code over a wire, whose lines are appended to their files.
ghost use Rattle.std.specs.Prelude.{◌≡◌, ◌≢◌, ◌≤◌, ◌⊎◌, List, [], All, Some, true, length};
ghost use Rattle.anb_base.specs.declared.TheConstants.{ARRIVAL};
ghost use Rattle.anb_base.specs.declared.place.Place.{Place};
ghost use Rattle.anb_code.specs.Taking.{take_texts};
ghost use Rattle.anb_host.specs.declared.event.HostEvent.{HostEvent};
ghost use Rattle.anb_host.specs.HostFrames.{FramesLeft, Tail};
ghost use Rattle.anb_host.specs.Hosts.{StandsFor, plays_of};
ghost use Rattle.anb_words.specs.Commands.{place_by};
ghost use Rattle.anb_command.specs.Causes.{HasWireCause};
ghost use Rattle.anb_command.specs.OverWire.{OverWire, StaysReached};
ghost use Rattle.anb_command.specs.Reported.{TellsWireFaults};
ghost use Rattle.anb_host_commands.specs.Serving.{EndsSo, ServesOn, runs_by};
ghost use Rattle.anb_status.specs.Statuses.{after_reach, before_reach, phase_of};
ghost use Rattle.anb_status.specs.declared.status.Status.TheVariants as status;
ghost use Rattle.anb_record_commands.specs.Running.{MissesSessions, RecordsSessions, missing_of_host};
ghost use Rattle.anb_recorded.specs.declared.ended.Missing.TheVariants as missing;

use anb_base::{Failed, NoMemory, Text, Wire};
use anb_command::{Endpoint, Prepared, Status, reach};
use anb_host::Host;
use anb_host_commands::{FRAMES, status_of};
use anb_host_recording::{Noted, record_sessions};
use anb_recorded::{Ended, Missing};
use anb_recording::Journal;
use std::alloc::Global;

/// Serves sessions of the code over the wire, which it reaches at the place, and records each.
pub(crate) fn record_on<W: Wire, J: Journal>(
    alloc: Global,
    wire: &mut W,
    journal: &mut J,
    endpoint: Endpoint,
    prepared: Prepared,
    folder: &Text,
) -> Ended
    requires count { length prepared.initial ≡ length (take_texts prepared.code.instrs) }
    requires short { All (λ value. length value ≤ ARRIVAL) prepared.initial }
    ensures serves { ServesOn (runs_by prepared.code prepared.initial prepared.seed)
        (W.state wire.old) (W.state wire.new) result.status }
    ensures late { phase_of result.status ≡ before_reach → ⊥ }
    ensures wire { OverWire (place_by endpoint.entry) true result.status
        (W.state wire.old) (W.state wire.new) }
    ensures why_missed { MissesSessions folder.now (J.state journal.old) (J.state journal.new)
        result.status result.missing }
    ensures recorded { result.status ≢ status.NoMemory → result.missing ≡ missing.Nothing
        → RecordsSessions folder.now (J.state journal.old) (J.state journal.new)
        (runs_by prepared.code prepared.initial prepared.seed)
        (W.state wire.old).left (W.state wire.new).left }
{
    let place = match endpoint.place(alloc) {
        Ok(place) => place,
        Err(NoMemory) => return wanting(),
    };
    let initial = prepared.initial.into_vec();
    let mut host = match Host::new(alloc, &prepared.code, initial, prepared.seed) {
        Ok(host) => host,
        Err(NoMemory) => return wanting(),
    };
    match reach(wire, &place, endpoint.timeout()) {
        Ok(()) => record_now(alloc, &mut host, wire, journal, folder),
        Err(Failed) => Ended {
            status: Status::Unreached(place),
            missing: Missing::Nothing,
        },
    }
}

/// Nothing was done for want of memory.
fn wanting() -> Ended
    ensures status { result.status ≡ status.NoMemory }
    ensures missing { result.missing ≡ missing.Nothing }
{
    Ended {
        status: Status::NoMemory,
        missing: Missing::Nothing,
    }
}

/// Serves the host over a wire that was reached, and records its sessions.
fn record_now<W: Wire, J: Journal>(
    alloc: Global,
    host: &mut Host<'_>,
    wire: &mut W,
    journal: &mut J,
    folder: &Text,
) -> Ended
    ensures serves { (past events : List HostEvent) (tail : Tail) → StandsFor host.old past
        → FramesLeft (W.state wire.old).left events tail
        → EndsSo (plays_of host.old) past events tail (W.state wire.old) (W.state wire.new)
        result.status }
    ensures after { (phase_of result.status ≡ after_reach) ⊎ (result.status ≡ status.NoMemory) }
    ensures cause { (place : Place)
        → HasWireCause (Some place) (W.state wire.old) (W.state wire.new) result.status }
    ensures told { TellsWireFaults (W.state wire.old) (W.state wire.new) result.status }
    ensures reached { StaysReached (W.state wire.old) (W.state wire.new) }
    ensures why_missed { StandsFor host.old []
        → MissesSessions folder.now (J.state journal.old) (J.state journal.new)
        result.status result.missing }
    ensures recorded { StandsFor host.old []
        → result.status ≢ status.NoMemory → result.missing ≡ missing.Nothing
        → RecordsSessions folder.now (J.state journal.old) (J.state journal.new)
        (plays_of host.old) (W.state wire.old).left (W.state wire.new).left }
{
    let recorded = record_sessions(alloc, host, wire, journal, folder, FRAMES);
    Ended {
        status: status_of(recorded.end),
        missing: missing_of(recorded.noted),
    }
}

/// What is missing where this is missing of the sessions.
fn missing_of(noted: Noted) -> Missing
    ensures { result ≡ missing_of_host noted }
{
    match noted {
        Noted::Whole => Missing::Nothing,
        Noted::Unwritten(name) => Missing::Unwritten(name),
        Noted::NoMemory => Missing::NoMemory,
    }
}
