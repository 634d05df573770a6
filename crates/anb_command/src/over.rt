//! A code's run over a wire.
ghost use Rattle.std.specs.Prelude.{◌≡◌, ◌⊎◌, length, Some, true, ◌≤◌, All};
ghost use Rattle.anb_base.specs.declared.TheConstants.{ARRIVAL};
ghost use Rattle.anb_base.specs.declared.place.Place.{Place};
ghost use Rattle.anb_code.specs.Taking.{take_texts};
ghost use Rattle.anb_machine.specs.ByteRuns.{run_bytes};
ghost use Rattle.anb_machine.specs.Machines.{gives};
ghost use Rattle.anb_session.specs.Sessions.{IsPrompt};
ghost use Rattle.anb_command.specs.Causes.{HasWireCause};
ghost use Rattle.anb_words.specs.Commands.{place_by};
ghost use Rattle.anb_command.specs.OverWire.{OverWire, StaysReached};
ghost use Rattle.anb_command.specs.Prepared.{RunsOn, status_of};
ghost use Rattle.anb_command.specs.Reported.{TellsWireFaults};
ghost use Rattle.anb_status.specs.Statuses.{after_reach, before_reach, phase_of};
ghost use Rattle.anb_status.specs.declared.status.Status.TheVariants as status;

use crate::prepare::Prepared;
use crate::reaching::reach;
use anb_base::{Failed, NoMemory, Wire};
use anb_machine::Machine;
use anb_session::PlayEnd;
use anb_status::Status;
use anb_words::Endpoint;
use std::alloc::Global;

/// Runs the code over the wire, which it reaches at the place.
pub fn run_over<W: Wire>(
    alloc: Global,
    wire: &mut W,
    endpoint: Endpoint,
    prepared: &Prepared,
) -> Status
    requires count { length prepared.now.initial ≡ length (take_texts prepared.now.code.instrs) }
    requires short { All (λ value. length value ≤ ARRIVAL) prepared.now.initial }
    ensures runs { RunsOn (run_bytes prepared.now.code prepared.now.initial prepared.now.seed 0)
        (W.state wire.old) (W.state wire.new) result }
    ensures prompt { IsPrompt (run_bytes prepared.now.code prepared.now.initial prepared.now.seed 0)
        (W.state wire.old) (W.state wire.new) }
    ensures late { phase_of result ≡ before_reach → ⊥ }
    ensures wire { OverWire (place_by endpoint.entry) true result
        (W.state wire.old) (W.state wire.new) }
{
    let place = match endpoint.place(alloc) {
        Ok(place) => place,
        Err(NoMemory) => return Status::NoMemory,
    };
    let initial = prepared.initial.as_slice();
    let mut machine = match Machine::start(alloc, &prepared.code, initial, &prepared.seed, 0) {
        Ok(machine) => machine,
        Err(NoMemory) => return Status::NoMemory,
    };
    match reach(wire, &place, endpoint.timeout()) {
        Ok(()) => run_now(alloc, &mut machine, wire),
        Err(Failed) => Status::Unreached(place),
    }
}

/// Runs the machine over a wire that was reached.
fn run_now<W: Wire>(alloc: Global, machine: &mut Machine<'_>, wire: &mut W) -> Status
    ensures runs { RunsOn (gives machine.old) (W.state wire.old) (W.state wire.new) result }
    ensures prompt { IsPrompt (gives machine.old) (W.state wire.old) (W.state wire.new) }
    ensures after { (phase_of result ≡ after_reach) ⊎ (result ≡ status.NoMemory) }
    ensures cause { (place : Place)
        → HasWireCause (Some place) (W.state wire.old) (W.state wire.new) result }
    ensures told { TellsWireFaults (W.state wire.old) (W.state wire.new) result }
    ensures reached { StaysReached (W.state wire.old) (W.state wire.new) }
{
    status_of(anb_session::play(alloc, machine, wire))
}

/// The status of a run that ended so.
pub fn status_of(end: PlayEnd) -> Status
    ensures { result ≡ status_of end }
{
    match end {
        PlayEnd::Done => Status::Done,
        PlayEnd::Stopped(halt) => Status::Stopped(halt),
        PlayEnd::Waiting(event) => Status::Waiting(event),
        PlayEnd::Truncated { have, need } => Status::Truncated { have, need },
        PlayEnd::TooLarge(len) => Status::TooLarge(len),
        PlayEnd::ReadFault => Status::ReadFault,
        PlayEnd::WriteFault => Status::WriteFault,
        PlayEnd::NoMemory => Status::NoMemory,
    }
}
