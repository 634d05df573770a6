//! Many sessions of a role on one wire.
ghost use Rattle.std.specs.Prelude.{◌≡◌, ◌⊎◌, List, [], ◌∷◌, length, Some, true, ◌≤◌, All};
ghost use Rattle.anb_base.specs.declared.TheConstants.{ARRIVAL};
ghost use Rattle.anb_base.specs.declared.place.Place.{Place};
ghost use Rattle.anb_code.specs.Taking.{take_texts};
ghost use Rattle.anb_host.specs.declared.event.HostEvent.{HostEvent};
ghost use Rattle.anb_host.specs.HostFrames.{FramesLeft, Tail};
ghost use Rattle.anb_host.specs.Hosts.{StandsFor, plays_of};
ghost use Rattle.anb_command.specs.Causes.{HasCause, HasWireCause, NoneRose};
ghost use Rattle.anb_words.specs.Commands.{place_by};
ghost use Rattle.anb_command.specs.Fetches.{Fetches};
ghost use Rattle.anb_command.specs.OverWire.{OverWire, StaysReached};
ghost use Rattle.anb_command.specs.Reaches.{Reaches};
ghost use Rattle.anb_command.specs.Reported.{TellsFaults, TellsWireFaults};
ghost use Rattle.anb_status.specs.Statuses.{after_reach, before_reach, phase_of};
ghost use Rattle.anb_command.specs.Touches.{Touches};
ghost use Rattle.anb_status.specs.declared.status.Status.TheVariants as status;
ghost use Rattle.anb_host_commands.specs.HostCommand.{CompletesHost, DoesHost};
ghost use Rattle.anb_host_commands.specs.Serving.{EndsSo, ServesOn, runs_by, status_of};

use anb_base::{Failed, NoMemory, Shelf, Wire};
use anb_command::{Endpoint, PlayWords, Prepared, Status, reach};
use anb_host::{Host, HostEnd, serve};
use anb_read::{narrations_are_unique, none_is_both, refusals_are_unique};
use anb_role_commands::prepare;
use anb_values::one_fit;
use std::alloc::Global;

/// The most frames that are handled.
pub const FRAMES: u32 = 4_294_967_295;

/// Serves 1,024 sessions of the role, each of them a play of its own, over the wire.
pub fn host<F: Shelf, W: Wire>(
    alloc: Global,
    shelf: &mut F,
    wire: &mut W,
    words: PlayWords,
    host_seed: Option<[u8; 32]>,
) -> Status
    ensures does { DoesHost words.entry.narration.now words.entry.name.now words.entry.values.now
        (F.files shelf.old) host_seed (W.state wire.old) (W.state wire.new) result }
    ensures completes { NoneRose (words.entry.narration.now ∷ words.entry.values.now ∷ [])
        (F.faults shelf.old) (F.faults shelf.new) (W.state wire.old) (W.state wire.new)
        → CompletesHost words.entry.narration.now words.entry.name.now words.entry.values.now
        (F.files shelf.old) host_seed (W.state wire.old) (W.state wire.new) result }
    ensures faults { HasCause (words.entry.narration.now ∷ words.entry.values.now ∷ [])
        (Some (place_by words.entry.endpoint)) (F.faults shelf.old) (F.faults shelf.new)
        (W.state wire.old) (W.state wire.new) result }
    ensures reported { TellsFaults (F.faults shelf.old) (F.faults shelf.new)
        (W.state wire.old) (W.state wire.new) result }
    ensures fetches { Fetches (words.entry.narration.now ∷ words.entry.values.now ∷ [])
        (F.files shelf.old) (F.files shelf.new) (F.faults shelf.old) (F.faults shelf.new) }
    ensures reached { Reaches (Some (place_by words.entry.endpoint)) (phase_of result)
        (W.state wire.old).reached (W.state wire.new).reached }
    ensures touches { Touches true (phase_of result) (W.state wire.old) (W.state wire.new) }
{
    narrations_are_unique();
    refusals_are_unique();
    none_is_both();
    one_fit();
    match prepare(alloc, shelf, words, host_seed) {
        Ok(prepared) => serve_over(alloc, wire, words.endpoint, prepared),
        Err(status) => status,
    }
}

/// Serves sessions of the code over the wire, which it reaches at the place.
pub fn serve_over<W: Wire>(
    alloc: Global,
    wire: &mut W,
    endpoint: Endpoint,
    prepared: Prepared,
) -> Status
    requires count { length prepared.initial ≡ length (take_texts prepared.code.instrs) }
    requires short { All (λ value. length value ≤ ARRIVAL) prepared.initial }
    ensures serves { ServesOn (runs_by prepared.code prepared.initial prepared.seed)
        (W.state wire.old) (W.state wire.new) result }
    ensures late { phase_of result ≡ before_reach → ⊥ }
    ensures wire { OverWire (place_by endpoint.entry) true result
        (W.state wire.old) (W.state wire.new) }
{
    let place = match endpoint.place(alloc) {
        Ok(place) => place,
        Err(NoMemory) => return Status::NoMemory,
    };
    let initial = prepared.initial.into_vec();
    let mut host = match Host::new(alloc, &prepared.code, initial, prepared.seed) {
        Ok(host) => host,
        Err(NoMemory) => return Status::NoMemory,
    };
    match reach(wire, &place, endpoint.timeout()) {
        Ok(()) => serve_now(alloc, &mut host, wire),
        Err(Failed) => Status::Unreached(place),
    }
}

/// Serves the host over a wire that was reached.
fn serve_now<W: Wire>(alloc: Global, host: &mut Host<'_>, wire: &mut W) -> Status
    ensures serves { (past events : List HostEvent) (tail : Tail) → StandsFor host.old past
        → FramesLeft (W.state wire.old).left events tail
        → EndsSo (plays_of host.old) past events tail (W.state wire.old) (W.state wire.new) result }
    ensures after { (phase_of result ≡ after_reach) ⊎ (result ≡ status.NoMemory) }
    ensures cause { (place : Place)
        → HasWireCause (Some place) (W.state wire.old) (W.state wire.new) result }
    ensures told { TellsWireFaults (W.state wire.old) (W.state wire.new) result }
    ensures reached { StaysReached (W.state wire.old) (W.state wire.new) }
{
    status_of(serve(alloc, host, wire, FRAMES))
}

/// The status of serving that ended so.
pub fn status_of(end: HostEnd) -> Status
    ensures { result ≡ status_of end }
{
    match end {
        HostEnd::Ended => Status::Done,
        HostEnd::Truncated { have, need } => Status::Truncated { have, need },
        HostEnd::BadKind(kind) => Status::BadKind(kind),
        HostEnd::ReadFault => Status::ReadFault,
        HostEnd::WriteFault => Status::WriteFault,
        HostEnd::Spent(frames) => Status::Spent(frames),
        HostEnd::NoMemory => Status::NoMemory,
    }
}
