//! A host over a wire: events come in as frames, and notices go out as frames.

ghost use Rattle.std.specs.Prelude.{◌≡◌, ◌≢◌, ◌<◌, ◌≤◌, ◌⊎◌, List, All, Some, true, OnOk, OnErr, IfErr, IfSome, IfNone};
ghost use Rattle.anb_base.specs.Moves.{Rose, Put, PutPrefix};
ghost use Rattle.anb_host.specs.declared.event.HostEvent.{HostEvent};
ghost use Rattle.anb_host.specs.HostFrames.{Tail, FramesLeft, out};
ghost use Rattle.anb_host.specs.Hosts.{plays_of, StandsFor, IsNarrow};
ghost use Rattle.anb_host.specs.Serving.{FollowsAfter, Serves, StandsAfter};
ghost use Rattle.anb_host.specs.Turns.{GoesOn, EndsAt};

use crate::frames::{notice_bytes, read_event};
use crate::{Notice, Servable};
use anb_base::{Wire, write_whole};
use std::alloc::Global;

/// How serving ended.
#[derive(Clone, Copy, Debug, PartialEq, Eq, Drop)]
pub enum HostEnd {
    /// The input ended at a frame's border, before the budget was spent.
    Ended,
    /// The input ended within a frame. Both numbers count its bytes from its kind on: `need` is 5
    /// for a start, and for an arrival 9 while its length isn't whole, and then 9 plus the length.
    Truncated { have: u64, need: u64 },
    /// A frame begins with this byte, which is no kind. Nothing behind it was read.
    BadKind(u8),
    /// The wire failed as a source.
    ReadFault,
    /// The wire failed as a sink.
    WriteFault,
    /// As many frames as the budget were handled.
    Spent(u32),
    NoMemory,
}

/// Serves the sessions of a host, or of what keeps more beside one, over a wire, for at most as many
/// frames as the budget. What an event is answered is written before the next frame is read. No
/// place is reached. A host can be served again, but where memory was wanting: then nothing is read
/// or written any more.
pub fn serve<H: Servable, W: Wire>(
    alloc: Global,
    host: &mut H,
    wire: &mut W,
    budget: u32,
) -> HostEnd
    ensures serves { (past events : List HostEvent) (tail : Tail)
        → StandsFor (H.host host.old) past → FramesLeft (W.left wire.old) events tail
        → Serves (plays_of (H.host host.old)) past events tail budget
        (W.state wire.old) (W.state wire.new) result }

    // The host stands for the events so far, unless memory was wanting.
    ensures stands { (past events : List HostEvent) (tail : Tail)
        → StandsFor (H.host host.old) past → FramesLeft (W.left wire.old) events tail
        → result ≢ HostEnd.NoMemory
        → StandsAfter (plays_of (H.host host.old)) past events tail budget
        (W.state wire.old) (W.state wire.new) (H.host host.new) }

    // What is true behind the events that were answered is true of it.
    ensures followed { result ≢ HostEnd.NoMemory
        → FollowsAfter (H.host host.old) budget (W.state wire.old) (W.state wire.new)
        (λ some. H.Follows host.old some host.new) }
    ensures failed { result ≡ HostEnd.NoMemory → (H.host host.new).failed ≡ true }
    ensures stays { (H.host host.old).failed ≡ true
        → (result ≡ HostEnd.NoMemory) × (wire.new ≡ wire.old) }
    ensures code { (H.host host.new).code ≡ (H.host host.old).code }
    ensures init { (H.host host.new).init ≡ (H.host host.old).init }
    ensures seed { (H.host host.new).seed ≡ (H.host host.old).seed }

    // A fault is answered where its count rose, and nowhere else.
    ensures read_fault { result ≡ HostEnd.ReadFault
        → Rose (W.Source.faults wire.old) (W.Source.faults wire.new) }
    ensures write_fault { result ≡ HostEnd.WriteFault
        → Rose (W.Sink.faults wire.old) (W.Sink.faults wire.new) }
    ensures read_told { W.Source.faults wire.old < W.Source.faults wire.new
        → result ≡ HostEnd.ReadFault }
    ensures write_told { W.Sink.faults wire.old < W.Sink.faults wire.new
        → result ≡ HostEnd.WriteFault }
    ensures reading_never_falls { W.Source.faults wire.old ≤ W.Source.faults wire.new }
    ensures writing_never_falls { W.Sink.faults wire.old ≤ W.Sink.faults wire.new }

    // No place is reached.
    ensures reached { W.reached wire.new ≡ W.reached wire.old }
    ensures reach_faults { W.reach_faults wire.new ≡ W.reach_faults wire.old }
{
    if host.has_failed() {
        return HostEnd::NoMemory;
    }
    let end = serve_on(alloc, host, wire, budget);
    if matches!(end, HostEnd::NoMemory) {
        host.fail();
    }
    end
}

/// Serves a host for which memory was never wanting.
fn serve_on<H: Servable, W: Wire>(alloc: Global, host: &mut H, wire: &mut W, budget: u32) -> HostEnd
    ensures serves { (past events : List HostEvent) (tail : Tail)
        → StandsFor (H.host host.old) past → FramesLeft (W.left wire.old) events tail
        → Serves (plays_of (H.host host.old)) past events tail budget
        (W.state wire.old) (W.state wire.new) result }
    ensures stands { (past events : List HostEvent) (tail : Tail)
        → StandsFor (H.host host.old) past → FramesLeft (W.left wire.old) events tail
        → result ≢ HostEnd.NoMemory
        → StandsAfter (plays_of (H.host host.old)) past events tail budget
        (W.state wire.old) (W.state wire.new) (H.host host.new) }
    ensures followed { result ≢ HostEnd.NoMemory
        → FollowsAfter (H.host host.old) budget (W.state wire.old) (W.state wire.new)
        (λ some. H.Follows host.old some host.new) }
    ensures code { (H.host host.new).code ≡ (H.host host.old).code }
    ensures init { (H.host host.new).init ≡ (H.host host.old).init }
    ensures seed { (H.host host.new).seed ≡ (H.host host.old).seed }
    ensures read_fault { result ≡ HostEnd.ReadFault
        → Rose (W.Source.faults wire.old) (W.Source.faults wire.new) }
    ensures write_fault { result ≡ HostEnd.WriteFault
        → Rose (W.Sink.faults wire.old) (W.Sink.faults wire.new) }
    ensures read_told { W.Source.faults wire.old < W.Source.faults wire.new
        → result ≡ HostEnd.ReadFault }
    ensures write_told { W.Sink.faults wire.old < W.Sink.faults wire.new
        → result ≡ HostEnd.WriteFault }
    ensures reading_never_falls { W.Source.faults wire.old ≤ W.Source.faults wire.new }
    ensures writing_never_falls { W.Sink.faults wire.old ≤ W.Sink.faults wire.new }
    ensures reached { W.reached wire.new ≡ W.reached wire.old }
    ensures reach_faults { W.reach_faults wire.new ≡ W.reach_faults wire.old }
{
    for _ in 0..budget {
        if let Some(end) = handle(alloc, host, wire) {
            return end;
        }
    }
    HostEnd::Spent(budget)
}

/// Handles one frame, and tells the end that it makes.
fn handle<H: Servable, W: Wire>(alloc: Global, host: &mut H, wire: &mut W) -> Option<HostEnd>
    ensures goes_on { IfNone result
        (GoesOn (λ events. H.Follows host.old events host.new)
        (H.host host.old) (H.host host.new) (W.state wire.old) (W.state wire.new)) }
    ensures ends { IfSome result
        (EndsAt (λ events. H.Follows host.old events host.new)
        (H.host host.old) (H.host host.new) (W.state wire.old) (W.state wire.new)) }
    ensures code { (H.host host.new).code ≡ (H.host host.old).code }
    ensures init { (H.host host.new).init ≡ (H.host host.old).init }
    ensures seed { (H.host host.new).seed ≡ (H.host host.old).seed }
    ensures read_fault { IfSome result (λ end. end ≡ HostEnd.ReadFault
        → Rose (W.Source.faults wire.old) (W.Source.faults wire.new)) }
    ensures write_fault { IfSome result (λ end. end ≡ HostEnd.WriteFault
        → Rose (W.Sink.faults wire.old) (W.Sink.faults wire.new)) }
    ensures read_told { W.Source.faults wire.old < W.Source.faults wire.new
        → result ≡ Some HostEnd.ReadFault }
    ensures write_told { W.Sink.faults wire.old < W.Sink.faults wire.new
        → result ≡ Some HostEnd.WriteFault }
    ensures reading_never_falls { W.Source.faults wire.old ≤ W.Source.faults wire.new }
    ensures writing_never_falls { W.Sink.faults wire.old ≤ W.Sink.faults wire.new }
    ensures reached { W.reached wire.new ≡ W.reached wire.old }
    ensures reach_faults { W.reach_faults wire.new ≡ W.reach_faults wire.old }
{
    let event = match read_event(alloc, wire) {
        Ok(event) => event,
        Err(end) => return Some(end),
    };
    let Ok(told) = host.event(alloc, event) else {
        return Some(HostEnd::NoMemory);
    };
    write_notices(alloc, wire, &told).err()
}

/// Writes the frames of notices, each with one write.
fn write_notices<W: Wire>(alloc: Global, wire: &mut W, told: &[Notice]) -> Result<(), HostEnd>
    requires { All IsNarrow told.now }
    ensures put { OnOk result (Put (W.written wire.old) (W.written wire.new) (out told.now)) }
    ensures failed { IfErr result (λ end. (end ≡ HostEnd.WriteFault) ⊎ (end ≡ HostEnd.NoMemory)) }
    ensures prefix { OnErr result
        (PutPrefix (W.written wire.old) (W.written wire.new) (out told.now)) }
    ensures cause { result ≡ Err HostEnd.WriteFault
        → Rose (W.Sink.faults wire.old) (W.Sink.faults wire.new) }
    ensures told { W.Sink.faults wire.old < W.Sink.faults wire.new
        → result ≡ Err HostEnd.WriteFault }
    ensures never_falls { W.Sink.faults wire.old ≤ W.Sink.faults wire.new }
    ensures kept { W.Sink.kept wire.new ≡ W.Sink.kept wire.old }
{
    for notice in told {
        let Ok(frame) = notice_bytes(alloc, notice) else {
            return Err(HostEnd::NoMemory);
        };
        let Ok(()) = write_whole(wire, frame.as_slice()) else {
            return Err(HostEnd::WriteFault);
        };
    }
    Ok(())
}
