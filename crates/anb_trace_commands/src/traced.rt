//! A trace that is written to the standard streams.
ghost use Rattle.std.specs.Prelude.{◌≡◌, ◌≢◌, ◌+◌, ◌<◌, ◌≤◌, ◌^◌, ◌++◌, ◌⊎◌, [], ◌∷◌, length, All, IfOk, Some, false};
ghost use Rattle.anb_base.specs.declared.TheConstants.{ARRIVAL};
ghost use Rattle.anb_base.specs.declared.place.Place.TheVariants as place;
ghost use Rattle.anb_code.specs.Taking.{take_texts};
ghost use Rattle.anb_compile.specs.Fitting.{FitsRole};
ghost use Rattle.anb_explain.specs.Explanations.{AreOurs};
ghost use Rattle.anb_text.specs.Writing.{IsWritten};
ghost use Rattle.anb_trace.specs.Traces.{trace};
ghost use Rattle.anb_trace.specs.Words.{subject_of};
ghost use Rattle.anb_transcript.specs.Replays.{arrivals_of};
ghost use Rattle.anb_status.specs.declared.status.Status.TheVariants as status;
ghost use Rattle.anb_command.specs.Causes.{HasCause, NoneRose};
ghost use Rattle.anb_command.specs.Fetches.{Fetches};
ghost use Rattle.anb_command.specs.OverWire.{OnlyWrites, OverWire};
ghost use Rattle.anb_command.specs.Reaches.{Reaches};
ghost use Rattle.anb_command.specs.Reported.{TellsFaults};
ghost use Rattle.anb_status.specs.Statuses.{before_reach, phase_of};
ghost use Rattle.anb_command.specs.Touches.{Touches};
ghost use Rattle.anb_role_commands.specs.Comparing.{IsReplayed};
ghost use Rattle.anb_role_commands.specs.Playing.{play_in};
ghost use Rattle.anb_trace_commands.specs.TraceCommand.{CompletesTrace, DoesTrace, differing_line};
ghost use Rattle.anb_trace_commands.specs.Tracing.{EndsAs, HasComeOf, ended_by};

use crate::files::{Tracing, prepare};
use anb_base::{Bytes, NoMemory, Shelf, Sink, Wire};
use anb_command::{Prepared, ReplayWords, Status, reach_stdio};
use anb_explain::{Explanation, explanation_of};
use anb_protocol::Protocol;
use anb_read::{narrations_are_unique, none_is_both, refusals_are_unique};
use anb_role_commands::compare;
use anb_text::{WriteNo, write_part};
use anb_trace::{traces_tell_runs, write_trace};
use anb_transcript::{Transcript, TranscriptLine, one_reading, one_replay};
use anb_values::one_fit;
use itoa::Buffer;
use std::alloc::Global;

/// Tells what the role does in this session over the arrivals of a transcript. The status is that of `replay`.
pub fn trace<F: Shelf, W: Wire>(
    alloc: Global,
    shelf: &mut F,
    wire: &mut W,
    words: ReplayWords,
    session: u32,
    host_seed: Option<[u8; 32]>,
) -> Status
    ensures does { DoesTrace words.entry.narration.now words.entry.name.now words.entry.values.now
        words.entry.transcript.now host_seed session (F.files shelf.old)
        (W.state wire.old) (W.state wire.new) result }
    ensures completes { NoneRose (words.entry.narration.now ∷ words.entry.values.now
        ∷ words.entry.transcript.now ∷ [])
        (F.faults shelf.old) (F.faults shelf.new) (W.state wire.old) (W.state wire.new)
        → CompletesTrace words.entry.narration.now words.entry.name.now words.entry.values.now
        words.entry.transcript.now host_seed session (F.files shelf.old)
        (W.state wire.old) (W.state wire.new) result }
    ensures faults { HasCause (words.entry.narration.now ∷ words.entry.values.now
        ∷ words.entry.transcript.now ∷ [])
        (Some place.Stdio) (F.faults shelf.old) (F.faults shelf.new)
        (W.state wire.old) (W.state wire.new) result }
    ensures reported { TellsFaults (F.faults shelf.old) (F.faults shelf.new)
        (W.state wire.old) (W.state wire.new) result }
    ensures fetches { Fetches (words.entry.narration.now ∷ words.entry.values.now
        ∷ words.entry.transcript.now ∷ [])
        (F.files shelf.old) (F.files shelf.new) (F.faults shelf.old) (F.faults shelf.new) }
    ensures reached { Reaches (Some place.Stdio) (phase_of result)
        (W.state wire.old).reached (W.state wire.new).reached }
    ensures touches { Touches false (phase_of result) (W.state wire.old) (W.state wire.new) }
{
    narrations_are_unique();
    refusals_are_unique();
    none_is_both();
    one_fit();
    one_reading();
    one_replay();
    traces_tell_runs();
    match prepare(alloc, shelf, words, host_seed) {
        Ok(tracing) => trace_over(alloc, wire, tracing, session),
        Err(status) => status,
    }
}

/// Reaches the standard streams and writes the trace.
fn trace_over<W: Wire>(alloc: Global, wire: &mut W, tracing: Tracing, session: u32) -> Status
    requires within { tracing.role < length tracing.protocol.roles }
    requires fits { FitsRole tracing.protocol tracing.role tracing.prepared.code }
    requires takes { length tracing.prepared.initial
        ≡ length (take_texts tracing.prepared.code.instrs) }
    requires short { All (λ value. length value ≤ ARRIVAL) tracing.prepared.initial }
    requires few { length tracing.transcript + 1 < 2 ^ 32 }
    requires arrivals { All (λ arrival. length arrival ≤ ARRIVAL) (arrivals_of tracing.transcript) }
    ensures comes { HasComeOf tracing.protocol tracing.role tracing.prepared.code
        tracing.prepared.initial tracing.prepared.seed session tracing.transcript result
        (W.state wire.old).written (W.state wire.new).written }
    ensures late { phase_of result ≡ before_reach → ⊥ }
    ensures wire { OverWire place.Stdio false result (W.state wire.old) (W.state wire.new) }
{
    match reach_stdio(wire) {
        Ok(()) => trace_now(alloc, wire, tracing, session),
        Err(status) => status,
    }
}

/// Writes the trace to a wire that was reached.
fn trace_now<W: Wire>(alloc: Global, wire: &mut W, tracing: Tracing, session: u32) -> Status
    requires within { tracing.role < length tracing.protocol.roles }
    requires fits { FitsRole tracing.protocol tracing.role tracing.prepared.code }
    requires takes { length tracing.prepared.initial
        ≡ length (take_texts tracing.prepared.code.instrs) }
    requires short { All (λ value. length value ≤ ARRIVAL) tracing.prepared.initial }
    requires few { length tracing.transcript + 1 < 2 ^ 32 }
    requires arrivals { All (λ arrival. length arrival ≤ ARRIVAL) (arrivals_of tracing.transcript) }
    ensures comes { HasComeOf tracing.protocol tracing.role tracing.prepared.code
        tracing.prepared.initial tracing.prepared.seed session tracing.transcript result
        (W.state wire.old).written (W.state wire.new).written }
    ensures ends { EndsAs result (W.state wire.old) (W.state wire.new) }
    ensures only { OnlyWrites (W.state wire.old) (W.state wire.new) }
{
    let Tracing {
        protocol,
        role,
        prepared,
        transcript,
    } = tracing;
    let explanation = match explanation_of(alloc, &protocol, role, &prepared.code) {
        Ok(explanation) => explanation,
        Err(NoMemory) => return Status::NoMemory,
    };
    let status = match compared(alloc, &prepared, session, &transcript) {
        Ok(status) => status,
        Err(NoMemory) => return Status::NoMemory,
    };
    let arrivals = match arrivals_of(alloc, transcript) {
        Ok(arrivals) => arrivals,
        Err(NoMemory) => return Status::NoMemory,
    };
    let written = write_lines(
        alloc,
        wire,
        &protocol,
        &prepared,
        session,
        &explanation,
        &arrivals,
        &status,
    );
    ended_by(written, status)
}

/// The status of the replay.
fn compared(
    alloc: Global,
    prepared: &Prepared,
    session: u32,
    transcript: &Transcript,
) -> Result<Status, NoMemory>
    requires count { length prepared.now.initial ≡ length (take_texts prepared.now.code.instrs) }
    requires short { All (λ value. length value ≤ ARRIVAL) prepared.now.initial }
    requires few { length transcript.now + 1 < 2 ^ 32 }
    requires arrivals { All (λ arrival. length arrival ≤ ARRIVAL) (arrivals_of transcript.now) }
    ensures some { IfOk result (λ replayed. replayed ≢ status.NoMemory) }
    ensures replayed { IfOk result (IsReplayed
        (play_in prepared.now.code prepared.now.initial prepared.now.seed session)
        transcript.now) }
{
    match compare(alloc, prepared, session, transcript) {
        Status::NoMemory => Err(NoMemory),
        status => Ok(status),
    }
}

/// The status of a trace that was written so, behind a replay that ended so.
fn ended_by(written: Result<(), WriteNo>, replayed: Status) -> Status
    ensures { result ≡ ended_by written replayed }
{
    match written {
        Ok(()) => replayed,
        Err(WriteNo::Failed) => Status::WriteFault,
        Err(WriteNo::NoMemory) => Status::NoMemory,
    }
}

/// The arrivals of a transcript, in order.
fn arrivals_of(alloc: Global, transcript: Transcript) -> Result<Vec<Bytes>, NoMemory>
    ensures { IfOk result (λ arrivals. arrivals.items ≡ arrivals_of transcript) }
{
    let mut arrivals = Vec::new(alloc);
    for line in transcript.into_lines() {
        if let TranscriptLine::In(arrival) = line {
            arrivals.push(arrival)?;
        }
    }
    Ok(arrivals)
}

/// Writes the trace and the first line that isn't due to a wire that was reached.
fn write_lines<W: Wire>(
    alloc: Global,
    wire: &mut W,
    protocol: &Protocol,
    prepared: &Prepared,
    session: u32,
    explanation: &Explanation,
    arrivals: &[Bytes],
    status: &Status,
) -> Result<(), WriteNo>
    requires ours { AreOurs protocol.now prepared.now.code explanation.now }
    requires count { length prepared.now.initial ≡ length (take_texts prepared.now.code.instrs) }
    ensures writes { IsWritten
        (trace (subject_of protocol.now prepared.now.code explanation.now) prepared.now.initial
        prepared.now.seed session arrivals.now ++ differing_line status.now) result
        (W.state wire.old).written (W.state wire.new).written
        (W.state wire.old).write_faults (W.state wire.new).write_faults }
    ensures only { OnlyWrites (W.state wire.old) (W.state wire.new) }
{
    write_both(
        alloc,
        wire,
        protocol,
        prepared,
        session,
        explanation,
        arrivals,
        status,
    )
}

/// Writes the trace and the first line that isn't due.
fn write_both<K: Sink>(
    alloc: Global,
    snk: &mut K,
    protocol: &Protocol,
    prepared: &Prepared,
    session: u32,
    explanation: &Explanation,
    arrivals: &[Bytes],
    status: &Status,
) -> Result<(), WriteNo>
    requires ours { AreOurs protocol.now prepared.now.code explanation.now }
    requires count { length prepared.now.initial ≡ length (take_texts prepared.now.code.instrs) }
    ensures written { IsWritten
        (trace (subject_of protocol.now prepared.now.code explanation.now) prepared.now.initial
        prepared.now.seed session arrivals.now ++ differing_line status.now) result
        (K.written snk.old) (K.written snk.new) (K.faults snk.old) (K.faults snk.new) }
    ensures kept { K.kept snk.new ≡ K.kept snk.old }
{
    let initial = prepared.initial.as_slice();
    let Prepared { code, seed, .. } = prepared;
    match write_trace(
        alloc,
        snk,
        protocol,
        code,
        explanation,
        initial,
        seed,
        session,
        arrivals,
    ) {
        Ok(()) => {}
        Err(no) => return Err(no),
    }
    write_part(snk, differing_line(alloc, status))
}

/// The line of the first line of a transcript that isn't due, where the status tells one.
fn differing_line(alloc: Global, status: &Status) -> Result<Vec<u8>, NoMemory>
    ensures { IfOk result (λ bytes. bytes.items ≡ differing_line status.now) }
{
    let mut out = Vec::new(alloc);
    if let Status::Differs { line, .. } = status {
        let mut buffer = Buffer::new();
        out.extend_from_slice(b"transcript line ")?;
        out.extend_from_slice(buffer.format(*line).as_bytes())?;
        out.extend_from_slice(b" differs\n")?;
    }
    Ok(out)
}
