//! A transcript compared with a role's play.
ghost use Rattle.std.specs.Prelude.{◌≡◌, ◌+◌, ◌<◌, ◌≤◌, ◌^◌, [], ◌∷◌, length, IfOk, IfErr, Some, false, All};
ghost use Rattle.anb_base.specs.Moves.{Rose};
ghost use Rattle.anb_base.specs.declared.TheConstants.{ARRIVAL};
ghost use Rattle.anb_base.specs.declared.place.Place.TheVariants as place;
ghost use Rattle.anb_code.specs.Taking.{take_texts};
ghost use Rattle.anb_transcript.specs.Replays.{arrivals_of};
ghost use Rattle.anb_command.specs.Causes.{HasCause, NoneRose};
ghost use Rattle.anb_command.specs.Fetches.{Fetches, IfTold, IsOneOf};
ghost use Rattle.anb_command.specs.OverWire.{OverWire};
ghost use Rattle.anb_command.specs.Reaches.{Reaches};
ghost use Rattle.anb_command.specs.Reported.{TellsFaults, TellsFileFaults};
ghost use Rattle.anb_status.specs.Statuses.{IsEarly, before_reach, phase_of};
ghost use Rattle.anb_command.specs.Steps.{IsFailure, refused};
ghost use Rattle.anb_command.specs.Touches.{Touches};
ghost use Rattle.anb_role_commands.specs.Comparing.{IsComparable, IsCompared, IsReplayed};
ghost use Rattle.anb_role_commands.specs.Playing.{play_in};
ghost use Rattle.anb_role_commands.specs.ReplayCommand.{ComparisonIs, CompletesReplay};
ghost use Rattle.anb_role_commands.specs.ReplayCommand.{DoesReplay, IsReadToCompare, OnlyReaches, status_of};

use crate::role_play::prepare;
use anb_base::{NoMemory, Shelf, Wire};
use anb_command::{
    Endpoint, Halt, PlayWords, Prepared, ReplayWords, Status, reach_stdio, transcript_in_file,
};
use anb_machine::Machine;
use anb_read::{narrations_are_unique, none_is_both, refusals_are_unique};
use anb_transcript::{ReplayEnd, Transcript, one_reading, one_replay};
use anb_values::one_fit;
use std::alloc::Global;

/// What a role plays, and the transcript that is compared with it.
#[derive(Drop)]
struct Comparison {
    prepared: Prepared,
    transcript: Transcript,
}

/// Compares the transcript in the file with the role's play in this session. Nothing is read or written.
pub fn replay<F: Shelf, W: Wire>(
    alloc: Global,
    shelf: &mut F,
    wire: &mut W,
    words: ReplayWords,
    session: u32,
    host_seed: Option<[u8; 32]>,
) -> Status
    ensures does { DoesReplay words.entry.narration.now words.entry.name.now words.entry.values.now
        words.entry.transcript.now host_seed session (F.files shelf.old)
        (W.state wire.old) (W.state wire.new) result }
    ensures completes { NoneRose (words.entry.narration.now ∷ words.entry.values.now
        ∷ words.entry.transcript.now ∷ [])
        (F.faults shelf.old) (F.faults shelf.new) (W.state wire.old) (W.state wire.new)
        → CompletesReplay words.entry.narration.now words.entry.name.now words.entry.values.now
        words.entry.transcript.now host_seed session (F.files shelf.old) result }
    ensures faults { HasCause (words.entry.narration.now ∷ words.entry.values.now
        ∷ words.entry.transcript.now ∷ [])
        (Some place.Stdio) (F.faults shelf.old) (F.faults shelf.new)
        (W.state wire.old) (W.state wire.new) result }
    ensures reported { TellsFaults (F.faults shelf.old) (F.faults shelf.new)
        (W.state wire.old) (W.state wire.new) result }
    ensures fetches { Fetches (words.entry.narration.now ∷ words.entry.values.now
        ∷ words.entry.transcript.now ∷ [])
        (F.files shelf.old) (F.files shelf.new) (F.faults shelf.old) (F.faults shelf.new) }
    ensures reached { Reaches (Some place.Stdio) (phase_of result)
        (W.state wire.old).reached (W.state wire.new).reached }
    ensures touches { Touches false (phase_of result) (W.state wire.old) (W.state wire.new) }
{
    narrations_are_unique();
    refusals_are_unique();
    none_is_both();
    one_fit();
    one_reading();
    one_replay();
    match prepare_comparison(alloc, shelf, words, host_seed) {
        Ok(comparison) => compare_over(alloc, wire, &comparison, session),
        Err(status) => status,
    }
}

/// Reads the files of a comparison.
fn prepare_comparison<F: Shelf>(
    alloc: Global,
    shelf: &mut F,
    words: ReplayWords,
    host_seed: Option<[u8; 32]>,
) -> Result<Comparison, Status>
    ensures ready { IfOk result (λ c. IfTold (F.files shelf.old) (λ files.
        IsComparable (ComparisonIs words.entry.narration.now words.entry.name.now
        words.entry.values.now words.entry.transcript.now host_seed files)
        c.prepared.code c.prepared.initial c.prepared.seed c.transcript)) }
    ensures takes { IfOk result (λ c.
        length c.prepared.initial ≡ length (take_texts c.prepared.code.instrs)) }
    ensures short { IfOk result (λ c. All (λ value. length value ≤ ARRIVAL) c.prepared.initial) }
    ensures few { IfOk result (λ c. length c.transcript + 1 < 2 ^ 32) }
    ensures arrivals { IfOk result (λ c.
        All (λ arrival. length arrival ≤ ARRIVAL) (arrivals_of c.transcript)) }
    ensures refused { IfErr result (λ status. IsFailure status
        (λ file. IsOneOf (words.entry.narration.now ∷ words.entry.values.now
        ∷ words.entry.transcript.now ∷ []) file
        × Rose (F.faults shelf.old file) (F.faults shelf.new file)
        × IfTold (F.files shelf.old) (λ files.
        IsReadToCompare words.entry.narration.now words.entry.name.now words.entry.values.now
        words.entry.transcript.now host_seed files file))
        (IfTold (F.files shelf.old) (λ files.
        ComparisonIs words.entry.narration.now words.entry.name.now words.entry.values.now
        words.entry.transcript.now host_seed files (refused status)))) }
    ensures early { IfErr result IsEarly }
    ensures fetches { Fetches (words.entry.narration.now ∷ words.entry.values.now
        ∷ words.entry.transcript.now ∷ [])
        (F.files shelf.old) (F.files shelf.new) (F.faults shelf.old) (F.faults shelf.new) }
    ensures told { TellsFileFaults result (F.faults shelf.old) (F.faults shelf.new) }
{
    let play = PlayWords {
        narration: words.narration,
        name: words.name,
        values: words.values,
        endpoint: Endpoint::Stdio,
    };
    let prepared = match prepare(alloc, shelf, play, host_seed) {
        Ok(prepared) => prepared,
        Err(status) => return Err(status),
    };
    match transcript_in_file(alloc, shelf, words.transcript) {
        Ok(transcript) => Ok(Comparison {
            prepared,
            transcript,
        }),
        Err(status) => Err(status),
    }
}

/// Reaches the standard streams and compares. A stop tells no instruction.
fn compare_over<W: Wire>(
    alloc: Global,
    wire: &mut W,
    comparison: &Comparison,
    session: u32,
) -> Status
    requires count { length comparison.now.prepared.initial
        ≡ length (take_texts comparison.now.prepared.code.instrs) }
    requires short { All (λ value. length value ≤ ARRIVAL) comparison.now.prepared.initial }
    requires few { length comparison.now.transcript + 1 < 2 ^ 32 }
    requires arrivals { All (λ arrival. length arrival ≤ ARRIVAL) (arrivals_of comparison.now.transcript) }
    ensures compared { IsCompared (play_in comparison.now.prepared.code
        comparison.now.prepared.initial comparison.now.prepared.seed session)
        comparison.now.transcript result }
    ensures only_reaches { OnlyReaches (W.state wire.old) (W.state wire.new) }
    ensures wire { OverWire place.Stdio false result (W.state wire.old) (W.state wire.new) }
{
    match reach_stdio(wire) {
        Ok(()) => compare(alloc, &comparison.prepared, session, &comparison.transcript),
        Err(status) => status,
    }
}

/// Compares the transcript with what the code does in this session.
pub fn compare(alloc: Global, prepared: &Prepared, session: u32, transcript: &Transcript) -> Status
    requires count { length prepared.now.initial ≡ length (take_texts prepared.now.code.instrs) }
    requires short { All (λ value. length value ≤ ARRIVAL) prepared.now.initial }
    requires few { length transcript.now + 1 < 2 ^ 32 }
    requires arrivals { All (λ arrival. length arrival ≤ ARRIVAL) (arrivals_of transcript.now) }
    ensures { IsReplayed (play_in prepared.now.code prepared.now.initial prepared.now.seed session)
        transcript.now result }
{
    let initial = prepared.initial.as_slice();
    let seed = &prepared.seed;
    let mut machine = match Machine::start(alloc, &prepared.code, initial, seed, session) {
        Ok(machine) => machine,
        Err(NoMemory) => return Status::NoMemory,
    };
    status_of(anb_transcript::replay(alloc, &mut machine, transcript))
}

/// The status of a replay that ended so.
pub fn status_of(end: ReplayEnd) -> Status
    ensures { result ≡ status_of end }
{
    match end {
        ReplayEnd::Follows => Status::Done,
        ReplayEnd::Differs { line, due } => Status::Differs { line, due },
        ReplayEnd::Short(event) => Status::Short(event),
        ReplayEnd::Stopped { halt, .. } => Status::Stopped(Halt {
            event: halt.event,
            at: 0,
        }),
        ReplayEnd::NoMemory => Status::NoMemory,
    }
}
