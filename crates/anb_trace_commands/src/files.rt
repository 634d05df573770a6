//! What is traced, from the files of the words.
ghost use Rattle.std.specs.Prelude.{◌≡◌, ◌+◌, ◌<◌, ◌≤◌, ◌^◌, [], ◌∷◌, length, All, IfOk, IfErr};
ghost use Rattle.anb_base.specs.Moves.{Rose};
ghost use Rattle.anb_base.specs.declared.TheConstants.{ARRIVAL, WIDE};
ghost use Rattle.anb_code.specs.Taking.{take_texts};
ghost use Rattle.anb_code.specs.Verified.{IsVerifiedCode};
ghost use Rattle.anb_compile.specs.Fitting.{FitsRole};
ghost use Rattle.anb_transcript.specs.Replays.{arrivals_of};
ghost use Rattle.anb_command.specs.Fetches.{Fetches, IfTold, IsOneOf};
ghost use Rattle.anb_command.specs.Reported.{TellsFileFaults};
ghost use Rattle.anb_status.specs.Statuses.{IsEarly};
ghost use Rattle.anb_command.specs.Steps.{IsFailure, refused};
ghost use Rattle.anb_role_commands.specs.ReplayCommand.{ComparisonIs, IsReadToCompare};
ghost use Rattle.anb_trace_commands.specs.Tracing.{IsTraceable};

use anb_base::Shelf;
use anb_command::{
    Playable, Prepared, ReplayWords, Status, playable_in_file, prepare_code, transcript_in_file,
};
use anb_compile::fitting_codes_play;
use anb_protocol::Protocol;
use anb_transcript::Transcript;
use std::alloc::Global;

/// A role with what it plays, and the transcript whose arrivals it plays over.
#[derive(Drop)]
pub(crate) struct Tracing {
    pub(crate) protocol: Protocol,
    pub(crate) role: u32,
    pub(crate) prepared: Prepared,
    pub(crate) transcript: Transcript,
}

/// Reads the files of a trace.
pub(crate) fn prepare<F: Shelf>(
    alloc: Global,
    shelf: &mut F,
    words: ReplayWords,
    host_seed: Option<[u8; 32]>,
) -> Result<Tracing, Status>
    ensures ready { IfOk result (λ t. IfTold (F.files shelf.old) (λ files.
        IsTraceable (ComparisonIs words.entry.narration.now words.entry.name.now
        words.entry.values.now words.entry.transcript.now host_seed files)
        t.protocol t.role t.prepared.code t.prepared.initial t.prepared.seed t.transcript)) }
    ensures within { IfOk result (λ t. t.role < length t.protocol.roles) }
    ensures fits { IfOk result (λ t. FitsRole t.protocol t.role t.prepared.code) }
    ensures verified { IfOk result (λ t. IsVerifiedCode ARRIVAL WIDE t.prepared.code) }
    ensures takes { IfOk result (λ t.
        length t.prepared.initial ≡ length (take_texts t.prepared.code.instrs)) }
    ensures short { IfOk result (λ t. All (λ value. length value ≤ ARRIVAL) t.prepared.initial) }
    ensures few { IfOk result (λ t. length t.transcript + 1 < 2 ^ 32) }
    ensures arrivals { IfOk result (λ t.
        All (λ arrival. length arrival ≤ ARRIVAL) (arrivals_of t.transcript)) }
    ensures refused { IfErr result (λ status. IsFailure status
        (λ file. IsOneOf (words.entry.narration.now ∷ words.entry.values.now
        ∷ words.entry.transcript.now ∷ []) file
        × Rose (F.faults shelf.old file) (F.faults shelf.new file)
        × IfTold (F.files shelf.old) (λ files.
        IsReadToCompare words.entry.narration.now words.entry.name.now words.entry.values.now
        words.entry.transcript.now host_seed files file))
        (IfTold (F.files shelf.old) (λ files.
        ComparisonIs words.entry.narration.now words.entry.name.now words.entry.values.now
        words.entry.transcript.now host_seed files (refused status)))) }
    ensures early { IfErr result IsEarly }
    ensures fetches { Fetches (words.entry.narration.now ∷ words.entry.values.now
        ∷ words.entry.transcript.now ∷ [])
        (F.files shelf.old) (F.files shelf.new) (F.faults shelf.old) (F.faults shelf.new) }
    ensures told { TellsFileFaults result (F.faults shelf.old) (F.faults shelf.new) }
{
    let Playable {
        protocol,
        role,
        code,
    } = match playable_in_file(alloc, shelf, words.narration, words.name) {
        Ok(playable) => playable,
        Err(status) => return Err(status),
    };
    fitting_codes_play(&protocol);
    let prepared = match prepare_code(alloc, shelf, words.values, code, host_seed) {
        Ok(prepared) => prepared,
        Err(status) => return Err(status),
    };
    let _ = prepared.code.instrs();
    match transcript_in_file(alloc, shelf, words.transcript) {
        Ok(transcript) => Ok(Tracing {
            protocol,
            role,
            prepared,
            transcript,
        }),
        Err(status) => Err(status),
    }
}
