//! A role's play over a wire.
ghost use Rattle.std.specs.Prelude.{◌≡◌, ◌<◌, [], ◌∷◌, length, IfOk, IfErr, Some, true, ◌≤◌, All};
ghost use Rattle.anb_base.specs.declared.TheConstants.{ARRIVAL};
ghost use Rattle.anb_base.specs.Moves.{Rose};
ghost use Rattle.anb_code.specs.Taking.{take_texts};
ghost use Rattle.anb_compile.specs.Fitting.{FitsRole};
ghost use Rattle.anb_session.specs.Sessions.{IsPrompt};
ghost use Rattle.anb_command.specs.Causes.{HasCause, NoneRose};
ghost use Rattle.anb_words.specs.Commands.{place_by};
ghost use Rattle.anb_command.specs.Fetches.{Fetches, IfTold, IsOneOf};
ghost use Rattle.anb_command.specs.OverWire.{OverWire};
ghost use Rattle.anb_command.specs.Prepared.{RunsOn};
ghost use Rattle.anb_command.specs.Reaches.{Reaches};
ghost use Rattle.anb_command.specs.Reported.{TellsFaults, TellsFileFaults};
ghost use Rattle.anb_status.specs.Statuses.{IsEarly, before_reach, phase_of};
ghost use Rattle.anb_command.specs.Steps.{IsFailure, refused, given};
ghost use Rattle.anb_command.specs.Touches.{Touches};
ghost use Rattle.anb_role_commands.specs.Jobs.{IsRead, JobIs, JobOf};
ghost use Rattle.anb_role_commands.specs.PlayCommand.{CompletesPlay, DoesPlay};
ghost use Rattle.anb_role_commands.specs.Playing.{IsPlayable, IsPlayableInEach, IsPreparedFor, play_by};

use anb_base::{ARRIVAL, Shelf, Text, Wire};
use anb_command::{
    Endpoint, Halt, PlayWords, Playable, Prepared, Status, playable_in_file, prepare_code, run_over,
};
use anb_compile::fitting_codes_play;
use anb_frame::one_cut;
use anb_read::{narrations_are_unique, none_is_both, refusals_are_unique};
use anb_values::one_fit;
use std::alloc::Global;

/// Plays the role over the wire.
pub fn play<F: Shelf, W: Wire>(
    alloc: Global,
    shelf: &mut F,
    wire: &mut W,
    words: PlayWords,
    host_seed: Option<[u8; 32]>,
) -> Status
    ensures does { DoesPlay words.entry.narration.now words.entry.name.now words.entry.values.now
        (F.files shelf.old) host_seed (W.state wire.old) (W.state wire.new) result }
    ensures completes { NoneRose (words.entry.narration.now ∷ words.entry.values.now ∷ [])
        (F.faults shelf.old) (F.faults shelf.new) (W.state wire.old) (W.state wire.new)
        → CompletesPlay words.entry.narration.now words.entry.name.now words.entry.values.now
        (F.files shelf.old) host_seed (W.state wire.old) (W.state wire.new) result }
    ensures faults { HasCause (words.entry.narration.now ∷ words.entry.values.now ∷ [])
        (Some (place_by words.entry.endpoint)) (F.faults shelf.old) (F.faults shelf.new)
        (W.state wire.old) (W.state wire.new) result }
    ensures reported { TellsFaults (F.faults shelf.old) (F.faults shelf.new)
        (W.state wire.old) (W.state wire.new) result }
    ensures fetches { Fetches (words.entry.narration.now ∷ words.entry.values.now ∷ [])
        (F.files shelf.old) (F.files shelf.new) (F.faults shelf.old) (F.faults shelf.new) }
    ensures reached { Reaches (Some (place_by words.entry.endpoint)) (phase_of result)
        (W.state wire.old).reached (W.state wire.new).reached }
    ensures touches { Touches true (phase_of result) (W.state wire.old) (W.state wire.new) }
{
    narrations_are_unique();
    refusals_are_unique();
    none_is_both();
    one_fit();
    one_cut(ARRIVAL);
    match prepare(alloc, shelf, words, host_seed) {
        Ok(prepared) => play_over(alloc, wire, words.endpoint, &prepared),
        Err(status) => status,
    }
}

/// Plays the role's code over the wire, which it reaches at the place. A stop tells no instruction.
fn play_over<W: Wire>(
    alloc: Global,
    wire: &mut W,
    endpoint: Endpoint,
    prepared: &Prepared,
) -> Status
    requires count { length prepared.now.initial ≡ length (take_texts prepared.now.code.instrs) }
    requires short { All (λ value. length value ≤ ARRIVAL) prepared.now.initial }
    ensures runs { RunsOn (play_by prepared.now.code prepared.now.initial prepared.now.seed)
        (W.state wire.old) (W.state wire.new) result }
    ensures prompt { IsPrompt (play_by prepared.now.code prepared.now.initial prepared.now.seed)
        (W.state wire.old) (W.state wire.new) }
    ensures late { phase_of result ≡ before_reach → ⊥ }
    ensures wire { OverWire (place_by endpoint.entry) true result
        (W.state wire.old) (W.state wire.new) }
{
    match run_over(alloc, wire, endpoint, prepared) {
        Status::Stopped(halt) => Status::Stopped(Halt {
            event: halt.event,
            at: 0,
        }),
        status => status,
    }
}

/// What a role is played with, from the files of its words. Whatever the session, its code plays it.
pub fn prepare<F: Shelf>(
    alloc: Global,
    shelf: &mut F,
    words: PlayWords,
    host_seed: Option<[u8; 32]>,
) -> Result<Prepared, Status>
    ensures ready { IfOk result (λ p. IfTold (F.files shelf.old) (λ files.
        IsPlayable
        (JobIs files words.entry.narration.now words.entry.name.now words.entry.values.now host_seed)
        p.code p.initial p.seed)) }
    ensures prepared { IfOk result (λ p. IfTold (F.files shelf.old) (λ files.
        IsPreparedFor
        (JobIs files words.entry.narration.now words.entry.name.now words.entry.values.now host_seed)
        p.code p.initial p.seed)) }
    ensures sessions { IfOk result (λ p. IfTold (F.files shelf.old) (λ files.
        IsPlayableInEach
        (JobIs files words.entry.narration.now words.entry.name.now words.entry.values.now host_seed)
        p.code p.initial p.seed)) }
    ensures takes { IfOk result (λ p. length p.initial ≡ length (take_texts p.code.instrs)) }
    ensures short { IfOk result (λ p. All (λ value. length value ≤ ARRIVAL) p.initial) }
    ensures refused { IfErr result (λ status. IsFailure status
        (λ file. IsOneOf (words.entry.narration.now ∷ words.entry.values.now ∷ []) file
        × Rose (F.faults shelf.old file) (F.faults shelf.new file)
        × IfTold (F.files shelf.old) (λ files.
        IsRead files words.entry.narration.now words.entry.name.now words.entry.values.now file))
        (IfTold (F.files shelf.old) (λ files.
        JobIs files words.entry.narration.now words.entry.name.now words.entry.values.now host_seed
        (refused status)))) }
    ensures early { IfErr result IsEarly }
    ensures fetches { Fetches (words.entry.narration.now ∷ words.entry.values.now ∷ [])
        (F.files shelf.old) (F.files shelf.new) (F.faults shelf.old) (F.faults shelf.new) }
    ensures told { TellsFileFaults result (F.faults shelf.old) (F.faults shelf.new) }
{
    match playable_in_file(alloc, shelf, words.narration, words.name) {
        Ok(playable) => prepare_role(alloc, shelf, words.values, playable, host_seed),
        Err(status) => Err(status),
    }
}

/// What the role plays from the values in the file.
fn prepare_role<F: Shelf>(
    alloc: Global,
    shelf: &mut F,
    values: &Text,
    playable: Playable,
    host_seed: Option<[u8; 32]>,
) -> Result<Prepared, Status>
    requires within { playable.role < length playable.protocol.roles }
    requires fits { FitsRole playable.protocol playable.role playable.code }
    ensures ready { IfOk result (λ p. IfTold (F.files shelf.old) (λ files.
        IsPlayable (JobOf files values.now host_seed
        (record { protocol = playable.protocol; role = playable.role })) p.code p.initial p.seed)) }
    ensures prepared { IfOk result (λ p. IfTold (F.files shelf.old) (λ files.
        IsPreparedFor (JobOf files values.now host_seed
        (record { protocol = playable.protocol; role = playable.role })) p.code p.initial p.seed)) }
    ensures sessions { IfOk result (λ p. IfTold (F.files shelf.old) (λ files.
        IsPlayableInEach (JobOf files values.now host_seed
        (record { protocol = playable.protocol; role = playable.role })) p.code p.initial p.seed)) }
    ensures takes { IfOk result (λ p. length p.initial ≡ length (take_texts p.code.instrs)) }
    ensures short { IfOk result (λ p. All (λ value. length value ≤ ARRIVAL) p.initial) }
    ensures refused { IfErr result (λ status. IsFailure status
        (λ file. (file ≡ values.now) × Rose (F.faults shelf.old file) (F.faults shelf.new file))
        (IfTold (F.files shelf.old) (λ files. JobOf files values.now host_seed
        (record { protocol = playable.protocol; role = playable.role }) (refused status)))) }
    ensures early { IfErr result IsEarly }
    ensures fetches { Fetches (values.now ∷ [])
        (F.files shelf.old) (F.files shelf.new) (F.faults shelf.old) (F.faults shelf.new) }
    ensures told { TellsFileFaults result (F.faults shelf.old) (F.faults shelf.new) }
{
    let Playable { protocol, code, .. } = playable;
    fitting_codes_play(&protocol);
    prepare_code(alloc, shelf, values, code, host_seed)
}
