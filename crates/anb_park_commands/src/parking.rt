//! A new session of a role over a wire.
ghost use Rattle.std.specs.Prelude.{◌≡◌, ◌≤◌, ℕ, List, [], ◌∷◌, length, IfOk, IfErr, Some, true, All};
ghost use Rattle.anb_role_commands.specs.Playing.{play_by};
ghost use Rattle.anb_base.specs.declared.TheConstants.{ARRIVAL};
ghost use Rattle.anb_base.specs.Moves.{Rose};
ghost use Rattle.anb_code.specs.Taking.{take_texts};
ghost use Rattle.anb_frame.specs.Cuts.{CutLeft, Tail};
ghost use Rattle.anb_command.specs.Causes.{HasCause, NoneRose};
ghost use Rattle.anb_words.specs.Commands.{place_by};
ghost use Rattle.anb_command.specs.Fetches.{Fetches, IfTold, IsOneOf};
ghost use Rattle.anb_command.specs.Reaches.{Reaches};
ghost use Rattle.anb_command.specs.Reported.{TellsFaults, TellsFileFaults};
ghost use Rattle.anb_status.specs.Statuses.{IsEarly, before_reach, phase_of};
ghost use Rattle.anb_command.specs.Steps.{IsFailure, refused};
ghost use Rattle.anb_command.specs.Touches.{Touches};
ghost use Rattle.anb_command.specs.OverWire.{OverWire};
ghost use Rattle.anb_session.specs.Sessions.{IsPrompt};
ghost use Rattle.anb_park_commands.specs.Going.{HandsOut, HasSession, IsKept, IsSmall, ParksOn, begun, saved};
ghost use Rattle.anb_park_commands.specs.ParkCommand.{CompletesPark, CompletesParkInto, DoesPark, DoesParkInto, IsReadToPark, NewSessionIs};
ghost use Rattle.anb_park_commands.specs.Parking.{CompletesOver, HasParkCause, IsRecordOf, ParksOver};
ghost use Rattle.anb_park_commands.specs.Sessions.{Begins};

use crate::ended::{Ended, RecordWay};
use crate::going::go_over;
use crate::keeping::keep_in_file;
use crate::keys::key_in_file;
use crate::owning::{Owner, owner_in_file};
use anb_base::{Bytes, NoMemory, Shelf, Text, Wire};
use anb_command::{Endpoint, ParkWords, Prepared, Status, prepare_code};
use anb_park::Live;
use anb_read::{narrations_are_unique, none_is_both, refusals_are_unique};
use anb_store::Store;
use anb_values::one_fit;
use std::alloc::Global;

/// All that a new session takes from its files.
#[derive(Drop)]
struct Beginning {
    prepared: Prepared,
    id: [u8; 32],
    key: Bytes,
}

/// Plays the role over the wire as `play` does. Where it waits and the input ended at the border of
/// a frame, its record is written in a frame of its own.
pub fn park<F: Shelf, W: Wire>(
    alloc: Global,
    shelf: &mut F,
    wire: &mut W,
    words: ParkWords,
    host_seed: Option<[u8; 32]>,
) -> Status
    ensures does { DoesPark words.entry.play.narration.now words.entry.play.name.now
        words.entry.play.values.now words.entry.key.now host_seed (F.files shelf.old)
        (W.state wire.old) (W.state wire.new) result }
    ensures completes { NoneRose (words.entry.play.narration.now ∷ words.entry.play.values.now
        ∷ words.entry.key.now ∷ [])
        (F.faults shelf.old) (F.faults shelf.new) (W.state wire.old) (W.state wire.new)
        → CompletesPark words.entry.play.narration.now words.entry.play.name.now
        words.entry.play.values.now words.entry.key.now host_seed (F.files shelf.old)
        (W.state wire.old) (W.state wire.new) result }
    ensures faults { HasCause (words.entry.play.narration.now ∷ words.entry.play.values.now
        ∷ words.entry.key.now ∷ [])
        (Some (place_by words.entry.play.endpoint)) (F.faults shelf.old) (F.faults shelf.new)
        (W.state wire.old) (W.state wire.new) result }
    ensures reported { TellsFaults (F.faults shelf.old) (F.faults shelf.new)
        (W.state wire.old) (W.state wire.new) result }
    ensures fetches { Fetches (words.entry.play.narration.now ∷ words.entry.play.values.now
        ∷ words.entry.key.now ∷ [])
        (F.files shelf.old) (F.files shelf.new) (F.faults shelf.old) (F.faults shelf.new) }
    ensures reached { Reaches (Some (place_by words.entry.play.endpoint)) (phase_of result)
        (W.state wire.old).reached (W.state wire.new).reached }
    ensures touches { Touches true (phase_of result) (W.state wire.old) (W.state wire.new) }
{
    begin(alloc, shelf, wire, words, host_seed, RecordWay::ByWire).status
}

/// Plays the role as [`park`] does, but that the record goes to the file of this name in the store,
/// and not over the wire.
pub fn park_into<F: Shelf, W: Wire, S: Store>(
    alloc: Global,
    shelf: &mut F,
    wire: &mut W,
    store: &mut S,
    words: ParkWords,
    file: &Text,
    host_seed: Option<[u8; 32]>,
) -> Status
    ensures does { DoesParkInto words.entry.play.narration.now words.entry.play.name.now
        words.entry.play.values.now words.entry.key.now host_seed (F.files shelf.old)
        (W.state wire.old) (W.state wire.new) result file.now
        (S.state store.old) (S.state store.new) }
    ensures completes { NoneRose (words.entry.play.narration.now ∷ words.entry.play.values.now
        ∷ words.entry.key.now ∷ [])
        (F.faults shelf.old) (F.faults shelf.new) (W.state wire.old) (W.state wire.new)
        → CompletesParkInto words.entry.play.narration.now words.entry.play.name.now
        words.entry.play.values.now words.entry.key.now host_seed (F.files shelf.old)
        (W.state wire.old) (W.state wire.new) result }
    ensures faults { HasParkCause file.now (words.entry.play.narration.now
        ∷ words.entry.play.values.now ∷ words.entry.key.now ∷ [])
        (Some (place_by words.entry.play.endpoint)) (F.faults shelf.old) (F.faults shelf.new)
        (W.state wire.old) (W.state wire.new) (S.state store.old) (S.state store.new) result }
    ensures reported { TellsFaults (F.faults shelf.old) (F.faults shelf.new)
        (W.state wire.old) (W.state wire.new) result }
    ensures fetches { Fetches (words.entry.play.narration.now ∷ words.entry.play.values.now
        ∷ words.entry.key.now ∷ [])
        (F.files shelf.old) (F.files shelf.new) (F.faults shelf.old) (F.faults shelf.new) }
    ensures reached { Reaches (Some (place_by words.entry.play.endpoint)) (phase_of result)
        (W.state wire.old).reached (W.state wire.new).reached }
    ensures touches { Touches true (phase_of result) (W.state wire.old) (W.state wire.new) }
{
    let ended = begin(alloc, shelf, wire, words, host_seed, RecordWay::ToFile);
    keep_in_file(alloc, store, file, ended)
}

/// Plays the role over the wire, and where it waits writes its record or hands it out.
fn begin<F: Shelf, W: Wire>(
    alloc: Global,
    shelf: &mut F,
    wire: &mut W,
    words: ParkWords,
    host_seed: Option<[u8; 32]>,
    way: RecordWay,
) -> Ended
    ensures does { ParksOver way Begins (NewSessionIs words.entry.play.narration.now
        words.entry.play.name.now words.entry.play.values.now words.entry.key.now host_seed)
        (F.files shelf.old) (W.state wire.old) (W.state wire.new) result.status
        (IsReadToPark words.entry.play.narration.now words.entry.play.name.now
        words.entry.play.values.now words.entry.key.now host_seed) }
    ensures hands { HandsOut way (IsRecordOf (NewSessionIs words.entry.play.narration.now
        words.entry.play.name.now words.entry.play.values.now words.entry.key.now host_seed)
        (F.files shelf.old) (W.state wire.old).left) result.status result.record }
    ensures completes { NoneRose (words.entry.play.narration.now ∷ words.entry.play.values.now
        ∷ words.entry.key.now ∷ [])
        (F.faults shelf.old) (F.faults shelf.new) (W.state wire.old) (W.state wire.new)
        → CompletesOver way Begins (NewSessionIs words.entry.play.narration.now
        words.entry.play.name.now words.entry.play.values.now words.entry.key.now host_seed)
        (F.files shelf.old) (W.state wire.old) (W.state wire.new) result.status }
    ensures faults { HasCause (words.entry.play.narration.now ∷ words.entry.play.values.now
        ∷ words.entry.key.now ∷ [])
        (Some (place_by words.entry.play.endpoint)) (F.faults shelf.old) (F.faults shelf.new)
        (W.state wire.old) (W.state wire.new) result.status }
    ensures reported { TellsFaults (F.faults shelf.old) (F.faults shelf.new)
        (W.state wire.old) (W.state wire.new) result.status }
    ensures fetches { Fetches (words.entry.play.narration.now ∷ words.entry.play.values.now
        ∷ words.entry.key.now ∷ [])
        (F.files shelf.old) (F.files shelf.new) (F.faults shelf.old) (F.faults shelf.new) }
    ensures reached { Reaches (Some (place_by words.entry.play.endpoint)) (phase_of result.status)
        (W.state wire.old).reached (W.state wire.new).reached }
    ensures touches { Touches true (phase_of result.status)
        (W.state wire.old) (W.state wire.new) }
{
    narrations_are_unique();
    refusals_are_unique();
    none_is_both();
    one_fit();
    match prepare(alloc, shelf, words, host_seed) {
        Ok(beginning) => begin_over(alloc, wire, words.play.endpoint, &beginning, way),
        Err(status) => Ended {
            status: status,
            record: None,
        },
    }
}

/// Begins the session over the wire.
fn begin_over<W: Wire>(
    alloc: Global,
    wire: &mut W,
    endpoint: Endpoint,
    beginning: &Beginning,
    way: RecordWay,
) -> Ended
    requires count { length beginning.now.prepared.initial
        ≡ length (take_texts beginning.now.prepared.code.instrs) }
    requires short { All (λ value. length value ≤ ARRIVAL) beginning.now.prepared.initial }
    requires small { IsSmall beginning.now.prepared.code (begun beginning.now.id
        beginning.now.prepared.seed beginning.now.prepared.initial) }
    ensures parks { ParksOn way
        (play_by beginning.now.prepared.code beginning.now.prepared.initial
        beginning.now.prepared.seed)
        (saved beginning.now.key (begun beginning.now.id beginning.now.prepared.seed
        beginning.now.prepared.initial)) (W.state wire.old) (W.state wire.new) result.status }
    ensures hands { HandsOut way (λ record_bytes. (arrivals : List (List ℕ)) (tail : Tail)
        → CutLeft ARRIVAL (W.state wire.old).left arrivals tail
        → record_bytes ≡ saved beginning.now.key (begun beginning.now.id
        beginning.now.prepared.seed beginning.now.prepared.initial) arrivals)
        result.status result.record }
    ensures kept { IsKept beginning.now.prepared.code (begun beginning.now.id
        beginning.now.prepared.seed beginning.now.prepared.initial)
        (W.state wire.old).left result.status }
    ensures prompt { IsPrompt
        (play_by beginning.now.prepared.code beginning.now.prepared.initial
        beginning.now.prepared.seed) (W.state wire.old) (W.state wire.new) }
    ensures late { phase_of result.status ≡ before_reach → ⊥ }
    ensures wire { OverWire (place_by endpoint.entry) true result.status
        (W.state wire.old) (W.state wire.new) }
{
    let Beginning { prepared, id, key } = beginning;
    let initial = prepared.initial.as_slice();
    match Live::start(alloc, &prepared.code, *id, initial, &prepared.seed, 0) {
        Ok(mut live) => go_over(alloc, wire, endpoint, &mut live, key.as_slice(), way),
        Err(NoMemory) => Ended {
            status: Status::NoMemory,
            record: None,
        },
    }
}

/// Reads the files of a new session.
fn prepare<F: Shelf>(
    alloc: Global,
    shelf: &mut F,
    words: ParkWords,
    host_seed: Option<[u8; 32]>,
) -> Result<Beginning, Status>
    ensures ready { IfOk result (λ b. IfTold (F.files shelf.old) (λ files.
        HasSession (NewSessionIs words.entry.play.narration.now words.entry.play.name.now
        words.entry.play.values.now words.entry.key.now host_seed files)
        b.prepared.code (begun b.id b.prepared.seed b.prepared.initial) b.key)) }
    ensures takes { IfOk result (λ b.
        length b.prepared.initial ≡ length (take_texts b.prepared.code.instrs)) }
    ensures short { IfOk result (λ b. All (λ value. length value ≤ ARRIVAL) b.prepared.initial) }
    ensures small { IfOk result (λ b.
        IsSmall b.prepared.code (begun b.id b.prepared.seed b.prepared.initial)) }
    ensures refused { IfErr result (λ status. IsFailure status
        (λ file. IsOneOf (words.entry.play.narration.now ∷ words.entry.play.values.now
        ∷ words.entry.key.now ∷ []) file
        × Rose (F.faults shelf.old file) (F.faults shelf.new file)
        × IfTold (F.files shelf.old) (λ files.
        IsReadToPark words.entry.play.narration.now words.entry.play.name.now
        words.entry.play.values.now words.entry.key.now host_seed files file))
        (IfTold (F.files shelf.old) (λ files.
        NewSessionIs words.entry.play.narration.now words.entry.play.name.now
        words.entry.play.values.now words.entry.key.now host_seed files (refused status)))) }
    ensures early { IfErr result IsEarly }
    ensures fetches { Fetches (words.entry.play.narration.now ∷ words.entry.play.values.now
        ∷ words.entry.key.now ∷ [])
        (F.files shelf.old) (F.files shelf.new) (F.faults shelf.old) (F.faults shelf.new) }
    ensures told { TellsFileFaults result (F.faults shelf.old) (F.faults shelf.new) }
{
    let owner = match owner_in_file(alloc, shelf, words.play.narration, words.play.name) {
        Ok(owner) => owner,
        Err(status) => return Err(status),
    };
    let Owner { playable, id } = owner;
    let values = words.play.values;
    let prepared = match prepare_code(alloc, shelf, values, playable.code, host_seed) {
        Ok(prepared) => prepared,
        Err(status) => return Err(status),
    };
    match key_in_file(alloc, shelf, words.key) {
        Ok(key) => Ok(Beginning { prepared, id, key }),
        Err(status) => Err(status),
    }
}
