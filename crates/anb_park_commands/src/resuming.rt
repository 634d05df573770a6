//! A session of a role that goes on from its record, over a wire.
ghost use Rattle.std.specs.Prelude.{◌≡◌, ◌⊎◌, ◌≤◌, ℕ, List, [], ◌∷◌, length, IfOk, IfErr, Some, true};
ghost use Rattle.anb_base.specs.Bytes.{IsBytes};
ghost use Rattle.anb_base.specs.Moves.{Rose};
ghost use Rattle.anb_command.specs.declared.limits.TheConstants.{RECORD_LIMIT};
ghost use Rattle.anb_command.specs.Causes.{HasCause, NoneRose};
ghost use Rattle.anb_words.specs.Commands.{place_by};
ghost use Rattle.anb_command.specs.Fetches.{Fetches, Files, IfTold};
ghost use Rattle.anb_command.specs.Files.{FileIs};
ghost use Rattle.anb_command.specs.Reaches.{Reaches};
ghost use Rattle.anb_command.specs.Reported.{TellsFaults, TellsFileFaults};
ghost use Rattle.anb_status.specs.Statuses.{IsEarly, phase_of};
ghost use Rattle.anb_command.specs.Steps.{IsFailure, refused, given};
ghost use Rattle.anb_command.specs.Touches.{Touches};
ghost use Rattle.anb_park.specs.Lives.{IsParked};
ghost use Rattle.anb_park.specs.Records.{Parked};
ghost use Rattle.anb_park_commands.specs.Going.{HandsOut, HaveBytes, IsAwake, IsSmall, RefusesAwake, RunsRole, status_of};
ghost use Rattle.anb_park_commands.specs.Records.{RecordIs};
ghost use Rattle.anb_park_commands.specs.Parking.{CompletesOver, HasParkCause, IsRecordOf, ParksOver};
ghost use Rattle.anb_park_commands.specs.ResumeCommand.{CompletesResume, CompletesResumeInto, DoesResume, DoesResumeInto, IsReadToResume, ResumedIs};
ghost use Rattle.anb_park_commands.specs.Sessions.{GoesOn};

use crate::ended::{Ended, RecordWay};
use crate::going::go_over;
use crate::keeping::keep_in_file;
use crate::keys::key_in_file;
use crate::owning::{Owner, owner_in_file};
use anb_base::{Bytes, Shelf, Text, Wire};
use anb_command::{RECORD_LIMIT, ResumeWords, Status, fetch_file};
use anb_park::{Live, ParkNo};
use anb_read::{narrations_are_unique, none_is_both, refusals_are_unique};
use anb_seal::{gives_bytes, seals_longer, unseals_exactly};
use anb_store::Store;
use std::alloc::Global;

/// A session that goes on, and the key of its records.
#[derive(Drop)]
struct Awake<'c> {
    live: Live<'c>,
    key: Bytes,
}

/// Goes on with the role's session from its record, over the wire. What it has sent before isn't
/// sent again. Where it waits and the input ended at the border of a frame, its record is written anew.
/// Nothing keeps a record from being used twice.
pub fn resume<F: Shelf, W: Wire>(
    alloc: Global,
    shelf: &mut F,
    wire: &mut W,
    words: ResumeWords,
) -> Status
    ensures does { DoesResume words.entry.narration.now words.entry.name.now words.entry.parked.now
        words.entry.key.now (F.files shelf.old) (W.state wire.old) (W.state wire.new) result }
    ensures completes { NoneRose (words.entry.narration.now ∷ words.entry.parked.now
        ∷ words.entry.key.now ∷ [])
        (F.faults shelf.old) (F.faults shelf.new) (W.state wire.old) (W.state wire.new)
        → CompletesResume words.entry.narration.now words.entry.name.now words.entry.parked.now
        words.entry.key.now (F.files shelf.old) (W.state wire.old) (W.state wire.new) result }
    ensures faults { HasCause (words.entry.narration.now ∷ words.entry.parked.now
        ∷ words.entry.key.now ∷ [])
        (Some (place_by words.entry.endpoint)) (F.faults shelf.old) (F.faults shelf.new)
        (W.state wire.old) (W.state wire.new) result }
    ensures reported { TellsFaults (F.faults shelf.old) (F.faults shelf.new)
        (W.state wire.old) (W.state wire.new) result }
    ensures fetches { Fetches (words.entry.narration.now ∷ words.entry.parked.now
        ∷ words.entry.key.now ∷ [])
        (F.files shelf.old) (F.files shelf.new) (F.faults shelf.old) (F.faults shelf.new) }
    ensures reached { Reaches (Some (place_by words.entry.endpoint)) (phase_of result)
        (W.state wire.old).reached (W.state wire.new).reached }
    ensures touches { Touches true (phase_of result) (W.state wire.old) (W.state wire.new) }
{
    go_on(alloc, shelf, wire, words, RecordWay::ByWire).status
}

/// Goes on as [`resume`] does, but that the new record goes to the file of this name in the store,
/// and not over the wire. It may be the file that the old one came from.
pub fn resume_into<F: Shelf, W: Wire, S: Store>(
    alloc: Global,
    shelf: &mut F,
    wire: &mut W,
    store: &mut S,
    words: ResumeWords,
    file: &Text,
) -> Status
    ensures does { DoesResumeInto words.entry.narration.now words.entry.name.now
        words.entry.parked.now words.entry.key.now (F.files shelf.old)
        (W.state wire.old) (W.state wire.new) result file.now
        (S.state store.old) (S.state store.new) }
    ensures completes { NoneRose (words.entry.narration.now ∷ words.entry.parked.now
        ∷ words.entry.key.now ∷ [])
        (F.faults shelf.old) (F.faults shelf.new) (W.state wire.old) (W.state wire.new)
        → CompletesResumeInto words.entry.narration.now words.entry.name.now
        words.entry.parked.now words.entry.key.now (F.files shelf.old)
        (W.state wire.old) (W.state wire.new) result }
    ensures faults { HasParkCause file.now (words.entry.narration.now ∷ words.entry.parked.now
        ∷ words.entry.key.now ∷ [])
        (Some (place_by words.entry.endpoint)) (F.faults shelf.old) (F.faults shelf.new)
        (W.state wire.old) (W.state wire.new) (S.state store.old) (S.state store.new) result }
    ensures reported { TellsFaults (F.faults shelf.old) (F.faults shelf.new)
        (W.state wire.old) (W.state wire.new) result }
    ensures fetches { Fetches (words.entry.narration.now ∷ words.entry.parked.now
        ∷ words.entry.key.now ∷ [])
        (F.files shelf.old) (F.files shelf.new) (F.faults shelf.old) (F.faults shelf.new) }
    ensures reached { Reaches (Some (place_by words.entry.endpoint)) (phase_of result)
        (W.state wire.old).reached (W.state wire.new).reached }
    ensures touches { Touches true (phase_of result) (W.state wire.old) (W.state wire.new) }
{
    let ended = go_on(alloc, shelf, wire, words, RecordWay::ToFile);
    keep_in_file(alloc, store, file, ended)
}

/// Goes on over the wire, and where the role waits writes its record or hands it out.
fn go_on<F: Shelf, W: Wire>(
    alloc: Global,
    shelf: &mut F,
    wire: &mut W,
    words: ResumeWords,
    way: RecordWay,
) -> Ended
    ensures does { ParksOver way GoesOn (ResumedIs words.entry.narration.now words.entry.name.now
        words.entry.parked.now words.entry.key.now)
        (F.files shelf.old) (W.state wire.old) (W.state wire.new) result.status
        (IsReadToResume words.entry.narration.now words.entry.name.now
        words.entry.parked.now words.entry.key.now) }
    ensures hands { HandsOut way (IsRecordOf (ResumedIs words.entry.narration.now
        words.entry.name.now words.entry.parked.now words.entry.key.now)
        (F.files shelf.old) (W.state wire.old).left) result.status result.record }
    ensures completes { NoneRose (words.entry.narration.now ∷ words.entry.parked.now
        ∷ words.entry.key.now ∷ [])
        (F.faults shelf.old) (F.faults shelf.new) (W.state wire.old) (W.state wire.new)
        → CompletesOver way GoesOn (ResumedIs words.entry.narration.now words.entry.name.now
        words.entry.parked.now words.entry.key.now)
        (F.files shelf.old) (W.state wire.old) (W.state wire.new) result.status }
    ensures faults { HasCause (words.entry.narration.now ∷ words.entry.parked.now
        ∷ words.entry.key.now ∷ [])
        (Some (place_by words.entry.endpoint)) (F.faults shelf.old) (F.faults shelf.new)
        (W.state wire.old) (W.state wire.new) result.status }
    ensures reported { TellsFaults (F.faults shelf.old) (F.faults shelf.new)
        (W.state wire.old) (W.state wire.new) result.status }
    ensures fetches { Fetches (words.entry.narration.now ∷ words.entry.parked.now
        ∷ words.entry.key.now ∷ [])
        (F.files shelf.old) (F.files shelf.new) (F.faults shelf.old) (F.faults shelf.new) }
    ensures reached { Reaches (Some (place_by words.entry.endpoint)) (phase_of result.status)
        (W.state wire.old).reached (W.state wire.new).reached }
    ensures touches { Touches true (phase_of result.status)
        (W.state wire.old) (W.state wire.new) }
{
    narrations_are_unique();
    refusals_are_unique();
    none_is_both();
    let owner = match owner_in_file(alloc, shelf, words.narration, words.name) {
        Ok(owner) => owner,
        Err(status) => return Ended {
            status: status,
            record: None,
        },
    };
    match wake(alloc, shelf, words, &owner) {
        Ok(mut awake) => {
            let Awake { live, key } = &mut awake;
            go_over(alloc, wire, words.endpoint, live, key.as_slice(), way)
        }
        Err(status) => Ended {
            status: status,
            record: None,
        },
    }
}

/// The session of the role that the record in the file holds. Once the session is under way, the
/// file's bytes are let go.
fn wake<'c, F: Shelf>(
    alloc: Global,
    shelf: &mut F,
    words: ResumeWords,
    owner: &'c Owner,
) -> Result<Awake<'c>, Status>
    requires { RunsRole owner.now.playable.protocol owner.now.playable.role
        owner.now.playable.code }
    ensures awake { IfOk result (λ awake. (s : Parked)
        × IsParked owner.now.playable.code s awake.live × HaveBytes s
        × IsSmall owner.now.playable.code s × IfTold (F.files shelf.old) (λ files.
        IsAwake files owner.now.playable.protocol owner.now.playable.role owner.now.id
        words.entry.parked.now words.entry.key.now s awake.key)) }
    ensures refused { IfErr result (λ status. IsFailure status
        (λ file. ((file ≡ words.entry.parked.now) ⊎ ((file ≡ words.entry.key.now)
        × IfTold (F.files shelf.old) (λ files.
        (bytes : List ℕ) × FileIs files words.entry.parked.now RECORD_LIMIT (given bytes))))
        × Rose (F.faults shelf.old file) (F.faults shelf.new file))
        (IfTold (F.files shelf.old) (λ files.
        RefusesAwake files owner.now.playable.protocol owner.now.playable.role owner.now.id
        words.entry.parked.now words.entry.key.now status))) }
    ensures early { IfErr result IsEarly }
    ensures fetches { Fetches (words.entry.parked.now ∷ words.entry.key.now ∷ [])
        (F.files shelf.old) (F.files shelf.new) (F.faults shelf.old) (F.faults shelf.new) }
    ensures told { TellsFileFaults result (F.faults shelf.old) (F.faults shelf.new) }
{
    let parked = match fetch_file(alloc, shelf, words.parked, RECORD_LIMIT) {
        Ok(parked) => parked,
        Err(status) => return Err(status),
    };
    let key = match key_in_file(alloc, shelf, words.key) {
        Ok(key) => key,
        Err(status) => return Err(status),
    };
    match live_in(alloc, owner, key.as_slice(), parked.as_slice()) {
        Ok(live) => Ok(Awake { live, key }),
        Err(status) => Err(status),
    }
}

/// The session of the role that the record holds.
fn live_in<'c>(
    alloc: Global,
    owner: &'c Owner,
    key: &[u8],
    parked: &[u8],
) -> Result<Live<'c>, Status>
    requires runs { RunsRole owner.now.playable.protocol owner.now.playable.role
        owner.now.playable.code }
    requires size { length parked.now ≤ RECORD_LIMIT }
    ensures live { IfOk result (λ live. (s : Parked)
        × IsParked owner.now.playable.code s live × HaveBytes s
        × IsSmall owner.now.playable.code s × RecordIs owner.now.playable.protocol owner.now.playable.role owner.now.id
        key.now parked.now (given s)) }
    ensures refused { IfErr result (λ status. IsFailure status (λ _. ⊥)
        (RecordIs owner.now.playable.protocol owner.now.playable.role owner.now.id
        key.now parked.now (refused status))) }
    ensures early { IfErr result IsEarly }
{
    gives_bytes();
    unseals_exactly();
    seals_longer();
    are_bytes(parked);
    match anb_park::resume(alloc, &owner.playable.code, owner.id, key, parked) {
        Ok(live) => Ok(live),
        Err(why) => Err(status_of(why)),
    }
}

/// The status of a record that isn't gone on from.
fn status_of(why: ParkNo) -> Status
    ensures status { result ≡ status_of why }
    ensures early { IsEarly result }
{
    match why {
        ParkNo::NoMemory => Status::NoMemory,
        why => Status::BadRecord(why),
    }
}

/// A law: a slice of bytes is a string of bytes.
fn are_bytes(bytes: &[u8])
    ensures { IsBytes bytes.now }
{
    let _ = bytes;
}
