//! Many sessions of a role over a wire, which are recorded.
ghost use Rattle.std.specs.Prelude.{◌≡◌, ◌≢◌, ◌≤◌, ◌⊎◌, List, [], ◌∷◌, All, Some, true, length};
ghost use Rattle.anb_base.specs.declared.TheConstants.{ARRIVAL};
ghost use Rattle.anb_code.specs.Taking.{take_texts};
ghost use Rattle.anb_words.specs.Commands.{place_by};
ghost use Rattle.anb_command.specs.Causes.{DidNotRise, HasCause, NoneRose};
ghost use Rattle.anb_command.specs.Fetches.{Fetches};
ghost use Rattle.anb_command.specs.OverWire.{OverWire};
ghost use Rattle.anb_command.specs.Reaches.{Reaches};
ghost use Rattle.anb_command.specs.Reported.{TellsFaults};
ghost use Rattle.anb_command.specs.Touches.{Touches};
ghost use Rattle.anb_host_commands.specs.HostCommand.{CompletesHost, DoesHost};
ghost use Rattle.anb_host_commands.specs.Serving.{ServesOn, runs_by};
ghost use Rattle.anb_status.specs.Statuses.{before_reach, phase_of};
ghost use Rattle.anb_status.specs.declared.status.Status.TheVariants as status;
ghost use Rattle.anb_record_commands.specs.HostInto.{CompletesHostInto, DoesHostInto, IsFresh, IsOfHost, RecordsHost};
ghost use Rattle.anb_recorded.specs.Outcomes.{HasRecordCause, IsMissing, recorded_phase};
ghost use Rattle.anb_record_commands.specs.Running.{RecordsServed};
ghost use Rattle.anb_recorded.specs.declared.ended.Missing.TheVariants as missing;

use crate::opening::open_host;
use crate::over::text_of;
use crate::serving::record_on;
use anb_base::{NoMemory, Shelf, Text, Wire};
use anb_command::{Endpoint, PlayWords, Prepared, Status};
use anb_host::inputs_have_one_reading;
use anb_host_commands::serve_over;
use anb_host_recording::{files_are_of_sessions, lines_are_transcripts};
use anb_read::{narrations_are_unique, none_is_both, refusals_are_unique};
use anb_recorded::{Ended, Missing};
use anb_recording::Journal;
use anb_role_commands::prepare;
use anb_values::one_fit;
use std::alloc::Global;

/// Serves sessions of the role over the wire as `host` does, and records each in the folder.
pub fn host_into<F: Shelf, W: Wire, J: Journal>(
    alloc: Global,
    shelf: &mut F,
    wire: &mut W,
    journal: &mut J,
    words: PlayWords,
    folder: &Text,
    host_seed: Option<[u8; 32]>,
) -> Status
    ensures does { DoesHostInto words.entry.narration.now words.entry.name.now
        words.entry.values.now (F.files shelf.old) host_seed (W.state wire.old) (W.state wire.new)
        folder.now (J.state journal.old) (J.state journal.new) result }
    ensures completes { NoneRose (words.entry.narration.now ∷ words.entry.values.now ∷ [])
        (F.faults shelf.old) (F.faults shelf.new) (W.state wire.old) (W.state wire.new)
        → DidNotRise (J.state journal.old).faults (J.state journal.new).faults
        → CompletesHostInto words.entry.narration.now words.entry.name.now
        words.entry.values.now (F.files shelf.old) host_seed (W.state wire.old) (W.state wire.new)
        folder.now (J.state journal.old) (J.state journal.new) result }
    ensures faults { HasRecordCause (IsOfHost folder.now) (J.state journal.old) (J.state journal.new)
        (words.entry.narration.now ∷ words.entry.values.now ∷ [])
        (Some (place_by words.entry.endpoint)) (F.faults shelf.old) (F.faults shelf.new)
        (W.state wire.old) (W.state wire.new) result }
    ensures reported { TellsFaults (F.faults shelf.old) (F.faults shelf.new)
        (W.state wire.old) (W.state wire.new) result }
    ensures fetches { Fetches (words.entry.narration.now ∷ words.entry.values.now ∷ [])
        (F.files shelf.old) (F.files shelf.new) (F.faults shelf.old) (F.faults shelf.new) }
    ensures reached { Reaches (Some (place_by words.entry.endpoint)) (recorded_phase result)
        (W.state wire.old).reached (W.state wire.new).reached }
    ensures touches { Touches true (recorded_phase result) (W.state wire.old) (W.state wire.new) }
{
    host_recorded(alloc, shelf, wire, journal, words, folder, host_seed).told()
}

/// Serves sessions of the role, and tells how that ended and what is missing of the recording.
fn host_recorded<F: Shelf, W: Wire, J: Journal>(
    alloc: Global,
    shelf: &mut F,
    wire: &mut W,
    journal: &mut J,
    words: PlayWords,
    folder: &Text,
    host_seed: Option<[u8; 32]>,
) -> Ended
    ensures does { DoesHost words.entry.narration.now words.entry.name.now words.entry.values.now
        (F.files shelf.old) host_seed (W.state wire.old) (W.state wire.new) result.status }
    ensures completes { NoneRose (words.entry.narration.now ∷ words.entry.values.now ∷ [])
        (F.faults shelf.old) (F.faults shelf.new) (W.state wire.old) (W.state wire.new)
        → CompletesHost words.entry.narration.now words.entry.name.now words.entry.values.now
        (F.files shelf.old) host_seed (W.state wire.old) (W.state wire.new) result.status }
    ensures why_missed { IsMissing (IsOfHost folder.now) (J.state journal.old)
        (J.state journal.new) (W.state wire.old) (W.state wire.new) result.status result.missing }
    ensures fresh { (W.state wire.new ≡ W.state wire.old)
        ⊎ IsFresh folder.now (J.state journal.old) }
    ensures early { phase_of result.status ≡ before_reach
        → J.state journal.new ≡ J.state journal.old }
    ensures recorded { (phase_of result.status ≡ before_reach → ⊥)
        → result.status ≢ status.NoMemory → result.missing ≡ missing.Nothing
        → RecordsHost words.entry.narration.now words.entry.name.now words.entry.values.now
        (F.files shelf.old) host_seed (W.state wire.old) (W.state wire.new)
        folder.now (J.state journal.old) (J.state journal.new) result.status }
    ensures faults { HasCause (words.entry.narration.now ∷ words.entry.values.now ∷ [])
        (Some (place_by words.entry.endpoint)) (F.faults shelf.old) (F.faults shelf.new)
        (W.state wire.old) (W.state wire.new) result.status }
    ensures reported { TellsFaults (F.faults shelf.old) (F.faults shelf.new)
        (W.state wire.old) (W.state wire.new) result.status }
    ensures fetches { Fetches (words.entry.narration.now ∷ words.entry.values.now ∷ [])
        (F.files shelf.old) (F.files shelf.new) (F.faults shelf.old) (F.faults shelf.new) }
    ensures reached { Reaches (Some (place_by words.entry.endpoint)) (phase_of result.status)
        (W.state wire.old).reached (W.state wire.new).reached }
    ensures touches { Touches true (phase_of result.status)
        (W.state wire.old) (W.state wire.new) }
{
    narrations_are_unique();
    refusals_are_unique();
    none_is_both();
    one_fit();
    inputs_have_one_reading();
    files_are_of_sessions();
    lines_are_transcripts();
    match prepare(alloc, shelf, words, host_seed) {
        Ok(prepared) => host_over(alloc, wire, journal, words.endpoint, prepared, folder),
        Err(status) => Ended {
            status,
            missing: Missing::Nothing,
        },
    }
}

/// Serves sessions of the code over the wire. A folder that has one of the files already is refused
/// before the wire is touched.
fn host_over<W: Wire, J: Journal>(
    alloc: Global,
    wire: &mut W,
    journal: &mut J,
    endpoint: Endpoint,
    prepared: Prepared,
    folder: &Text,
) -> Ended
    requires count { length prepared.initial ≡ length (take_texts prepared.code.instrs) }
    requires short { All (λ value. length value ≤ ARRIVAL) prepared.initial }
    ensures serves { ServesOn (runs_by prepared.code prepared.initial prepared.seed)
        (W.state wire.old) (W.state wire.new) result.status }
    ensures late { phase_of result.status ≡ before_reach → ⊥ }
    ensures wire { OverWire (place_by endpoint.entry) true result.status
        (W.state wire.old) (W.state wire.new) }
    ensures why_missed { IsMissing (IsOfHost folder.now) (J.state journal.old)
        (J.state journal.new) (W.state wire.old) (W.state wire.new) result.status result.missing }
    ensures fresh { (W.state wire.new ≡ W.state wire.old)
        ⊎ IsFresh folder.now (J.state journal.old) }
    ensures recorded { result.status ≢ status.NoMemory → result.missing ≡ missing.Nothing
        → RecordsServed (runs_by prepared.code prepared.initial prepared.seed)
        (record {
          labels = take_texts prepared.code.instrs;
          initial = prepared.initial;
          seed = prepared.seed;
        }) folder.now (J.state journal.old) (J.state journal.new)
        (W.state wire.old).left (W.state wire.new).left }
{
    let text = match text_of(alloc, &prepared) {
        Ok(text) => text,
        Err(NoMemory) => return Ended {
            status: Status::NoMemory,
            missing: Missing::Nothing,
        },
    };
    match open_host(alloc, journal, folder, &text) {
        Missing::Nothing => record_on(alloc, wire, journal, endpoint, prepared, folder),
        Missing::Unwritten(name) => Ended {
            status: serve_over(alloc, wire, endpoint, prepared),
            missing: Missing::Unwritten(name),
        },
        Missing::There(name) => Ended {
            status: Status::NoMemory,
            missing: Missing::There(name),
        },
        Missing::NoMemory => Ended {
            status: Status::NoMemory,
            missing: Missing::NoMemory,
        },
    }
}
