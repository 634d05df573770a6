//! A code's run over a wire, which is recorded.
ghost use Rattle.std.specs.Prelude.{◌≡◌, ◌≢◌, ◌⊎◌, ◌≤◌, All, IfOk, Some, true, length};
ghost use Rattle.anb_base.specs.declared.TheConstants.{ARRIVAL};
ghost use Rattle.anb_base.specs.declared.place.Place.{Place};
ghost use Rattle.anb_code.specs.Taking.{take_texts};
ghost use Rattle.anb_machine.specs.ByteRuns.{run_bytes};
ghost use Rattle.anb_machine.specs.Machines.{gives};
ghost use Rattle.anb_session.specs.Sessions.{IsPrompt};
ghost use Rattle.anb_command.specs.Causes.{HasWireCause};
ghost use Rattle.anb_words.specs.Commands.{place_by};
ghost use Rattle.anb_command.specs.OverWire.{OverWire, StaysReached};
ghost use Rattle.anb_command.specs.Prepared.{RunsOn};
ghost use Rattle.anb_command.specs.Reported.{TellsWireFaults};
ghost use Rattle.anb_status.specs.Statuses.{after_reach, before_reach, phase_of};
ghost use Rattle.anb_status.specs.declared.status.Status.TheVariants as status;
ghost use Rattle.anb_values_text.specs.Texts.{IsTextOf};
ghost use Rattle.anb_values.specs.Lines.{IsLabel};
ghost use Rattle.std.specs.List.{AllByRecursion};
ghost use Rattle.anb_recorded.specs.Outcomes.{IsMissing, TakesNoneOver};
ghost use Rattle.anb_record_commands.specs.Outcomes.{HasTranscript, IsOfFolder};
ghost use Rattle.anb_record_commands.specs.Running.{MissesLines, RecordsRun, missing_of};
ghost use Rattle.anb_recorded.specs.declared.ended.Missing.TheVariants as missing;

use crate::opening::{Opened, open};
use anb_base::{Bytes, Failed, NoMemory, Text, Wire};
use anb_command::{Endpoint, Prepared, Status, reach, run_over, status_of, texts_of_takes};
use anb_machine::Machine;
use anb_recorded::{Ended, Missing};
use anb_recording::{Journal, Kept, record_play};
use anb_values::is_label;
use anb_values_text::values_text;
use std::alloc::Global;

/// Runs the code over the wire as `run_over` does, and records it in the folder. A folder that has the
/// files already is refused before the wire is touched.
pub(crate) fn record_over<W: Wire, J: Journal>(
    alloc: Global,
    wire: &mut W,
    journal: &mut J,
    endpoint: Endpoint,
    prepared: &Prepared,
    folder: &Text,
) -> Ended
    requires count { length prepared.now.initial ≡ length (take_texts prepared.now.code.instrs) }
    requires short { All (λ value. length value ≤ ARRIVAL) prepared.now.initial }
    ensures runs { RunsOn (run_bytes prepared.now.code prepared.now.initial prepared.now.seed 0)
        (W.state wire.old) (W.state wire.new) result.status }
    ensures prompt { IsPrompt (run_bytes prepared.now.code prepared.now.initial prepared.now.seed 0)
        (W.state wire.old) (W.state wire.new) }
    ensures late { phase_of result.status ≡ before_reach → ⊥ }
    ensures wire { OverWire (place_by endpoint.entry) true result.status
        (W.state wire.old) (W.state wire.new) }
    ensures why_missed { IsMissing (IsOfFolder folder.now) (J.state journal.old) (J.state journal.new)
        (W.state wire.old) (W.state wire.new) result.status result.missing }
    ensures fresh { TakesNoneOver (IsOfFolder folder.now) (J.state journal.old)
        (J.state journal.new) (W.state wire.old) (W.state wire.new) }
    ensures recorded { result.status ≢ status.NoMemory → result.missing ≡ missing.Nothing
        → HasTranscript (run_bytes prepared.now.code prepared.now.initial prepared.now.seed 0)
        folder.now (J.state journal.old) (J.state journal.new)
        (record {
          labels = take_texts prepared.now.code.instrs;
          initial = prepared.now.initial;
          seed = prepared.now.seed;
        }) (W.state wire.old).left result.status }
{
    let text = match text_of(alloc, prepared) {
        Ok(text) => text,
        Err(NoMemory) => return Ended {
            status: Status::NoMemory,
            missing: Missing::Nothing,
        },
    };
    match open(alloc, journal, folder, &text) {
        Opened::Ready(transcript) => {
            record_on(alloc, wire, journal, endpoint, prepared, transcript)
        }
        Opened::There(name) => Ended {
            status: Status::NoMemory,
            missing: Missing::There(name),
        },
        Opened::Failed(name) => Ended {
            status: run_over(alloc, wire, endpoint, prepared),
            missing: Missing::Unwritten(name),
        },
        Opened::NoMemory => Ended {
            status: Status::NoMemory,
            missing: Missing::Nothing,
        },
    }
}

/// The values file of what is run. No values file has a label that is none, so a code that takes a value
/// under such a one was never prepared.
pub(crate) fn text_of(alloc: Global, prepared: &Prepared) -> Result<Bytes, NoMemory>
    requires count { length prepared.now.initial ≡ length (take_texts prepared.now.code.instrs) }
    requires short { All (λ value. length value ≤ ARRIVAL) prepared.now.initial }
    ensures { IfOk result (IsTextOf (take_texts prepared.now.code.instrs)
        (record { values = prepared.now.initial; seed = Some prepared.now.seed })) }
{
    let labels = texts_of_takes(alloc, &prepared.code)?;
    if !are_labels(&labels) {
        return Err(NoMemory);
    }
    let values = prepared.initial.as_slice();
    values_text(alloc, &labels, values, Some(prepared.seed))
}

/// Whether these are label texts.
pub(crate) fn are_labels(texts: &[Text]) -> bool
    ensures { result ≡ true → AllByRecursion IsLabel texts.now }
{
    for text in texts {
        if !is_label(text.as_str().as_bytes()) {
            return false;
        }
    }
    true
}

/// Runs the code over the wire, which it reaches at the place, and appends its transcript to this file.
fn record_on<W: Wire, J: Journal>(
    alloc: Global,
    wire: &mut W,
    journal: &mut J,
    endpoint: Endpoint,
    prepared: &Prepared,
    transcript: Text,
) -> Ended
    requires count { length prepared.now.initial ≡ length (take_texts prepared.now.code.instrs) }
    requires short { All (λ value. length value ≤ ARRIVAL) prepared.now.initial }
    ensures runs { RunsOn (run_bytes prepared.now.code prepared.now.initial prepared.now.seed 0)
        (W.state wire.old) (W.state wire.new) result.status }
    ensures prompt { IsPrompt (run_bytes prepared.now.code prepared.now.initial prepared.now.seed 0)
        (W.state wire.old) (W.state wire.new) }
    ensures late { phase_of result.status ≡ before_reach → ⊥ }
    ensures wire { OverWire (place_by endpoint.entry) true result.status
        (W.state wire.old) (W.state wire.new) }
    ensures why_missed { MissesLines transcript (J.state journal.old) (J.state journal.new)
        result.status result.missing }
    ensures recorded { result.status ≢ status.NoMemory → result.missing ≡ missing.Nothing
        → RecordsRun (run_bytes prepared.now.code prepared.now.initial prepared.now.seed 0)
        transcript (J.state journal.old) (J.state journal.new) (W.state wire.old).left
        result.status }
{
    let place = match endpoint.place(alloc) {
        Ok(place) => place,
        Err(NoMemory) => return Ended {
            status: Status::NoMemory,
            missing: Missing::Nothing,
        },
    };
    let initial = prepared.initial.as_slice();
    let mut machine = match Machine::start(alloc, &prepared.code, initial, &prepared.seed, 0) {
        Ok(machine) => machine,
        Err(NoMemory) => return Ended {
            status: Status::NoMemory,
            missing: Missing::Nothing,
        },
    };
    match reach(wire, &place, endpoint.timeout()) {
        Ok(()) => record_now(alloc, &mut machine, wire, journal, transcript),
        Err(Failed) => Ended {
            status: Status::Unreached(place),
            missing: Missing::Nothing,
        },
    }
}

/// Runs the machine over a wire that was reached, and appends its transcript to this file.
fn record_now<W: Wire, J: Journal>(
    alloc: Global,
    machine: &mut Machine<'_>,
    wire: &mut W,
    journal: &mut J,
    transcript: Text,
) -> Ended
    ensures runs { RunsOn (gives machine.old) (W.state wire.old) (W.state wire.new)
        result.status }
    ensures prompt { IsPrompt (gives machine.old) (W.state wire.old) (W.state wire.new) }
    ensures after { (phase_of result.status ≡ after_reach) ⊎ (result.status ≡ status.NoMemory) }
    ensures cause { (place : Place)
        → HasWireCause (Some place) (W.state wire.old) (W.state wire.new) result.status }
    ensures told { TellsWireFaults (W.state wire.old) (W.state wire.new) result.status }
    ensures reached { StaysReached (W.state wire.old) (W.state wire.new) }
    ensures why_missed { MissesLines transcript (J.state journal.old) (J.state journal.new)
        result.status result.missing }
    ensures recorded { result.status ≢ status.NoMemory → result.missing ≡ missing.Nothing
        → RecordsRun (gives machine.old) transcript (J.state journal.old)
        (J.state journal.new) (W.state wire.old).left result.status }
{
    let recorded = record_play(alloc, machine, wire, journal, &transcript);
    Ended {
        status: status_of(recorded.end),
        missing: missing_of(recorded.kept, transcript),
    }
}

/// What is missing where this is missing of the transcript in this file.
pub(crate) fn missing_of(kept: Kept, transcript: Text) -> Missing
    ensures { result ≡ missing_of kept transcript }
{
    match kept {
        Kept::Whole => Missing::Nothing,
        Kept::Unwritten => Missing::Unwritten(transcript),
        Kept::NoMemory => Missing::NoMemory,
    }
}
