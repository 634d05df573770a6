//! What is judged, from the files of its words.
ghost use Rattle.std.specs.Prelude.{◌≡◌, ◌⊎◌, ◌+◌, ◌<◌, ◌≤◌, ◌^◌, [], ◌∷◌, length, All, IfOk, IfErr};
ghost use Rattle.std.specs.List.{AllByRecursion};
ghost use Rattle.anb_base.specs.Bytes.{IsBytes};
ghost use Rattle.anb_base.specs.Moves.{Rose};
ghost use Rattle.anb_base.specs.declared.TheConstants.{ARRIVAL};
ghost use Rattle.anb_judge.specs.Verdicts.{line_bytes};
ghost use Rattle.anb_protocol.specs.Texts.{known_by};
ghost use Rattle.anb_command.specs.Fetches.{Fetches, IfTold, IsOneOf};
ghost use Rattle.anb_command.specs.Reported.{TellsFileFaults};
ghost use Rattle.anb_command.specs.Steps.{IsFailure, refused, given};
ghost use Rattle.anb_status.specs.Statuses.{IsEarly};
ghost use Rattle.anb_judge_commands.specs.JudgeCommand.{InitialInFile, InitialIs, IsReadToJudge, JudgementIs, LinesInFile, initial_of, long_line};
ghost use Rattle.anb_judge_commands.specs.Tasks.{CanJudge, judged_by};

use anb_base::{ARRIVAL, Bytes, NoMemory, Shelf, Text};
use anb_command::{Playable, ReplayWords, Status, playable_in_file, transcript_in_file};
use anb_honest::known_values;
use anb_protocol::Protocol;
use anb_transcript::{Transcript, TranscriptLine};
use anb_values_commands::{first_long, long_value, values_for};
use std::alloc::Global;

/// A role with its initial values, and the transcript that is judged.
#[derive(Drop)]
pub(crate) struct Task {
    pub(crate) protocol: Protocol,
    pub(crate) role: u32,
    pub(crate) initial: Vec<Bytes>,
    pub(crate) transcript: Transcript,
}

/// What the words ask to judge.
pub(crate) fn task_in_files<F: Shelf>(
    alloc: Global,
    shelf: &mut F,
    words: ReplayWords,
) -> Result<Task, Status>
    ensures given { IfOk result (λ t. IfTold (F.files shelf.old) (λ files.
        JudgementIs words.entry.narration.now words.entry.name.now words.entry.values.now
        words.entry.transcript.now files
        (given (judged_by t.protocol t.role t.initial.items t.transcript)))) }
    ensures ready { IfOk result (λ t.
        CanJudge (judged_by t.protocol t.role t.initial.items t.transcript)) }
    ensures refused { IfErr result (λ status. IsFailure status
        (λ file. IsOneOf (words.entry.narration.now ∷ words.entry.values.now
        ∷ words.entry.transcript.now ∷ []) file
        × Rose (F.faults shelf.old file) (F.faults shelf.new file)
        × IfTold (F.files shelf.old) (λ files.
        IsReadToJudge words.entry.narration.now words.entry.name.now words.entry.values.now
        words.entry.transcript.now files file))
        (IfTold (F.files shelf.old) (λ files.
        JudgementIs words.entry.narration.now words.entry.name.now words.entry.values.now
        words.entry.transcript.now files (refused status)))) }
    ensures early { IfErr result IsEarly }
    ensures fetches { Fetches (words.entry.narration.now ∷ words.entry.values.now
        ∷ words.entry.transcript.now ∷ [])
        (F.files shelf.old) (F.files shelf.new) (F.faults shelf.old) (F.faults shelf.new) }
    ensures told { TellsFileFaults result (F.faults shelf.old) (F.faults shelf.new) }
{
    let playable = match playable_in_file(alloc, shelf, words.narration, words.name) {
        Ok(playable) => playable,
        Err(status) => return Err(status),
    };
    let Playable {
        protocol,
        role,
        code: _,
    } = playable;
    let initial = match initial_in_file(alloc, shelf, words.values, &protocol, role) {
        Ok(initial) => initial,
        Err(status) => return Err(status),
    };
    match lines_in_file(alloc, shelf, words.transcript) {
        Ok(transcript) => Ok(Task {
            protocol,
            role,
            initial,
            transcript,
        }),
        Err(status) => Err(status),
    }
}

/// The initial values of the role, from a file with the values of all names.
fn initial_in_file<F: Shelf>(
    alloc: Global,
    shelf: &mut F,
    values: &Text,
    protocol: &Protocol,
    role: u32,
) -> Result<Vec<Bytes>, Status>
    requires { role < length protocol.now.roles }
    ensures given { IfOk result (λ initial. IfTold (F.files shelf.old) (λ files.
        InitialInFile files values.now (record { protocol = protocol.now; role = role })
        (given initial.items))) }
    ensures count { IfOk result (λ initial.
        length initial.items ≡ length (known_by protocol.now role)) }
    ensures bytes { IfOk result (λ initial. AllByRecursion IsBytes initial.items) }
    ensures short { IfOk result (λ initial. All (λ value. length value ≤ ARRIVAL) initial.items) }
    ensures refused { IfErr result (λ status. IsFailure status
        (λ file. (file ≡ values.now) × Rose (F.faults shelf.old file) (F.faults shelf.new file))
        (IfTold (F.files shelf.old) (λ files.
        InitialInFile files values.now (record { protocol = protocol.now; role = role })
        (refused status)))) }
    ensures early { IfErr result IsEarly }
    ensures fetches { Fetches (values.now ∷ [])
        (F.files shelf.old) (F.files shelf.new) (F.faults shelf.old) (F.faults shelf.new) }
    ensures told { TellsFileFaults result (F.faults shelf.old) (F.faults shelf.new) }
{
    match values_for(alloc, shelf, values, protocol) {
        Ok(fitted) => initial_of(alloc, protocol, role, fitted.values.as_slice()),
        Err(status) => Err(status),
    }
}

/// The initial values of the role with these values of names.
fn initial_of(
    alloc: Global,
    protocol: &Protocol,
    role: u32,
    values: &[Bytes],
) -> Result<Vec<Bytes>, Status>
    requires { role < length protocol.now.roles }
    ensures given { IfOk result (λ initial.
        InitialIs (record { protocol = protocol.now; role = role }) values.now
        (given initial.items)) }
    ensures count { IfOk result (λ initial.
        length initial.items ≡ length (known_by protocol.now role)) }
    ensures bytes { IfOk result (λ initial. AllByRecursion IsBytes initial.items) }
    ensures short { IfOk result (λ initial. All (λ value. length value ≤ ARRIVAL) initial.items) }
    ensures refused { IfErr result (λ status. IsFailure status (λ file. ⊥)
        (InitialIs (record { protocol = protocol.now; role = role }) values.now
        (refused status))) }
    ensures early { IfErr result IsEarly }
{
    let labels = match protocol.known(alloc, role) {
        Ok(labels) => labels,
        Err(NoMemory) => return Err(Status::NoMemory),
    };
    let initial = match known_values(alloc, protocol, role, values) {
        Ok(initial) => initial,
        Err(NoMemory) => return Err(Status::NoMemory),
    };
    if let Some(label) = first_long(&labels, &initial) {
        return Err(long_value(alloc, label));
    }
    tell_bytes(&initial);
    Ok(initial)
}

/// Does nothing, and tells that values are strings of bytes.
fn tell_bytes(values: &[Bytes])
    ensures { AllByRecursion IsBytes values.now }
{
    for value in values {
        let _ = byte_count(value.as_slice());
    }
}

/// How many bytes there are.
fn byte_count(bytes: &[u8]) -> usize
    ensures length { result ≡ length bytes.now }
    ensures bytes { IsBytes bytes.now }
{
    bytes.len()
}

/// The transcript in a file, where no line is longer than an arrival may be.
fn lines_in_file<F: Shelf>(alloc: Global, shelf: &mut F, name: &Text) -> Result<Transcript, Status>
    ensures given { IfOk result (λ lines. IfTold (F.files shelf.old) (λ files.
        LinesInFile files name.now (given lines))) }
    ensures few { IfOk result (λ lines. length lines + 1 < 2 ^ 32) }
    ensures lines { IfOk result (λ lines.
        All (λ line. length (line_bytes line) ≤ ARRIVAL) lines) }
    ensures refused { IfErr result (λ status. IsFailure status
        (λ file. (file ≡ name.now) × Rose (F.faults shelf.old file) (F.faults shelf.new file))
        (IfTold (F.files shelf.old) (λ files. LinesInFile files name.now (refused status)))) }
    ensures early { IfErr result IsEarly }
    ensures fetches { Fetches (name.now ∷ [])
        (F.files shelf.old) (F.files shelf.new) (F.faults shelf.old) (F.faults shelf.new) }
    ensures told { TellsFileFaults result (F.faults shelf.old) (F.faults shelf.new) }
{
    let transcript = match transcript_in_file(alloc, shelf, name) {
        Ok(transcript) => transcript,
        Err(status) => return Err(status),
    };
    match long_line(&transcript) {
        Some(line) => Err(Status::BadTranscript(line)),
        None => Ok(transcript),
    }
}

/// The number of the first line that is longer than an arrival may be.
fn long_line(transcript: &Transcript) -> Option<u32>
    requires { length transcript.now + 1 < 2 ^ 32 }
    ensures { result ≡ long_line transcript.now }
{
    let lines = transcript.lines();
    for i in 0..lines.len() as u32 {
        if byte_count(bytes_of(&lines[i as usize])) > ARRIVAL as usize {
            return Some(i + 1);
        }
    }
    None
}

/// The bytes of a line.
fn bytes_of(line: &TranscriptLine) -> &[u8]
    ensures { result.now ≡ line_bytes line.now }
{
    match line {
        TranscriptLine::In(arrival) => arrival.as_slice(),
        TranscriptLine::Out(message) => message.as_slice(),
    }
}
