//! Files, and what they hold.
ghost use Rattle.std.specs.Prelude.{◌≡◌, ◌≢◌, ◌⊎◌, ◌≤◌, ℕ, List, [], ◌∷◌, length, AllPairs, IfOk, IfErr, All};
ghost use Rattle.anb_base.specs.declared.TheConstants.{ARRIVAL};
ghost use Rattle.std.specs.List.{AllByRecursion, sum_by};
ghost use Rattle.anb_base.specs.Bytes.{IsBytes};
ghost use Rattle.anb_base.specs.Moves.{Rose};
ghost use Rattle.anb_syntax.specs.Grammar.{IsSpellable};
ghost use Rattle.anb_syntax.specs.Sizes.{size};
ghost use Rattle.anb_syntax.specs.Views.{narration_of};
ghost use Rattle.anb_transcript.specs.Replays.{arrivals_of};
ghost use Rattle.anb_command.specs.Fetches.{Fetches, IfTold};
ghost use Rattle.anb_command.specs.Reported.{TellsFileFaults};
ghost use Rattle.anb_command.specs.Files.{CodeInFile, CodeIs, HasFile, HasLonger, NarrationIs, NarrationInFile, ProtocolIs, ProtocolInFile, TranscriptIs, TranscriptInFile, ValuesAre, ValuesInFile};
ghost use Rattle.anb_status.specs.Statuses.{IsEarly};
ghost use Rattle.anb_command.specs.Steps.{IsFailure, refused, given};
ghost use Rattle.anb_status.specs.declared.status.Status.TheVariants as status;

use crate::{NARRATION_LIMIT, ROLE_FILE_LIMIT, TRANSCRIPT_LIMIT, VALUES_LIMIT};
use anb_base::{Bytes, NoMemory, Shelf, ShelfNo, Text};
use anb_code::RoleCode;
use anb_protocol::{Protocol, ResolveNo};
use anb_read::{ReadNo, read};
use anb_resolve::{resolve, small_is_countable};
use anb_status::{NarrationNo, Status};
use anb_syntax::Narration;
use anb_text::{LoadNo, load};
use anb_transcript::{Transcript, TranscriptNo, read_transcript};
use anb_values::{Fitted, ValuesNo, values};
use std::alloc::Global;

/// The file of this name, where it has at most `limit` bytes. The name that a refusal tells is copied
/// before the file is fetched, so a fault is told whatever memory there is.
pub fn fetch_file<F: Shelf>(
    alloc: Global,
    shelf: &mut F,
    name: &Text,
    limit: u32,
) -> Result<Bytes, Status>
    ensures file { IfOk result (λ text. IfTold (F.files shelf.old) (λ files.
        HasFile files name.now limit text)) }
    ensures within { IfOk result (λ text. length text ≤ limit) }
    ensures err { IfErr result (λ why. IsFailure why
        (λ file. (file ≡ name.now) × Rose (F.faults shelf.old file) (F.faults shelf.new file))
        ((why ≡ status.FileLong name.now)
        × IfTold (F.files shelf.old) (λ files. HasLonger files name.now limit))) }
    ensures fetches { Fetches (name.now ∷ [])
        (F.files shelf.old) (F.files shelf.new) (F.faults shelf.old) (F.faults shelf.new) }
    ensures told { TellsFileFaults result (F.faults shelf.old) (F.faults shelf.new) }
{
    let told = match name.copy(alloc) {
        Ok(told) => told,
        Err(NoMemory) => return Err(Status::NoMemory),
    };
    match shelf.fetch(alloc, name.as_str(), limit) {
        Ok(text) => Ok(text),
        Err(ShelfNo::Failed) => Err(Status::FileFault(told)),
        Err(ShelfNo::Long) => Err(Status::FileLong(told)),
        Err(ShelfNo::NoMemory) => Err(Status::NoMemory),
    }
}

/// The narration in the file.
pub fn narration_in_file<F: Shelf>(
    alloc: Global,
    shelf: &mut F,
    name: &Text,
) -> Result<Narration, Status>
    ensures given { IfOk result (λ n. IfTold (F.files shelf.old) (λ files.
        NarrationInFile files name.now (given (narration_of n)))) }
    ensures spellable { IfOk result (λ n. IsSpellable (narration_of n)) }
    ensures small { IfOk result (λ n. size (narration_of n) ≤ NARRATION_LIMIT) }
    ensures refused { IfErr result (λ status. IsFailure status
        (λ file. (file ≡ name.now) × Rose (F.faults shelf.old file) (F.faults shelf.new file))
        (IfTold (F.files shelf.old) (λ files. NarrationInFile files name.now (refused status)))) }
    ensures early { IfErr result IsEarly }
    ensures fetches { Fetches (name.now ∷ [])
        (F.files shelf.old) (F.files shelf.new) (F.faults shelf.old) (F.faults shelf.new) }
    ensures told { TellsFileFaults result (F.faults shelf.old) (F.faults shelf.new) }
{
    match fetch_file(alloc, shelf, name, NARRATION_LIMIT) {
        Ok(text) => narration_of_text(alloc, text.as_slice()),
        Err(status) => Err(status),
    }
}

/// The narration that the text is.
fn narration_of_text(alloc: Global, text: &[u8]) -> Result<Narration, Status>
    requires { length text.now ≤ NARRATION_LIMIT }
    ensures given { IfOk result (λ n. NarrationIs text.now (given (narration_of n))) }
    ensures spellable { IfOk result (λ n. IsSpellable (narration_of n)) }
    ensures small { IfOk result (λ n. size (narration_of n) ≤ NARRATION_LIMIT) }
    ensures refused { IfErr result (λ status. IsFailure status (λ file. ⊥)
        (NarrationIs text.now (refused status))) }
    ensures early { IfErr result IsEarly }
{
    match read(alloc, text) {
        Ok(narration) => Ok(narration),
        Err(ReadNo::NoMemory) => Err(Status::NoMemory),
        Err(why) => Err(Status::BadNarration(NarrationNo::Read(why))),
    }
}

/// The protocol in the file.
pub fn protocol_in_file<F: Shelf>(
    alloc: Global,
    shelf: &mut F,
    name: &Text,
) -> Result<Protocol, Status>
    ensures given { IfOk result (λ p. IfTold (F.files shelf.old) (λ files.
        ProtocolInFile files name.now (given p))) }
    ensures refused { IfErr result (λ status. IsFailure status
        (λ file. (file ≡ name.now) × Rose (F.faults shelf.old file) (F.faults shelf.new file))
        (IfTold (F.files shelf.old) (λ files. ProtocolInFile files name.now (refused status)))) }
    ensures early { IfErr result IsEarly }
    ensures fetches { Fetches (name.now ∷ [])
        (F.files shelf.old) (F.files shelf.new) (F.faults shelf.old) (F.faults shelf.new) }
    ensures told { TellsFileFaults result (F.faults shelf.old) (F.faults shelf.new) }
{
    match narration_in_file(alloc, shelf, name) {
        Ok(narration) => protocol_of_narration(alloc, &narration),
        Err(status) => Err(status),
    }
}

/// The protocol that the narration tells.
pub fn protocol_of_narration(alloc: Global, narration: &Narration) -> Result<Protocol, Status>
    requires spellable { IsSpellable (narration_of narration.now) }
    requires small { size (narration_of narration.now) ≤ NARRATION_LIMIT }
    ensures given { IfOk result (λ p. ProtocolIs (narration_of narration.now) (given p)) }
    ensures refused { IfErr result (λ status. IsFailure status (λ file. ⊥)
        (ProtocolIs (narration_of narration.now) (refused status))) }
    ensures early { IfErr result IsEarly }
{
    small_is_countable();
    match resolve(alloc, narration) {
        Ok(protocol) => Ok(protocol),
        Err(ResolveNo::NoMemory) => Err(Status::NoMemory),
        Err(why) => Err(Status::BadNarration(NarrationNo::Resolve(why))),
    }
}

/// The code in the role file.
pub fn code_in_file<F: Shelf>(alloc: Global, shelf: &mut F, name: &Text) -> Result<RoleCode, Status>
    ensures given { IfOk result (λ code. IfTold (F.files shelf.old) (λ files.
        CodeInFile files name.now (given code))) }
    ensures refused { IfErr result (λ status. IsFailure status
        (λ file. (file ≡ name.now) × Rose (F.faults shelf.old file) (F.faults shelf.new file))
        (IfTold (F.files shelf.old) (λ files. CodeInFile files name.now (refused status)))) }
    ensures early { IfErr result IsEarly }
    ensures fetches { Fetches (name.now ∷ [])
        (F.files shelf.old) (F.files shelf.new) (F.faults shelf.old) (F.faults shelf.new) }
    ensures told { TellsFileFaults result (F.faults shelf.old) (F.faults shelf.new) }
{
    match fetch_file(alloc, shelf, name, ROLE_FILE_LIMIT) {
        Ok(text) => code_of_text(alloc, text.as_slice()),
        Err(status) => Err(status),
    }
}

/// The code that the text is a role file of.
fn code_of_text(alloc: Global, text: &[u8]) -> Result<RoleCode, Status>
    requires { length text.now ≤ ROLE_FILE_LIMIT }
    ensures given { IfOk result (λ code. CodeIs text.now (given code)) }
    ensures refused { IfErr result (λ status. IsFailure status (λ file. ⊥)
        (CodeIs text.now (refused status))) }
    ensures early { IfErr result IsEarly }
{
    match load(alloc, text) {
        Ok(code) => {
            let _ = code.instrs();
            Ok(code)
        }
        Err(LoadNo::NoMemory) => Err(Status::NoMemory),
        Err(why) => Err(Status::BadRoleFile(why)),
    }
}

/// The transcript in the file.
pub fn transcript_in_file<F: Shelf>(
    alloc: Global,
    shelf: &mut F,
    name: &Text,
) -> Result<Transcript, Status>
    ensures given { IfOk result (λ lines. IfTold (F.files shelf.old) (λ files.
        TranscriptInFile files name.now (given lines))) }
    ensures few { IfOk result (λ lines. length lines ≤ TRANSCRIPT_LIMIT) }
    ensures arrivals { IfOk result (λ lines.
        All (λ arrival. length arrival ≤ ARRIVAL) (arrivals_of lines)) }
    ensures bytes { IfOk result (λ lines. AllByRecursion IsBytes (arrivals_of lines)) }
    ensures refused { IfErr result (λ status. IsFailure status
        (λ file. (file ≡ name.now) × Rose (F.faults shelf.old file) (F.faults shelf.new file))
        (IfTold (F.files shelf.old) (λ files. TranscriptInFile files name.now (refused status)))) }
    ensures early { IfErr result IsEarly }
    ensures fetches { Fetches (name.now ∷ [])
        (F.files shelf.old) (F.files shelf.new) (F.faults shelf.old) (F.faults shelf.new) }
    ensures told { TellsFileFaults result (F.faults shelf.old) (F.faults shelf.new) }
{
    match fetch_file(alloc, shelf, name, TRANSCRIPT_LIMIT) {
        Ok(text) => transcript_of_text(alloc, text.as_slice()),
        Err(status) => Err(status),
    }
}

/// The transcript that the text is.
fn transcript_of_text(alloc: Global, text: &[u8]) -> Result<Transcript, Status>
    requires { length text.now ≤ TRANSCRIPT_LIMIT }
    ensures given { IfOk result (λ lines. TranscriptIs text.now (given lines)) }
    ensures few { IfOk result (λ lines. length lines ≤ TRANSCRIPT_LIMIT) }
    ensures arrivals { IfOk result (λ lines.
        All (λ arrival. length arrival ≤ ARRIVAL) (arrivals_of lines)) }
    ensures bytes { IfOk result (λ lines. AllByRecursion IsBytes (arrivals_of lines)) }
    ensures refused { IfErr result (λ status. IsFailure status (λ file. ⊥)
        (TranscriptIs text.now (refused status))) }
    ensures early { IfErr result IsEarly }
{
    match read_transcript(alloc, text) {
        Ok(transcript) => Ok(transcript),
        Err(TranscriptNo::NoMemory) => Err(Status::NoMemory),
        Err(TranscriptNo::Line(line)) => Err(Status::BadTranscript(line)),
    }
}

/// What the file gives for the names.
pub fn values_in_file<F: Shelf>(
    alloc: Global,
    shelf: &mut F,
    name: &Text,
    names: &[Text],
) -> Result<Fitted, Status>
    requires { AllPairs (λ (one other : List ℕ). one ≢ other) names.now }
    ensures given { IfOk result (λ fitted. IfTold (F.files shelf.old) (λ files.
        ValuesInFile files name.now names.now (given fitted))) }
    ensures each { IfOk result (λ fitted. length fitted.values ≡ length names.now) }
    ensures bytes { IfOk result (λ fitted. AllByRecursion IsBytes fitted.values) }
    ensures short { IfOk result (λ fitted. All (λ value. length value ≤ ARRIVAL) fitted.values) }
    ensures total { IfOk result (λ fitted. sum_by length fitted.values ≤ VALUES_LIMIT) }
    ensures refused { IfErr result (λ status. IsFailure status
        (λ file. (file ≡ name.now) × Rose (F.faults shelf.old file) (F.faults shelf.new file))
        (IfTold (F.files shelf.old) (λ files.
        ValuesInFile files name.now names.now (refused status)))) }
    ensures early { IfErr result IsEarly }
    ensures fetches { Fetches (name.now ∷ [])
        (F.files shelf.old) (F.files shelf.new) (F.faults shelf.old) (F.faults shelf.new) }
    ensures told { TellsFileFaults result (F.faults shelf.old) (F.faults shelf.new) }
{
    match fetch_file(alloc, shelf, name, VALUES_LIMIT) {
        Ok(text) => values_of_text(alloc, text.as_slice(), names),
        Err(status) => Err(status),
    }
}

/// What the text gives for the names.
fn values_of_text(alloc: Global, text: &[u8], names: &[Text]) -> Result<Fitted, Status>
    requires size { length text.now ≤ VALUES_LIMIT }
    requires differ { AllPairs (λ (one other : List ℕ). one ≢ other) names.now }
    ensures given { IfOk result (λ fitted. ValuesAre names.now text.now (given fitted)) }
    ensures each { IfOk result (λ fitted. length fitted.values ≡ length names.now) }
    ensures bytes { IfOk result (λ fitted. AllByRecursion IsBytes fitted.values) }
    ensures short { IfOk result (λ fitted. All (λ value. length value ≤ ARRIVAL) fitted.values) }
    ensures total { IfOk result (λ fitted. sum_by length fitted.values ≤ length text.now) }
    ensures refused { IfErr result (λ status. IsFailure status (λ file. ⊥)
        (ValuesAre names.now text.now (refused status))) }
    ensures early { IfErr result IsEarly }
{
    match values(alloc, text, names) {
        Ok(fitted) => {
            all_bytes(fitted.values.as_slice());
            Ok(fitted)
        }
        Err(ValuesNo::NoMemory) => Err(Status::NoMemory),
        Err(why) => Err(Status::BadValues(why)),
    }
}

/// A law: these are strings of bytes.
fn all_bytes(values: &[Bytes])
    ensures { AllByRecursion IsBytes values.now }
{
    for value in values {
        are_bytes(value.as_slice());
    }
}

/// A law: a slice of bytes is a string of bytes.
fn are_bytes(bytes: &[u8])
    ensures { IsBytes bytes.now }
{
    let _ = bytes;
}
