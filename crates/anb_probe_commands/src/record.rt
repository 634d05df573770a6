//! The record of a test: its files, and who writes them.

ghost use Rattle.std.specs.Prelude.{◌≡◌, ◌≢◌, ◌≤◌, ◌<◌, ◌+◌, ◌++◌, ◌∷◌, [], ℕ, IfNone, IfOk, IfSome, OnOk};
ghost use Rattle.anb_attempts.specs.declared.attempts.TheConstants.{MOST};
ghost use Rattle.anb_recording.specs.Journals.{IsAbsent, IsThere};
ghost use Rattle.anb_recording.specs.Lines.{lines_text};
ghost use Rattle.anb_recorded.specs.Outcomes.{AreAbsent};
ghost use Rattle.anb_recorded.specs.declared.ended.Missing.TheVariants.{Nothing};
ghost use Rattle.anb_probe_commands.specs.Keeping.{Goes, IsOpened, told};
ghost use Rattle.anb_probe_commands.specs.Records.{IsOfRecord, errors_of, transcript_of};

use crate::frames::put_line;
use crate::keeping::Keeper;
use anb_attempts::MOST;
use anb_base::{Bytes, NoMemory, Text};
use anb_recorded::{Missing, values_name};
use anb_recording::Journal;
use anb_store::StoreNo;
use anb_transcript::TranscriptLine;
use std::alloc::Global;

/// Makes the file of the values in the folder, where it has none of the record's files.
pub(crate) fn open<J: Journal>(
    alloc: Global,
    journal: &mut J,
    folder: &Text,
    values: &Bytes,
) -> Missing
    ensures { IsOpened folder.now values.now (J.state journal.old) (J.state journal.new) result }
{
    match one_there(alloc, &*journal, folder) {
        Ok(None) => make_values(alloc, journal, folder, values),
        Ok(Some(name)) => Missing::There(name),
        Err(NoMemory) => Missing::NoMemory,
    }
}

/// Makes the file of the values.
fn make_values<J: Journal>(alloc: Global, journal: &mut J, folder: &Text, values: &Bytes) -> Missing
    requires { AreAbsent (IsOfRecord folder.now) (J.state journal.old) }
    ensures { IsOpened folder.now values.now (J.state journal.old) (J.state journal.new) result }
{
    let Ok(name) = values_name(alloc, folder) else {
        return Missing::NoMemory;
    };
    match journal.make(alloc, name.as_str(), values.as_slice()) {
        Ok(()) => Missing::Nothing,
        Err(StoreNo::Failed) => Missing::Unwritten(name),
        Err(StoreNo::NoMemory) => Missing::NoMemory,
    }
}

/// One of the record's files in the folder that is there already.
fn one_there<J: Journal>(
    alloc: Global,
    journal: &J,
    folder: &Text,
) -> Result<Option<Text>, NoMemory>
    ensures there { IfOk result (λ found. IfSome found (λ name.
        IsOfRecord folder.now name × IsThere (J.state journal.now) name)) }
    ensures fresh { IfOk result (λ found. IfNone found
        (AreAbsent (IsOfRecord folder.now) (J.state journal.now))) }
{
    let values = values_name(alloc, folder)?;
    if journal.has(values.as_str()) {
        return Ok(Some(values));
    }
    case_there(alloc, journal, folder)
}

/// One of the files of cases that is there already.
fn case_there<J: Journal>(
    alloc: Global,
    journal: &J,
    folder: &Text,
) -> Result<Option<Text>, NoMemory>
    ensures there { IfOk result (λ found. IfSome found (λ name.
        IsOfRecord folder.now name × IsThere (J.state journal.now) name)) }
    ensures no_transcript { IfOk result (λ found. IfNone found ((case : ℕ) → case < MOST
        → IsAbsent (J.state journal.now) (transcript_of folder.now (case + 1)))) }
    ensures no_errors { IfOk result (λ found. IfNone found ((case : ℕ) → case < MOST
        → IsAbsent (J.state journal.now) (errors_of folder.now (case + 1)))) }
{
    for case in 0..MOST as u32 {
        let transcript = transcript_of(alloc, folder, case + 1)?;
        if journal.has(transcript.as_str()) {
            return Ok(Some(transcript));
        }
        let errors = errors_of(alloc, folder, case + 1)?;
        if journal.has(errors.as_str()) {
            return Ok(Some(errors));
        }
    }
    Ok(None)
}

/// The name of the transcript of the case with this number, from 1.
fn transcript_of(alloc: Global, folder: &Text, number: u32) -> Result<Text, NoMemory>
    ensures { IfOk result (λ name. name ≡ transcript_of folder.now number) }
{
    let folder = folder.as_str();
    Ok(Text::new(format!(in alloc; "{folder}/{number}.transcript")?))
}

/// That of its standard error.
fn errors_of(alloc: Global, folder: &Text, number: u32) -> Result<Text, NoMemory>
    ensures { IfOk result (λ name. name ≡ errors_of folder.now number) }
{
    let folder = folder.as_str();
    Ok(Text::new(format!(in alloc; "{folder}/{number}.errors")?))
}

/// Who writes the transcript of each case to its file. Once one is missing no more are written.
pub(crate) struct RecordKeeper<'j, 'f, 'm, J: Journal> {
    pub(crate) alloc: Global,
    pub(crate) journal: &'j mut J,
    pub(crate) folder: &'f Text,
    pub(crate) missing: &'m mut Missing,
}

/// Writes the transcript of the case with this number, from 0, and says what is missing.
fn write_case<J: Journal>(
    alloc: Global,
    journal: &mut J,
    folder: &Text,
    case: u32,
    lines: &[TranscriptLine],
) -> Missing
    requires { case < MOST }
    ensures { Goes folder.now (J.state journal.old) (J.state journal.new) Nothing result
        (told case lines.now ∷ []) }
{
    let Ok(name) = transcript_of(alloc, folder, case + 1) else {
        return Missing::NoMemory;
    };
    let Ok(text) = lines_text(alloc, lines) else {
        return Missing::NoMemory;
    };
    match journal.make(alloc, name.as_str(), &text) {
        Ok(()) => Missing::Nothing,
        Err(StoreNo::Failed) => Missing::Unwritten(name),
        Err(StoreNo::NoMemory) => Missing::NoMemory,
    }
}

/// The text of a transcript.
fn lines_text(alloc: Global, lines: &[TranscriptLine]) -> Result<Vec<u8>, NoMemory>
    ensures { IfOk result (λ text. text.items ≡ lines_text lines.now) }
{
    let mut text = Vec::new(alloc);
    for line in lines {
        put_line(alloc, &mut text, line)?;
    }
    Ok(text)
}

impl<J: Journal> Keeper for RecordKeeper<'_, '_, '_, J> {
    ghost use Rattle.anb_probe_commands.specs.Keeping.{KeepsOn, keeps_on, keeps_still};

    ghost After = { λ x some y. KeepsOn x.journal.ghost_name y.journal.ghost_name
        x.folder.now y.folder.now x.missing.ghost_name y.missing.ghost_name
        (J.state x.journal.now) (J.state y.journal.now) x.missing.now y.missing.now some };

    ghost stays = { λ x. keeps_still x.journal.ghost_name x.folder.now
        x.missing.ghost_name (J.state x.journal.now) x.missing.now };

    ghost joined = { λ x y z some more one two.
        keeps_on x.journal.ghost_name y.journal.ghost_name z.journal.ghost_name
        x.folder.now y.folder.now z.folder.now
        x.missing.ghost_name y.missing.ghost_name z.missing.ghost_name
        (J.state x.journal.now) (J.state y.journal.now) (J.state z.journal.now)
        x.missing.now y.missing.now z.missing.now some more one two };

    fn keep(&mut self, case: u32, lines: &[TranscriptLine]) {
        if let Missing::Nothing = *self.missing {
            *self.missing = write_case(self.alloc, self.journal, self.folder, case, lines);
        }
    }
}
