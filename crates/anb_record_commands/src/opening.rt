//! Making the files of a recording.
ghost use Rattle.std.specs.Prelude.{◌≡◌, ◌≢◌, ◌<◌, ℕ, OnOk, IsErrOf, IfOk, IfSome, IfNone};
ghost use Rattle.anb_base.specs.Moves.{Rose};
ghost use Rattle.anb_host_recording.specs.Entries.{transcript_of};
ghost use Rattle.anb_recording.specs.Journals.{IsAbsent, IsEither, IsThere, OthersStay, begun};
ghost use Rattle.anb_record_commands.specs.HostInto.{IsFresh, IsOfHost};
ghost use Rattle.anb_record_commands.specs.Running.{IsHostOpened, IsOpened};

use crate::names::{Names, names_in};
use anb_base::{Bytes, NoMemory, Text};
use anb_host_recording::transcript_of;
use anb_recorded::{Missing, values_name};
use anb_recording::{BeginNo, Journal};
use anb_store::StoreNo;
use std::alloc::Global;

/// What came of making the files of a recording.
#[derive(Drop)]
pub(crate) enum Opened {
    /// Lines go to this file.
    Ready(Text),
    /// This file was there already.
    There(Text),
    /// This file couldn't be written.
    Failed(Text),
    NoMemory,
}

/// Makes the files of a recording in the folder, where it has neither.
pub(crate) fn open<J: Journal>(
    alloc: Global,
    journal: &mut J,
    folder: &Text,
    text: &Bytes,
) -> Opened
    ensures { IsOpened folder.now text.now (J.state journal.old) (J.state journal.new) result }
{
    let Ok(names) = names_in(alloc, folder) else {
        return Opened::NoMemory;
    };
    let Names { values, transcript } = names;
    match make_both(alloc, journal, &values, text, &transcript) {
        Ok(()) => Opened::Ready(transcript),
        Err(BeginNo::First) => Opened::There(values),
        Err(BeginNo::Second) => Opened::There(transcript),
        Err(BeginNo::Failed) => Opened::Failed(values),
        Err(BeginNo::NoMemory) => Opened::NoMemory,
    }
}

/// Makes both files of a recording.
fn make_both<J: Journal>(
    alloc: Global,
    journal: &mut J,
    values: &Text,
    text: &Bytes,
    transcript: &Text,
) -> Result<(), BeginNo>
    requires differ { values.now ≢ transcript.now }
    ensures begun { OnOk result (J.state journal.new
        ≡ begun (J.state journal.old) values.now text.now transcript.now) }
    ensures new_first { OnOk result (IsAbsent (J.state journal.old) values.now) }
    ensures new_second { OnOk result (IsAbsent (J.state journal.old) transcript.now) }
    ensures first_there { IsErrOf result BeginNo.First → IsThere (J.state journal.old) values.now }
    ensures second_there { IsErrOf result BeginNo.Second
        → IsThere (J.state journal.old) transcript.now }
    ensures first_stays { IsErrOf result BeginNo.First → J.state journal.new ≡ J.state journal.old }
    ensures second_stays { IsErrOf result BeginNo.Second
        → J.state journal.new ≡ J.state journal.old }
    ensures cause { IsErrOf result BeginNo.Failed
        → Rose (J.state journal.old).faults (J.state journal.new).faults }
    ensures others { OthersStay (IsEither values.now transcript.now)
        (J.state journal.old) (J.state journal.new) }
{
    journal.begin(alloc, values.as_str(), text.as_slice(), transcript.as_str())
}

/// The sessions whose transcripts may be written.
const SESSIONS: u32 = 1024;

/// Makes the file of the values of a host in the folder, where it has none of the host's files.
pub(crate) fn open_host<J: Journal>(
    alloc: Global,
    journal: &mut J,
    folder: &Text,
    text: &Bytes,
) -> Missing
    ensures { IsHostOpened folder.now text.now (J.state journal.old) (J.state journal.new) result }
{
    match one_there(alloc, &*journal, folder) {
        Ok(None) => make_values(alloc, journal, folder, text),
        Ok(Some(name)) => Missing::There(name),
        Err(NoMemory) => Missing::NoMemory,
    }
}

/// Makes the file of the values.
fn make_values<J: Journal>(alloc: Global, journal: &mut J, folder: &Text, text: &Bytes) -> Missing
    requires fresh { IsFresh folder.now (J.state journal.old) }
    ensures { IsHostOpened folder.now text.now (J.state journal.old) (J.state journal.new) result }
{
    let Ok(values) = values_name(alloc, folder) else {
        return Missing::NoMemory;
    };
    match journal.make(alloc, values.as_str(), text.as_slice()) {
        Ok(()) => Missing::Nothing,
        Err(StoreNo::Failed) => Missing::Unwritten(values),
        Err(StoreNo::NoMemory) => Missing::NoMemory,
    }
}

/// One of the host's files in the folder that is there already.
fn one_there<J: Journal>(
    alloc: Global,
    journal: &J,
    folder: &Text,
) -> Result<Option<Text>, NoMemory>
    ensures there { IfOk result (λ found. IfSome found (λ name.
        IsOfHost folder.now name × IsThere (J.state journal.now) name)) }
    ensures fresh { IfOk result (λ found. IfNone found
        (IsFresh folder.now (J.state journal.now))) }
{
    let values = values_name(alloc, folder)?;
    if journal.has(values.as_str()) {
        return Ok(Some(values));
    }
    transcript_there(alloc, journal, folder)
}

/// The transcript of a session in the folder that is there already.
fn transcript_there<J: Journal>(
    alloc: Global,
    journal: &J,
    folder: &Text,
) -> Result<Option<Text>, NoMemory>
    ensures there { IfOk result (λ found. IfSome found (λ name.
        IsOfHost folder.now name × IsThere (J.state journal.now) name)) }
    ensures none { IfOk result (λ found. IfNone found ((session : ℕ) → session < 1024
        → IsAbsent (J.state journal.now) (transcript_of folder.now session))) }
{
    for session in 0..SESSIONS {
        let name = transcript_of(alloc, folder, session)?;
        if journal.has(name.as_str()) {
            return Ok(Some(name));
        }
    }
    Ok(None)
}
