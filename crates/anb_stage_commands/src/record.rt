//! The record of a stage: its files, and the log that writes them.
ghost use Rattle.std.specs.Prelude.{◌≡◌, ◌≢◌, ◌≤◌, ◌<◌, ◌+◌, ◌^◌, ◌∷◌, ◌++◌, [], length, IfOk, string_bytes};
ghost use Rattle.hex.specs.Hex.{encode_lower};
ghost use Rattle.anb_store.specs.Stores.{StoreState};
ghost use Rattle.anb_stage_commands.specs.Records.{all_files, files_of, last_line, put_to};
ghost use Rattle.anb_stage_commands.specs.Telling.{Goes, IsMade, IsPlace, all_names, lined_at, missing_of, names_of};
ghost use Rattle.anb_stage_commands.specs.Reports.{sent_line};
ghost use Rattle.anb_stage_commands.specs.declared.record.Lack.TheVariants.{Nothing};

use crate::files::Both;
use crate::report::sent_text;
use anb_base::{NoMemory, Text};
use anb_recorded::Missing;
use anb_recording::{BeginNo, Journal};
use anb_stage::Log;
use anb_store::StoreNo;
use std::alloc::Global;

/// What is missing of a record: nothing, what came from when the files at this place couldn't be written, or
/// from when memory was wanting.
#[derive(Clone, Copy, Drop)]
pub(crate) enum Lack {
    Nothing,
    Unwritten(usize),
    NoMemory,
}

/// What came of making all files.
#[derive(Clone, Copy, Drop)]
pub(crate) enum Made {
    /// They are there, but for what is missing.
    Went(Lack),
    /// One at this place was there already: the first, or the second.
    First(usize),
    Second(usize),
}

/// The names in this folder for these roles.
pub(crate) fn files_in(alloc: Global, folder: &Text, roles: &[Text]) -> Result<Vec<Both>, NoMemory>
    ensures { IfOk result (λ files. all_names files.items ≡ all_files folder.now roles.now) }
{
    let folder = folder.as_str();
    let mut files = Vec::new(alloc);
    files.push(Both {
        lined: Text::new(format!(in alloc; "{folder}/report")?),
        beside: Text::new(format!(in alloc; "{folder}/left")?),
    })?;
    for role in roles {
        files.push(role_files(alloc, folder, role.as_str())?)?;
    }
    Ok(files)
}

/// The names of a role's files.
fn role_files(alloc: Global, folder: &str, role: &str) -> Result<Both, NoMemory>
    ensures { IfOk result (λ both. names_of both ≡ files_of folder.now role.now) }
{
    Ok(Both {
        lined: Text::new(format!(in alloc; "{folder}/{role}.transcript")?),
        beside: Text::new(format!(in alloc; "{folder}/{role}.errors")?),
    })
}

/// Makes all files, each empty. The first that is there already ends it; those before it are left.
pub(crate) fn make_all<J: Journal>(alloc: Global, journal: &mut J, files: &[Both]) -> Made
    ensures made { IsMade files.now (J.state journal.old) (J.state journal.new) result }
    ensures never_falls { (J.state journal.old).faults ≤ (J.state journal.new).faults }
{
    for (place, both) in files.iter().enumerate() {
        match journal.begin(alloc, both.lined.as_str(), b"", both.beside.as_str()) {
            Ok(()) => {}
            Err(BeginNo::First) => return Made::First(place),
            Err(BeginNo::Second) => return Made::Second(place),
            Err(BeginNo::Failed) => return Made::Went(Lack::Unwritten(place)),
            Err(BeginNo::NoMemory) => return Made::Went(Lack::NoMemory),
        }
    }
    Made::Went(Lack::Nothing)
}

/// What is missing, with the name of a file that couldn't be written.
pub(crate) fn missing(mut files: Vec<Both>, lack: Lack) -> Missing
    requires within { IsPlace (length files.items) lack }
    ensures { result ≡ missing_of files.items lack }
{
    match lack {
        Lack::Nothing => Missing::Nothing,
        Lack::Unwritten(place) => Missing::Unwritten(files.swap_remove(place).lined),
        Lack::NoMemory => Missing::NoMemory,
    }
}

/// What a stage tells of, written line by line. Once a line is missing no more are appended.
pub(crate) struct RecordLog<'j, 'f, J: Journal> {
    pub(crate) alloc: Global,
    pub(crate) journal: &'j mut J,
    pub(crate) files: &'f [Both],
    pub(crate) lack: Lack,
}

impl<J: Journal> RecordLog<'_, '_, J> {
    /// Says how many messages were handed on, where all were.
    pub(crate) fn end(&mut self, count: usize)
        ensures same_reference { self.new.journal.ghost_name ≡ self.old.journal.ghost_name }
        ensures same_files { self.new.files.now ≡ self.old.files.now }
        ensures goes { Goes self.old.files.now (J.state self.old.journal.now)
            (J.state self.new.journal.now) self.old.lack self.new.lack
            (λ store. put_to store (lined_at (all_names self.old.files.now) 0) (last_line count)) }
    {
        match format!(in self.alloc; "relayed {count}\n") {
            Ok(line) => self.append(0, line.as_bytes()),
            Err(_) => self.lose(),
        }
    }

    /// Appends a line with this sign to a role's transcript.
    fn note(&mut self, role: u32, sign: &str, bytes: &[u8])
        ensures same_reference { self.new.journal.ghost_name ≡ self.old.journal.ghost_name }
        ensures same_files { self.new.files.now ≡ self.old.files.now }
        ensures goes { Goes self.old.files.now (J.state self.old.journal.now)
            (J.state self.new.journal.now) self.old.lack self.new.lack
            (λ store. put_to store (lined_at (all_names self.old.files.now) (role + 1))
            (sign.now ++ 32 ∷ encode_lower bytes.now ++ 10 ∷ [])) }
    {
        match own_text(self.alloc, sign, bytes) {
            Ok(line) => self.append(role as usize + 1, line.as_bytes()),
            Err(_) => self.lose(),
        }
    }

    /// Appends the line of a message to the report.
    fn report(&mut self, action: u32, bytes: &[u8])
        ensures same_reference { self.new.journal.ghost_name ≡ self.old.journal.ghost_name }
        ensures same_files { self.new.files.now ≡ self.old.files.now }
        ensures goes { Goes self.old.files.now (J.state self.old.journal.now)
            (J.state self.new.journal.now) self.old.lack self.new.lack
            (λ store. put_to store (lined_at (all_names self.old.files.now) 0)
            (sent_line (record { action = action; bytes = bytes.now }))) }
    {
        match sent_text(self.alloc, action, bytes) {
            Ok(line) => self.append(0, line.as_bytes()),
            Err(_) => self.lose(),
        }
    }

    /// Appends these bytes to the file at a place, where nothing is missing.
    fn append(&mut self, place: usize, line: &[u8])
        ensures same_reference { self.new.journal.ghost_name ≡ self.old.journal.ghost_name }
        ensures same_files { self.new.files.now ≡ self.old.files.now }
        ensures goes { Goes self.old.files.now (J.state self.old.journal.now)
            (J.state self.new.journal.now) self.old.lack self.new.lack
            (λ store. put_to store (lined_at (all_names self.old.files.now) place) line.now) }
    {
        if let Lack::Nothing = self.lack {
            self.lack = append_at(self.alloc, self.journal, self.files, place, line);
        }
    }

    /// From now on memory was wanting, where nothing is missing.
    fn lose(&mut self)
        ensures same_reference { self.new.journal.ghost_name ≡ self.old.journal.ghost_name }
        ensures same_files { self.new.files.now ≡ self.old.files.now }
        ensures goes { (put : StoreState → StoreState)
            → Goes self.old.files.now (J.state self.old.journal.now)
            (J.state self.new.journal.now) self.old.lack self.new.lack put }
    {
        if let Lack::Nothing = self.lack {
            self.lack = Lack::NoMemory;
        }
    }
}

/// Appends these bytes to the file of lines at a place, where there is one, and says what is missing.
fn append_at<J: Journal>(
    alloc: Global,
    journal: &mut J,
    files: &[Both],
    place: usize,
    line: &[u8],
) -> Lack
    ensures { Goes files.now (J.state journal.old) (J.state journal.new) Nothing result
        (λ store. put_to store (lined_at (all_names files.now) place) line.now) }
{
    let Some(both) = files.get(place) else {
        return Lack::Nothing;
    };
    match journal.append(alloc, both.lined.as_str(), line) {
        Ok(()) => Lack::Nothing,
        Err(StoreNo::Failed) => Lack::Unwritten(place),
        Err(StoreNo::NoMemory) => Lack::NoMemory,
    }
}

/// A line of a transcript.
fn own_text(alloc: Global, sign: &str, bytes: &[u8]) -> Result<String, NoMemory>
    ensures { IfOk result (λ text. string_bytes text
        ≡ sign.now ++ 32 ∷ encode_lower bytes.now ++ 10 ∷ []) }
{
    let digits = hex::encode(alloc, bytes)?;
    Ok(format!(in alloc; "{sign} {}\n", digits.as_str())?)
}

impl<J: Journal> Log for RecordLog<'_, '_, J> {
    ghost use Rattle.anb_stage_commands.specs.Telling.{TellsOn, tells_on, tells_still};

    ghost After = { λ x told y. TellsOn x.journal.ghost_name y.journal.ghost_name
        x.files.now y.files.now (J.state x.journal.now) (J.state y.journal.now) x.lack y.lack told };

    ghost stays = { λ x. tells_still x.journal.ghost_name x.files.now
        (J.state x.journal.now) x.lack };

    ghost joined = { λ x y z some more one two.
        tells_on x.journal.ghost_name y.journal.ghost_name z.journal.ghost_name
        x.files.now y.files.now z.files.now
        (J.state x.journal.now) (J.state y.journal.now) (J.state z.journal.now)
        x.lack y.lack z.lack some more one two };

    fn said(&mut self, _action: u32, role: u32, bytes: &[u8]) {
        self.note(role, ">", bytes);
    }

    fn heard(&mut self, action: u32, role: u32, bytes: &[u8]) {
        self.note(role, "<", bytes);
        self.report(action, bytes);
    }
}
