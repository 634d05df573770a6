//! What is rehearsed, from the files of its words.
ghost use Rattle.std.specs.Prelude.{◌≡◌, ◌⊎◌, ◌<◌, ◌≤◌, ℕ, List, [], ◌∷◌, length, All, IfOk, IfErr};
ghost use Rattle.std.specs.List.{AllByRecursion};
ghost use Rattle.anb_base.specs.Bytes.{IsBytes};
ghost use Rattle.anb_base.specs.Moves.{Rose};
ghost use Rattle.anb_base.specs.declared.TheConstants.{ARRIVAL};
ghost use Rattle.anb_compile.specs.Fitting.{FitRoles};
ghost use Rattle.anb_honest.specs.declared.TheConstants.{TURNS};
ghost use Rattle.anb_protocol.specs.Plays.{IsSendable};
ghost use Rattle.anb_protocol.specs.Texts.{known_names};
ghost use Rattle.anb_command.specs.Fetches.{Fetches, IfTold, IsOneOf};
ghost use Rattle.anb_command.specs.Reported.{TellsFileFaults};
ghost use Rattle.anb_command.specs.Files.{ValuesInFile};
ghost use Rattle.anb_command.specs.Roles.{SendableInFile};
ghost use Rattle.anb_status.specs.Statuses.{IsEarly};
ghost use Rattle.anb_command.specs.Steps.{IsFailure, refused, given};
ghost use Rattle.anb_command.specs.declared.limits.TheConstants.{SCHEDULE_LIMIT};
ghost use Rattle.anb_rehearse_commands.specs.Rehearsals.{IsReadForSetting, IsReadToRehearse, RehearsalIs, ScheduleInFile, ScheduleIs, SettingIs};
ghost use Rattle.anb_rehearse_commands.specs.Telling.{CanRehearse, asked_by, setting_by};

use anb_base::{NoMemory, Shelf, Text};
use anb_code::RoleCode;
use anb_command::{
    RehearseWords, SCHEDULE_LIMIT, Status, codes_of, fetch_file, protocol_in_file, seed_of,
    values_in_file,
};
use anb_honest::{ScheduleNo, known_names_differ, schedule};
use anb_protocol::Protocol;
use anb_values::{Fitted, ValueList};
use std::alloc::Global;

/// A protocol whose roles can all send what they must, and the codes of its roles in order.
#[derive(Drop)]
struct Company {
    protocol: Protocol,
    codes: Vec<RoleCode>,
}

/// The same with the values of the names that occur in some role's knowledge, and the seed of all
/// draws.
#[derive(Drop)]
pub(crate) struct Staged {
    pub(crate) protocol: Protocol,
    pub(crate) codes: Vec<RoleCode>,
    pub(crate) values: ValueList,
    pub(crate) seed: [u8; 32],
}

/// All that a rehearsal takes from its files.
#[derive(Drop)]
pub(crate) struct Prepared {
    pub(crate) staged: Staged,
    pub(crate) turns: Vec<u32>,
}

/// What the words ask to rehearse.
pub(crate) fn prepare<F: Shelf>(
    alloc: Global,
    shelf: &mut F,
    words: RehearseWords,
    host_seed: Option<[u8; 32]>,
) -> Result<Prepared, Status>
    ensures given { IfOk result (λ p. IfTold (F.files shelf.old) (λ files.
        RehearsalIs files words.entry.narration.now words.entry.values.now
        words.entry.schedule.now host_seed
        (given (asked_by p.staged.protocol p.staged.values p.staged.seed p.turns.items)))) }
    ensures ready { IfOk result (λ p. CanRehearse
        p.staged.protocol p.staged.codes.items p.staged.values p.turns.items) }
    ensures refused { IfErr result (λ status. IsFailure status
        (λ file. IsOneOf (words.entry.narration.now ∷ words.entry.values.now
        ∷ words.entry.schedule.now ∷ []) file
        × Rose (F.faults shelf.old file) (F.faults shelf.new file)
        × IfTold (F.files shelf.old) (λ files.
        IsReadToRehearse files words.entry.narration.now words.entry.values.now
        words.entry.schedule.now host_seed file))
        (IfTold (F.files shelf.old) (λ files.
        RehearsalIs files words.entry.narration.now words.entry.values.now
        words.entry.schedule.now host_seed (refused status)))) }
    ensures early { IfErr result IsEarly }
    ensures fetches { Fetches (words.entry.narration.now ∷ words.entry.values.now
        ∷ words.entry.schedule.now ∷ [])
        (F.files shelf.old) (F.files shelf.new) (F.faults shelf.old) (F.faults shelf.new) }
    ensures told { TellsFileFaults result (F.faults shelf.old) (F.faults shelf.new) }
{
    let staged = match staged_in_files(alloc, shelf, words.narration, words.values, host_seed) {
        Ok(staged) => staged,
        Err(status) => return Err(status),
    };
    match schedule_in_file(alloc, shelf, words.schedule, &staged.protocol) {
        Ok(turns) => Ok(Prepared { staged, turns }),
        Err(status) => Err(status),
    }
}

/// The company of a narration's file, with the values and the seed for it.
fn staged_in_files<F: Shelf>(
    alloc: Global,
    shelf: &mut F,
    narration: &Text,
    values: &Text,
    host_seed: Option<[u8; 32]>,
) -> Result<Staged, Status>
    ensures given { IfOk result (λ s. IfTold (F.files shelf.old) (λ files.
        SettingIs files narration.now values.now host_seed
        (given (setting_by s.protocol s.values s.seed)))) }
    ensures fit { IfOk result (λ s. FitRoles s.protocol s.codes.items) }
    ensures sendable { IfOk result (λ s. IsSendable s.protocol) }
    ensures count { IfOk result (λ s. length s.values ≡ length (known_names s.protocol)) }
    ensures bytes { IfOk result (λ s. AllByRecursion IsBytes s.values) }
    ensures short { IfOk result (λ s. All (λ value. length value ≤ ARRIVAL) s.values) }
    ensures refused { IfErr result (λ status. IsFailure status
        (λ file. IsOneOf (narration.now ∷ values.now ∷ []) file
        × Rose (F.faults shelf.old file) (F.faults shelf.new file)
        × IfTold (F.files shelf.old) (λ files. IsReadForSetting files narration.now values.now file))
        (IfTold (F.files shelf.old) (λ files.
        SettingIs files narration.now values.now host_seed (refused status)))) }
    ensures early { IfErr result IsEarly }
    ensures fetches { Fetches (narration.now ∷ values.now ∷ [])
        (F.files shelf.old) (F.files shelf.new) (F.faults shelf.old) (F.faults shelf.new) }
    ensures told { TellsFileFaults result (F.faults shelf.old) (F.faults shelf.new) }
{
    let Company { protocol, codes } = match company_in_file(alloc, shelf, narration) {
        Ok(company) => company,
        Err(status) => return Err(status),
    };
    let fitted = match values_for(alloc, shelf, values, &protocol) {
        Ok(fitted) => fitted,
        Err(status) => return Err(status),
    };
    match seed_of(protocol.has_fresh(), fitted.seed, host_seed) {
        Ok(seed) => Ok(Staged {
            protocol,
            codes,
            values: fitted.values,
            seed,
        }),
        Err(status) => Err(status),
    }
}

/// The protocol of a narration's file, where all its roles can send.
fn company_in_file<F: Shelf>(
    alloc: Global,
    shelf: &mut F,
    narration: &Text,
) -> Result<Company, Status>
    ensures given { IfOk result (λ c. IfTold (F.files shelf.old) (λ files.
        SendableInFile files narration.now (given c.protocol))) }
    ensures fit { IfOk result (λ c. FitRoles c.protocol c.codes.items) }
    ensures sendable { IfOk result (λ c. IsSendable c.protocol) }
    ensures refused { IfErr result (λ status. IsFailure status
        (λ file. (file ≡ narration.now) × Rose (F.faults shelf.old file) (F.faults shelf.new file))
        (IfTold (F.files shelf.old) (λ files.
        SendableInFile files narration.now (refused status)))) }
    ensures early { IfErr result IsEarly }
    ensures fetches { Fetches (narration.now ∷ [])
        (F.files shelf.old) (F.files shelf.new) (F.faults shelf.old) (F.faults shelf.new) }
    ensures told { TellsFileFaults result (F.faults shelf.old) (F.faults shelf.new) }
{
    let protocol = match protocol_in_file(alloc, shelf, narration) {
        Ok(protocol) => protocol,
        Err(status) => return Err(status),
    };
    match codes_of(alloc, &protocol) {
        Ok(codes) => Ok(Company { protocol, codes }),
        Err(status) => Err(status),
    }
}

/// What a file gives for the names that occur in some role's knowledge.
fn values_for<F: Shelf>(
    alloc: Global,
    shelf: &mut F,
    values: &Text,
    protocol: &Protocol,
) -> Result<Fitted, Status>
    ensures given { IfOk result (λ fitted. IfTold (F.files shelf.old) (λ files.
        ValuesInFile files values.now (known_names protocol.now) (given fitted))) }
    ensures count { IfOk result (λ fitted.
        length fitted.values ≡ length (known_names protocol.now)) }
    ensures bytes { IfOk result (λ fitted. AllByRecursion IsBytes fitted.values) }
    ensures short { IfOk result (λ fitted. All (λ value. length value ≤ ARRIVAL) fitted.values) }
    ensures refused { IfErr result (λ status. IsFailure status
        (λ file. (file ≡ values.now) × Rose (F.faults shelf.old file) (F.faults shelf.new file))
        (IfTold (F.files shelf.old) (λ files.
        ValuesInFile files values.now (known_names protocol.now) (refused status)))) }
    ensures early { IfErr result IsEarly }
    ensures fetches { Fetches (values.now ∷ [])
        (F.files shelf.old) (F.files shelf.new) (F.faults shelf.old) (F.faults shelf.new) }
    ensures told { TellsFileFaults result (F.faults shelf.old) (F.faults shelf.new) }
{
    known_names_differ();
    let _ = protocol.name();
    match protocol.atoms(alloc) {
        Ok(names) => values_in_file(alloc, shelf, values, &names),
        Err(NoMemory) => Err(Status::NoMemory),
    }
}

/// The turns that a file names.
fn schedule_in_file<F: Shelf>(
    alloc: Global,
    shelf: &mut F,
    name: &Text,
    protocol: &Protocol,
) -> Result<Vec<u32>, Status>
    ensures given { IfOk result (λ turns. IfTold (F.files shelf.old) (λ files.
        ScheduleInFile files name.now protocol.now (given turns.items))) }
    ensures roles { IfOk result (λ turns. All (λ role. role < length protocol.now.roles) turns.items) }
    ensures few { IfOk result (λ turns. length turns.items ≤ TURNS) }
    ensures refused { IfErr result (λ status. IsFailure status
        (λ file. (file ≡ name.now) × Rose (F.faults shelf.old file) (F.faults shelf.new file))
        (IfTold (F.files shelf.old) (λ files.
        ScheduleInFile files name.now protocol.now (refused status)))) }
    ensures early { IfErr result IsEarly }
    ensures fetches { Fetches (name.now ∷ [])
        (F.files shelf.old) (F.files shelf.new) (F.faults shelf.old) (F.faults shelf.new) }
    ensures told { TellsFileFaults result (F.faults shelf.old) (F.faults shelf.new) }
{
    match fetch_file(alloc, shelf, name, SCHEDULE_LIMIT) {
        Ok(text) => schedule_of_text(alloc, protocol, text.as_slice()),
        Err(status) => Err(status),
    }
}

/// The turns that the text names.
fn schedule_of_text(alloc: Global, protocol: &Protocol, text: &[u8]) -> Result<Vec<u32>, Status>
    requires { length text.now ≤ SCHEDULE_LIMIT }
    ensures given { IfOk result (λ turns. ScheduleIs protocol.now text.now (given turns.items)) }
    ensures roles { IfOk result (λ turns. All (λ role. role < length protocol.now.roles) turns.items) }
    ensures few { IfOk result (λ turns. length turns.items ≤ TURNS) }
    ensures refused { IfErr result (λ status. IsFailure status (λ file. ⊥)
        (ScheduleIs protocol.now text.now (refused status))) }
    ensures early { IfErr result IsEarly }
{
    match schedule(alloc, protocol, text) {
        Ok(turns) => Ok(turns),
        Err(ScheduleNo::BadTurn(turn)) => Err(Status::BadTurn(turn)),
        Err(ScheduleNo::NoMemory) => Err(Status::NoMemory),
    }
}
