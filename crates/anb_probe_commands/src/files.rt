//! What is probed, from the files of its words.
ghost use Rattle.std.specs.Prelude.{◌≡◌, ◌⊎◌, ◌<◌, ◌≤◌, ℕ, List, [], ◌∷◌, length, All, IfOk, IfErr};
ghost use Rattle.anb_base.specs.Moves.{Rose};
ghost use Rattle.anb_base.specs.declared.TheConstants.{ARRIVAL};
ghost use Rattle.anb_compile.specs.Fitting.{FitsRole};
ghost use Rattle.anb_command.specs.Fetches.{Fetches, IfTold, IsOneOf};
ghost use Rattle.anb_command.specs.Files.{ValuesInFile};
ghost use Rattle.anb_command.specs.Reported.{TellsFileFaults};
ghost use Rattle.anb_command.specs.Steps.{IsFailure, refused, given};
ghost use Rattle.anb_protocol.specs.Texts.{known_names};
ghost use Rattle.anb_status.specs.Statuses.{IsEarly};
ghost use Rattle.anb_values_commands.specs.RoleValuesCommand.{OwnIs, RoleValuesText};
ghost use Rattle.anb_probe_commands.specs.Probings.{BeginningsAre, IsReadToProbe, ProbingIs, ProbingOf, Settles, begins, long_label};
ghost use Rattle.anb_probe_commands.specs.Tasks.{AllShort, CanProbe, IsLongOf, fitted_by, part_by, probing_by};

use crate::words::ProbeWords;
use anb_base::{Bytes, NoMemory, Shelf, Text};
use anb_code::RoleCode;
use anb_command::{Playable, Status, playable_in_file, seed_of};
use anb_honest::known_values;
use anb_protocol::{Protocol, protocols_hold};
use anb_values::{Fitted, ValueList};
use anb_values_commands::{first_long, long_value, own_text_of, values_for};
use std::alloc::Global;

/// A role with its code, the values of the names that occur in some role's knowledge, and the seed of
/// the partner's draws.
#[derive(Drop)]
pub(crate) struct Task {
    pub(crate) protocol: Protocol,
    pub(crate) role: u32,
    pub(crate) code: RoleCode,
    pub(crate) values: ValueList,
    pub(crate) seed: [u8; 32],
    /// That of the values file, where it has one.
    pub(crate) file_seed: Option<[u8; 32]>,
}

/// What the words ask to probe.
pub(crate) fn task_in_files<F: Shelf>(
    alloc: Global,
    shelf: &mut F,
    words: ProbeWords,
    host_seed: Option<[u8; 32]>,
) -> Result<Task, Status>
    ensures given { IfOk result (λ t. IfTold (F.files shelf.old) (λ files.
        ProbingIs files words.entry.narration.now words.entry.name.now words.entry.values.now
        host_seed (given (probing_by t.protocol t.role t.values t.seed)))) }
    ensures ready { IfOk result (λ t.
        CanProbe (probing_by t.protocol t.role t.values t.seed) t.code) }
    ensures refused { IfErr result (λ status. IsFailure status
        (λ file. IsOneOf (words.entry.narration.now ∷ words.entry.values.now ∷ []) file
        × Rose (F.faults shelf.old file) (F.faults shelf.new file)
        × IfTold (F.files shelf.old) (λ files.
        IsReadToProbe files words.entry.narration.now words.entry.name.now
        words.entry.values.now file))
        (IfTold (F.files shelf.old) (λ files.
        ProbingIs files words.entry.narration.now words.entry.name.now words.entry.values.now
        host_seed (refused status)))) }
    ensures own { IfOk result (λ t. IfTold (F.files shelf.old) (λ files. (text : List ℕ)
        → OwnIs t.protocol t.role (fitted_by t.values t.file_seed) (given text)
        → RoleValuesText files words.entry.narration.now words.entry.name.now
        words.entry.values.now (given text))) }
    ensures early { IfErr result IsEarly }
    ensures fetches { Fetches (words.entry.narration.now ∷ words.entry.values.now ∷ [])
        (F.files shelf.old) (F.files shelf.new) (F.faults shelf.old) (F.faults shelf.new) }
    ensures told { TellsFileFaults result (F.faults shelf.old) (F.faults shelf.new) }
{
    match playable_in_file(alloc, shelf, words.narration, words.name) {
        Ok(playable) => task_of(alloc, shelf, words.values, playable, host_seed),
        Err(status) => Err(status),
    }
}

/// The same of a role.
fn task_of<F: Shelf>(
    alloc: Global,
    shelf: &mut F,
    values: &Text,
    playable: Playable,
    host_seed: Option<[u8; 32]>,
) -> Result<Task, Status>
    requires role { playable.role < length playable.protocol.roles }
    requires fits { FitsRole playable.protocol playable.role playable.code }
    ensures given { IfOk result (λ t. IfTold (F.files shelf.old) (λ files.
        ProbingOf files values.now host_seed (part_by playable.protocol playable.role)
        (given (probing_by t.protocol t.role t.values t.seed)))) }
    ensures ready { IfOk result (λ t.
        CanProbe (probing_by t.protocol t.role t.values t.seed) t.code) }
    ensures refused { IfErr result (λ status. IsFailure status
        (λ file. (file ≡ values.now) × Rose (F.faults shelf.old file) (F.faults shelf.new file))
        (IfTold (F.files shelf.old) (λ files.
        ProbingOf files values.now host_seed (part_by playable.protocol playable.role)
        (refused status)))) }
    ensures same { IfOk result (λ t.
        part_by t.protocol t.role ≡ part_by playable.protocol playable.role) }
    ensures fitted { IfOk result (λ t. IfTold (F.files shelf.old) (λ files.
        ValuesInFile files values.now (known_names playable.protocol)
        (given (fitted_by t.values t.file_seed)))) }
    ensures early { IfErr result IsEarly }
    ensures fetches { Fetches (values.now ∷ [])
        (F.files shelf.old) (F.files shelf.new) (F.faults shelf.old) (F.faults shelf.new) }
    ensures told { TellsFileFaults result (F.faults shelf.old) (F.faults shelf.new) }
{
    match values_for(alloc, shelf, values, &playable.protocol) {
        Ok(fitted) => settle(alloc, playable, fitted, host_seed),
        Err(status) => Err(status),
    }
}

/// The same of a role with these values.
fn settle(
    alloc: Global,
    playable: Playable,
    fitted: Fitted,
    host_seed: Option<[u8; 32]>,
) -> Result<Task, Status>
    requires role { playable.role < length playable.protocol.roles }
    requires fits { FitsRole playable.protocol playable.role playable.code }
    ensures given { IfOk result (λ t.
        Settles (part_by playable.protocol playable.role) fitted host_seed
        (given (probing_by t.protocol t.role t.values t.seed))) }
    ensures ready { IfOk result (λ t.
        CanProbe (probing_by t.protocol t.role t.values t.seed) t.code) }
    ensures refused { IfErr result (λ status. IsFailure status (λ file. ⊥)
        (Settles (part_by playable.protocol playable.role) fitted host_seed (refused status))) }
    ensures same { IfOk result (λ t.
        part_by t.protocol t.role ≡ part_by playable.protocol playable.role) }
    ensures fitted { IfOk result (λ t. fitted_by t.values t.file_seed ≡ fitted) }
    ensures early { IfErr result IsEarly }
{
    let Playable {
        protocol,
        role,
        code,
    } = playable;
    let seed = match seed_of(protocol.has_fresh(), fitted.seed, host_seed) {
        Ok(seed) => seed,
        Err(status) => return Err(status),
    };
    match check_beginnings(alloc, &protocol, fitted.values.as_slice()) {
        Ok(()) => Ok(Task {
            protocol,
            role,
            code,
            values: fitted.values,
            seed,
            file_seed: fitted.seed,
        }),
        Err(status) => Err(status),
    }
}

/// The values file of the role, as `values` writes it. No value of it is too long for one.
pub(crate) fn values_of(alloc: Global, task: &Task) -> Result<Bytes, NoMemory>
    requires { task.now.role < length task.now.protocol.roles }
    ensures { IfOk result (λ text. OwnIs task.now.protocol task.now.role
        (fitted_by task.now.values task.now.file_seed) (given text)) }
{
    let values = task.values.as_slice();
    match own_text_of(alloc, &task.protocol, task.role, values, task.file_seed) {
        Ok(text) => Ok(text),
        Err(_) => Err(NoMemory),
    }
}

/// Refuses the first value with which some role begins that is longer than an arrival may be.
fn check_beginnings(alloc: Global, protocol: &Protocol, values: &[Bytes]) -> Result<(), Status>
    ensures given { IfOk result (λ u. BeginningsAre protocol.now values.now (given u)) }
    ensures short { IfOk result (λ u. AllShort protocol.now values.now) }
    ensures refused { IfErr result (λ status. IsFailure status (λ file. ⊥)
        (BeginningsAre protocol.now values.now (refused status))) }
    ensures early { IfErr result IsEarly }
{
    protocols_hold();
    let _ = protocol.name();
    for role in 0..protocol.roles().len() as u32 {
        match check_beginning(alloc, protocol, role, values) {
            Ok(()) => {}
            Err(status) => return Err(status),
        }
    }
    Ok(())
}

/// The same of one role.
fn check_beginning(
    alloc: Global,
    protocol: &Protocol,
    role: u32,
    values: &[Bytes],
) -> Result<(), Status>
    requires { role < length protocol.now.roles }
    ensures none { IfOk result (λ u. long_label protocol.now values.now role ≡ None) }
    ensures short { IfOk result (λ u.
        All (λ value. length value ≤ ARRIVAL) (begins protocol.now values.now role)) }
    ensures refused { IfErr result
        (λ status. IsLongOf (long_label protocol.now values.now role) status) }
{
    let labels = match protocol.known(alloc, role) {
        Ok(labels) => labels,
        Err(NoMemory) => return Err(Status::NoMemory),
    };
    let initial = match known_values(alloc, protocol, role, values) {
        Ok(initial) => initial,
        Err(NoMemory) => return Err(Status::NoMemory),
    };
    match first_long(&labels, &initial) {
        Some(label) => Err(long_value(alloc, label)),
        None => Ok(()),
    }
}
