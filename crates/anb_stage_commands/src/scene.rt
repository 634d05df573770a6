//! What is asked of the children of a narration's roles, by its files.
ghost use Rattle.std.specs.Prelude.{◌≡◌, ◌≤◌, ◌++◌, [], ◌∷◌, length, Some, IfOk, IfErr, OnOk};
ghost use Rattle.anb_base.specs.Moves.{Rose};
ghost use Rattle.anb_command.specs.Fetches.{Fetches, IfTold, IsOneOf};
ghost use Rattle.anb_command.specs.Reported.{TellsFileFaults};
ghost use Rattle.anb_command.specs.Steps.{IsFailure, given, refused};
ghost use Rattle.anb_status.specs.Statuses.{IsEarly};
ghost use Rattle.anb_stage.specs.Words.{asked_lists};
ghost use Rattle.anb_stage.specs.declared.TheConstants.{ROLES};
ghost use Rattle.anb_stage_commands.specs.Asking.{scene_of, staged};
ghost use Rattle.anb_stage_commands.specs.CastRoles.{CastInFile, IsCast};
ghost use Rattle.anb_stage_commands.specs.Scenes.{AreShort, IsReadForScene, SceneBy, SceneInFiles, words_from};
ghost use Rattle.anb_stage_commands.specs.Words.{asked_for, names_file, own_files, staged_files};

use crate::StageWords;
use crate::casts::absent_role;
use crate::staging::has_few_roles;
use crate::words::{names_file, own_words, words_for};
use anb_base::{Bytes, NoMemory, Shelf, Text};
use anb_command::{Status, codes_of, no_role, protocol_in_file};
use anb_protocol::Protocol;
use anb_stage::ChildWords;
use anb_values::Fitted;
use anb_values_commands::{own_text, values_for};
use std::alloc::Global;

/// A protocol, and what the child of each of its roles is started with.
#[derive(Drop)]
pub(crate) struct Scene {
    pub(crate) protocol: Protocol,
    pub(crate) words: Vec<ChildWords>,
}

/// The scene that the files of a stage tell.
pub(crate) fn scene_in_files<F: Shelf>(
    alloc: Global,
    shelf: &mut F,
    words: StageWords,
) -> Result<Scene, Status>
    ensures given { IfOk result (λ scene. IfTold (F.files shelf.old) (λ files.
        SceneInFiles files (staged words.entry) (given (scene_of words.entry.limit scene)))) }
    ensures counts { IfOk result (λ scene.
        length scene.words.items ≡ length scene.protocol.roles) }
    ensures refused { IfErr result (λ status. IsFailure status
        (λ file. IsOneOf (staged_files (staged words.entry)) file
        × Rose (F.faults shelf.old file) (F.faults shelf.new file)
        × IfTold (F.files shelf.old) (λ files. IsReadForScene files (staged words.entry) file))
        (IfTold (F.files shelf.old) (λ files.
        SceneInFiles files (staged words.entry) (refused status)))) }
    ensures early { IfErr result IsEarly }
    ensures fetches { Fetches (staged_files (staged words.entry))
        (F.files shelf.old) (F.files shelf.new) (F.faults shelf.old) (F.faults shelf.new) }
    ensures told { TellsFileFaults result (F.faults shelf.old) (F.faults shelf.new) }
{
    let protocol = match cast_in_file(alloc, shelf, words) {
        Ok(protocol) => protocol,
        Err(status) => return Err(status),
    };
    match all_words(alloc, shelf, words, &protocol) {
        Ok(all) => Ok(Scene {
            protocol,
            words: all,
        }),
        Err(status) => Err(status),
    }
}

/// What the children of all roles are started with.
fn all_words<F: Shelf>(
    alloc: Global,
    shelf: &mut F,
    words: StageWords,
    protocol: &Protocol,
) -> Result<Vec<ChildWords>, Status>
    ensures given { IfOk result (λ all. IfTold (F.files shelf.old) (λ files.
        SceneBy files (staged words.entry) (names_file words.entry.values.now) protocol.now
        (given (record {
          protocol = protocol.now;
          asked = asked_lists words.entry.limit all.items;
        })))) }
    ensures counts { IfOk result (λ all. length all.items ≡ length protocol.now.roles) }
    ensures refused { IfErr result (λ status. IsFailure status
        (λ file. IsOneOf (own_files (staged words.entry)) file
        × Rose (F.faults shelf.old file) (F.faults shelf.new file))
        (IfTold (F.files shelf.old) (λ files. SceneBy files (staged words.entry)
        (names_file words.entry.values.now) protocol.now (refused status)))) }
    ensures early { IfErr result IsEarly }
    ensures fetches { Fetches (own_files (staged words.entry))
        (F.files shelf.old) (F.files shelf.new) (F.faults shelf.old) (F.faults shelf.new) }
    ensures told { TellsFileFaults result (F.faults shelf.old) (F.faults shelf.new) }
{
    if !names_file(words.values) {
        return match words_for(alloc, words, protocol.roles()) {
            Ok(all) => Ok(all),
            Err(NoMemory) => Err(Status::NoMemory),
        };
    }
    let fitted = match values_for(alloc, shelf, words.values, protocol) {
        Ok(fitted) => fitted,
        Err(status) => return Err(status),
    };
    has_few_roles(protocol);
    all_own_words(alloc, words, protocol, &fitted)
}

/// What they are started with where each has a file of its own, with the role's part of these values.
fn all_own_words(
    alloc: Global,
    words: StageWords,
    protocol: &Protocol,
    fitted: &Fitted,
) -> Result<Vec<ChildWords>, Status>
    requires { length protocol.now.roles ≤ ROLES }
    ensures given { OnOk result (AreShort protocol.now fitted.now (given tt)) }
    ensures words { IfOk result (λ all. asked_lists words.entry.limit all.items
        ≡ words_from protocol.now fitted.now (staged words.entry) 0 protocol.now.roles) }
    ensures refused { IfErr result (λ status. IsFailure status (λ file. ⊥)
        (AreShort protocol.now fitted.now (refused status))) }
    ensures early { IfErr result IsEarly }
{
    let mut all = Vec::new(alloc);
    let roles = protocol.roles();
    for role in 0..roles.len() {
        let text = match own_text(alloc, protocol, role as u32, fitted) {
            Ok(text) => text,
            Err(status) => return Err(status),
        };
        if put_own(alloc, &mut all, words, &roles[role], text).is_err() {
            return Err(Status::NoMemory);
        }
    }
    Ok(all)
}

/// Appends what one role's child is started with, where this is its own file.
fn put_own(
    alloc: Global,
    all: &mut Vec<ChildWords>,
    words: StageWords,
    role: &Text,
    text: Bytes,
) -> Result<(), NoMemory>
    ensures { OnOk result (asked_lists words.entry.limit all.new.items
        ≡ asked_lists words.entry.limit all.old.items
        ++ asked_for (staged words.entry) (Some text) role.now ∷ []) }
{
    all.push(own_words(alloc, words, role, text)?)?;
    Ok(())
}

/// The protocol in the narration's file, where it has each role with a program, and all its roles can
/// send.
fn cast_in_file<F: Shelf>(
    alloc: Global,
    shelf: &mut F,
    words: StageWords,
) -> Result<Protocol, Status>
    ensures given { IfOk result (λ p. IfTold (F.files shelf.old) (λ files.
        CastInFile files (staged words.entry) (given p))) }
    ensures refused { IfErr result (λ status. IsFailure status
        (λ file. (file ≡ words.entry.narration.now)
        × Rose (F.faults shelf.old file) (F.faults shelf.new file))
        (IfTold (F.files shelf.old) (λ files.
        CastInFile files (staged words.entry) (refused status)))) }
    ensures early { IfErr result IsEarly }
    ensures fetches { Fetches (words.entry.narration.now ∷ [])
        (F.files shelf.old) (F.files shelf.new) (F.faults shelf.old) (F.faults shelf.new) }
    ensures told { TellsFileFaults result (F.faults shelf.old) (F.faults shelf.new) }
{
    let protocol = match protocol_in_file(alloc, shelf, words.narration) {
        Ok(protocol) => protocol,
        Err(status) => return Err(status),
    };
    match check_cast(alloc, &protocol, words) {
        Ok(()) => Ok(protocol),
        Err(status) => Err(status),
    }
}

/// Whether a protocol has each role with a program, and all its roles can send.
fn check_cast(alloc: Global, protocol: &Protocol, words: StageWords) -> Result<(), Status>
    ensures given { OnOk result
        (IsCast protocol.now (staged words.entry) (given protocol.now)) }
    ensures refused { IfErr result (λ status. IsFailure status (λ file. ⊥)
        (IsCast protocol.now (staged words.entry) (refused status))) }
    ensures early { IfErr result IsEarly }
{
    if let Some(role) = absent_role(protocol, words.casts) {
        return Err(no_role(alloc, role));
    }
    match codes_of(alloc, protocol) {
        Ok(_) => Ok(()),
        Err(status) => Err(status),
    }
}
