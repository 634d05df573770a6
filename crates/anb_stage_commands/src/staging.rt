//! The relay of a narration's file among child programs.
ghost use Rattle.std.specs.Prelude.{◌≡◌, ◌≢◌, ◌⊎◌, ◌<◌, ◌≤◌, ℕ, List, [], ◌∷◌, length, get_or, Some, IfOk, IfErr, false};
ghost use Rattle.anb_base.specs.Moves.{Rose};
ghost use Rattle.anb_base.specs.declared.place.Place.TheVariants as place;
ghost use Rattle.anb_protocol.specs.Protocols.{ProtocolValue};
ghost use Rattle.anb_stage.specs.declared.TheConstants.{ROLES};
ghost use Rattle.anb_command.specs.Causes.{NoneRose};
ghost use Rattle.anb_command.specs.Fetches.{Fetches, IfTold};
ghost use Rattle.anb_command.specs.Reaches.{Reaches};
ghost use Rattle.anb_command.specs.Reported.{TellsFaults, TellsFileFaults};
ghost use Rattle.anb_status.specs.Statuses.{phase_of};
ghost use Rattle.anb_command.specs.Touches.{Touches};
ghost use Rattle.anb_base.specs.declared.content.Sent.{Sent};
ghost use Rattle.anb_stage.specs.Notes.{Note, notes_of};
ghost use Rattle.anb_stage.specs.Relays.{ends_in};
ghost use Rattle.anb_stage_commands.specs.Asking.{scene_of, staged};
ghost use Rattle.anb_stage_commands.specs.Records.{AreAll, AreSoFar};
ghost use Rattle.anb_stage_commands.specs.Reports.{report_text};
ghost use Rattle.anb_stage_commands.specs.Words.{staged_files};
ghost use Rattle.anb_stage_commands.specs.StageCommand.{CompletesStage, DoesStage, HasStageCause, NoChildRose};
ghost use Rattle.anb_stage_commands.specs.StageCommand.{fault_status, status_after};
ghost use Rattle.anb_stage_commands.specs.Relaying.{FailsInFile, FailsRelaying, HasCauseBefore, HasChildCause, IsBefore, IsNamed, Relays, RelaysInFile};
ghost use Rattle.anb_status.specs.declared.status.Status.TheVariants as status;

use crate::StageWords;
use crate::report::report_text;
use crate::scene::{Scene, scene_in_files};
use anb_base::{NoMemory, Shelf, Text, Wire};
use anb_command::{Status, write_text};
use anb_protocol::{Protocol, protocols_hold};
use anb_read::{narrations_are_unique, none_is_both, refusals_are_unique};
use anb_stage::{Log, NoLog, RelayNo, Spawner, relay_telling, relays_are_due};
use anb_values::one_fit;
use std::alloc::Global;

/// Relays among the children of all roles of the narration in a file, and writes the report to the
/// standard streams.
pub fn stage<F: Shelf, P: Spawner, W: Wire>(
    alloc: Global,
    shelf: &mut F,
    spawner: &mut P,
    wire: &mut W,
    words: StageWords,
) -> Status
    requires new { (role : ℕ) → role < ROLES → (P.child spawner.old role).phase ≡ 0 }
    ensures does { DoesStage (staged words.entry) (P.child spawner.old) (P.child spawner.new)
        (W.state wire.old).written (W.state wire.new).written (F.files shelf.old) result }
    ensures completes { NoneRose (staged_files (staged words.entry))
        (F.faults shelf.old) (F.faults shelf.new) (W.state wire.old) (W.state wire.new)
        → NoChildRose (P.child spawner.old) (P.child spawner.new)
        → CompletesStage (staged words.entry) (P.child spawner.old) (F.files shelf.old) result }
    ensures faults { HasStageCause words.entry.limit (staged_files (staged words.entry))
        (F.faults shelf.old) (F.faults shelf.new) (P.child spawner.old) (P.child spawner.new)
        (W.state wire.old) (W.state wire.new) result }
    ensures reported { TellsFaults (F.faults shelf.old) (F.faults shelf.new)
        (W.state wire.old) (W.state wire.new) result }
    ensures fetches { Fetches (staged_files (staged words.entry))
        (F.files shelf.old) (F.files shelf.new) (F.faults shelf.old) (F.faults shelf.new) }
    ensures reached { Reaches (Some place.Stdio) (phase_of result)
        (W.state wire.old).reached (W.state wire.new).reached }
    ensures touches { Touches false (phase_of result) (W.state wire.old) (W.state wire.new) }
{
    narrations_are_unique();
    refusals_are_unique();
    none_is_both();
    one_fit();
    relays_are_due();
    match relayed_in_file(alloc, shelf, spawner, words) {
        Ok(text) => write_text(wire, &text),
        Err(status) => status,
    }
}

/// Relays among the children of all roles of the narration in a file, and gives the report.
fn relayed_in_file<F: Shelf, P: Spawner>(
    alloc: Global,
    shelf: &mut F,
    spawner: &mut P,
    words: StageWords,
) -> Result<Vec<u8>, Status>
    requires new { (role : ℕ) → role < ROLES → (P.child spawner.old role).phase ≡ 0 }
    ensures relayed { IfOk result (λ text. RelaysInFile (staged words.entry)
        (P.child spawner.old) (P.child spawner.new) (F.files shelf.old) text.items) }
    ensures failed { IfErr result (FailsInFile (staged words.entry)
        (P.child spawner.old) (P.child spawner.new) (F.files shelf.old)) }
    ensures before { IfErr result IsBefore }
    ensures cause { IfErr result (HasCauseBefore (staged words.entry)
        (P.child spawner.old) (P.child spawner.new) (F.faults shelf.old) (F.faults shelf.new)) }
    ensures fetches { Fetches (staged_files (staged words.entry))
        (F.files shelf.old) (F.files shelf.new) (F.faults shelf.old) (F.faults shelf.new) }
    ensures told { TellsFileFaults result (F.faults shelf.old) (F.faults shelf.new) }
{
    match scene_in_files(alloc, shelf, words) {
        Ok(scene) => relayed(alloc, spawner, &mut NoLog, &scene, words),
        Err(status) => Err(status),
    }
}

/// Relays among the children of all roles of a scene, tells a log of each message, and gives the report. The
/// names of roles are copied before the first child is started, so a fault is told whatever memory there is.
pub(crate) fn relayed<P: Spawner, L: Log>(
    alloc: Global,
    spawner: &mut P,
    log: &mut L,
    scene: &Scene,
    words: StageWords,
) -> Result<Vec<u8>, Status>
    requires new { (role : ℕ) → role < ROLES → (P.child spawner.old role).phase ≡ 0 }
    requires counts { length scene.now.words.items ≡ length scene.now.protocol.roles }
    ensures relayed { IfOk result (λ text. Relays (staged words.entry)
        (P.child spawner.old) (P.child spawner.new)
        (scene_of words.entry.limit scene.now) text.items) }
    ensures failed { IfErr result (FailsRelaying (staged words.entry)
        (P.child spawner.old) (P.child spawner.new) (scene_of words.entry.limit scene.now)) }
    ensures before { IfErr result IsBefore }
    ensures cause { IfErr result
        (HasChildCause words.entry.limit (P.child spawner.old) (P.child spawner.new)) }
    ensures told { IfOk result (λ text. (sent : List Sent)
        × (text.items ≡ report_text sent)
        × AreAll (scene_of words.entry.limit scene.now) (P.child spawner.old) sent
        × L.After log.old (notes_of (ends_in scene.now.protocol) sent) log.new) }
    ensures told_so_far { IfErr result (λ end. (told : List Note)
        × L.After log.old told log.new
        × (end ≢ status.NoMemory → AreSoFar words.entry.limit
        (scene_of words.entry.limit scene.now) (P.child spawner.old) (P.child spawner.new)
        told end)) }
{
    let protocol = &scene.protocol;
    has_few_roles(protocol);
    let Ok(names) = copied(alloc, protocol.roles()) else {
        return Err(Status::NoMemory);
    };
    let sent = match relay_telling(alloc, protocol, &scene.words, words.limit, spawner, log) {
        Ok(sent) => sent,
        Err(no) => return Err(refusal(names, words.limit, spawner, no)),
    };
    match report_text(alloc, &sent) {
        Ok(text) => Ok(text),
        Err(NoMemory) => Err(Status::NoMemory),
    }
}

/// A law: a protocol has at most so many roles.
pub(crate) fn has_few_roles(protocol: &Protocol)
    ensures { length protocol.now.roles ≤ ROLES }
{
    protocols_hold();
    let _ = protocol.name();
}

/// Copies of these names.
fn copied(alloc: Global, names: &[Text]) -> Result<Vec<Text>, NoMemory>
    ensures { IfOk result (λ copies. copies.items ≡ names.now) }
{
    let mut copies = Vec::new(alloc);
    for name in names {
        copies.push(name.copy(alloc)?)?;
    }
    Ok(copies)
}

/// The status of a relay that was refused, where the roles have these names.
fn refusal<P: Spawner>(mut names: Vec<Text>, limit: Option<u32>, spawner: &P, no: RelayNo) -> Status
    requires few { length names.items ≤ ROLES }
    requires named { IsNamed (length names.items) no }
    ensures { (p : ProtocolValue) → names.items ≡ p.roles
        → result ≡ status_after limit (P.child spawner.now) p no }
{
    match no {
        RelayNo::Fault(role) => {
            let name = names.swap_remove(role as usize);
            child_fault(name, limit, spawner.was_silent(role))
        }
        RelayNo::Ended(action) => Status::ChildEnded(action),
        RelayNo::Cut { action, have, need } => Status::ChildCut { action, have, need },
        RelayNo::Long { action, len } => Status::ChildLong { action, len },
        RelayNo::Bad { role, status } => Status::ChildBad {
            role: names.swap_remove(role as usize),
            status,
        },
        RelayNo::NoMemory => Status::NoMemory,
    }
}

/// The status of a call for this role's child that failed, by silence or not.
fn child_fault(role: Text, limit: Option<u32>, silent: bool) -> Status
    ensures { result ≡ fault_status role limit silent }
{
    match limit {
        Some(seconds) if silent => Status::ChildSilent { role, seconds },
        _ => Status::ChildFault(role),
    }
}
