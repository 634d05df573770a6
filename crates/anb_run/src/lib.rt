//! The top call: all that the program does.
//!
//! [`run`] reads the words, does what they ask for over a shelf of files and a wire, and tells on an
//! error sink why it didn't. What it does and when it completes are relations by what is asked for,
//! with a case for each command; the other clauses hold of every command. [`run_all`] does the same
//! where child programs may be started, for the one command that does so, [`run_with_store`] where
//! records may go to files, [`run_recording`] where plays may be recorded, [`run_with_program`] where a
//! program may be tested, [`run_in_session`] where the session of a transcript may be said too, and
//! [`run_staging`] where a stage may be recorded.
#![tactic(auto)]

ghost use Rattle.std.specs.Prelude.{◌≡◌, ◌↔◌, None};
ghost use Rattle.anb_command.specs.Causes.{HasCause, NoneRose};
ghost use Rattle.anb_command.specs.Fetches.{Fetches};
ghost use Rattle.anb_status.specs.Lines.{Tells};
ghost use Rattle.anb_command.specs.Phases.{phase_in};
ghost use Rattle.anb_command.specs.Reaches.{Reaches};
ghost use Rattle.anb_command.specs.Reported.{TellsFaults};
ghost use Rattle.anb_status.specs.Statuses.{line_of};
ghost use Rattle.anb_command.specs.Touches.{Touches};
ghost use Rattle.anb_words.specs.Words.{asked_of, files_of, is_reading, place_of};
ghost use Rattle.anb_status.specs.declared.status.Status.TheVariants.{Usage};
ghost use Rattle.anb_branch_commands.specs.Laws.{ArmsArePlayed};
ghost use Rattle.anb_run.specs.Commands.{Completes, Does};
ghost use Rattle.anb_file_laws.specs.Certified.{CertifiedFilesPlay};
ghost use Rattle.anb_file_laws.specs.Compiled.{CompiledFilesPlay};
ghost use Rattle.anb_file_laws.specs.Narrow.{EnactedMessagesAreNarrow};
ghost use Rattle.anb_park_commands.specs.Splits.{SplitPlaysAreWhole};

mod all;
mod programs;
mod recording;
mod sessions;
mod staging;
mod storing;

pub use all::run_all;
use anb_base::{Shelf, Sink, Text, Wire};
use anb_branch_commands::{arms_are_played, branch};
use anb_certify_commands::{certify, why};
use anb_chart_commands::{chart, chart_for};
use anb_check_commands::{check, check_values};
use anb_command::{Command, tell};
pub use anb_command::{Due, Halt, NarrationNo, Status};
use anb_file_laws::{certified_files_play, compiled_files_play, enacted_messages_are_narrow};
use anb_host_commands::host;
use anb_judge_commands::judge;
use anb_park_commands::{park, resume, split_plays_are_whole};
use anb_rehearse_commands::{drill, rehearse};
use anb_role_commands::{enact, play, replay};
use anb_text_commands::{describe, fmt, help, page};
use anb_trace_commands::trace;
use anb_values_commands::{role_values, values};
pub use programs::run_with_program;
pub use recording::run_recording;
pub use sessions::run_in_session;
pub use staging::run_staging;
use std::alloc::Global;
pub use storing::run_with_store;

/// Does what the words ask for. The words are those after the program's name. The files are fetched
/// from the shelf, what a role sends and receives goes over the wire, and the line of a status other
/// than Done goes to the error sink, whose faults don't change the status. The seed is for fresh
/// names; `None` where the machine has drawn none.
pub fn run<F: Shelf, W: Wire, E: Sink>(
    alloc: Global,
    words: &[Text],
    shelf: &mut F,
    wire: &mut W,
    err: &mut E,
    seed: Option<[u8; 32]>,
) -> Status
    ensures does { Does (asked_of words.now) (F.files shelf.old) seed
        (W.state wire.old) (W.state wire.new) result }
    ensures completes { NoneRose (files_of (asked_of words.now))
        (F.faults shelf.old) (F.faults shelf.new) (W.state wire.old) (W.state wire.new)
        → Completes (asked_of words.now) (F.files shelf.old) seed
        (W.state wire.old) (W.state wire.new) result }
    ensures compiled { CompiledFilesPlay }
    ensures certified { CertifiedFilesPlay }
    ensures split { SplitPlaysAreWhole }
    ensures arms { ArmsArePlayed }
    ensures narrow { EnactedMessagesAreNarrow }
    ensures usage { (result ≡ Usage) ↔ (asked_of words.now ≡ None) }
    ensures faults { HasCause (files_of (asked_of words.now)) (place_of (asked_of words.now))
        (F.faults shelf.old) (F.faults shelf.new) (W.state wire.old) (W.state wire.new) result }
    ensures reported { TellsFaults (F.faults shelf.old) (F.faults shelf.new)
        (W.state wire.old) (W.state wire.new) result }

    // What else is touched, and what is told.
    ensures fetches { Fetches (files_of (asked_of words.now))
        (F.files shelf.old) (F.files shelf.new) (F.faults shelf.old) (F.faults shelf.new) }
    ensures reached { Reaches (place_of (asked_of words.now)) (phase_in (asked_of words.now) result)
        (W.state wire.old).reached (W.state wire.new).reached }
    ensures touches { Touches (is_reading (asked_of words.now)) (phase_in (asked_of words.now) result)
        (W.state wire.old) (W.state wire.new) }
    ensures line { Tells (line_of result)
        (E.written err.old) (E.written err.new) (E.faults err.old) (E.faults err.new) }
    ensures beside_line { E.kept err.new ≡ E.kept err.old }
{
    compiled_files_play();
    certified_files_play();
    split_plays_are_whole();
    arms_are_played();
    enacted_messages_are_narrow();
    let status = match Command::read(words) {
        None => Status::Usage,
        Some(Command::Fmt { narration }) => fmt(alloc, shelf, wire, narration),
        Some(
            Command::Describe {
                kind,
                narration,
                role,
            },
        ) => describe(alloc, shelf, wire, kind, narration, role),
        Some(Command::Play(words)) => play(alloc, shelf, wire, words, seed),
        Some(Command::Enact(words)) => enact(alloc, shelf, wire, words, seed),
        Some(Command::Replay(words)) => replay(alloc, shelf, wire, words, 0, seed),
        Some(Command::Host(words)) => host(alloc, shelf, wire, words, seed),
        Some(Command::Rehearse(words)) => rehearse(alloc, shelf, wire, words, seed),
        Some(Command::Drill(exchanges)) => drill(alloc, wire, exchanges),
        Some(Command::Help) => help(wire),
        Some(Command::Page(about)) => page(wire, about),
        Some(Command::Branch(words)) => branch(alloc, shelf, wire, words, seed),
        Some(Command::Certify(words)) => certify(alloc, shelf, wire, words),
        Some(Command::Why { narration }) => why(alloc, shelf, wire, narration),
        Some(Command::Park(words)) => park(alloc, shelf, wire, words, seed),
        Some(Command::Resume(words)) => resume(alloc, shelf, wire, words),
        Some(Command::Chart { narration }) => chart(alloc, shelf, wire, narration),
        Some(Command::RoleChart { narration, role }) => {
            chart_for(alloc, shelf, wire, narration, role)
        }
        Some(Command::Trace(words)) => trace(alloc, shelf, wire, words, 0, seed),
        Some(Command::Check { narration }) => check(alloc, shelf, wire, narration),
        Some(
            Command::CheckValues {
                narration,
                role,
                values,
            },
        ) => check_values(alloc, shelf, wire, narration, role, values),
        Some(Command::Values { narration }) => values(alloc, shelf, wire, narration, seed),
        Some(
            Command::RoleValues {
                narration,
                role,
                values,
            },
        ) => role_values(alloc, shelf, wire, narration, role, values),
        Some(Command::Judge(words)) => judge(alloc, shelf, wire, words),
    };
    tell(err, &status);
    status
}
