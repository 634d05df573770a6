//! A host that is recorded as it is served.

ghost use Rattle.std.specs.Prelude.{◌≡◌, ◌≢◌, ◌<◌, ◌≤◌, ◌++◌, ℕ, List, Err, IfOk, IsErrOf, OnOk};
ghost use Rattle.std.specs.List.{AllByRecursion, flat_map};
ghost use Rattle.anb_base.specs.Moves.{Rose};
ghost use Rattle.anb_host.specs.declared.event.HostEvent.{HostEvent};
ghost use Rattle.anb_host.specs.declared.serving.HostEnd.TheVariants as ended;
ghost use Rattle.anb_host.specs.HostFrames.{FramesLeft, Tail};
ghost use Rattle.anb_host.specs.Hosts.{StandsFor, plays_of};
ghost use Rattle.anb_host.specs.Serving.{FollowsAfter, Serves};
ghost use Rattle.anb_host_recording.specs.Entries.{line_in, line_out, put_into, transcript_of};
ghost use Rattle.anb_host.specs.Own.{is_start, session_of};
ghost use Rattle.anb_recording.specs.Journals.{OthersStay};
ghost use Rattle.anb_recording.specs.Lines.{IsPlain, lines_text};
ghost use Rattle.anb_host_recording.specs.Keeps.{Keeps, KeepsOne};

use crate::lines::{arrival_line, is_refused, is_start, put_messages, transcript_of};
use anb_base::{Bytes, NoMemory, Text, Wire};
use anb_host::{Host, HostEnd, HostEvent, Notice, Servable, serve};
use anb_recording::Journal;
use anb_store::StoreNo;
use std::alloc::Global;

/// What is missing of a recording.
#[derive(Debug, Drop)]
pub enum Noted {
    /// Nothing.
    Whole,
    /// What came from when this file couldn't be written.
    Unwritten(Text),
    /// What came from when memory was wanting.
    NoMemory,
}

/// How serving ended, and what is missing of the recording.
#[derive(Debug, Drop)]
pub struct RecordedHost {
    pub end: HostEnd,
    pub noted: Noted,
}

/// A host, the folder where its sessions' transcripts go, and what is missing of these. Once a line is
/// missing no more are appended.
pub struct RecordingHost<'h, 'c, 'j, 'f, 'n, J: Journal> {
    pub host: &'h mut Host<'c>,
    pub journal: &'j mut J,
    pub folder: &'f Text,
    pub noted: &'n mut Noted,
}

impl<J: Journal> RecordingHost<'_, '_, '_, '_, '_, J> {
    /// Writes the lines of an event that was answered so, where nothing is missing.
    fn note(
        &mut self,
        alloc: Global,
        session: u32,
        starts: bool,
        line: Result<Bytes, NoMemory>,
        told: &[Notice],
    )
        ensures same_reference { self.new.journal.ghost_name ≡ self.old.journal.ghost_name }
        ensures same_host { self.new.host.now ≡ self.old.host.now }
        ensures same_place { self.new.host.ghost_name ≡ self.old.host.ghost_name }
        ensures same_folder { self.new.folder.now ≡ self.old.folder.now }
        ensures same_noted { self.new.noted.ghost_name ≡ self.old.noted.ghost_name }
        ensures notes { (event : HostEvent) → session_of event ≡ session
            → is_start event ≡ starts
            → IfOk line (λ bytes. bytes ≡ lines_text (line_in event))
            → AllByRecursion IsPlain (line_in event)
            → KeepsOne self.old.folder.now event told.now (J.state self.old.journal.now)
            (J.state self.new.journal.now) self.old.noted.now self.new.noted.now }
    {
        if let Noted::Whole = *self.noted {
            *self.noted = note_event(
                alloc,
                self.journal,
                self.folder,
                session,
                starts,
                line,
                told,
            );
        }
    }
}

/// Writes the lines of an event that was answered so to its session's file, where nothing is
/// missing, and says what is then.
fn note_event<J: Journal>(
    alloc: Global,
    journal: &mut J,
    folder: &Text,
    session: u32,
    starts: bool,
    line: Result<Bytes, NoMemory>,
    told: &[Notice],
) -> Noted
    ensures { (event : HostEvent) → session_of event ≡ session
        → is_start event ≡ starts
        → IfOk line (λ bytes. bytes ≡ lines_text (line_in event))
        → AllByRecursion IsPlain (line_in event)
        → KeepsOne folder.now event told.now (J.state journal.old) (J.state journal.new)
        Noted.Whole result }
{
    if is_refused(told) {
        return Noted::Whole;
    }
    let Ok((name, lines)) = entry(alloc, folder, session, line, told) else {
        return Noted::NoMemory;
    };
    match put(alloc, journal, starts, name.as_str(), &lines) {
        Ok(()) => Noted::Whole,
        Err(StoreNo::Failed) => Noted::Unwritten(name),
        Err(StoreNo::NoMemory) => Noted::NoMemory,
    }
}

/// Puts the lines into the file, which a start makes.
fn put<J: Journal>(
    alloc: Global,
    journal: &mut J,
    starts: bool,
    name: &str,
    lines: &[u8],
) -> Result<(), StoreNo>
    ensures put { OnOk result (J.state journal.new
        ≡ put_into starts (J.state journal.old) name.now lines.now) }
    ensures cause { IsErrOf result StoreNo.Failed
        → Rose (J.state journal.old).faults (J.state journal.new).faults }
    ensures quiet { result ≢ Err StoreNo.Failed
        → (J.state journal.new).faults ≡ (J.state journal.old).faults }
    ensures never_falls { (J.state journal.old).faults ≤ (J.state journal.new).faults }
    ensures others { OthersStay (λ other. other ≡ name.now)
        (J.state journal.old) (J.state journal.new) }
{
    if starts {
        journal.make(alloc, name, lines)
    } else {
        journal.append(alloc, name, lines)
    }
}

/// The file of the session, and the lines that it gets: that of the arrival, and those of the
/// messages.
fn entry(
    alloc: Global,
    folder: &Text,
    session: u32,
    line: Result<Bytes, NoMemory>,
    told: &[Notice],
) -> Result<(Text, Vec<u8>), NoMemory>
    ensures name { IfOk result (λ entry. entry.0 ≡ transcript_of folder.now session) }
    ensures lines { IfOk result (λ entry. (first : List ℕ) → IfOk line (λ bytes. bytes ≡ first)
        → entry.1.items ≡ first ++ lines_text (flat_map line_out told.now)) }
    ensures plain { OnOk result (AllByRecursion IsPlain (flat_map line_out told.now)) }
{
    let line = line?;
    let mut lines = line.into_vec();
    put_messages(alloc, &mut lines, told)?;
    let name = transcript_of(alloc, folder, session)?;
    Ok((name, lines))
}

impl<J: Journal> Servable for RecordingHost<'_, '_, '_, '_, '_, J> {
    ghost use Rattle.std.proofs.Common.{refl, ◌∙◌};
    ghost use Rattle.anb_host_recording.specs.Following.{FollowsOn, follows_further, follows_still};

    ghost host = { λ recording. recording.host.now };

    ghost Follows = { λ x events y. (y.host.ghost_name ≡ x.host.ghost_name)
        × (y.noted.ghost_name ≡ x.noted.ghost_name)
        × FollowsOn x.host.now y.host.now x.journal.ghost_name y.journal.ghost_name
        x.folder.now y.folder.now (J.state x.journal.now) (J.state y.journal.now)
        x.noted.now y.noted.now events };

    ghost stays = { λ x. (
      refl,
      refl,
      follows_still x.host.now x.journal.ghost_name x.folder.now
          (J.state x.journal.now) x.noted.now,
    ) };

    ghost joined = { λ x y z some more one two. (
      two.0 ∙ one.0,
      two.1 ∙ one.1,
      follows_further x.host.now y.host.now z.host.now
          x.journal.ghost_name y.journal.ghost_name z.journal.ghost_name
          x.folder.now y.folder.now z.folder.now
          (J.state x.journal.now) (J.state y.journal.now) (J.state z.journal.now)
          x.noted.now y.noted.now z.noted.now some more one.2 two.2,
    ) };

    fn has_failed(&self) -> bool {
        Servable::has_failed(&*self.host)
    }

    fn fail(&mut self) {
        Servable::fail(&mut *self.host);
    }

    fn event(&mut self, alloc: Global, event: HostEvent) -> Result<Vec<Notice>, NoMemory> {
        let session = event.session();
        let starts = is_start(&event);
        let line = arrival_line(alloc, &event);
        let told = self.host.event(alloc, event)?;
        self.note(alloc, session, starts, line, &told);
        Ok(told)
    }
}

/// Serves the sessions of a host over a wire as `serve` does, and writes the lines of each event to
/// its session's file in the folder of the journal, before any of its messages is sent. A start makes
/// the file, and what comes later is appended.
pub fn record_sessions<W: Wire, J: Journal>(
    alloc: Global,
    host: &mut Host<'_>,
    wire: &mut W,
    journal: &mut J,
    folder: &Text,
    budget: u32,
) -> RecordedHost
    ensures serves { (past events : List HostEvent) (tail : Tail)
        → StandsFor host.old past → FramesLeft (W.left wire.old) events tail
        → Serves (plays_of host.old) past events tail budget
        (W.state wire.old) (W.state wire.new) result.end }

    // What the events whose frames were taken whole were answered is recorded.
    ensures recorded { (past : List HostEvent) → StandsFor host.old past
        → result.end ≢ ended.NoMemory
        → FollowsAfter host.old budget (W.state wire.old) (W.state wire.new)
        (λ some. Keeps (plays_of host.old) folder.now past some
        (J.state journal.old) (J.state journal.new) Noted.Whole result.noted) }

    // A fault of the wire is answered where its count rose, and nowhere else.
    ensures read_fault { result.end ≡ ended.ReadFault
        → Rose (W.Source.faults wire.old) (W.Source.faults wire.new) }
    ensures write_fault { result.end ≡ ended.WriteFault
        → Rose (W.Sink.faults wire.old) (W.Sink.faults wire.new) }
    ensures read_told { W.Source.faults wire.old < W.Source.faults wire.new
        → result.end ≡ ended.ReadFault }
    ensures write_told { W.Sink.faults wire.old < W.Sink.faults wire.new
        → result.end ≡ ended.WriteFault }
    ensures reading_never_falls { W.Source.faults wire.old ≤ W.Source.faults wire.new }
    ensures writing_never_falls { W.Sink.faults wire.old ≤ W.Sink.faults wire.new }

    // No place is reached.
    ensures reached { W.reached wire.new ≡ W.reached wire.old }
    ensures reach_faults { W.reach_faults wire.new ≡ W.reach_faults wire.old }
{
    let mut noted = Noted::Whole;
    let mut recording = RecordingHost {
        host,
        journal,
        folder,
        noted: &mut noted,
    };
    let end = serve(alloc, &mut recording, wire, budget);
    let RecordingHost {
        host: _,
        journal: _,
        folder: _,
        noted: _,
    } = recording;
    RecordedHost { end, noted }
}
