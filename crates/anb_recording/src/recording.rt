//! A play that is recorded as it goes on.

ghost use Rattle.std.specs.Prelude.{◌≡◌, ◌≢◌, ℕ, List, [], ◌∷◌};
ghost use Rattle.anb_base.specs.Bytes.{IsBytes};
ghost use Rattle.anb_base.specs.declared.TheConstants.{ARRIVAL};
ghost use Rattle.anb_frame.specs.Cuts.{CutLeft, Tail};
ghost use Rattle.anb_machine.specs.Machines.{gives};
ghost use Rattle.anb_session.specs.Faults.{TellsEnd};
ghost use Rattle.anb_session.specs.Sessions.{IsPrompt, Runs};
ghost use Rattle.anb_session.specs.declared.PlayEnd.TheVariants as ended;
ghost use Rattle.anb_transcript.specs.declared.transcript.TranscriptLine.{TranscriptLine};
ghost use Rattle.anb_transcript.specs.declared.transcript.TranscriptLine.TheVariants.{In, Out};
ghost use Rattle.anb_recording.specs.Lines.{line_text, spelled};
ghost use Rattle.anb_recording.specs.Recordings.{IsRecorded, Records};

use crate::Journal;
use crate::lines::line_of;
use anb_base::{Bytes, NoMemory, Text, Wire};
use anb_machine::Turn;
use anb_session::{PlayEnd, Playable, play_all};
use anb_store::StoreNo;
use std::alloc::Global;

/// What is missing of a recording.
#[derive(Clone, Copy, Debug, PartialEq, Eq, Drop)]
pub enum Kept {
    /// Nothing.
    Whole,
    /// What came from when the store failed.
    Unwritten,
    /// What came from when memory was wanting.
    NoMemory,
}

/// How a play ended, and what is missing of its recording.
#[derive(Clone, Copy, Debug, Drop)]
pub struct Recorded {
    pub end: PlayEnd,
    pub kept: Kept,
}

/// What is played, and where its transcript goes. Once a line is missing no more are appended.
pub struct Recording<'p, 'j, 'f, P: Playable, J: Journal> {
    pub alloc: Global,
    pub played: &'p mut P,
    pub journal: &'j mut J,
    pub file: &'f Text,
    pub kept: Kept,
}

impl<P: Playable, J: Journal> Recording<'_, '_, '_, P, J> {
    /// Appends the line of these bytes, where none is missing.
    fn note(&mut self, sign: u8, bytes: &[u8])
        ensures same_reference { self.new.journal.ghost_name ≡ self.old.journal.ghost_name }
        ensures same_played { self.new.played.now ≡ self.old.played.now }
        ensures same_place { self.new.played.ghost_name ≡ self.old.played.ghost_name }
        ensures same_file { self.new.file.now ≡ self.old.file.now }
        ensures bytes { IsBytes bytes.now }
        ensures notes { (line : TranscriptLine) → line_text line ≡ spelled sign bytes.now
            → Records self.old.file.now (J.state self.old.journal.now)
            (J.state self.new.journal.now) self.old.kept self.new.kept (line ∷ []) }
    {
        if let Kept::Whole = self.kept {
            self.kept = append_line(self.alloc, self.journal, self.file, sign, bytes);
        }
    }
}

/// Appends the line of these bytes to the file, and says what is missing.
fn append_line<J: Journal>(
    alloc: Global,
    journal: &mut J,
    file: &Text,
    sign: u8,
    bytes: &[u8],
) -> Kept
    ensures { (line : TranscriptLine) → line_text line ≡ spelled sign bytes.now
        → Records file.now (J.state journal.old) (J.state journal.new) Kept.Whole result
        (line ∷ []) }
{
    let Ok(line) = line_of(alloc, sign, bytes) else {
        return Kept::NoMemory;
    };
    match journal.append(alloc, file.as_str(), line.as_slice()) {
        Ok(()) => Kept::Whole,
        Err(StoreNo::Failed) => Kept::Unwritten,
        Err(StoreNo::NoMemory) => Kept::NoMemory,
    }
}

impl<P: Playable, J: Journal> Playable for Recording<'_, '_, '_, P, J> {
    ghost use Rattle.anb_recording.specs.Joining.{FollowsOn, follows_further, follows_still, still_there, there_further};

    ghost machine = { λ recording. P.machine recording.played.now };

    ghost Follows = { λ x used y. FollowsOn
        ((y.played.ghost_name ≡ x.played.ghost_name) × P.Follows x.played.now used y.played.now)
        (gives (P.machine x.played.now)) (gives (P.machine y.played.now))
        x.journal.ghost_name y.journal.ghost_name x.file.now y.file.now
        (J.state x.journal.now) (J.state y.journal.now) x.kept y.kept used };

    ghost stays = { λ x. follows_still (still_there (P.stays x.played.now) x.played.ghost_name) (gives (P.machine x.played.now))
        x.journal.ghost_name x.file.now (J.state x.journal.now) x.kept };

    ghost joined = { λ x y z some more one two.
        follows_further (there_further (P.joined x.played.now y.played.now z.played.now some more)
        x.played.ghost_name y.played.ghost_name z.played.ghost_name)
        (gives (P.machine x.played.now)) (gives (P.machine y.played.now)) (gives (P.machine z.played.now))
        x.journal.ghost_name y.journal.ghost_name z.journal.ghost_name
        x.file.now y.file.now z.file.now
        (J.state x.journal.now) (J.state y.journal.now) (J.state z.journal.now)
        x.kept y.kept z.kept some more one two };

    fn advance(&mut self, alloc: Global) -> Turn {
        match self.played.advance(alloc) {
            Turn::Message(message) => {
                self.note(b'>', message.as_slice());
                Turn::Message(message)
            }
            turn => turn,
        }
    }

    fn arrive(&mut self, bytes: Bytes) -> Result<(), NoMemory> {
        self.note(b'<', bytes.as_slice());
        self.played.arrive(bytes)
    }
}

/// Plays over a wire as `play_all` does, and appends the line of each message and of each arrival to
/// the file of the journal. A message's line comes just before
/// the message is sent, and an arrival's just before it is used.
pub fn record_play<P: Playable + Drop, W: Wire, J: Journal>(
    alloc: Global,
    played: &mut P,
    wire: &mut W,
    journal: &mut J,
    file: &Text,
) -> Recorded
    ensures runs { (arrivals : List (List ℕ)) (tail : Tail)
        → CutLeft ARRIVAL (W.left wire.old) arrivals tail
        → Runs (gives (P.machine played.old)) arrivals tail (W.left wire.old) (W.left wire.new)
        (W.written wire.old) (W.written wire.new) result.end }
    ensures prompt { IsPrompt (gives (P.machine played.old)) (W.state wire.old) (W.state wire.new) }
    ensures faults { TellsEnd (W.state wire.old) (W.state wire.new) result.end }
    ensures recorded { result.end ≢ ended.NoMemory
        → IsRecorded (gives (P.machine played.old)) file.now (J.state journal.old)
        (J.state journal.new) result.kept (W.state wire.old).left result.end }
{
    let mut recording = Recording {
        alloc,
        played,
        journal,
        file,
        kept: Kept::Whole,
    };
    let end = play_all(alloc, &mut recording, wire);
    let Recording {
        alloc: _,
        played: _,
        journal: _,
        file: _,
        kept,
    } = recording;
    Recorded { end, kept }
}
