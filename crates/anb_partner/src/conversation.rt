//! What comes of one conversation with a child.
ghost use Rattle.std.specs.Prelude.{◌≡◌};
ghost use Rattle.anb_partner.specs.declared.conversation.ConverseNo.TheVariants as refusal;

use crate::ChildEnd;
use anb_base::NoMemory;
use anb_transcript::Transcript;
use std::alloc::{AllocError, AllocFailed};

/// How the partner's talk with a child ended.
#[derive(Clone, Copy, Debug, PartialEq, Eq, Drop)]
pub enum TalkEnd {
    /// All that the partner has to say is said, and all that it has to hear came and was right.
    Done,
    /// The last line, a message of the child, isn't what it should be.
    Refused,
    /// A message of the child was due, and its output had ended.
    Missing,
    /// Its output ended within the message's frame. Both numbers count the frame's four bytes of length:
    /// `need` is 4 while these aren't whole.
    Cut { have: u64, need: u64 },
    /// The message has so many bytes, more than an arrival may have.
    Long(u32),
    /// Its output failed where a message was due.
    ReadFault,
    /// Its input failed: a part of the next message may be written.
    WriteFault,
    /// What the child is to hear next has more bytes than an arrival may have. It wasn't said.
    TooLong,
    /// There is no such change of the wrong value, or it makes more bytes of it than an arrival may have.
    /// Nothing was said from there on.
    Unchanged,
}

/// A conversation with one child.
#[derive(Debug, Drop)]
pub struct Conversation {
    /// What the child heard and said, in order: an arrival that was written to it whole, and a message
    /// that came of it whole.
    pub lines: Transcript,
    /// How the talk ended.
    pub end: TalkEnd,
    /// How many whole messages the child said behind the talk: none are read behind a fault of its
    /// output, and `BEHIND` at most.
    pub behind: u32,
    /// Whether bytes came behind these that are no whole frame.
    pub loose: bool,
    /// How the child ended. Where waiting for its end failed, as it was silent for too long, nothing.
    pub child: Option<ChildEnd>,
    /// Whether it was silent for too long at some time.
    pub silent: bool,
}

/// Why there was no conversation.
#[derive(Clone, Copy, Debug, PartialEq, Eq, Drop)]
pub enum ConverseNo {
    /// The child couldn't be started.
    NotStarted,
    NoMemory,
}

impl From<NoMemory> for ConverseNo {
    ghost from_gives = { λ _ refused. refused ≡ refusal.NoMemory };

    fn from(_error: NoMemory) -> Self {
        ConverseNo::NoMemory
    }
}

impl From<AllocError> for ConverseNo {
    ghost from_gives = { λ _ refused. refused ≡ refusal.NoMemory };

    fn from(_error: AllocError) -> Self {
        ConverseNo::NoMemory
    }
}

impl<T: Drop> From<AllocFailed<T>> for ConverseNo {
    ghost from_gives = { λ _ refused. refused ≡ refusal.NoMemory };

    fn from(_failed: AllocFailed<T>) -> Self {
        ConverseNo::NoMemory
    }
}
