//! Transcripts as lists of lines, and why a text is none.
ghost use Rattle.std.specs.Prelude.{◌≡◌};
ghost use Rattle.anb_transcript.specs.declared.transcript.TranscriptNo.TheVariants as refusal;

use anb_base::{Bytes, NoMemory};
use std::alloc::{AllocError, AllocFailed};
use std::marker::Model;

/// What came in, or what the role sent.
#[derive(Debug, Drop)]
pub enum TranscriptLine {
    In(Bytes),
    Out(Bytes),
}

/// Arrivals and messages in their order, which contracts see as a list.
#[derive(Debug, Drop)]
pub struct Transcript {
    lines: Vec<TranscriptLine>,
}

impl Model for Transcript {
    ghost use Rattle.std.specs.Prelude.{List};
    ghost use Rattle.anb_transcript.specs.declared.transcript.TranscriptLine.{TranscriptLine};

    ghost Value = { List TranscriptLine };

    ghost view = { λ t. t.lines.items };
}

impl Transcript {
    pub fn new(lines: Vec<TranscriptLine>) -> Self
        ensures { result ≡ lines.items }
    {
        Transcript { lines }
    }

    pub fn lines(&self) -> &[TranscriptLine]
        ensures { result.now ≡ self.now }
    {
        self.lines.as_slice()
    }

    pub fn into_lines(self) -> Vec<TranscriptLine>
        ensures { result.items ≡ self }
    {
        let Transcript { lines } = self;
        lines
    }
}

/// Why a text is no transcript.
#[derive(Clone, Copy, Debug, PartialEq, Eq, Drop)]
pub enum TranscriptNo {
    /// This line isn't in the grammar, the first such, numbered from 1.
    Line(u32),
    NoMemory,
}

impl From<NoMemory> for TranscriptNo {
    ghost from_gives = { λ _ refused. refused ≡ refusal.NoMemory };

    fn from(_error: NoMemory) -> Self {
        TranscriptNo::NoMemory
    }
}

impl From<AllocError> for TranscriptNo {
    ghost from_gives = { λ _ refused. refused ≡ refusal.NoMemory };

    fn from(_error: AllocError) -> Self {
        TranscriptNo::NoMemory
    }
}

impl<T: Drop> From<AllocFailed<T>> for TranscriptNo {
    ghost from_gives = { λ _ refused. refused ≡ refusal.NoMemory };

    fn from(_failed: AllocFailed<T>) -> Self {
        TranscriptNo::NoMemory
    }
}
