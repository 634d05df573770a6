//! Transcripts: what a role heard and sent, a line for each, and whether that is what its code does.
//!
//! A line is `<` for an arrival or `>` for a message, one space, and the bytes in hexadecimal.
#![tactic(auto)]

ghost use Rattle.anb_transcript.specs.Replays.{ReplaysOne};
ghost use Rattle.anb_transcript.specs.Texts.{ReadsOne};

mod following;
mod reading;
mod transcript;

pub use following::{Due, ReplayEnd, replay};
pub use reading::read_transcript;
pub use transcript::{Transcript, TranscriptLine, TranscriptNo};

/// Law: each text is a transcript of some lines or has a first line outside the grammar, and not
/// both.
pub fn one_reading()
    ensures { ReadsOne }
{}

/// Law: over each run exactly one end comes of a transcript.
pub fn one_replay()
    ensures { ReplaysOne }
{}
