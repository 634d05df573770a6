//! Commands whose play is recorded in a folder: `play`, `enact`, `branch` and `host` with `--record`.
//!
//! The folder gets the values that were used, with the seed in force, and the transcript of the play,
//! or of each session, line by line as it goes on. Over the wire the play is what it is without the
//! words.
#![tactic(auto)]

mod branching;
mod enacting;
mod hosting;
mod laws;
mod names;
mod opening;
mod over;
mod playing;
mod serving;
mod words;

pub use branching::branch_into;
pub use enacting::enact_into;
pub use hosting::host_into;
pub use laws::{recorded_arms_replay, recorded_plays_replay, recorded_sessions_replay};
pub use playing::play_into;
pub use words::RecordingWords;
