//! Recordings of plays: the transcript of a play, written to a file of a store while it goes on.
//!
//! [`record_play`] plays over a wire what `anb_session` plays, in its one loop, and appends a line for
//! each message and each arrival as they come. What can't be appended never holds the play up.
#![tactic(auto)]

mod journal;
mod laws;
mod lines;
mod memory;
mod recording;

pub use journal::{BeginNo, Journal};
pub use laws::written_lines_are_read;
pub use lines::line_of;
pub use recording::{Kept, Recorded, Recording, record_play};
