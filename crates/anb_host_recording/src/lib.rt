//! Recordings of hosts: the transcript of each session, written to a file of its own while the host
//! is served.
//!
//! [`record_sessions`] serves what `anb_host` serves, in its one loop, and writes the lines of each
//! event as it is answered. What can't be written never holds the host up.
#![tactic(auto)]

mod laws;
mod lines;
mod recording;

pub use laws::{files_are_of_sessions, lines_are_transcripts};
pub use lines::transcript_of;
pub use recording::{Noted, RecordedHost, RecordingHost, record_sessions};
