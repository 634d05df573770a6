//! The command that tells what a role does over the arrivals of a transcript.
#![tactic(auto)]

mod files;
mod traced;

pub use traced::trace;
