//! Commands of many sessions, or of many roles.
#![tactic(auto)]

mod hosting;

pub use hosting::{FRAMES, host, serve_over, status_of};
