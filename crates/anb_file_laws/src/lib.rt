//! What commands do with each other's files: laws that `run` cites.
//!
//! A role file that `compile` wrote, or that `certify` certified, is enacted as its role is played;
//! and no message of a role file is wider than its register says.
#![tactic(auto)]

mod laws;

pub use laws::{certified_files_play, compiled_files_play, enacted_messages_are_narrow};
