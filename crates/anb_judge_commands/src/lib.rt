//! The command that judges a transcript of a role, whatever the role drew.
#![tactic(auto)]

mod files;
mod judging;

pub use judging::judge;
