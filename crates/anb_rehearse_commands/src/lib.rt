//! Commands that rehearse: all roles of a narration together, over a schedule or a drill.
#![tactic(auto)]

mod drilling;
mod files;
mod rehearsing;
mod report;

pub use drilling::drill;
pub use rehearsing::rehearse;
