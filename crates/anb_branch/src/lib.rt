//! Texts with a choice at their end: their arms, as anb_choice splits them, compiled and played.
#![tactic(auto)]

mod compiling;
mod laws;
mod playing;
mod recording;
mod signs;
mod stem;

pub use anb_choice::{BranchNo, Branched, split};
pub use compiling::{ArmNo, compile_arms};
pub use laws::{arms_know_alike, arms_play_alike, fitting_arms_play};
pub use playing::branch_play;
pub use recording::branch_record;
