//! The command that plays a role of a branched text.
//!
//! A role is played as `play` plays it, in the arm that is taken: the chooser in the one that the
//! words name, and every other role in the one that it hears. Each arm is compiled once.
#![tactic(auto)]

mod branching;
mod laws;
mod seating;
mod valuing;

pub use branching::{Prepared, branch, branch_over, prepare};
pub use laws::{arms_are_narrations, arms_are_played};
pub use valuing::{Means, texts_known};
