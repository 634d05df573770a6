//! What a role takes, in words: its patterns, and what their variables stand for.
//!
//! A pattern is a term over the names of a narration and over variables, which are atoms above the
//! names. A text has `?1`, `?2`, .. for them. Whose patterns these are is no matter of this crate: it
//! writes what it is given. Time and memory are linear in the nodes of the patterns and of the terms.
#![tactic(auto)]

mod counts;
mod notes;
mod places;
mod taken;
mod texts;

pub use counts::counts_of;
pub use notes::Notes;
pub use taken::{Taken, taken_of};
