//! The drill: a narration of as many exchanges as wanted, and the turns in which it is played.
//!
//! Two roles send sealed numbers to and fro, each with the hash of the number before it. The key of the
//! first message is sent at the end alone: only then can its receiver open it, and check the hash in
//! the second.
#![tactic(auto)]

mod drill;
mod laws;
mod turns;

pub use drill::generate;
pub use laws::{generated_is_read, turns_alternate};
pub use turns::drill_turns;
