//! One attempt on a program that plays a role of a protocol: its conversation with the partner, who is
//! everybody else, and the verdict on it.
//!
//! A right program is never called wrong: what it said and how it ended is what the role does, for some
//! draws, and then nothing is said against it. And where nothing is said against a program, that was
//! what the role does.
#![tactic(auto)]

mod bytes;
mod laws;
mod seeing;
mod trying;

pub use laws::{
    lax_programs_are_told, right_messages_pass, right_programs_pass,
    right_programs_pass_as_narrated,
};
pub use seeing::seen_of;
pub use trying::{Tried, try_case};
