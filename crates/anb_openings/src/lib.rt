//! Cases of openings: what arrives so that one instruction of a role finds bytes that it can't open.
//!
//! An opening parses, unseals or unwraps a register. In its case a spare name stands in place of what is
//! opened, wherever that is in what arrives: so keyed hashes and seals over it are made of it, and a
//! program that takes the parts without looking at what they stand in goes on to its end. Which bytes
//! the spare name has is up to who plays the case: those of a format that are spoilt in one way, or a
//! false tag. Either stops the code there, and no hash is trusted for that.
//!
//! The time of one finding is that of the plan's terms and of one run of the code over terms: each
//! instruction copies the terms that it writes.
#![tactic(auto)]

mod cases;
mod finding;
mod laws;
mod sparing;
mod undoing;
mod walking;

pub use cases::{NoCase, Obstacle, OpeningCase, OpeningFinding};
pub use finding::opening_finding;
pub use laws::{
    false_seal_stops, false_wrap_stops, retagged_seal_stops, retagged_wrap_stops, shut_stops,
    spoilt_stops, taken_goes_on,
};
pub use undoing::{opened_format, openings};
