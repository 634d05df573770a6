//! Commands of sessions that are parked: `park` begins one, and `resume` goes on from its record.
//!
//! A session costs what `play` costs, and one sealing of its record where it is parked. Who goes on
//! from a record unseals it and runs the role's code over it again. The record goes over the wire, or
//! to a file of a store.
#![tactic(auto)]

mod ended;
mod going;
mod keeping;
mod keys;
mod laws;
mod owning;
mod parking;
mod resuming;
mod words;

pub use ended::RecordWay;
pub use laws::{accepted_records_go_on, split_plays_are_whole};
pub use parking::{park, park_into};
pub use resuming::{resume, resume_into};
pub use words::RecordWords;
