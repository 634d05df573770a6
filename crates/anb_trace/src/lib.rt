//! What a role does over arrivals, as a text.
//!
//! The text has the values that the role knows, a line for each send and receive with its action, the
//! partner, the term and the bytes, and between them each instruction with the terms and bytes of the
//! registers that it writes. Its last line tells how the run ends. Each line ends with the byte 0A.
#![tactic(auto)]

mod arrivals;
mod differences;
mod events;
mod fronts;
mod instrs;
mod laws;
mod misfits;
mod names;
mod openers;
mod reasons;
mod shown;
mod steps;
mod subject;
mod tracing;
mod values;

pub use laws::{innermost_is_one, innermost_stays_closed, misfits_are_exact, traces_tell_runs};
pub use tracing::write_trace;
