//! The command that tries a program as a role of a narration: everybody else is played against it, each
//! time with one deviation that the role must stop at, and a report says what it takes and refuses.
#![tactic(auto)]

mod cases;
mod counting;
mod files;
mod finding;
mod frames;
mod into;
mod keeping;
mod partners;
mod playing;
mod probing;
mod record;
mod report;
mod reporting;
mod same;
mod untried;
mod words;
mod writing;

pub use into::probe_into;
pub use probing::probe;
pub use words::{ProbeWords, TryWords};
