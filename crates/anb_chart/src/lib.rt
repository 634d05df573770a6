//! A protocol as a sequence diagram, in Mermaid's language.
//!
//! The text has a participant for each role, an arrow with its number and its message for each action,
//! and a note above the arrow where the sender makes names. Each line ends with the byte 0A.
#![tactic(auto)]

mod charting;
mod examples;
mod laws;
mod participants;

pub use charting::{participant_text, put_arrow, put_participant, write_chart};
pub use examples::{ending_is_charted, mutual_is_charted};
pub use laws::{participants_are_no_words, participants_are_told_apart};
