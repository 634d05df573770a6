//! What each role of a protocol does with what it receives, as a text for a person.
//!
//! The text has a part for each role: its events, what it opens, checks and learns at each, and which
//! parts of arrivals it takes unchecked. It is told of codes that fit the roles. Each line ends with
//! the byte 0A.
#![tactic(auto)]

mod charting;
mod laws;
mod lists;
mod marks;
mod names;
mod news;
mod notes;
mod others;
mod registers;
mod remarks;
mod reporting;
mod seen;

pub use charting::role_chart;
pub use laws::{checks_nothing_unchecked, plays_stay_free, unchecked_is_free};
pub use notes::notes_of;
pub use reporting::report;
pub use seen::unchecked;
