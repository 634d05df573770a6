//! Bytes that are wrong in one way, for a test suite: values that differ, bytes that a format
//! doesn't build, and sealed bytes that aren't opened.
//!
//! Each is as near to the right bytes as it can be, so that a reader that leaves out one comparison
//! takes it, and one that makes all never does. Of values the law is that they differ; of the rows
//! of a format, that no arguments build these bytes; of false tags, that nothing is opened. The
//! laws hold for all bytes, and trust no hash.
#![tactic(auto)]

mod changes;
mod laws;
mod pieces;
mod rows;
mod spoils;
mod tags;
mod words;
mod wrongs;

pub use changes::{CHANGES, Change, MORE_CHANGES, changed};
pub use laws::{
    changes_differ, false_tags_hold_the_message, false_tags_stay_shut, retagged_is_false,
    rows_are_all, rows_are_near, rows_are_refused, spoilt_is_refused, wrongs_differ,
};
pub use rows::{Row, Spoiling, is_default, rows_of};
pub use spoils::spoil;
pub use tags::{Closing, retag, seal_falsely, wrap_falsely};
pub use words::{argument_of, change_words, false_tag_words, put_row_words};
pub use wrongs::{Wrong, wrong_for};
