//! Notes on names and keys of a protocol: facts of its plans and of its messages as they are narrated.
//! None is a search for attacks, and none says that a protocol is bad.
//!
//! The time is near-linear in the nodes of the messages: that of a role's patterns once more, and then
//! a few walks over the messages with a table of the names.
#![tactic(auto)]

mod idle;
mod lines;
mod notes;
mod places;
mod said;
mod standing;
mod tables;

pub use notes::notes_on;
pub use said::noted_of;
