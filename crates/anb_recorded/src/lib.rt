//! What a command says of a recording that it makes in a folder: how it ended by itself, what is missing of
//! the recording, and the status that is told.
#![tactic(auto)]

mod ended;
mod names;

pub use ended::{Ended, Missing};
pub use names::values_name;
