//! What a role lacks for a message that it can't send, as a text.
//!
//! The text has a line on the action; the terms that the sender has by then, each with where it is from:
//! what brings it to the sender, who knows, makes or receives it or what it is opened with, or that the
//! sender builds it; the parts of the message that don't compose from these terms; and for each that
//! stands behind a missing key, or is a name, where it stands, and which roles know that key or make it.
#![tactic(auto)]

mod knowing;
mod laws;
mod lines;
mod listing;
mod opening;
mod origins;
mod parts;
mod refusing;
mod root_lines;
mod roots;

pub use laws::lists_are_shown;
pub use origins::Origin;
pub use refusing::{LackText, lack_text};
