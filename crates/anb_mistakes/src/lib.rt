//! What is said of a text that is refused: where in the text, why, and what would mend it.
#![tactic(auto)]

mod beyond;
mod items;
mod limits;
mod listing;
mod mends;
mod near;
mod parts;
mod placing;
mod pointing;
mod spots;
mod tokens;
mod unread;
mod unresolved;
mod unsent;
mod words;

pub use near::{put_hint, put_near};
pub use pointing::{pointed, pointed_in};
pub use unread::{unread_text, unread_texts_are_unique};
pub use unresolved::{unresolved_text, unresolved_texts_are_unique};
pub use unsent::{unsent_text, unsent_texts_are_unique};
