//! Whether a conversation is one of a role, whatever the role drew.
//!
//! Who knows what a role knows, and sees all that it hears and says, plays a role of its own: it makes
//! nothing, sends nothing, and hears both. What it must check is what its own plan demands, as of any
//! role, and this is exactly what tells conversations of the role apart from all others: where each
//! name that the role makes can be told from what is known, heard and said, it goes on to the end
//! exactly where some draws make the conversation the role's play.
#![tactic(auto)]

mod judging;
mod laws;
mod watching;

pub use judging::{is_said, judge, sides};
pub use laws::{conversations_are_observed, observed_are_conversations, one_judgement};
