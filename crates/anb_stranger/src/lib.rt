//! How far somebody gets with a role who knows nobody's key.
//!
//! Of all conversations that a role takes part in there is a most general one: its patterns come, and
//! it says what it makes of them. Somebody who picks names of his own for their variables, and knows
//! the agents' names besides, can make a message exactly where it composes from these and from what the
//! role has said by then. That is exact, and no more: where he can't make the most general message, he
//! may be able to make another one that the role takes, so nothing is claimed then.
//!
//! The time is near-linear in the nodes of the plan's terms: that of the patterns, and then a closure
//! that grows by each message that the role sends.
#![tactic(auto)]

mod beginning;
mod knowledge;
mod laws;
mod reach;
mod said;

pub use laws::{heard_are_patterns, strangers_are_played};
pub use reach::{Reach, reach_of};
pub use said::all_said_of;
