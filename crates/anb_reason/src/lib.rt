//! Why a role can't send a message: the terms that it can have, as a list that shows it, and which
//! terms of a pool compose from listed ones.
#![tactic(auto)]

mod found;
mod laws;
mod numbers;
mod reasons;
mod shut_lists;

pub use laws::shut_has_none;
pub use numbers::{all_flagged, back, composing, front, marks, put_all, same_flags};
pub use reasons::{Refusal, reason, refusal_of};
pub use shut_lists::shut;
