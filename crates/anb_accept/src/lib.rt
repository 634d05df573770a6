//! What a role takes, exactly: the patterns of its arrivals.
//!
//! A role goes on while any two recipes that the narration makes equal give equal values. Asked of
//! terms, with each arrival a new variable, the few checks that stand for all these pairs are
//! equations between terms: an entry that is opened is its operator on its keys and parts, and an
//! entry that is compared is what it is compared with. Their most general solution (anb_unify) are the
//! patterns. The narrated terms are a solution, so there is always one.
//!
//! The time is near-linear in the nodes of the labels' terms: the closure's, and then the solver's.
#![tactic(auto)]

mod conversations;
mod equation;
mod frame;
mod laws;
mod numbering;
mod patterns;
mod roles;
mod sizes;
mod taken;

pub use conversations::conversation_in;
pub use laws::{free_is_unchecked, instances_go_on, patterns_are_one, patterns_are_unique};
pub use roles::{patterns_in, patterns_of};
pub use sizes::{left_after, left_after_all};
pub use taken::taken_by;
