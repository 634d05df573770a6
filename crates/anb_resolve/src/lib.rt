//! From a narration to its protocol: whether its counts, names, sorts and formats are right, and the
//! first thing that is wrong.
#![tactic(auto)]

mod atoms;
mod laws;
mod limits;
mod names;
mod resolving;
mod shapes;
mod terms;
mod uses;

pub use laws::{limits_grow, small_is_countable};
pub use resolving::resolve;
