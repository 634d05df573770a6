//! What arrives so that a code goes on to its end, over terms.
//!
//! Each register of a code is a variable, and each instruction an equation. A run is over exactly where
//! its arrivals solve these equations. So what a code takes are the instances of their most general
//! solution (anb_unify), and a check of the code is implied by the others where its sides are one there.
#![tactic(auto)]

mod apart;
mod laws;

pub use apart::variable_apart;
pub use laws::{runs_are_solutions, same_sides_are_implied, two_sides_make_a_case};
