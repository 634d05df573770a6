//! The most general solution of equations between terms, where a solution is known.
//!
//! Terms are over names and, above them, variables. Each equation says that a variable is a term. The
//! solution is found by unification (Robinson 1965; classes as Huet 1976). Since the narrated terms of
//! the variables are a solution, there is always a most general one: there is no clash, and nothing
//! stands inside itself.
//!
//! The time is near-linear in the nodes of the equations' terms and of the terms that are read: for
//! each node of an equation one is put into a pool, and one or two classes are searched for.
#![tactic(auto)]

mod classes;
mod equation;
mod reading;
mod solving;

pub use equation::{Equation, variable};
pub use solving::most_general;
