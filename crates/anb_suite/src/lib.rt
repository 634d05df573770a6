//! The cases of a test suite of one role, found before any program is tested.
//!
//! Of each comparison of a role's code behind its first arrival: arrivals over which the code that lacks
//! it goes on to its end, and the code stops there; or that the others imply it. They are found by the
//! most general solution of all equations of the code but this one (anb_distinguish, anb_unify): where
//! its two sides are two terms there, a spare name in the place of one variable tells them apart.
//!
//! A program that lacks a check may also use one of its two values for both behind it. Such a code has
//! a case of its own, by the equations of the code that reads so.
//!
//! The time of one case is near-linear in the code and in the nodes of its registers' terms.
#![tactic(auto)]

mod cases;
mod checking;
mod laws;
mod reading;
mod solving;
mod sparing;
mod suite;
mod walking;

pub use cases::{Case, Finding};
pub use checking::checks;
pub use laws::one_for_other;
pub use reading::Reading;
pub use suite::finding;
