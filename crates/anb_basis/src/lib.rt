//! The few checks that a role makes, and why they are enough.
//!
//! Whether values agree with the terms that they stand for is a question about infinitely many
//! pairs of recipes (Almousa, Mödersheim and Viganò 2015). Over entries that are closed under
//! opening, at most one check an entry answers it: each entry that is opened must open, each entry
//! that composes from earlier ones must equal its composition, and each hash or keyed hash whose
//! operands compose must equal it, however late they come.
#![tactic(auto)]

mod adding;
pub mod basis;
pub mod check;
pub mod laws;

pub use basis::{Basis, all_checks};
pub use check::Check;
