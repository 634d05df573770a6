//! What a role can open and compose.
//!
//! The terms that a role has are kept as entries: one for each label, and one for each part of an
//! entry that it can undo with keys that it composes. Nothing is written out, so nothing grows
//! like a recipe that is written out as a tree. A term composes from the entries exactly where some
//! recipe over the labels, of any size, has it as its value.
#![tactic(auto)]

pub mod closure;
pub mod entry;
mod growth;
mod index;
pub mod laws;
pub mod made;
mod parents;
mod spread;
pub mod step;

pub use closure::Closure;
pub use entry::{Entry, Opening, Origin};
pub use made::{Compositions, Made};
pub use step::{Openings, Step};
