//! Branched texts: narrations with a choice at their end.
//!
//! The common actions, which are called the stem, come first, then the role that chooses, then two
//! to eight arms. Each arm behind the stem is a narration of its own.
#![tactic(auto)]

mod alike;
mod arms;
mod blindness;
mod branched;
mod laws;
mod marks;
mod order;
mod parts;
mod placed;
mod plans;
mod splitting;

pub use anb_outcomes::BranchNo;
pub use branched::Branched;
pub use laws::{
    arm_texts_are_unique, branch_refusals_are_unique, choices_are_unique, each_is_either,
    faultless_is_lawful, no_choice_is_refused,
};
pub use placed::arm_texts;
pub use splitting::{choice_fault, split, told_choice};
