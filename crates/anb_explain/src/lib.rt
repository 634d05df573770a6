//! What a role does, as a text.
//!
//! The text has the events of the role's plan, with their labels and numbers, and then the
//! instructions of its code, with the terms of the registers that they write. Each line ends with the
//! byte 0A.
#![tactic(auto)]

mod code;
mod examples;
mod explaining;
mod plan;
mod writing;

pub use code::count_written;
pub use examples::{needham_schroeder_is_explained, ping_is_explained};
pub use explaining::{Explanation, explain, explanation_of, write_explanation};
