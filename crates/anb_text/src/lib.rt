//! Role files: how a role's code is written as a text, and read again.
//!
//! A role file has a line for its version, its protocol, its role and its suite, then one for each
//! format, `code`, one for each instruction, and `end`. Each line ends with the byte 0A. Words are
//! separated by one space, numbers are decimal, and registers are `r` and a number.
#![tactic(auto)]

mod laws;
mod lines;
mod loading;
mod page;
mod printing;
mod reading;
mod refusal;
mod stages;
mod writing;

pub use laws::{
    codes_are_not_refused, codes_are_unique, each_is_either, faults_are_unique, files_are_unique,
    none_is_both, refusals_are_unique,
};
pub use loading::load;
pub use page::Page;
pub use printing::{instr_text, instr_text_behind, print, write_role_file};
pub use refusal::LoadNo;
pub use writing::{WriteNo, write_bytes, write_part};
