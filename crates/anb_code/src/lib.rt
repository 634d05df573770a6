//! Role codes: straight-line programs over registers, and the check that makes one fit to run.
//!
//! A code that was verified reads no register that it didn't write, names no format that it hasn't,
//! and has no value wider than [`anb_base::WIDE`].
#![tactic(auto)]

mod checks;
mod code;
mod instr;
mod laws;
mod raw;
mod refusal;
mod spelling;
mod takes;
mod uses;

pub use code::{RoleCode, verify};
pub use instr::{Instr, Registers};
pub use laws::{verified_is_runnable, verified_is_spelled, wider_limits_accept};
pub use raw::{RawCode, RawFormat, RawInstr, What};
pub use refusal::CodeNo;
