//! The program that children run.

use crate::ChildProgram;
use anb_base::Text;
use std::env;
use std::env::{Env, VarError};

/// The program that each child runs: the one that the environment names, else this one itself. A name
/// that can't be read is never replaced by another.
pub fn child_program(rt: HostRuntime) -> ChildProgram {
    match env::var(&rt, "ANB_CHILD") {
        Ok(name) => ChildProgram::Named(Text::new(name)),
        Err(VarError::NotPresent) => ChildProgram::Own,
        Err(_) => ChildProgram::Unreadable,
    }
}
