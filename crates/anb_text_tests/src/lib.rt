//! Worked examples of texts that no command shows: role files as they are printed, and drills. The tests are the
//! examples. Narrations, values files and refused role files are cases of commands.
#![tactic(auto)]

#[cfg(test)]
mod drills;
#[cfg(test)]
mod role_files;
