//! Rehearsals of codes that are given, which no command shows: each compiles the codes that it rehearses.
//!
//! The tests are the examples. Other rehearsals are cases of commands.
#![tactic(auto)]

#[cfg(test)]
mod rehearsals;
#[cfg(test)]
mod telling;
