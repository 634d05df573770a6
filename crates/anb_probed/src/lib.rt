//! What is known of the cases that `probe` plays: each is an attempt of its suite.
//!
//! Laws alone. The command says of each case that was played which conversation came of it, and which
//! verdict. Here it is proved that this is an attempt on a program as the suite of the role has it, so
//! what is proved of attempts holds of the cases: no right program is called wrong, and a lax one is told,
//! as is one that lacks a check.
#![tactic(auto)]

mod laws;

pub use laws::{
    cases_are_attempts, done_is_as_the_role, lax_programs_are_told, mutants_are_seen,
    mutants_are_told, reports_are_played, right_programs_are_done, right_programs_pass,
};
