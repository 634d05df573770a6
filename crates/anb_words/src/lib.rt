//! The words of commands, and what they ask for.
#![tactic(auto)]

mod words;

pub use words::{
    BranchWords, CertifyWords, Command, EnactWords, Endpoint, ParkWords, PlayWords, RehearseWords,
    ReplayWords, ResumeWords, RoleText, is_operand, read_seconds,
};
