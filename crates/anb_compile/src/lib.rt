//! From plans to codes.
//!
//! A role's code does what its plan says: it composes each message from what the role has, and it
//! makes the few checks that are as good as comparing any two recipes (Almousa, Mödersheim and
//! Viganò 2015). A role that would have to send what it can't compose has no code.
#![tactic(auto)]

mod built;
mod compiling;
mod emission;
mod laws;
mod refusal;
mod terms;
mod writer;

pub use compiling::{compile, compile_all, compile_plan};
pub use laws::fitting_codes_play;
pub use refusal::CompileNo;
pub use terms::terms_of;
