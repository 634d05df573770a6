//! Commands over a transcript of any session: `replay` and `trace` with `--session`.
#![tactic(auto)]

mod following;
mod words;

pub use following::follow;
pub use words::SessionWords;
