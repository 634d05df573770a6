//! The command that relays among child programs.
#![tactic(auto)]

mod casts;
mod files;
mod into;
mod record;
mod report;
mod scene;
mod staging;
mod words;

pub use into::stage_into;
pub use staging::stage;
pub use words::{StageRecordWords, StageWords};
