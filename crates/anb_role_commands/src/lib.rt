//! Commands that run the code of one role over the wire.
#![tactic(auto)]

mod role_file;
mod role_play;
mod role_replay;

pub use role_file::{enact, load_prepared};
pub use role_play::{play, prepare};
pub use role_replay::{compare, replay, status_of};
