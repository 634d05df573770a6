//! A stage of child programs: one for each role of a protocol, with each message carried from its
//! sender to its receiver, in the order of the narration.
#![tactic(auto)]

mod carrying;
mod ends;
mod finishing;
mod laws;
mod log;
mod memory;
mod refusal;
mod relaying;
mod sides;
mod spawner;
mod stage;
mod starting;
mod words;

pub use laws::{relays_are_due, stages_are_honest};
pub use log::{Log, NoLog};
pub use memory::MemSpawner;
pub use refusal::RelayNo;
pub use spawner::Spawner;
pub use stage::{relay, relay_telling};
pub use words::ChildWords;

/// The most roles that a protocol has.
pub const ROLES: u32 = 32;
