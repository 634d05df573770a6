//! All roles of a protocol together, over a schedule of turns: whether honest agents can run a
//! narration in this order, message by message.
#![tactic(auto)]

mod beginning;
mod ending;
mod given;
mod kind;
mod knowing;
mod laws;
mod order;
mod player;
mod rehearsing;
mod report;
mod stage;
mod words;

pub use anb_outcomes::{Messages, Report};
pub use knowing::known_values;
pub use laws::{
    complete_is_tested, fitting_codes_follow, honest_bytes_exist, known_names_differ,
    plays_are_honest, rehearsals_are_honest,
};
pub use order::follows;
pub use rehearsing::rehearse;
pub use report::RehearseEnd;
pub use words::{ScheduleNo, schedule};

/// The most turns of a schedule: a name and a blank have two bytes, and a schedule is a small file.
pub const TURNS: u32 = 524_288;
