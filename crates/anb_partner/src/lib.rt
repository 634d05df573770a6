//! One conversation of a tested program, as one role of a protocol, with everybody else as one agent.
//!
//! The partner knows and makes what all other roles do, hears what the role says, and sends what it is to
//! get. In a case of a test suite one value that it sends is a wrong one: before the first message that
//! has it the partner makes the right one, which is changed there, and takes what comes of that in its
//! place. So a wrong value may depend on what the role drew.
#![tactic(auto)]

mod conversation;
mod conversing;
mod laws;
mod memory;
mod planning;
mod standing;
mod talking;
mod trials;
mod valuing;

pub use conversation::{Conversation, ConverseNo, TalkEnd};
pub use conversing::converse;
pub use laws::partners_play;
pub use memory::MemTrials;
pub use planning::{Narrated, Partner, PartnerNo, narrated_terms, partner_for};
pub use standing::may_stand;
pub use trials::{ChildEnd, Target, Trials};
pub use valuing::{Values, values_for};

/// The most messages that are read behind a talk.
pub const BEHIND: u32 = 256;
