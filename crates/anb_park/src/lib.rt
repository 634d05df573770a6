//! Parked sessions: a role that waits is written as a sealed record, and goes on later.
//!
//! A record holds whose session it is, the seed and the number that its draws come from, its
//! initial values and all that arrived so far. Who goes on from it runs the code over these again,
//! drops the messages that come of them, and waits where the session waited.
//!
//! A session costs what its machine's costs, and each arrival is copied once more, into what the
//! record will hold. Parking is one sealing of that. Going on is one unsealing, one look at the
//! frames, and the run so far, where each arrival is copied once. Beside its registers a session
//! keeps what its record will hold, so with the record that is made or read there are three times
//! the record's bytes at most.
#![tactic(auto)]

mod body;
mod laws;
mod live;
mod playing;
mod rest;
mod resuming;

pub use laws::{accepted_is_not_refused, has_one_cause, records_are_apart};
pub use live::Live;
pub use playing::play_on;
pub use rest::LiveRest;
pub use resuming::{ParkNo, resume};
