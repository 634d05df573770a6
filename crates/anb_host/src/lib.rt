//! Many sessions of one code, on one stream of events.
//!
//! Each session is a run of the code with draws of its own. It is told what it would be told
//! alone, whatever events of other sessions stand between its own.
#![tactic(auto)]

mod event;
mod frames;
mod host;
mod laws;
mod servable;
mod serving;
mod session;

pub use event::{Cause, HostEvent, Notice};
pub use host::Host;
pub use laws::{inputs_have_one_reading, sessions_are_alone, sessions_are_isolated};
pub use servable::Servable;
pub use serving::{HostEnd, serve};
