//! A code's run, one turn at a time.
//!
//! A machine does instructions until it has a message to hand out, wants an arrival, is done, or a
//! demand fails. It takes the memory for its registers when it starts.
#![tactic(auto)]

mod laws;
mod machine;
mod registers;
mod rest;
mod state;
mod turn;
mod work;

pub use laws::runs_send_within;
pub use machine::Machine;
pub use rest::Rest;
pub use turn::{Halt, Turn};
pub use work::work as do_work;
