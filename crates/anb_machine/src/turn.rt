//! What a machine answers.
use anb_base::Bytes;

/// Where a run stopped: after how many sends and receives, and the number of the instruction, from
/// 1, whose demand failed.
#[derive(Clone, Copy, Debug, PartialEq, Eq, Drop)]
pub struct Halt {
    pub event: u32,
    pub at: u32,
}

/// What a machine does next.
#[derive(Debug, Drop)]
pub enum Turn {
    /// It sends this message.
    Message(Bytes),
    /// It waits for the arrival of this event.
    Wants(u32),
    /// All instructions are done.
    Done,
    /// A demand failed.
    Stopped(Halt),
    NoMemory,
}

/// What the last turn leaves to be known of the next ones.
#[derive(Clone, Copy, Debug, Drop)]
pub(crate) enum Last {
    Open,
    Wants,
    Done,
    Stopped(Halt),
    NoMemory,
}
