//! How a rehearsal ends.
use anb_machine::Halt;
use anb_outcomes::Report;

/// How a rehearsal ends.
#[derive(Debug, Drop)]
pub enum RehearseEnd {
    /// No role has an action left.
    AllDone(Report),
    /// Some role has.
    Part(Report),
    /// The run of this role's code stopped, and all its messages were reported.
    Stopped { role: u32, halt: Halt },
    /// The message of this action is longer than an arrival may be, or, with action 0, an initial
    /// value is, the first by role and place.
    LongMessage { action: u32, len: u64 },
}
