//! Pauses between two looks at a child.

use std::time::{Duration, Instant};
use std::{io, thread};

/// The first pause and the longest one, in microseconds. Each is twice as long as the one before.
const FIRST: u64 = 50;

const LONGEST: u64 = 10_000;

/// The next pause, in microseconds.
#[derive(Drop)]
pub(crate) struct Pauses {
    next: u64,
}

impl Pauses {
    pub(crate) fn new() -> Self {
        Pauses { next: FIRST }
    }

    pub(crate) fn pause(&mut self, rt: &HostRuntime) {
        thread::sleep(rt, Duration::from_micros(self.next));
        self.next = self.next.saturating_mul(2).min(LONGEST);
    }
}

/// Whether so much time went by since then.
pub(crate) fn is_over(rt: &HostRuntime, time: Duration, start: Instant) -> io::Result<bool> {
    Ok(start.elapsed(rt)? >= time)
}
