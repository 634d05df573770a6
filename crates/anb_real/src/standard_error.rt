//! Standard error of the machine.

ghost use Rattle.std.specs.Prelude.{◌≡◌, ◌≤◌, ◌<◌, [], None};

use crate::again::write_again;
use crate::faults::one_more;
use anb_base::{Failed, Sink};
use arrayvec::ArrayVec;
use std::marker::Model;

/// How many bytes are held back at most: the most that a pipe takes at once.
const HELD: usize = 4_096;

/// Standard error as a sink. It tells nothing of the bytes, and its count of faults rises by one
/// with each fault. What it is given is held back until `finish`, so that it can be told last, and is
/// then written by one call of the system. Where it is more than 4,096 bytes it is written at once,
/// each piece by one call.
#[derive(Drop)]
pub struct StandardError {
    rt: HostRuntime,
    held: ArrayVec<u8, HELD>,
    faults: u64,
}

impl Model for StandardError {
    ghost use Rattle.std.specs.Prelude.{ℕ};

    ghost Value = { ℕ };

    ghost view = { λ err. err.faults };
}

impl StandardError {
    pub fn new(rt: HostRuntime) -> Self
        ensures { result ≡ 0 }
    {
        StandardError {
            rt,
            held: ArrayVec::new(),
            faults: 0,
        }
    }

    /// Writes what is held back.
    pub fn finish(mut self) {
        self.release();
    }

    fn release(&mut self)
        ensures { self.new ≡ self.old }
    {
        let held = self.held.as_slice();
        if !held.is_empty() {
            // Whoever closed standard error doesn't want to know.
            let _ = write_again(&mut self.rt.stderr(), held);
        }
        self.held.clear();
    }
}

impl Sink for StandardError {
    ghost written = { λ _. None };

    ghost faults = { λ faults. faults };

    ghost kept = { λ _. [] };

    fn write(&mut self, piece: &[u8]) -> Result<usize, Failed> {
        if self.held.try_extend_from_slice(piece).is_ok() {
            return Ok(piece.len());
        }
        self.release();
        match write_again(&mut self.rt.stderr(), piece) {
            Ok(n) if n > 0 || piece.is_empty() => Ok(n),
            _ => {
                self.faults = one_more(self.faults);
                Err(Failed)
            }
        }
    }
}
