//! A wire on which no call fails.

ghost use Rattle.std.specs.Prelude.{◌≡◌, ◌<◌, ◌≤◌, ℕ, List, [], ◌∷◌, ◌++◌, length, take, drop, min, Some, None, IsOk, IfOk, refl};

use crate::{Bytes, Failed, Place, Sink, Source, Wire};
use std::marker::Model;

/// A wire in memory whose counts of faults are the constant 0, so that no call of it ever fails.
/// What is written and reached is dropped and isn't told, and so isn't when bytes were taken.
#[derive(Debug, Drop)]
pub struct NeverFails {
    input: Bytes,
    read: usize,
}

impl Model for NeverFails {
    ghost use Rattle.std.specs.Prelude.{ℕ, List, length, drop, ◌≤◌};

    ghost Value = { List ℕ };

    ghost view = { λ wire. drop wire.read wire.input };

    ghost invariant = { λ wire. wire.read ≤ length wire.input };
}

impl NeverFails {
    pub fn new(input: Bytes) -> Self
        ensures { result ≡ input }
    {
        NeverFails { input, read: 0 }
    }
}

impl Source for NeverFails {
    ghost left = { λ wire. Some wire };

    ghost taken_at = { λ _. None };

    ghost faults = { λ _. 0 };

    ghost kept = { λ _. (None, 0) ∷ (None, 0) ∷ [] };

    fn read(&mut self, buf: &mut [u8]) -> Result<usize, Failed>
        ensures ok { IsOk result }
        ensures count { IfOk result (λ n. n ≡ min (length buf.old) (length self.old)) }
        ensures bytes { IfOk result (λ n. buf.new ≡ take n self.old ++ drop n buf.old) }
        ensures rest { IfOk result (λ n. self.new ≡ drop n self.old) }
    {
        let left = &self.input.as_slice()[self.read..];
        let n = buf.len().min(left.len());
        buf[..n].copy_from_slice(&left[..n]);
        self.read += n;
        Ok(n)
    }
}

impl Sink for NeverFails {
    ghost written = { λ _. None };

    ghost faults = { λ _. 0 };

    ghost kept = { λ wire. (Some wire, 0) ∷ (None, 0) ∷ (None, 0) ∷ [] };

    fn write(&mut self, piece: &[u8]) -> Result<usize, Failed>
        ensures all { IfOk result (λ n. n ≡ length piece.now) }
        ensures ok { IsOk result }
        ensures same { self.new ≡ self.old }
    {
        Ok(piece.len())
    }
}

impl Wire for NeverFails {
    ghost reached = { λ _. None };

    ghost reach_faults = { λ _. 0 };

    ghost state = { λ wire. record {
      left = Some wire;
      taken_at = None;
      read_faults = 0;
      written = None;
      write_faults = 0;
      reached = None;
      reach_faults = 0;
    } };

    ghost state_tells = { λ _. refl };

    ghost beside_source = { λ _. refl };

    ghost beside_sink = { λ _. refl };

    fn reach(&mut self, _place: &Place) -> Result<(), Failed>
        ensures ok { IsOk result }
        ensures same { self.new ≡ self.old }
    {
        Ok(())
    }

    fn wait_at_most(&mut self, _seconds: u32)
        ensures { self.new ≡ self.old }
    {}
}
