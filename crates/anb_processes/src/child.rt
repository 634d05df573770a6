//! The child of a case, as a wire over its two pipes or its connection.

ghost use Rattle.std.specs.Prelude.{◌≡◌, ◌<◌, ◌≤◌, ℕ, List, [], ◌∷◌, None, refl};
ghost use Rattle.anb_processes.specs.Trials.{state_of};

use crate::peer::Peer;
use crate::running::is_silence;
use anb_base::{Failed, Place, Sink, Source, Wire};
use std::io;
use std::marker::Model;
use std::time::Duration;

/// The child of a case, which was started or dialled: its output and its input. It tells nothing of the bytes. Each
/// count rises by one with each fault. What it no longer takes is dropped, and is no fault. There is no
/// place to be reached, so reaching one changes nothing.
#[derive(Drop)]
pub struct RealChild {
    rt: HostRuntime,
    peer: Peer,
    read_faults: u64,
    write_faults: u64,
    /// Whether a call failed since it was silent.
    silent: bool,
}

impl Model for RealChild {
    ghost use Rattle.anb_processes.specs.Trials.{Pipes};

    ghost Value = { Pipes };

    ghost view = { λ child. record { reads = child.read_faults; writes = child.write_faults } };
}

impl RealChild {
    /// A child that runs, with these counts of faults so far.
    pub(crate) fn new(rt: HostRuntime, peer: Peer, reads: u64, writes: u64) -> Self
        ensures { result ≡ record { reads = reads; writes = writes } }
    {
        RealChild {
            rt,
            peer,
            read_faults: reads,
            write_faults: writes,
            silent: false,
        }
    }

    /// Ends its input.
    pub(crate) fn close(&mut self)
        ensures { self.new ≡ self.old }
    {
        self.peer.close();
    }

    /// How often reading its output has failed.
    pub(crate) fn read_faults(&self) -> u64
        ensures { result ≡ self.now.reads }
    {
        self.read_faults
    }

    /// How often writing its input has failed.
    pub(crate) fn write_faults(&self) -> u64
        ensures { result ≡ self.now.writes }
    {
        self.write_faults
    }

    /// Whether a call failed since it was silent.
    pub(crate) fn is_silent(&self) -> bool {
        self.silent
    }

    /// The process or the connection alone.
    pub(crate) fn into_peer(self) -> Peer {
        self.peer
    }

    /// Keeps in mind why a call failed.
    fn note(&mut self, error: &io::Error)
        ensures { self.new ≡ self.old }
    {
        if is_silence(error) {
            self.silent = true;
        }
    }
}

impl Source for RealChild {
    ghost left = { λ _. None };

    ghost taken_at = { λ _. None };

    ghost faults = { λ child. child.reads };

    ghost kept = { λ child. (None, child.writes) ∷ (None, 0) ∷ [] };

    fn read(&mut self, buf: &mut [u8]) -> Result<usize, Failed> {
        match self.peer.read(&self.rt, buf) {
            Ok(n) => Ok(n),
            Err(error) => {
                self.note(&error);
                self.read_faults = self.read_faults.saturating_add(1);
                Err(Failed)
            }
        }
    }
}

impl Sink for RealChild {
    ghost written = { λ _. None };

    ghost faults = { λ child. child.writes };

    ghost kept = { λ child. (None, child.reads) ∷ (None, 0) ∷ (None, 0) ∷ [] };

    fn write(&mut self, piece: &[u8]) -> Result<usize, Failed> {
        match self.peer.write(&self.rt, piece) {
            Ok(n) if n > 0 || piece.is_empty() => Ok(n),
            Ok(_) => {
                self.write_faults = self.write_faults.saturating_add(1);
                Err(Failed)
            }
            Err(error) => {
                self.note(&error);
                self.write_faults = self.write_faults.saturating_add(1);
                Err(Failed)
            }
        }
    }
}

impl Wire for RealChild {
    ghost reached = { λ _. None };

    ghost reach_faults = { λ _. 0 };

    ghost state = { state_of };

    ghost state_tells = { λ _. refl };

    ghost beside_source = { λ _. refl };

    ghost beside_sink = { λ _. refl };

    fn reach(&mut self, _place: &Place) -> Result<(), Failed> {
        Ok(())
    }

    fn wait_at_most(&mut self, seconds: u32) {
        self.peer.set_limit(Duration::from_secs(u64::from(seconds)));
    }
}
