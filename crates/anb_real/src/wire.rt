//! The wire over standard input and output, or over one TCP connection.

ghost use Rattle.std.specs.Prelude.{◌≡◌, ◌<◌, ◌≤◌, ℕ, List, [], ◌∷◌, None, refl};

use crate::again::{read_again, write_again};
use crate::connecting::connect;
use crate::connection::Connection;
use crate::faults::one_more;
use anb_base::{Failed, Place, Sink, Source, Wire};
use std::marker::Model;
use std::time::Duration;

/// The wire over standard input and output or, once it has reached another place, over one TCP
/// connection. It tells nothing of the bytes. Each count rises by one with each fault. A limit on
/// waiting holds for reaching a place and, over a connection, for the first byte of each frame, for the
/// rest of it together, and for each piece that is written. A call that a signal interrupted is made
/// again.
#[derive(Drop)]
pub struct RealWire {
    rt: HostRuntime,
    connection: Option<Connection>,
    wait: Option<Duration>,
    /// Whether a peer that is silent for the limit, before a frame, has ended what it sends.
    silence_ends: bool,
    read_faults: u64,
    write_faults: u64,
    reach_faults: u64,
}

impl Model for RealWire {
    ghost use Rattle.anb_real.specs.Faults.{Faults};

    ghost Value = { Faults };

    ghost view = { λ wire. record {
      reads = wire.read_faults;
      writes = wire.write_faults;
      reaches = wire.reach_faults;
    } };
}

impl RealWire {
    pub fn new(rt: HostRuntime) -> Self
        ensures { result ≡ record { reads = 0; writes = 0; reaches = 0 } }
    {
        RealWire {
            rt,
            connection: None,
            wait: None,
            silence_ends: false,
            read_faults: 0,
            write_faults: 0,
            reach_faults: 0,
        }
    }

    /// From now on a peer that gives no first byte of a frame within the limit has ended what it sends,
    /// and that is no fault.
    pub fn end_at_silence(&mut self)
        ensures { self.new ≡ self.old }
    {
        self.silence_ends = true;
    }

    /// Ends the wire. Of a connection the sending side is shut, and what the peer still sends is
    /// read and dropped for four mebibytes and two seconds at most, or the limit where that is less,
    /// so that all that was written comes through.
    pub fn finish(self) {
        if let Some(connection) = self.connection {
            // A connection that fails now is over all the same.
            let _ = connection.finish(&self.rt);
        }
    }
}

impl Source for RealWire {
    ghost left = { λ _. None };

    ghost taken_at = { λ _. None };

    ghost faults = { λ wire. wire.reads };

    ghost kept = { λ wire. (None, wire.writes) ∷ (None, wire.reaches) ∷ [] };

    fn read(&mut self, buf: &mut [u8]) -> Result<usize, Failed> {
        let got = match &mut self.connection {
            None => read_again(&mut self.rt.stdin(), buf),
            Some(connection) => match connection.read(&self.rt, buf) {
                Err(_) if self.silence_ends && connection.is_silent() => Ok(0),
                got => got,
            },
        };
        match got {
            Ok(n) => Ok(n),
            Err(_) => {
                self.read_faults = one_more(self.read_faults);
                Err(Failed)
            }
        }
    }
}

impl Sink for RealWire {
    ghost written = { λ _. None };

    ghost faults = { λ wire. wire.writes };

    ghost kept = { λ wire. (None, wire.reads) ∷ (None, wire.reaches) ∷ (None, 0) ∷ [] };

    fn write(&mut self, piece: &[u8]) -> Result<usize, Failed> {
        let put = match &mut self.connection {
            None => write_again(&mut self.rt.stdout(), piece),
            Some(connection) => connection.write(&self.rt, piece),
        };
        match put {
            Ok(n) if n > 0 || piece.is_empty() => Ok(n),
            _ => {
                self.write_faults = one_more(self.write_faults);
                Err(Failed)
            }
        }
    }
}

impl Wire for RealWire {
    ghost reached = { λ _. None };

    ghost reach_faults = { λ wire. wire.reaches };

    ghost state = { λ wire. record {
      left = None;
      taken_at = None;
      read_faults = wire.reads;
      written = None;
      write_faults = wire.writes;
      reached = None;
      reach_faults = wire.reaches;
    } };

    ghost state_tells = { λ _. refl };

    ghost beside_source = { λ _. refl };

    ghost beside_sink = { λ _. refl };

    fn reach(&mut self, place: &Place) -> Result<(), Failed> {
        match connect(&self.rt, place, self.wait) {
            Ok(stream) => {
                self.connection = stream.map(|stream| Connection::new(stream, self.wait));
                Ok(())
            }
            Err(_) => {
                self.reach_faults = one_more(self.reach_faults);
                Err(Failed)
            }
        }
    }

    /// Standard input and output have no limit.
    fn wait_at_most(&mut self, seconds: u32) {
        let wait = Duration::from_secs(u64::from(seconds));
        self.wait = Some(wait);
        if let Some(connection) = &mut self.connection {
            connection.set_limit(wait);
        }
    }
}
