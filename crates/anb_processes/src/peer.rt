//! Who is tried in a case: a program that runs, or whoever was dialled.

ghost use Rattle.std.specs.Prelude.{◌≤◌, length, IfOk};

use crate::dialled::Dialled;
use crate::running::Running;
use std::io;
use std::time::Duration;

/// The one or the other.
#[derive(Drop)]
pub(crate) enum Peer {
    Program(Running),
    Dialled(Dialled),
}

impl Peer {
    /// What it wrote, once there is some.
    pub(crate) fn read(&mut self, rt: &HostRuntime, buf: &mut [u8]) -> io::Result<usize>
        ensures { IfOk result (λ n. n ≤ length buf.new) }
    {
        match self {
            Peer::Program(running) => running.read(rt, buf),
            Peer::Dialled(dialled) => dialled.read(rt, buf),
        }
    }

    /// Hands it the first bytes of the piece.
    pub(crate) fn write(&mut self, rt: &HostRuntime, piece: &[u8]) -> io::Result<usize>
        ensures { IfOk result (λ n. n ≤ length piece.now) }
    {
        match self {
            Peer::Program(running) => running.write(rt, piece),
            Peer::Dialled(dialled) => dialled.write(rt, piece),
        }
    }

    /// From now on it may be silent for so long at most.
    pub(crate) fn set_limit(&mut self, limit: Duration) {
        match self {
            Peer::Program(running) => running.set_limit(limit),
            Peer::Dialled(dialled) => dialled.set_limit(limit),
        }
    }

    /// Ends what it hears.
    pub(crate) fn close(&mut self) {
        match self {
            Peer::Program(running) => running.close(),
            Peer::Dialled(dialled) => dialled.close(),
        }
    }
}
