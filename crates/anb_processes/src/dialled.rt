//! Whoever was dialled at a place, at the other end of a connection.

ghost use Rattle.std.specs.Prelude.{◌≤◌, length, IfOk};

use crate::kept::Kept;
use crate::pauses::{Pauses, is_over};
use crate::running::{
    DROPPED_BYTES, DROPPED_PIECE, dropping_time, is_beyond, is_for_the_moment, silence,
};
use anb_real::dial;
use std::io;
use std::io::{ErrorKind, Read, Write};
use std::net::{Shutdown, TcpStream};
use std::time::{Duration, Instant};

/// A connection, which doesn't block.
#[derive(Drop)]
pub(crate) struct Dialled {
    /// For how long the peer may be silent at most.
    limit: Option<Duration>,
    stream: TcpStream,
    /// What it wrote while it took nothing.
    kept: Kept,
}

impl Dialled {
    /// Dials the place, for the limit at most where there is one.
    pub(crate) fn dial(rt: &HostRuntime, place: &str, limit: Option<Duration>) -> io::Result<Self> {
        let stream = dial(rt, place, limit)?;
        stream.set_nonblocking(true)?;
        Ok(Dialled {
            limit,
            stream,
            kept: Kept::new(rt.alloc()),
        })
    }

    /// What the peer wrote, once there is some.
    pub(crate) fn read(&mut self, rt: &HostRuntime, buf: &mut [u8]) -> io::Result<usize>
        ensures { IfOk result (λ n. n ≤ length buf.new) }
    {
        let n = self.kept.take(buf);
        if n > 0 {
            return Ok(n);
        }
        let start = Instant::now(rt)?;
        let mut pauses = Pauses::new();
        for _ in 0..u64::MAX {
            match self.stream.read(buf) {
                Err(error) if is_for_the_moment(error.kind()) => {}
                Err(error) if is_gone(error.kind()) => return Ok(0),
                ended => return ended,
            }
            if is_beyond(rt, self.limit, start)? {
                break;
            }
            pauses.pause(rt);
        }
        Err(silence())
    }

    /// Hands the peer the first bytes of the piece. What it no longer takes is dropped.
    pub(crate) fn write(&mut self, rt: &HostRuntime, piece: &[u8]) -> io::Result<usize>
        ensures { IfOk result (λ n. n ≤ length piece.now) }
    {
        let start = Instant::now(rt)?;
        let mut pauses = Pauses::new();
        for _ in 0..u64::MAX {
            match self.stream.write(piece) {
                Err(error) if is_for_the_moment(error.kind()) => {}
                Err(error) if is_gone(error.kind()) => return Ok(piece.len()),
                ended => return ended,
            }
            if self.keep_some()? {
                continue;
            }
            if is_beyond(rt, self.limit, start)? {
                break;
            }
            pauses.pause(rt);
        }
        Err(silence())
    }

    /// Whether some of what the peer wrote could be read and kept.
    fn keep_some(&mut self) -> io::Result<bool> {
        if !self.kept.has_room() {
            return Ok(false);
        }
        let mut piece = [0u8; DROPPED_PIECE];
        match self.stream.read(&mut piece) {
            Ok(n) => {
                self.kept.put(&piece[..n])?;
                Ok(n > 0)
            }
            // What fails here fails where it is asked for.
            Err(_) => Ok(false),
        }
    }

    /// From now on the peer may be silent for so long at most.
    pub(crate) fn set_limit(&mut self, limit: Duration) {
        self.limit = Some(limit);
    }

    /// Ends what the peer hears.
    pub(crate) fn close(&mut self) {
        // A connection that has ended can't be shut any more.
        let _ = self.stream.shutdown(Shutdown::Write);
    }

    /// Ends what the peer hears, and waits for its end. What it still writes is dropped, for four mebibytes
    /// and two seconds at most, and then the connection is closed.
    pub(crate) fn finish(&mut self, rt: &HostRuntime) -> io::Result<()> {
        self.close();
        let start = Instant::now(rt)?;
        let mut dropped = 0usize;
        let mut piece = [0u8; DROPPED_PIECE];
        for _ in 0..u64::MAX {
            let n = self.read(rt, &mut piece)?;
            dropped = dropped.saturating_add(n);
            if n == 0 || dropped >= DROPPED_BYTES || is_over(rt, dropping_time(), start)? {
                break;
            }
        }
        Ok(())
    }
}

/// Whether a fault says that the peer has closed the connection, maybe without having read all.
fn is_gone(kind: ErrorKind) -> bool {
    matches!(
        kind,
        ErrorKind::BrokenPipe | ErrorKind::ConnectionReset | ErrorKind::ConnectionAborted
    )
}
