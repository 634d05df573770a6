//! One TCP connection under a time limit, where it has one: how it is read, written and ended.

ghost use Rattle.std.specs.Prelude.{◌≤◌, length, IfOk};

use crate::again::TRIES;
use crate::frames::Progress;
use std::io;
use std::io::{ErrorKind, Read, Write};
use std::net::{Shutdown, TcpStream};
use std::time::{Duration, Instant};

/// How many bytes of what the peer still sends are read and dropped at the end at most.
const DRAIN_BYTES: usize = 4 * 1024 * 1024;

/// For how many milliseconds that is done at most, and after a wait that took too long.
const DRAIN_TIME: u64 = 2_000;

const LATE_DRAIN_TIME: u64 = 200;

/// How many bytes are read at once there.
const DRAIN_PIECE: usize = 4_096;

/// A connection. With a limit, no first byte of a frame is waited for longer, no frame takes longer
/// from its first byte to its last, and no piece takes longer to be written.
#[derive(Drop)]
pub(crate) struct Connection {
    stream: TcpStream,
    limit: Option<Duration>,
    /// How far the frame is that is read, and when its first byte came.
    progress: Progress,
    arriving: Option<Instant>,
    /// How much is left of the piece that is written, and when that began.
    unwritten: usize,
    writing: Option<Instant>,
    is_late: bool,
}

impl Connection {
    pub(crate) fn new(stream: TcpStream, limit: Option<Duration>) -> Self {
        Connection {
            stream,
            limit,
            progress: Progress::at_border(),
            arriving: None,
            unwritten: 0,
            writing: None,
            is_late: false,
        }
    }

    pub(crate) fn set_limit(&mut self, limit: Duration) {
        self.limit = Some(limit);
    }

    pub(crate) fn read(&mut self, rt: &HostRuntime, buf: &mut [u8]) -> io::Result<usize>
        ensures { IfOk result (λ n. n ≤ length buf.new) }
    {
        let start = self.start(rt, self.arriving)?;
        for _ in 0..TRIES {
            let left = self.left(rt, start)?;
            self.stream.set_read_timeout(left)?;
            match self.stream.read(buf) {
                Ok(n) => {
                    self.take(rt, buf, n)?;
                    return Ok(n);
                }
                Err(error) => self.bear(error)?,
            }
        }
        Err(io::Error::from(ErrorKind::Interrupted))
    }

    /// Whether a wait was over before the first byte of a frame came.
    pub(crate) fn is_silent(&self) -> bool {
        self.is_late && self.progress.is_at_border()
    }

    pub(crate) fn write(&mut self, rt: &HostRuntime, piece: &[u8]) -> io::Result<usize>
        ensures { IfOk result (λ n. n ≤ length piece.now) }
    {
        // A piece of which a part went out is handed in again without that part.
        if self.unwritten != piece.len() {
            self.writing = None;
        }
        self.writing = self.start(rt, self.writing)?;
        for _ in 0..TRIES {
            let left = self.left(rt, self.writing)?;
            self.stream.set_write_timeout(left)?;
            match self.stream.write(piece) {
                Ok(n) => {
                    self.unwritten = piece.len() - n;
                    return Ok(n);
                }
                Err(error) => self.bear(error)?,
            }
        }
        Err(io::Error::from(ErrorKind::Interrupted))
    }

    /// When what is done now began: then, or else now. Without a limit that doesn't matter.
    fn start(&self, rt: &HostRuntime, then: Option<Instant>) -> io::Result<Option<Instant>> {
        match (self.limit, then) {
            (None, _) => Ok(None),
            (Some(_), Some(then)) => Ok(Some(then)),
            (Some(_), None) => Ok(Some(Instant::now(rt)?)),
        }
    }

    /// What is left of the limit, where there is one.
    fn left(&mut self, rt: &HostRuntime, start: Option<Instant>) -> io::Result<Option<Duration>> {
        let (Some(limit), Some(start)) = (self.limit, start) else {
            return Ok(None);
        };
        let left = left_of(rt, limit, start);
        self.is_late = left.is_err();
        Ok(Some(left?))
    }

    /// Goes on where a signal interrupted a call.
    fn bear(&mut self, error: io::Error) -> io::Result<()> {
        match error.kind() {
            ErrorKind::Interrupted => Ok(()),
            ErrorKind::WouldBlock => {
                self.is_late = true;
                Err(error)
            }
            _ => Err(error),
        }
    }

    /// Keeps in mind how far the frame is.
    fn take(&mut self, rt: &HostRuntime, buf: &[u8], n: usize) -> io::Result<()>
        requires { n ≤ length buf.now }
    {
        if self.limit.is_none() {
            return Ok(());
        }
        self.progress.take(buf.len(), &buf[..n]);
        self.arriving = if self.progress.is_at_border() {
            None
        } else {
            self.start(rt, self.arriving)?
        };
        Ok(())
    }

    /// Ends a connection so that the peer gets all that was written. Closing it while bytes of the
    /// peer are unread would throw away what isn't sent yet, so these are read first, up to a bound in
    /// bytes and in time.
    pub(crate) fn finish(mut self, rt: &HostRuntime) -> io::Result<()> {
        self.stream.shutdown(Shutdown::Write)?;
        let start = Instant::now(rt)?;
        let time = self.drain_time();
        let mut dropped = [0u8; DRAIN_PIECE];
        let mut count = 0usize;
        for _ in 0..DRAIN_BYTES {
            self.stream
                .set_read_timeout(Some(left_of(rt, time, start)?))?;
            match self.stream.read(&mut dropped) {
                Ok(0) => break,
                Ok(n) => count = count.saturating_add(n),
                Err(error) => self.bear(error)?,
            }
            if count >= DRAIN_BYTES {
                break;
            }
        }
        Ok(())
    }

    fn drain_time(&self) -> Duration {
        if self.is_late {
            return Duration::from_millis(LATE_DRAIN_TIME);
        }
        let time = Duration::from_millis(DRAIN_TIME);
        match self.limit {
            Some(limit) => time.min(limit),
            None => time,
        }
    }
}

/// What is left of a time since then. Where nothing is left, that is an error.
pub(crate) fn left_of(rt: &HostRuntime, time: Duration, start: Instant) -> io::Result<Duration> {
    let left = time.saturating_sub(start.elapsed(rt)?);
    if left.is_zero() {
        return Err(io::Error::from(ErrorKind::TimedOut));
    }
    Ok(left)
}
