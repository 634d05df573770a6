//! A child program that runs, with its two pipes.

ghost use Rattle.std.specs.Prelude.{◌≤◌, length, IfOk};

use crate::kept::Kept;
use crate::left_over::LeftOver;
use crate::pauses::{Pauses, is_over};
use anb_base::Text;
use std::alloc::Global;
use std::io;
use std::io::{ErrorKind, Read, Write};
use std::os::fd::{AsRawFd, OwnedFd, RawFd};
use std::os::unix::net::UnixStream;
use std::process::{Child, ChildStdin, ChildStdout, Command, ExitStatus, Stdio};
use std::time::{Duration, Instant};

/// How many bytes of the output of a child that is finished are read and dropped at most, and for how
/// many milliseconds. What it writes beyond that fails.
pub(crate) const DROPPED_BYTES: usize = 4 * 1024 * 1024;

const DROPPING_TIME: u64 = 2_000;

/// How many bytes are read at once there, or kept.
pub(crate) const DROPPED_PIECE: usize = 4_096;

/// The descriptor above those of the standard streams.
const FIRST_FREE: RawFd = 3;

/// A child that was started, its input while that is open, and its output, which both don't block.
#[derive(Drop)]
pub(crate) struct Running {
    /// For how long it may be silent at most.
    limit: Option<Duration>,
    child: Child,
    input: Option<ChildStdin>,
    output: Option<ChildStdout>,
    /// What it wrote while it took no input, where that is kept.
    kept: Option<Kept>,
    /// When it was found to have ended.
    ended: Option<Instant>,
    is_left: bool,
    /// What it said behind its last message, as far as that was read.
    left_over: LeftOver,
}

impl Running {
    /// Starts the program with these words, and with this as its standard error: a file, or that of this
    /// program, also where that was closed.
    pub(crate) fn start(
        rt: &HostRuntime,
        program: &str,
        limit: Option<Duration>,
        words: &[Text],
        errors: Stdio,
    ) -> io::Result<Self> {
        let mut command = Command::new(rt.alloc(), program)?;
        for word in words {
            let _ = command.arg(word.as_str())?;
        }
        let _ = command
            .stdin(Stdio::piped())
            .stdout(Stdio::piped())
            .stderr(errors);
        let mut running = Running {
            limit,
            child: command.spawn(rt)?,
            input: None,
            output: None,
            kept: None,
            ended: None,
            is_left: false,
            left_over: LeftOver::new(),
        };
        match running.take_pipes() {
            Ok(()) => Ok(running),
            Err(error) => {
                running.kill();
                Err(error)
            }
        }
    }

    /// Takes the pipes of the child, so that neither blocks.
    fn take_pipes(&mut self) -> io::Result<()> {
        if let Some(input) = self.child.stdin.take() {
            self.input = Some(ChildStdin::from(unblocked(OwnedFd::from(input))?));
        }
        if let Some(output) = self.child.stdout.take() {
            self.output = Some(ChildStdout::from(unblocked(OwnedFd::from(output))?));
        }
        Ok(())
    }

    /// From now on what it writes while it takes no input is read, up to four mebibytes, and kept until it
    /// is asked for. A child that first wants to be heard then goes on, however small its pipes are.
    pub(crate) fn keep(&mut self, alloc: Global) {
        self.kept = Some(Kept::new(alloc));
    }

    /// What the child wrote, once there is some. Its output is also at its end where it has ended and
    /// whoever else holds its pipe writes nothing for two seconds.
    pub(crate) fn read(&mut self, rt: &HostRuntime, buf: &mut [u8]) -> io::Result<usize>
        ensures { IfOk result (λ n. n ≤ length buf.new) }
    {
        if let Some(kept) = &mut self.kept {
            let n = kept.take(buf);
            if n > 0 {
                return Ok(n);
            }
        }
        let start = Instant::now(rt)?;
        let mut pauses = Pauses::new();
        for _ in 0..u64::MAX {
            let Some(output) = &mut self.output else {
                return Ok(0);
            };
            match output.read(buf) {
                Err(error) if is_for_the_moment(error.kind()) => {}
                ended => return ended,
            }
            if self.is_long_over(rt)? {
                return Ok(0);
            }
            if is_beyond(rt, self.limit, start)? {
                break;
            }
            pauses.pause(rt);
        }
        Err(silence())
    }

    /// Hands the child the first bytes of the piece. What it no longer takes is dropped.
    pub(crate) fn write(&mut self, rt: &HostRuntime, piece: &[u8]) -> io::Result<usize>
        ensures { IfOk result (λ n. n ≤ length piece.now) }
    {
        let start = Instant::now(rt)?;
        let mut pauses = Pauses::new();
        for _ in 0..u64::MAX {
            let Some(input) = &mut self.input else {
                return Ok(piece.len());
            };
            match input.write(piece) {
                Err(error) if error.kind() == ErrorKind::BrokenPipe => return Ok(piece.len()),
                Err(error) if is_for_the_moment(error.kind()) => {}
                ended => return ended,
            }
            if self.keep_some()? {
                continue;
            }
            if self.is_long_over(rt)? {
                return Ok(piece.len());
            }
            if is_beyond(rt, self.limit, start)? {
                break;
            }
            pauses.pause(rt);
        }
        Err(silence())
    }

    /// Whether some of what the child wrote could be read and kept.
    fn keep_some(&mut self) -> io::Result<bool> {
        let (Some(kept), Some(output)) = (&mut self.kept, &mut self.output) else {
            return Ok(false);
        };
        if !kept.has_room() {
            return Ok(false);
        }
        let mut piece = [0u8; DROPPED_PIECE];
        match output.read(&mut piece) {
            Ok(n) => {
                kept.put(&piece[..n])?;
                Ok(n > 0)
            }
            // What fails here fails where it is asked for.
            Err(_) => Ok(false),
        }
    }

    /// Whether the child ended two seconds ago or more.
    fn is_long_over(&mut self, rt: &HostRuntime) -> io::Result<bool> {
        if self.ended.is_none() && self.child.try_wait()?.is_some() {
            self.ended = Some(Instant::now(rt)?);
        }
        match self.ended {
            Some(ended) => is_over(rt, dropping_time(), ended),
            None => Ok(false),
        }
    }

    /// From now on it may be silent for so long at most.
    pub(crate) fn set_limit(&mut self, limit: Duration) {
        self.limit = Some(limit);
    }

    /// Ends the child's input.
    pub(crate) fn close(&mut self) {
        self.input = None;
    }

    /// Ends the child's input, waits for the child, and answers what it ended with. What it still
    /// writes is dropped.
    pub(crate) fn finish(&mut self, rt: &HostRuntime) -> io::Result<ExitStatus> {
        self.input = None;
        let start = Instant::now(rt)?;
        let mut heard = start;
        let mut pauses = Pauses::new();
        let mut dropped = 0usize;
        for _ in 0..u64::MAX {
            if let Some(status) = self.child.try_wait()? {
                self.drop_rest();
                return Ok(status);
            }
            let count = self.drop_some();
            dropped = dropped.saturating_add(count);
            if dropped >= DROPPED_BYTES || is_over(rt, dropping_time(), start)? {
                self.output = None;
            }
            if count > 0 {
                heard = Instant::now(rt)?;
                continue;
            }
            if is_beyond(rt, self.limit, heard)? {
                break;
            }
            pauses.pause(rt);
        }
        Err(silence())
    }

    /// Finishes the child, and answers the number of its status, where it ended by itself.
    pub(crate) fn finish_with_status(&mut self, rt: &HostRuntime) -> io::Result<u8> {
        number_of(self.finish(rt)?)
    }

    /// Reads and drops some of what the child wrote, and answers how much. Output that is at its end
    /// is closed.
    fn drop_some(&mut self) -> usize {
        let mut piece = [0u8; DROPPED_PIECE];
        let Some(output) = &mut self.output else {
            return 0;
        };
        match output.read(&mut piece) {
            Ok(n) if n > 0 => {
                self.left_over.count(&piece[..n]);
                n
            }
            Err(error) if is_for_the_moment(error.kind()) => 0,
            _ => {
                self.output = None;
                0
            }
        }
    }

    /// Reads and drops what is still there of the output of a child that has ended.
    fn drop_rest(&mut self) {
        for _ in 0..DROPPED_BYTES / DROPPED_PIECE {
            if self.drop_some() == 0 {
                break;
            }
        }
    }

    /// Ends the child's input, and waits for two seconds until it ends by itself.
    pub(crate) fn wait_for_end(&mut self, rt: &HostRuntime) -> io::Result<Option<ExitStatus>> {
        self.input = None;
        let start = Instant::now(rt)?;
        let mut pauses = Pauses::new();
        for _ in 0..u64::MAX {
            if let Some(status) = self.child.try_wait()? {
                return Ok(Some(status));
            }
            if is_over(rt, dropping_time(), start)? {
                break;
            }
            pauses.pause(rt);
        }
        Ok(None)
    }

    /// Kills the child where it still runs, and waits for it. One that can't be killed, as that of
    /// another user, isn't waited for, and is left.
    pub(crate) fn kill(&mut self) {
        // Its input ends only then: it has nothing more to say.
        self.is_left = self.killed().is_err();
        self.input = None;
        self.output = None;
    }

    fn killed(&mut self) -> io::Result<()> {
        if self.child.try_wait()?.is_none() {
            self.child.kill()?;
            let _ = self.child.wait()?;
        }
        Ok(())
    }

    pub(crate) fn is_left(&self) -> bool {
        self.is_left
    }

    /// What it said behind its last message, where it was finished.
    pub(crate) fn left_over(&self) -> LeftOver {
        self.left_over
    }

    /// The number of its process.
    pub(crate) fn id(&self) -> u32 {
        self.child.id()
    }
}

/// Whether more time went by since then than there is, where there is a limit.
pub(crate) fn is_beyond(
    rt: &HostRuntime,
    limit: Option<Duration>,
    start: Instant,
) -> io::Result<bool> {
    match limit {
        Some(limit) => is_over(rt, limit, start),
        None => Ok(false),
    }
}

/// The fault of a child that was silent for too long.
pub(crate) fn silence() -> io::Error {
    io::Error::from(ErrorKind::TimedOut)
}

/// Whether a fault is that one.
pub(crate) fn is_silence(error: &io::Error) -> bool {
    error.kind() == ErrorKind::TimedOut
}

pub(crate) fn dropping_time() -> Duration {
    Duration::from_millis(DROPPING_TIME)
}

/// A pipe whose reads and writes don't wait. It may not be a standard stream that was closed.
fn unblocked(pipe: OwnedFd) -> io::Result<OwnedFd> {
    if pipe.as_raw_fd() < FIRST_FREE {
        return Err(io::Error::from(ErrorKind::AddrInUse));
    }
    // A stream is what std lets set it for any descriptor.
    let pipe = UnixStream::from(pipe);
    pipe.set_nonblocking(true)?;
    Ok(OwnedFd::from(pipe))
}

/// Whether a read or a write may be made again, since nothing is there yet or a signal came.
pub(crate) fn is_for_the_moment(kind: ErrorKind) -> bool {
    matches!(kind, ErrorKind::WouldBlock | ErrorKind::Interrupted)
}

/// The number of a status, unless a signal ended the child.
fn number_of(status: ExitStatus) -> io::Result<u8> {
    match status.code() {
        Some(code) => match u8::try_from(code) {
            Ok(code) => Ok(code),
            Err(_) => Err(io::Error::from(ErrorKind::InvalidData)),
        },
        None => Err(io::Error::from(ErrorKind::Interrupted)),
    }
}
