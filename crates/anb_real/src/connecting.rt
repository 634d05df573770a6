//! How a connection is made, within a time where there is one.

use crate::again::write_again;
use crate::connection::left_of;
use crate::descriptors::FIRST_FREE;
use anb_base::Place;
use std::io::{ErrorKind, Write};
use std::net::{Net, OpenListener, SocketAddr, TcpListener, TcpStream, ToSocketAddrs};
use std::os::fd::AsRawFd;
use std::time::{Duration, Instant};
use std::{io, thread};

/// The pause between two tries to connect or to accept, in milliseconds.
const PAUSE: u64 = 10;

/// The connection of the place, or none where it is standard input and output.
pub(crate) fn connect(
    rt: &HostRuntime,
    place: &Place,
    wait: Option<Duration>,
) -> io::Result<Option<TcpStream>> {
    match (place, wait) {
        (Place::Stdio, _) => Ok(None),
        (Place::Dial(at), wait) => Ok(Some(dial(rt, at.as_str(), wait)?)),
        (Place::Listen(at), None) => Ok(Some(usable(listen(rt, at.as_str())?.accept()?.0)?)),
        (Place::Listen(at), Some(wait)) => {
            Ok(Some(usable(accept_within(rt, at.as_str(), wait)?)?))
        }
    }
}

/// A connection with whoever listens there. With a limit it is dialled again and again until that time
/// is over.
pub fn dial(rt: &HostRuntime, at: &str, wait: Option<Duration>) -> io::Result<TcpStream> {
    match wait {
        None => usable(dial_once(rt, at)?),
        Some(wait) => usable(dial_within(rt, at, wait)?),
    }
}

/// A new connection, whose writes go out at once.
fn usable(stream: TcpStream) -> io::Result<TcpStream> {
    // A standard stream that was closed is no connection.
    if stream.as_raw_fd() < FIRST_FREE {
        return Err(io::Error::from(ErrorKind::AddrInUse));
    }
    stream.set_nodelay(true)?;
    Ok(stream)
}

fn dial_once(rt: &HostRuntime, at: &str) -> io::Result<TcpStream> {
    match of_another(TcpStream::connect(rt, at)?) {
        Some(stream) => Ok(stream),
        None => Err(io::Error::from(ErrorKind::ConnectionRefused)),
    }
}

/// Dials again and again until a connection stands or the time is over.
fn dial_within(rt: &HostRuntime, at: &str, wait: Duration) -> io::Result<TcpStream> {
    let start = Instant::now(rt)?;
    for _ in 0..u64::MAX {
        if let Some(stream) = dial_each(rt, at, wait, start)? {
            return Ok(stream);
        }
        thread::sleep(rt, pause_of(left_of(rt, wait, start)?));
    }
    Err(io::Error::from(ErrorKind::TimedOut))
}

/// Dials each address once, where the name can be looked up. Each has an equal part of the time that
/// is left.
fn dial_each(
    rt: &HostRuntime,
    at: &str,
    wait: Duration,
    start: Instant,
) -> io::Result<Option<TcpStream>> {
    let addresses = match at.to_socket_addrs(rt) {
        Ok(addresses) => addresses,
        Err(error) if is_lasting(error.kind()) => return Err(error),
        Err(_) => return Ok(None),
    };
    let mut untried = addresses.size_hint().0;
    for address in addresses {
        let parts = u32::try_from(untried).unwrap_or(1).max(1);
        let part = left_of(rt, wait, start)? / parts;
        if let Ok(stream) = TcpStream::connect_timeout(rt, &address, part) {
            if let Some(stream) = of_another(stream) {
                return Ok(Some(stream));
            }
        }
        untried = untried.saturating_sub(1);
    }
    Ok(None)
}

/// Whether an address can never be looked up: what isn't one, or without memory.
fn is_lasting(kind: ErrorKind) -> bool {
    matches!(kind, ErrorKind::InvalidInput | ErrorKind::OutOfMemory)
}

/// The connection, where it is one with another. Where nobody listens at a port from which
/// connections go out, dialling it may connect with itself. Such a connection is reset, by a byte that
/// nobody reads, so that its port is free at once.
fn of_another(mut stream: TcpStream) -> Option<TcpStream> {
    if !has_one_end(&stream) {
        return Some(stream);
    }
    let pause = Duration::from_millis(PAUSE);
    if stream.set_read_timeout(Some(pause)).is_ok() && stream.write(b"x").is_ok() {
        let _ = stream.peek(&mut [0]);
    }
    None
}

/// Whether the two ends of a connection are one address.
fn has_one_end(stream: &TcpStream) -> bool {
    match (stream.local_addr(), stream.peer_addr()) {
        (Ok(ours), Ok(theirs)) => ours == theirs,
        _ => false,
    }
}

/// Listens there. Where the port is 0 a free one is taken, and told on standard error.
fn listen(rt: &HostRuntime, at: &str) -> io::Result<TcpListener> {
    let listener = TcpListener::bind(rt, at)?;
    if has_free_port(at) {
        tell(rt, listener.local_addr()?)?;
    }
    Ok(listener)
}

fn has_free_port(at: &str) -> bool {
    match at.rsplit_once(':') {
        Some((_, port)) => port.parse::<u16>() == Ok(0),
        None => false,
    }
}

fn tell(rt: &HostRuntime, at: SocketAddr) -> io::Result<()> {
    let line = format!(in rt.alloc(); "anb: listening at {at}\n")?;
    // Whoever closed standard error doesn't want to know.
    let _ = write_again(&mut rt.stderr(), line.as_bytes());
    Ok(())
}

/// Waits for a peer until the time is over.
fn accept_within(rt: &HostRuntime, at: &str, wait: Duration) -> io::Result<TcpStream> {
    let start = Instant::now(rt)?;
    let listener = listen(rt, at)?;
    listener.set_nonblocking(true)?;
    for _ in 0..u64::MAX {
        match listener.accept() {
            Ok((stream, _)) => return Ok(stream),
            Err(error) if error.kind() == ErrorKind::WouldBlock => {}
            Err(error) => return Err(error),
        }
        thread::sleep(rt, pause_of(left_of(rt, wait, start)?));
    }
    Err(io::Error::from(ErrorKind::TimedOut))
}

/// The pause, where so much time is left.
fn pause_of(left: Duration) -> Duration {
    Duration::from_millis(PAUSE).min(left)
}
