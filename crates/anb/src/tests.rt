//! The program as a child, over TCP on this machine and over pipes.

use crate::{status, words};
use anb_real::fill_standard_descriptors;
use std::io::{Read, Write};
use std::net::{OpenListener, TcpListener, TcpStream};
use std::process::{Child, Command, Stdio};
use std::test::Fail;
use std::time::Duration;
use std::{env, fs, io, thread};

const PING: &str =
    "Protocol: Ping; Types: Agent A, B; Number N; Knowledge: A: N; B: N; Actions: A -> B: N; B -> A: N;";

const TWICE: &str =
    "Protocol: Twice; Types: Agent A, B; Number N; Knowledge: A: N; B: N; Actions: A -> B: N; B -> A: N; A -> B: N; B -> A: N;";

const FRAME: [u8; 6] = [0, 0, 0, 2, b'a', b'b'];

/// The child that the other tests start: behind its own name and this test's stand the words that it
/// runs. The runner of tests starts it without them.
#[test]
fn child(rt: HostRuntime) -> Result<(), Fail> {
    if words(rt, 2)?.as_slice().is_empty() {
        return Ok(());
    }
    fill_standard_descriptors(&rt);
    assert_eq!(rt; status(rt, 2).number(), 0);
    Ok(())
}

/// The child of the next test. The runner of tests starts it without words.
#[test]
fn unread_child(rt: HostRuntime) -> Result<(), Fail> {
    if !words(rt, 2)?.as_slice().is_empty() {
        assert_eq!(rt; status(rt, 2).number(), 15);
    }
    Ok(())
}

#[test]
fn a_reader_that_has_gone_is_a_fault_of_writing(rt: HostRuntime) -> Result<(), Fail> {
    let program = env::args(&rt)?.next().ok_or("no name")?;
    let (reader, writer) = io::pipe(&rt)?;
    drop(reader);
    let mut command = Command::new(rt.alloc(), program.as_str())?;
    let command = command.arg("tests::unread_child")?.arg("help")?;
    let mut unread = command.stdout(writer).spawn(&rt)?;
    assert!(rt; unread.wait()?.success());
    Ok(())
}

/// The child with this command for a role of a narration, and with what a shell makes of these
/// redirections. The names of its files are this name's, so that no other test writes them.
fn command_of(
    rt: HostRuntime,
    what: &str,
    narration: &str,
    role: &str,
    name: &str,
    redirections: &str,
) -> Result<Command, Fail> {
    let file = format!(in rt.alloc(); "{name}.anb")?;
    let values = format!(in rt.alloc(); "{name}.values")?;
    fs::write(&rt, file.as_str(), narration.as_bytes())?;
    fs::write(&rt, values.as_str(), b"N = \"ab\"")?;
    let program = env::args(&rt)?.next().ok_or("no name")?;
    let line = format!(in rt.alloc(); "exec \"$0\" \"$@\" {redirections}")?;
    let mut command = Command::new(rt.alloc(), "/bin/sh")?;
    let _ = command.arg("-c")?.arg(&line)?.arg(&program)?;
    let _ = command.arg("tests::child")?.arg(what)?.arg(&file)?;
    let _ = command.arg(role)?.arg(&values)?;
    Ok(command)
}

/// Starts the child with this command for the role at this place.
fn start(
    rt: HostRuntime,
    what: &str,
    role: &str,
    flag: &str,
    at: &str,
    redirections: &str,
) -> Result<Child, Fail> {
    let mut command = command_of(rt, what, PING, role, at, redirections)?;
    Ok(command.arg(flag)?.arg(at)?.spawn(&rt)?)
}

#[test]
fn a_role_dials_its_peer(rt: HostRuntime) -> Result<(), Fail> {
    let listener = TcpListener::bind(&rt, "127.0.0.1:0")?;
    let at = format!(in rt.alloc(); "{}", listener.local_addr()?)?;
    let mut role = start(rt, "play", "A", "--dial", &at, "")?;
    let (mut peer, _) = listener.accept()?;
    let mut frame = [0u8; 6];
    peer.read_exact(&mut frame)?;
    assert_eq!(rt; frame, FRAME);
    peer.write_all(&frame)?;
    drop(peer);
    assert!(rt; role.wait()?.success());
    Ok(())
}

#[test]
fn the_line_of_a_stop_never_goes_to_the_peer(rt: HostRuntime) -> Result<(), Fail> {
    let listener = TcpListener::bind(&rt, "127.0.0.1:0")?;
    let at = format!(in rt.alloc(); "{}", listener.local_addr()?)?;
    for closed in ["2>&-", "0<&- 2>&-", "0<&- 1>&- 2>&-"] {
        let mut role = start(rt, "play", "A", "--dial", &at, closed)?;
        let (mut peer, _) = listener.accept()?;
        peer.write_all(b"\0\0\0\x02ac")?;
        let mut all = Vec::new(rt.alloc());
        let _ = peer.read_to_end(&mut all)?;
        assert_eq!(rt; all.as_slice(), FRAME.as_slice(), "{closed}");
        drop(peer);
        let _ = role.wait()?;
    }
    Ok(())
}

#[test]
fn a_role_listens_for_its_peer(rt: HostRuntime) -> Result<(), Fail> {
    let at = free_address(rt)?;
    let mut role = start(rt, "play", "B", "--listen", &at, "")?;
    let mut peer = dial(rt, &at)?;
    peer.write_all(&FRAME)?;
    let mut frame = [0u8; 6];
    peer.read_exact(&mut frame)?;
    assert_eq!(rt; frame, FRAME);
    drop(peer);
    assert!(rt; role.wait()?.success());
    Ok(())
}

/// Two sessions of B are started, and the second gets its arrival first. Each event is answered
/// before the next one is sent.
#[test]
fn a_host_listens_for_its_peer(rt: HostRuntime) -> Result<(), Fail> {
    let at = free_address(rt)?;
    let mut host = start(rt, "host", "B", "--listen", &at, "")?;
    let mut peer = dial(rt, &at)?;
    peer.write_all(b"\0\0\0\0\x07\0\0\0\0\x03")?;
    for session in [3u8, 7] {
        peer.write_all(&[1, 0, 0, 0, session, 0, 0, 0, 2, b'a', b'b'])?;
        let mut message = [0u8; 11];
        peer.read_exact(&mut message)?;
        assert_eq!(rt; message, [0, 0, 0, 0, session, 0, 0, 0, 2, b'a', b'b']);
        let mut done = [0u8; 5];
        peer.read_exact(&mut done)?;
        assert_eq!(rt; done, [2, 0, 0, 0, session]);
    }
    drop(peer);
    assert!(rt; host.wait()?.success());
    Ok(())
}

#[test]
fn over_a_pipe_each_message_is_there_before_the_next_arrival(rt: HostRuntime) -> Result<(), Fail> {
    let mut command = command_of(rt, "play", TWICE, "A", "pipe", "")?;
    let mut role = command
        .stdin(Stdio::piped())
        .stdout(Stdio::piped())
        .spawn(&rt)?;
    let mut given = role.stdin.take().ok_or("no input")?;
    let mut sent = role.stdout.take().ok_or("no output")?;
    for _ in 0..2 {
        assert!(rt; comes(&mut sent)?);
        given.write_all(&FRAME)?;
    }
    assert!(rt; role.wait()?.success());
    drop(given);
    Ok(())
}

#[test]
fn a_stop_ends_the_program_though_its_input_stays_open(rt: HostRuntime) -> Result<(), Fail> {
    let mut command = command_of(rt, "play", TWICE, "A", "stop", "2>&-")?;
    let mut role = command
        .stdin(Stdio::piped())
        .stdout(Stdio::piped())
        .spawn(&rt)?;
    let mut given = role.stdin.take().ok_or("no input")?;
    let mut sent = role.stdout.take().ok_or("no output")?;
    assert!(rt; comes(&mut sent)?);
    given.write_all(b"\0\0\0\x02ac")?;
    assert!(rt; !comes(&mut sent)?);
    assert!(rt; !role.wait()?.success());
    drop(given);
    Ok(())
}

/// Reads up to the end of the next frame, where one comes. What the runner of tests prints stands
/// before it.
fn comes(sent: &mut impl Read) -> Result<bool, Fail> {
    let mut last = [0u8; 6];
    for _ in 0..4096 {
        let mut byte = [0u8; 1];
        if sent.read(&mut byte)? == 0 {
            return Ok(false);
        }
        last.copy_within(1.., 0);
        last[5] = byte[0];
        if last == FRAME {
            return Ok(true);
        }
    }
    Ok(false)
}

/// An address on this machine that nobody listens at.
fn free_address(rt: HostRuntime) -> Result<String, Fail> {
    let listener = TcpListener::bind(&rt, "127.0.0.1:0")?;
    Ok(format!(in rt.alloc(); "{}", listener.local_addr()?)?)
}

/// Dials until someone listens, for some seconds.
fn dial(rt: HostRuntime, at: &str) -> Result<TcpStream, Fail> {
    for _ in 0..200 {
        if let Ok(stream) = TcpStream::connect(&rt, at) {
            return Ok(stream);
        }
        thread::sleep(&rt, Duration::from_millis(50));
    }
    Err("nobody listens".into())
}
