//! The wire over loopback, and files.

use anb_base::{Failed, Place, Shelf, ShelfNo, Text, Wire, read_full, write_whole};
use anb_real::{RealShelf, RealStore, RealWire};
use anb_store::{Store, StoreNo};
use std::alloc::{AllocError, Global};
use std::io::{Read, Write};
use std::net::{OpenListener, SocketAddr, TcpListener, TcpStream};
use std::os::unix::fs::PermissionsExt;
use std::process::{Child, Command};
use std::test::Fail;
use std::{env, fs, io};

/// More bytes than the system sends before the peer reads.
const LONG: usize = 500_000;

/// The file of the test of the shelf.
const FILE: &str = "shelf_test_file";

/// The folder of the first test of the store, and the file there.
const FOLDER: &str = "store_test_folder";

const KEPT: &str = "store_test_folder/kept";

/// How long the name of a file is at most.
const LONGEST_NAME: usize = 255;

#[test]
fn a_real_wire_talks_over_loopback(rt: HostRuntime) -> Result<(), Fail> {
    let listener = listener(rt)?;
    let mut wire = RealWire::new(rt);
    assert!(rt; dials(rt, &mut wire, &listener));
    assert!(rt; talks(&mut wire, &listener));
    assert!(rt; is_nowhere(rt, &mut wire));
    Ok(())
}

/// Whether the wire hears its peer, and the peer hears the wire.
fn talks(wire: &mut RealWire, listener: &TcpListener) -> bool {
    let Ok((mut peer, _)) = listener.accept() else {
        return false;
    };
    hears_ping(wire, &mut peer) && says_pong(wire, &mut peer)
}

fn hears_ping(wire: &mut RealWire, peer: &mut TcpStream) -> bool {
    let mut heard = [0u8; 4];
    peer.write_all(b"ping").is_ok() && read_full(wire, &mut heard) == Ok(4) && heard == *b"ping"
}

fn says_pong(wire: &mut RealWire, peer: &mut TcpStream) -> bool {
    let mut heard = [0u8; 4];
    write_whole(wire, b"pong") == Ok(()) && peer.read_exact(&mut heard).is_ok() && heard == *b"pong"
}

/// Whether an address that there isn't can't be reached.
fn is_nowhere(rt: HostRuntime, wire: &mut RealWire) -> bool {
    match text(rt.alloc(), "nowhere") {
        Ok(at) => wire.reach(&Place::Dial(at)) == Err(Failed),
        Err(_) => false,
    }
}

/// The child that the next test starts, with an address behind its own name and this test's. The
/// runner of tests starts it without one.
#[test]
fn child(rt: HostRuntime) -> Result<(), Fail> {
    if let Some(at) = word(rt, 2)? {
        assert!(rt; talks_late(rt, &Place::Dial(Text::new(at))));
    }
    Ok(())
}

/// Whether a wire reaches this place, reads one byte and writes many.
fn talks_late(rt: HostRuntime, place: &Place) -> bool {
    let mut wire = RealWire::new(rt);
    wire.wait_at_most(30);
    let talks = wire.reach(place) == Ok(())
        && read_one(&mut wire) == Ok(1)
        && writes_many(rt, &mut wire);
    wire.finish();
    talks
}

fn writes_many(rt: HostRuntime, wire: &mut RealWire) -> bool {
    match vec![in rt.alloc(); b'a'; LONG] {
        Ok(many) => write_whole(wire, &many) == Ok(()),
        Err(_) => false,
    }
}

/// Reads one byte.
fn read_one(wire: &mut RealWire) -> Result<usize, Failed> {
    read_full(wire, &mut [0; 1])
}

#[test]
fn a_peer_that_comes_late_and_sends_too_much_gets_all(rt: HostRuntime) -> Result<(), Fail> {
    let at = listener(rt)?.local_addr()?;
    let mut child = started(rt, at)?;
    assert!(rt; hears_all(rt, at));
    assert!(rt; succeeds(&mut child));
    Ok(())
}

/// The child, to dial this address.
fn started(rt: HostRuntime, at: SocketAddr) -> io::Result<Child> {
    match word(rt, 0)? {
        Some(program) => started_as(rt, &program, &format!(in rt.alloc(); "{at}")?),
        None => Err(io::Error::from(io::ErrorKind::NotFound)),
    }
}

fn started_as(rt: HostRuntime, program: &str, at: &str) -> io::Result<Child> {
    Command::new(rt.alloc(), program)?
        .arg("wires::child")?
        .arg(at)?
        .spawn(&rt)
}

/// Whether a peer that listens here and sends two bytes hears all that the child writes.
fn hears_all(rt: HostRuntime, at: SocketAddr) -> bool {
    match late_peer(rt, at) {
        Ok(peer) => count_of(rt, peer) == Some(LONG),
        Err(_) => false,
    }
}

fn late_peer(rt: HostRuntime, at: SocketAddr) -> io::Result<TcpStream> {
    let (peer, _) = TcpListener::bind(&rt, at)?.accept()?;
    Ok(peer)
}

/// How much comes until the peer ends.
fn count_of(rt: HostRuntime, mut peer: TcpStream) -> Option<usize> {
    let mut all = Vec::new(rt.alloc());
    if peer.write_all(b"xy").is_err() {
        return None;
    }
    peer.read_to_end(&mut all).ok()
}

fn succeeds(child: &mut Child) -> bool {
    match child.wait() {
        Ok(status) => status.success(),
        Err(_) => false,
    }
}

#[test]
fn a_silent_peer_is_a_fault(rt: HostRuntime) -> Result<(), Fail> {
    let listener = listener(rt)?;
    let mut wire = RealWire::new(rt);
    wire.wait_at_most(1);
    assert!(rt; dials(rt, &mut wire, &listener));
    assert!(rt; read_one(&mut wire) == Err(Failed));
    assert!(rt; waits_in_vain(rt, &mut wire));
    Ok(())
}

/// Whether nobody comes where the wire listens.
fn waits_in_vain(rt: HostRuntime, wire: &mut RealWire) -> bool {
    match text(rt.alloc(), "127.0.0.1:0") {
        Ok(at) => wire.reach(&Place::Listen(at)) == Err(Failed),
        Err(_) => false,
    }
}

#[test]
fn a_real_shelf_fetches_a_file_up_to_its_limit(rt: HostRuntime) -> Result<(), Fail> {
    fs::write(&rt, FILE, b"four")?;
    let mut shelf = RealShelf::new(rt);
    let is_fetched = fetches_four(rt, &mut shelf);
    let is_long = matches!(shelf.fetch(rt.alloc(), FILE, 3), Err(ShelfNo::Long));
    fs::remove_file(&rt, FILE)?;
    assert!(rt; is_fetched);
    assert!(rt; is_long);
    assert!(rt; matches!(shelf.fetch(rt.alloc(), FILE, 4), Err(ShelfNo::Failed)));
    Ok(())
}

fn fetches_four(rt: HostRuntime, shelf: &mut RealShelf) -> bool {
    match shelf.fetch(rt.alloc(), FILE, 4) {
        Ok(bytes) => bytes.into_vec().as_slice() == b"four".as_slice(),
        Err(_) => false,
    }
}

#[test]
fn a_real_store_replaces_a_file_whole(rt: HostRuntime) -> Result<(), Fail> {
    fs::create_dir(&rt, FOLDER)?;
    let mut store = RealStore::new(rt);
    let is_made = keeps(rt, &mut store, KEPT, b"a long one") && holds(rt, KEPT, "a long one");
    let is_replaced = keeps(rt, &mut store, KEPT, b"new") && holds(rt, KEPT, "new");
    let is_for_its_owner = mode_of(rt, KEPT)? == 0o600;
    fs::remove_file(&rt, KEPT)?;
    // This fails where anything else was left there.
    fs::remove_dir(&rt, FOLDER)?;
    assert!(rt; is_made);
    assert!(rt; is_replaced);
    assert!(rt; is_for_its_owner);
    assert!(rt; fails(rt, &mut store, KEPT));
    Ok(())
}

/// The file beside it can't be made, since its name would be too long.
#[test]
fn a_file_that_is_not_replaced_stays(rt: HostRuntime) -> Result<(), Fail> {
    let name = "a".repeat(rt.alloc(), LONGEST_NAME)?;
    fs::write(&rt, name.as_str(), b"old")?;
    let is_failed = fails(rt, &mut RealStore::new(rt), name.as_str());
    let stays = holds(rt, name.as_str(), "old");
    fs::remove_file(&rt, name.as_str())?;
    assert!(rt; is_failed);
    assert!(rt; stays);
    Ok(())
}

fn keeps(rt: HostRuntime, store: &mut RealStore, name: &str, bytes: &[u8]) -> bool {
    store.replace(rt.alloc(), name, bytes) == Ok(())
}

fn fails(rt: HostRuntime, store: &mut RealStore, name: &str) -> bool {
    store.replace(rt.alloc(), name, b"new") == Err(StoreNo::Failed)
}

/// Whether the file of this name has this content.
fn holds(rt: HostRuntime, name: &str, content: &str) -> bool {
    match fs::read_to_string(&rt, name) {
        Ok(found) => found.as_str() == content,
        Err(_) => false,
    }
}

/// Who may read and write the file of this name.
fn mode_of(rt: HostRuntime, name: &str) -> io::Result<u32> {
    Ok(fs::metadata(&rt, name)?.permissions().mode() & 0o7777)
}

fn text(alloc: Global, s: &str) -> Result<Text, AllocError> {
    Ok(Text::new(String::from_str(alloc, s)?))
}

/// The word at this place of those that this program was started with.
fn word(rt: HostRuntime, place: usize) -> io::Result<Option<String>> {
    Ok(env::args(&rt)?.nth(place))
}

fn listener(rt: HostRuntime) -> io::Result<TcpListener> {
    TcpListener::bind(&rt, "127.0.0.1:0")
}

fn address(rt: HostRuntime, listener: &TcpListener) -> io::Result<Text> {
    let at = listener.local_addr()?;
    Ok(Text::new(format!(in rt.alloc(); "{at}")?))
}

/// Whether the wire reaches this listener.
fn dials(rt: HostRuntime, wire: &mut RealWire, listener: &TcpListener) -> bool {
    match address(rt, listener) {
        Ok(at) => wire.reach(&Place::Dial(at)) == Ok(()),
        Err(_) => false,
    }
}
