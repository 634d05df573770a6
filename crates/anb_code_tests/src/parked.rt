//! Sessions that are parked and go on later. The records were computed in Python, by
//! examples/peer/anbwire.py; no code of the program is in them.
use crate::starting::code;
use anb_base::Bytes;
use anb_code::RoleCode;
use anb_machine::Turn;
use anb_park::{Live, ParkNo, resume};
use anb_seal::seal;
use std::alloc::Global;
use std::process::Abort;
use std::test::Fail;

/// The record under `key` of session 1 of a code without takes, of the identity of 32 bytes 7, under a
/// seed of zeros, before its first arrival.
const RECORD: &str = "bbb64fd819a7cb541e38307b3eb8c41e2d145a420f97d8740cb133716937afe2\
    cb4baefe3b172b18c73f8ebe7a0f345c3c20fe711da70d63c5cb30f6f342135a\
    668bfe694332efacbdc20bf2db9ca806f76ad78f1897c669c2ac09547b81dff0\
    8e3df07271f25a";

/// The record of session 1, where it waits.
fn parks(rt: &impl Abort, alloc: Global, code: &RoleCode) -> Result<Bytes, Fail> {
    assert!(rt; code.takes() == 0);
    let mut live = Live::start(alloc, code, [7; 32], &[], &[0; 32], 1)?;
    match live.advance(alloc) {
        Turn::Wants(_) => Ok(live.park(alloc, b"key")?),
        turn => panic!(rt; "{turn:?}"),
    }
}

/// What a session sends that goes on from its record with an empty arrival.
fn sends(rt: &impl Abort, alloc: Global, code: &RoleCode, record: &[u8]) -> Result<Bytes, Fail> {
    let mut live = resume(alloc, code, [7; 32], b"key", record)?;
    match live.advance(alloc) {
        Turn::Wants(1) => live.arrive(Bytes::new(Vec::new(alloc)))?,
        turn => panic!(rt; "{turn:?}"),
    }
    match live.advance(alloc) {
        Turn::Message(message) => Ok(message),
        turn => panic!(rt; "{turn:?}"),
    }
}

#[test]
fn a_session_is_parked_and_goes_on(rt: HostRuntime) -> Result<(), Fail> {
    let alloc = rt.alloc();
    let code = code(&rt, alloc, "code\nr0 = fresh\nr1 = recv\nsend r0\n")?;
    let record = parks(&rt, alloc, &code)?;
    assert_eq!(rt; hex::encode(alloc, record.as_slice())?.as_str(), RECORD);
    let sent = sends(&rt, alloc, &code, record.as_slice())?;
    let drawn = "ef3fdfd6c61578fbf5cf35bd3dd33b8009631634d21e42ac33960bd138e50d32";
    assert_eq!(rt; hex::encode(alloc, sent.as_slice())?.as_str(), drawn);
    Ok(())
}

/// Whether a record is refused so under `key`, for a code with the identity of 32 bytes 7.
fn is_refused(alloc: Global, code: &RoleCode, record: &[u8], no: ParkNo) -> bool {
    match resume(alloc, code, [7; 32], b"key", record) {
        Ok(_) => false,
        Err(other) => other == no,
    }
}

/// The record under this key of these frames, under an identity of 32 such bytes.
fn record_of(alloc: Global, key: &str, id: u8, frames: &str) -> Result<Bytes, Fail> {
    let mut body = Vec::from_slice(alloc, b"PK1")?;
    body.extend_from_slice(&[id; 32])?;
    body.extend_from_slice(&[0; 36])?;
    body.extend_from_slice(frames.as_bytes())?;
    Ok(seal(alloc, key.as_bytes(), &body)?)
}

// The frames are the value of the take, and what arrived.
#[test]
fn another_key_a_body_or_another_session_is_refused(rt: HostRuntime) -> Result<(), Fail> {
    let lines = "code\nr0 = take N\nsend r0\nr1 = recv\nequal r0 r1\n";
    let code = code(&rt, rt.alloc(), lines)?;
    for (key, id, frames, no) in [
        ("kez", 7, "\0\0\0\x02ab", ParkNo::Damaged),
        ("key", 7, "", ParkNo::Body),
        ("key", 7, "\0\0\0\x02ab\0", ParkNo::Body),
        ("key", 7, "\0\0\0\x02ab\0\x04\0\x01", ParkNo::Body),
        ("key", 8, "\0\0\0\x02a", ParkNo::Body),
        ("key", 8, "\0\0\0\x02ab", ParkNo::Other),
        ("key", 8, "\0\0\0\x02ab\0\0\0\x02ab", ParkNo::Other),
        ("key", 7, "\0\0\0\x02ab\0\0\0\x02ab", ParkNo::NotWaiting),
        ("key", 7, "\0\0\0\x02ab\0\0\0\x02ac", ParkNo::NotWaiting),
    ] {
        let record = record_of(rt.alloc(), key, id, frames)?;
        assert!(rt;
            is_refused(rt.alloc(), &code, record.as_slice(), no),
            "{no:?}"
        );
    }
    Ok(())
}
