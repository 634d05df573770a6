//! Worked rehearsals of codes that are written by hand.
use crate::telling::{assert_done, ends_with};
use anb_honest::RehearseEnd;
use std::test::Fail;

const PING: &str = "Protocol: Ping; Types: Agent A, B; Number N;
Knowledge: A: N; B: N; Actions: A -> B: N; B -> A: N;";

/// A code for A, which compares what comes back.
const PING_A: &str =
    "anb-role 1\nprotocol Ping\nrole A\ncode\nr0 = take N\nsend r0\nr1 = recv\nequal r0 r1\nend\n";

/// A code for B, which compares what comes.
const PING_B: &str =
    "anb-role 1\nprotocol Ping\nrole B\ncode\nr0 = take N\nr1 = recv\nequal r0 r1\nsend r0\nend\n";

/// A code for B, which sends back the hash of what comes.
const PING_HASH: &str =
    "anb-role 1\nprotocol Ping\nrole B\ncode\nr0 = take N\nr1 = recv\nr2 = hash r1\nsend r2\nend\n";

#[test]
fn codes_that_fit_do_as_honest_roles(rt: HostRuntime) -> Result<(), Fail> {
    match ends_with(&rt, rt.alloc(), PING, PING_A, PING_B)? {
        RehearseEnd::AllDone(report) => assert_done(&rt, &report),
        _ => panic!(&rt; "not all is done"),
    }
    Ok(())
}

#[test]
fn the_codes_that_are_given_are_run(rt: HostRuntime) -> Result<(), Fail> {
    match ends_with(&rt, rt.alloc(), PING, PING_A, PING_HASH)? {
        RehearseEnd::Stopped { role, halt } => {
            assert_eq!(&rt; (role, halt.event, halt.at), (0, 2, 4));
        }
        _ => panic!(&rt; "no code stopped"),
    }
    Ok(())
}
