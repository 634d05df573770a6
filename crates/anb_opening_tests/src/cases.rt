//! Cases of openings.
use crate::telling::{assert_terms, case_in, count_in, format, obstacle_in, pair};
use anb_openings::{Obstacle, OpeningCase};
use anb_term::{Op, Term};
use std::alloc::Global;
use std::process::Abort;
use std::test::Fail;

/// A, B, NA, NB and K are the names 0 to 4.
const MUTUAL: &str = "Protocol: Mutual; Types: Agent A, B; Number NA, NB; Key K;
Formats: challenge = \"C\" len; response = \"R\" len len len; confirm = \"F\" len len;
Knowledge: A: A, B, K; B: A, B, K;
Actions: A -> B: challenge(NA); B -> A: scrypt(K,response(B,NA,NB)); A -> B: mac(K,confirm(A,NB));";

/// A, B, S, NA, NB, KAS, KBS and KAB are the names 0 to 7.
const NSSK: &str = "Protocol: NSSK; Types: Agent A, B, S; Number NA, NB; Key KAS, KBS, KAB;
Formats: m1 = \"1\" len len len; m2 = \"2\" len len len len; m3 = \"3\" len len; m4 = \"4\" len; m5 = \"5\" len;
Knowledge: A: A, B, S, KAS; B: B, S, KBS; S: A, B, S, KAS, KBS;
Actions: A -> S: m1(A,B,NA); S -> A: scrypt(KAS,m2(NA,B,KAB,scrypt(KBS,m3(KAB,A))));
A -> B: scrypt(KBS,m3(KAB,A)); B -> A: scrypt(KAB,m4(NB)); A -> B: scrypt(KAB,m5(NB));";

#[test]
fn a_challenge_is_opened(rt: HostRuntime) -> Result<(), Fail> {
    let alloc = rt.alloc();
    assert_eq!(&rt; count_in(&rt, alloc, MUTUAL, 1)?, 1);
    match case_in(&rt, alloc, MUTUAL, 1, 0)? {
        Some(case) => assert_challenge(&rt, alloc, &case)?,
        None => panic!(&rt; "no case"),
    }
    Ok(())
}

/// Asserts that the spare name stands for the challenge, and that B goes on.
fn assert_challenge(rt: &impl Abort, alloc: Global, case: &OpeningCase) -> Result<(), Fail> {
    assert_eq!(rt; case.event, 1);
    assert!(rt; case.opened.same(&format(alloc, 0, &[2])?));
    let confirm = pair(alloc, Op::Mac, Term::Atom(4), format(alloc, 2, &[0, 3])?)?;
    let arrivals = vec![in alloc; Term::Atom(5), confirm]?;
    assert_terms(rt, &case.arrivals, &arrivals);
    let response = pair(
        alloc,
        Op::Seal,
        Term::Atom(4),
        format(alloc, 1, &[1, 2, 3])?,
    )?;
    let messages = vec![in alloc; response]?;
    assert_terms(rt, &case.messages, &messages);
    Ok(())
}

#[test]
fn what_a_seal_holds_is_opened(rt: HostRuntime) -> Result<(), Fail> {
    let alloc = rt.alloc();
    assert_eq!(&rt; count_in(&rt, alloc, NSSK, 0)?, 4);
    match case_in(&rt, alloc, NSSK, 0, 1)? {
        Some(case) => assert_held(&rt, alloc, &case)?,
        None => panic!(&rt; "no case"),
    }
    Ok(())
}

/// Asserts that the spare name stands in the seal for the server's answer, and that A goes on.
fn assert_held(rt: &impl Abort, alloc: Global, case: &OpeningCase) -> Result<(), Fail> {
    assert_eq!(rt; case.event, 2);
    let answer = pair(alloc, Op::Seal, Term::Atom(5), Term::Atom(8))?;
    let nonce = pair(alloc, Op::Seal, Term::Atom(7), format(alloc, 3, &[4])?)?;
    let arrivals = vec![in alloc; answer, nonce]?;
    assert_terms(rt, &case.arrivals, &arrivals);
    let asked = format(alloc, 0, &[0, 1, 3])?;
    let ticket = pair(alloc, Op::Seal, Term::Atom(6), format(alloc, 2, &[7, 0])?)?;
    let confirmed = pair(alloc, Op::Seal, Term::Atom(7), format(alloc, 4, &[4])?)?;
    let messages = vec![in alloc; asked, ticket, confirmed]?;
    assert_terms(rt, &case.messages, &messages);
    Ok(())
}

#[test]
fn a_seal_is_opened(rt: HostRuntime) -> Result<(), Fail> {
    let alloc = rt.alloc();
    match case_in(&rt, alloc, NSSK, 0, 2)? {
        Some(case) => {
            assert_eq!(&rt; case.event, 4);
            assert!(&rt; case.arrivals.len() == 2 && case.arrivals[1].same(&Term::Atom(8)));
        }
        None => panic!(&rt; "no case"),
    }
    Ok(())
}

/// The same message arrives twice. A, B and N are the names 0 to 2.
const TWICE: &str = "Protocol: Twice; Types: Agent A, B; Number N; Formats: f = \"F\" len;
Knowledge: A: N; B: A; Actions: A -> B: f(N); B -> A: N; A -> B: f(N);";

#[test]
fn what_arrives_again_is_replaced_too(rt: HostRuntime) -> Result<(), Fail> {
    let alloc = rt.alloc();
    match case_in(&rt, alloc, TWICE, 1, 0)? {
        Some(case) => {
            let arrivals = vec![in alloc; Term::Atom(3), Term::Atom(3)]?;
            assert_terms(&rt, &case.arrivals, &arrivals);
        }
        None => panic!(&rt; "no case"),
    }
    Ok(())
}

/// The ticket is known before, and its key arrives.
const TICKET: &str = "Protocol: Ticket; Types: Agent A, B; Number N; Key K; Formats: f = \"F\" len;
Knowledge: A: A, B, K; B: B, scrypt(K,f(N)); Actions: A -> B: K; B -> A: N;";

#[test]
fn what_is_known_doesnt_arrive(rt: HostRuntime) -> Result<(), Fail> {
    let alloc = rt.alloc();
    assert_eq!(&rt; count_in(&rt, alloc, TICKET, 1)?, 2);
    let sealed = obstacle_in(&rt, alloc, TICKET, 1, 0)?;
    assert!(&rt; sealed == Some(Obstacle::OwnTerm));
    let held = obstacle_in(&rt, alloc, TICKET, 1, 1)?;
    assert!(&rt; held == Some(Obstacle::OwnTerm));
    Ok(())
}

/// What arrives is compared with a hash that is known.
const COMMITTED: &str = "Protocol: Committed; Types: Agent A, B; Number N; Formats: f = \"F\" len;
Knowledge: A: N; B: A, h(f(N)); Actions: A -> B: f(N); B -> A: N;";

#[test]
fn a_hash_of_it_is_in_the_way(rt: HostRuntime) -> Result<(), Fail> {
    let alloc = rt.alloc();
    assert_eq!(&rt; count_in(&rt, alloc, COMMITTED, 1)?, 1);
    let found = obstacle_in(&rt, alloc, COMMITTED, 1, 0)?;
    assert!(&rt; found == Some(Obstacle::Later(6)));
    Ok(())
}
