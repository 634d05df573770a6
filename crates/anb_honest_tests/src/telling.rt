//! Rehearsals for tests, and what they tell.
ghost use Rattle.std.specs.Prelude.{◌≡◌, ◌<◌, ◌≤◌, length, All, IfOk, OnOk};
ghost use Rattle.anb_base.specs.declared.TheConstants.{ARRIVAL};
ghost use Rattle.anb_compile.specs.Fitting.{FollowsRole};
ghost use Rattle.anb_honest.specs.Order.{FollowRoles};

use anb_base::{ARRIVAL, Bytes, SMALL_FILE};
use anb_code::RoleCode;
use anb_honest::{RehearseEnd, Report, follows, rehearse, schedule};
use anb_protocol::Protocol;
use anb_test_protocols::protocol_in;
use anb_text::load;
use std::alloc::Global;
use std::process::Abort;
use std::test::Fail;

/// The end of a rehearsal of these two codes over the turns `A B B A`, where each role knows `ab`. Each
/// code keeps the order of its role alone.
pub(crate) fn ends_with(
    rt: &impl Abort,
    alloc: Global,
    narration: &str,
    a: &str,
    b: &str,
) -> Result<RehearseEnd, Fail> {
    assert!(rt; narration.len() <= SMALL_FILE as usize);
    let p = protocol_in(alloc, narration.as_bytes())?;
    let mut codes = Vec::new(alloc);
    codes.push(loaded(rt, alloc, a)?)?;
    codes.push(loaded(rt, alloc, b)?)?;
    assert_alone(rt, alloc, &p, &codes)?;
    ends(rt, alloc, &p, &codes, "6162", "A B B A")
}

/// Asserts that the first code doesn't keep the order of the second role.
fn assert_alone(
    rt: &impl Abort,
    alloc: Global,
    p: &Protocol,
    codes: &[RoleCode],
) -> Result<(), Fail> {
    assert!(rt; p.roles().len() == 2 && codes.len() == 2);
    assert!(rt; !follows(alloc, p, 1, &codes[0])?);
    Ok(())
}

/// Asserts that both messages were sent in four turns, none of which was passed over.
pub(crate) fn assert_done(rt: &impl Abort, report: &Report) {
    assert_eq!(rt; report.turns, 4);
    assert_eq!(rt; report.taken, 4);
    assert_eq!(rt; report.passed, 0);
    assert_eq!(rt; report.sent.as_slice().len(), 2);
    let mut action = 0u32;
    for sent in report.sent.as_slice() {
        action = action.saturating_add(1);
        assert_eq!(rt; sent.action, action);
        assert_eq!(rt; sent.bytes.as_slice(), b"ab".as_slice());
    }
}

/// The end of a rehearsal under a seed of zeros, with values in hexadecimal.
fn ends(
    rt: &impl Abort,
    alloc: Global,
    p: &Protocol,
    codes: &[RoleCode],
    digits: &str,
    text: &str,
) -> Result<RehearseEnd, Fail> {
    assert_follow(rt, alloc, p, codes)?;
    let values = values(alloc, digits)?;
    assert!(rt; p.atoms(alloc)?.len() == values.len());
    assert!(rt; text.len() <= SMALL_FILE as usize);
    let turns = schedule(alloc, p, text.as_bytes())?;
    Ok(rehearse(alloc, p, codes, &values, &[0; 32], &turns)?)
}

/// Asserts that there is a code for each role, which keeps the order of its plan.
fn assert_follow(
    rt: &impl Abort,
    alloc: Global,
    p: &Protocol,
    codes: &[RoleCode],
) -> Result<(), Fail>
    ensures { OnOk result (FollowRoles p.now codes.now) }
{
    assert_count(rt, p, codes);
    for role in 0..codes.len() {
        assert_follows(rt, alloc, p, role, &codes[role])?;
    }
    Ok(())
}

/// Asserts that there are as many codes as roles.
fn assert_count(rt: &impl Abort, p: &Protocol, codes: &[RoleCode])
    ensures { length codes.now ≡ length p.now.roles }
{
    assert!(rt; codes.len() == p.roles().len());
}

/// Asserts that a code keeps the order of a role's plan.
fn assert_follows(
    rt: &impl Abort,
    alloc: Global,
    p: &Protocol,
    role: usize,
    code: &RoleCode,
) -> Result<(), Fail>
    requires { role < length p.now.roles }
    ensures { OnOk result (FollowsRole p.now role code.now) }
{
    assert!(rt; role < 1_000);
    assert!(rt; follows(alloc, p, role as u32, code)?);
    Ok(())
}

/// The code that a role file tells.
fn loaded(rt: &impl Abort, alloc: Global, text: &str) -> Result<RoleCode, Fail> {
    assert!(rt; text.len() <= 16_777_216);
    Ok(load(alloc, text.as_bytes())?)
}

/// Values in hexadecimal, with blanks between.
fn values(alloc: Global, digits: &str) -> Result<Vec<Bytes>, Fail>
    ensures { IfOk result (λ values. All (λ value. length value ≤ ARRIVAL) values.items) }
{
    let mut values = Vec::new(alloc);
    for word in digits.split_whitespace() {
        values.push(short(alloc, word)?)?;
    }
    Ok(values)
}

/// The bytes of hexadecimal digits, or none where they are too many for an arrival.
fn short(alloc: Global, digits: &str) -> Result<Bytes, Fail>
    ensures { IfOk result (λ value. length value ≤ ARRIVAL) }
{
    let bytes = hex::decode(alloc, digits)?;
    if bytes.len() > ARRIVAL as usize {
        return Ok(Bytes::new(Vec::new(alloc)));
    }
    Ok(Bytes::new(bytes))
}
