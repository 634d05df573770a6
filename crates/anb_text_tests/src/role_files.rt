//! Role files that are read and written again.
use anb_text::{codes_are_unique, faults_are_unique, files_are_unique, load, none_is_both, print};
use std::alloc::Global;
use std::process::Abort;
use std::test::Fail;

/// A role file of version 1.
const OLD_PING: &str =
    "anb-role 1\nprotocol Ping\nrole A\ncode\nr0 = take N\nsend r0\nr1 = recv\nequal r0 r1\nend\n";

/// The same code in version 2.
const PING: &str =
    "anb-role 2\nprotocol Ping\nrole A\nsuite sha256\ncode\nr0 = take N\nsend r0\nr1 = recv\nequal r0 r1\nend\n";

/// Every kind of instruction, and of piece.
const ALL: &str = concat!(
    "anb-role 2\nprotocol All_kinds\nrole B\nsuite sha512\n",
    "format f \"F\" len net\nformat g \"G\\x00\\\"\" hex \" \" rest\nformat k \"K\"\n",
    "code\n",
    "r0 = take f(A,h(N))\nr1 = take N\nr2 = fresh\nr3 = hash r2\nr4 = mac r0 r3\nr5 = seal r0 r4\n",
    "r6 = wrap r0 r1 r5\nr7 = build f r6 r2\nsend r7\nr8 = recv\nr9 r10 = parse f r8\n",
    "r11 = unseal r0 r9\nr12 = unwrap r0 r1 r10\nequal r11 r12\nr13 = build g r3 r4\n",
    "r14 = build k\nparse k r14\nsend r13\n",
    "end\n",
);

/// The code of this text has that text in version 2.
fn prints_as(rt: &impl Abort, alloc: Global, text: &str, want: &str) -> Result<(), Fail> {
    assert!(rt; text.len() <= 1000);
    let Ok(code) = load(alloc, text.as_bytes()) else {
        panic!(rt; "refused")
    };
    let printed = print(alloc, &code)?;
    assert_eq!(rt; printed.as_slice(), want.as_bytes());
    Ok(())
}

#[test]
fn what_is_read_is_printed_in_version_2(rt: HostRuntime) -> Result<(), Fail> {
    prints_as(&rt, rt.alloc(), OLD_PING, PING)?;
    prints_as(&rt, rt.alloc(), ALL, ALL)
}

#[test]
fn laws_are_called() {
    codes_are_unique();
    faults_are_unique();
    files_are_unique();
    none_is_both();
}
