//! A drill of one exchange, of two and of two hundred.
use anb_gen::{drill_turns, generate};
use anb_syntax::text_of;
use std::alloc::Global;
use std::process::Abort;
use std::test::Fail;

const ONE: &str =
    "Protocol: Drill;\nTypes:\n  Agent A, B;\n  Number N0, N1;\n  Key K, L;\nFormats:\n  p = \"P\" len len;\nKnowledge:\n  A: A, B, K;\n  B: A, B, K;\nActions:\n  A -> B: scrypt(L,N0);\n  A -> B: scrypt(K,p(N1,h(N0)));\n  A -> B: L;\n";

const TWO: &str =
    "Protocol: Drill;\nTypes:\n  Agent A, B;\n  Number N0, N1, N2;\n  Key K, L;\nFormats:\n  p = \"P\" len len;\nKnowledge:\n  A: A, B, K;\n  B: A, B, K;\nActions:\n  A -> B: scrypt(L,N0);\n  A -> B: scrypt(K,p(N1,h(N0)));\n  B -> A: scrypt(K,p(N2,h(N1)));\n  A -> B: L;\n";

/// A drill of so many exchanges has this text.
fn is_written(rt: &impl Abort, alloc: Global, n: u32, text: &str) -> Result<(), Fail> {
    assert!(rt; 1 <= n && n <= 200);
    let narration = generate(alloc, n)?;
    let canonical = text_of(alloc, &narration)?;
    assert_eq!(rt; canonical.as_slice(), text.as_bytes());
    Ok(())
}

/// A drill of so many exchanges has these turns.
fn takes(rt: &impl Abort, alloc: Global, n: u32, turns: &[u32]) -> Result<(), Fail> {
    assert!(rt; 1 <= n && n <= 200);
    let taken = drill_turns(alloc, n)?;
    assert_eq!(rt; taken.as_slice(), turns);
    Ok(())
}

#[test]
fn the_second_exchange_goes_back(rt: HostRuntime) -> Result<(), Fail> {
    is_written(&rt, rt.alloc(), 1, ONE)?;
    is_written(&rt, rt.alloc(), 2, TWO)
}

#[test]
fn the_turns_follow_the_actions(rt: HostRuntime) -> Result<(), Fail> {
    takes(&rt, rt.alloc(), 1, &[0, 1, 0, 1, 0, 1])?;
    takes(&rt, rt.alloc(), 2, &[0, 1, 0, 1, 1, 0, 0, 1])
}

#[test]
fn the_longest_drill(rt: HostRuntime) -> Result<(), Fail> {
    assert_eq!(rt; generate(rt.alloc(), 200)?.actions.len(), 202);
    assert_eq!(rt; drill_turns(rt.alloc(), 200)?.len(), 404);
    Ok(())
}
