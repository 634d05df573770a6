//! What a machine answers, turn by turn.
use crate::starting::{code, start};
use anb_base::Bytes;
use anb_machine::{Machine, Turn};
use std::alloc::Global;
use std::test::Fail;

/// What a machine answers to some steps. Where it wants an arrival it is given the step, but for the
/// step `-`.
fn answers(alloc: Global, machine: &mut Machine, steps: &str) -> Result<String, Fail> {
    let mut words = String::new(alloc);
    for step in steps.split_whitespace() {
        let turn = machine.advance(alloc);
        words.push_str(&format!(in alloc; "{turn:?} ")?)?;
        match turn {
            Turn::Wants(_) if step != "-" && step.len() <= 1_000 => {
                machine.arrive(Bytes::new(Vec::from_slice(alloc, step.as_bytes())?));
            }
            _ => {}
        }
    }
    Ok(words)
}

#[test]
fn what_waits_or_has_ended_answers_again(rt: HostRuntime) -> Result<(), Fail> {
    let lines = "code\nr0 = recv\nsend r0\nr1 = recv\nequal r0 r1\n";
    let code = code(&rt, rt.alloc(), lines)?;
    let stopped = "Wants(1) Wants(1) Message(Bytes { inner: [97] }) Wants(3) \
        Stopped(Halt { event: 3, at: 4 }) Stopped(Halt { event: 3, at: 4 }) ";
    let done = "Wants(1) Message(Bytes { inner: [97] }) Wants(3) Wants(3) Done Done ";
    for (steps, words) in [("- a - b - -", stopped), ("a - - a - -", done)] {
        let mut machine = start(&rt, rt.alloc(), &code)?;
        assert_eq!(rt; answers(rt.alloc(), &mut machine, steps)?.as_str(), words);
    }
    Ok(())
}
