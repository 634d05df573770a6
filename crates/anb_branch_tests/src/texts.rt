//! Branched texts, and each way in which a text is none.
use anb_base::SMALL_FILE;
use anb_choice::split;
use std::alloc::Global;
use std::test::Fail;

/// The declarations, the stem, the choice, and two arms.
const HEAD: &str = "Protocol: C; Types: Agent A, B, D, E; Number N; Formats: yes = \"Y\" rest; \
     no = \"N\" len; Knowledge: A: N; B: N; ";

const STEM: &str = "Actions: A -> B: N; ";

const CHOICE: &str = "Choice: A; ";

const YES: &str = "Actions: A -> B: yes(N); ";

const NO: &str = "Actions: A -> B: no(N); ";

/// These parts as one text.
fn joined(alloc: Global, parts: &[&str]) -> Result<String, Fail> {
    let mut text = String::new(alloc);
    for part in parts {
        text.push_str(part)?;
    }
    Ok(text)
}

/// What is told of the text of these parts: the chooser, the number of common actions and that of
/// the arms, or the refusal.
fn told(alloc: Global, parts: &[&str]) -> Result<String, Fail> {
    let text = joined(alloc, parts)?;
    if text.len() > SMALL_FILE as usize {
        return Ok(text);
    }
    let answer = match split(alloc, text.as_bytes()) {
        Ok(b) => format!(in alloc; "{} {} {}", b.chooser.as_str(), b.stem, b.arms.len())?,
        Err(no) => format!(in alloc; "{no:?}")?,
    };
    Ok(answer)
}

#[test]
fn choices_are_told(rt: HostRuntime) -> Result<(), Fail> {
    let alloc = rt.alloc();
    let two = told(alloc, &[HEAD, STEM, CHOICE, YES, NO])?;
    assert_eq!(rt; two.as_str(), "A 1 2");
    // A comment and goals behind the arms are passed over.
    let goals = told(
        alloc,
        &[HEAD, STEM, CHOICE, YES, "# ?\n", NO, "Goals ? Choice"],
    )?;
    assert_eq!(rt; goals.as_str(), "A 1 2");
    // A stem may have no action.
    let none = told(alloc, &[HEAD, "Actions: ", CHOICE, YES, NO])?;
    assert_eq!(rt; none.as_str(), "A 0 2");
    Ok(())
}

#[test]
fn roles_may_come_in_another_order(rt: HostRuntime) -> Result<(), Fail> {
    let alloc = rt.alloc();
    let first = "Actions: A -> D: yes(N); A -> E: yes(N); ";
    let second = "Actions: A -> E: no(N); A -> D: no(N); ";
    let order = told(alloc, &[HEAD, STEM, CHOICE, first, second])?;
    assert_eq!(rt; order.as_str(), "A 1 2");
    Ok(())
}

#[test]
fn tokens_come_before_the_order(rt: HostRuntime) -> Result<(), Fail> {
    let alloc = rt.alloc();
    let bad = told(alloc, &[HEAD, STEM, CHOICE, YES, NO, "?"])?;
    assert_eq!(rt; bad.as_str(), "Token(190)");
    let late = told(alloc, &[HEAD, "Choice ", STEM, CHOICE, YES, NO, "\"x"])?;
    assert_eq!(rt; late.as_str(), "Token(197)");
    Ok(())
}

#[test]
fn orders_are_kept(rt: HostRuntime) -> Result<(), Fail> {
    let alloc = rt.alloc();
    let none = told(alloc, &[HEAD, STEM])?;
    assert_eq!(rt; none.as_str(), "Shape(130)");
    let open = told(alloc, &[HEAD, "Actions: A -> B: N ", CHOICE, YES, NO])?;
    assert_eq!(rt; open.as_str(), "Shape(129)");
    let reserved = told(alloc, &[HEAD, STEM, "Choice: Agent; ", YES, NO])?;
    assert_eq!(rt; reserved.as_str(), "Shape(138)");
    let one = told(alloc, &[HEAD, STEM, CHOICE, YES, "Goals: "])?;
    assert_eq!(rt; one.as_str(), "Shape(166)");
    let twice = told(alloc, &[HEAD, STEM, CHOICE, YES, CHOICE, NO])?;
    assert_eq!(rt; twice.as_str(), "Shape(166)");
    Ok(())
}

#[test]
fn a_ninth_arm_is_out_of_order(rt: HostRuntime) -> Result<(), Fail> {
    let alloc = rt.alloc();
    let four = joined(alloc, &[YES, NO, YES, NO])?;
    let four = four.as_str();
    let nine = told(alloc, &[HEAD, STEM, CHOICE, four, four, YES])?;
    assert_eq!(rt; nine.as_str(), "Shape(337)");
    Ok(())
}

#[test]
fn arms_are_narrations(rt: HostRuntime) -> Result<(), Fail> {
    let alloc = rt.alloc();
    let read = told(alloc, &[HEAD, STEM, CHOICE, YES, "Actions: A -> B no(N);"])?;
    assert_eq!(rt; read.as_str(), "ArmRead(2, Grammar { at: 138 })");
    let resolved = told(
        alloc,
        &[HEAD, STEM, CHOICE, "Actions: A -> A: yes(N);", "Actions: A"],
    )?;
    assert_eq!(rt; resolved.as_str(), "ArmResolve(1, SelfSend(2))");
    Ok(())
}

#[test]
fn choosers_and_roles_are_those_of_all_arms(rt: HostRuntime) -> Result<(), Fail> {
    let alloc = rt.alloc();
    let roles = told(alloc, &[HEAD, STEM, CHOICE, YES, "Actions: A -> D: no(N);"])?;
    assert_eq!(rt; roles.as_str(), "Roles(2)");
    let chooser = told(alloc, &[HEAD, STEM, "Choice: D; ", YES, NO])?;
    assert_eq!(rt; chooser.as_str(), "Chooser");
    Ok(())
}

#[test]
fn nobody_is_blind(rt: HostRuntime) -> Result<(), Fail> {
    let alloc = rt.alloc();
    let same = told(alloc, &[HEAD, STEM, CHOICE, YES, YES])?;
    assert_eq!(rt; same.as_str(), BLIND_TWO);
    let idle = told(alloc, &[HEAD, STEM, CHOICE, YES, "Actions: "])?;
    assert_eq!(rt; idle.as_str(), BLIND_TWO);
    let sender = told(
        alloc,
        &[HEAD, STEM, CHOICE, "Actions: B -> A: yes(N); ", NO],
    )?;
    assert_eq!(rt; sender.as_str(), BLIND_ONE);
    let bare = told(alloc, &[HEAD, STEM, CHOICE, "Actions: A -> B: N; ", NO])?;
    assert_eq!(rt; bare.as_str(), BLIND_ONE);
    Ok(())
}

const BLIND_ONE: &str = "Blind { role: Text { inner: \"B\" }, arm: 1 }";

const BLIND_TWO: &str = "Blind { role: Text { inner: \"B\" }, arm: 2 }";
