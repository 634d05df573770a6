//! The verdict on a text that is no narration: on that of a text with a choice, arm by arm.
ghost use Rattle.std.specs.Prelude.{◌≡◌, ◌≤◌, ◌+◌, ◌++◌, ℕ, List, [], codes, length, Some, IfOk};
ghost use Rattle.std.specs.List.{AllByRecursion};
ghost use Rattle.anb_mistakes.specs.Pointing.{pointed};
ghost use Rattle.anb_read.specs.Refusals.{IsRefusal, offset};
ghost use Rattle.anb_choice.specs.Branching.{BranchedText, HasArms, IsUntold};
ghost use Rattle.anb_choice.specs.Views.{branched_of};
ghost use Rattle.anb_status.specs.declared.status.Status.TheVariants.{Done};
ghost use Rattle.anb_command.specs.declared.limits.TheConstants.{NARRATION_LIMIT};
ghost use Rattle.anb_check_commands.specs.CheckCommand.{AreArms, IsBlindSaid, IsFaultSaid, IsSaidAt, IsSaidAtAction, IsVerdict, IsVerdictAt, IsVerdictOnArm, IsVerdictOnArms, IsVerdictOnPart, IsVerdictOnUnread, first_refusal, refused_arm};
ghost use Rattle.anb_check_commands.specs.ChoiceLines.{arm_line, fault_line, numbered, text_of_arm};
ghost use Rattle.anb_check_commands.specs.Telling.{IsLast};

use crate::blindness::{action_at, blind_line, first_at, put_arm};
use crate::order::{order_said, wrong_at};
use crate::verdict::{Verdict, unread_verdict, verdict_on_text};
use anb_base::{Bytes, NoMemory, Text};
use anb_choice::{BranchNo, Branched, arm_texts, choice_fault, faultless_is_lawful, told_choice};
use anb_command::{NarrationNo, Status};
use anb_mistakes::{pointed, unsent_text};
use anb_read::ReadNo;
use std::alloc::Global;

/// The verdict on a text that is no narration for this reason.
pub(crate) fn verdict_on_unread(
    alloc: Global,
    name: &Text,
    text: &[u8],
    why: ReadNo,
) -> Result<Verdict, NoMemory>
    requires within { length text.now ≤ NARRATION_LIMIT }
    requires refused { IsRefusal text.now why }
    ensures is { IfOk result (λ v. IsVerdict name.now text.now v.status v.said) }
    ensures last { IfOk result (λ v. IsLast v.status) }
{
    match told_choice(alloc, text) {
        Ok(b) => verdict_on_choice(alloc, name, text, why, &b),
        Err(BranchNo::NoMemory) => Err(NoMemory),
        Err(no) => verdict_on_untold(alloc, name, text, why, &no),
    }
}

/// The verdict on a text that tells no choice: where it goes wrong, or on the arm that is refused.
fn verdict_on_untold(
    alloc: Global,
    name: &Text,
    text: &[u8],
    why: ReadNo,
    no: &BranchNo,
) -> Result<Verdict, NoMemory>
    requires within { length text.now ≤ NARRATION_LIMIT }
    requires refused { IsRefusal text.now why }
    requires untold { IsUntold text.now no.now }
    ensures is { IfOk result (λ v. IsVerdictOnUnread name.now text.now why v.status v.said) }
    ensures last { IfOk result (λ v. IsLast v.status) }
{
    match wrong_at(text, why, no) {
        Some(at) => verdict_on_order(alloc, name, text, why, no, at),
        None => verdict_on_part(alloc, name, text, why, no),
    }
}

/// The verdict on a choice that goes wrong at this offset.
fn verdict_on_order(
    alloc: Global,
    name: &Text,
    text: &[u8],
    why: ReadNo,
    no: &BranchNo,
    at: u32,
) -> Result<Verdict, NoMemory>
    requires { length text.now ≤ NARRATION_LIMIT }
    ensures is { IfOk result (λ v.
        IsVerdictAt name.now text.now why no.now (Some at) v.status v.said) }
    ensures last { IfOk result (λ v. IsLast v.status) }
{
    let said = order_said(alloc, name, text, no, at)?;
    let status = Status::BadNarration(NarrationNo::Read(why));
    Ok(Verdict { status, said })
}

/// The verdict on the arm that is refused, or on the text itself.
fn verdict_on_part(
    alloc: Global,
    name: &Text,
    text: &[u8],
    why: ReadNo,
    no: &BranchNo,
) -> Result<Verdict, NoMemory>
    requires within { length text.now ≤ NARRATION_LIMIT }
    requires refused { IsRefusal text.now why }
    requires untold { IsUntold text.now no.now }
    ensures is { IfOk result (λ v.
        IsVerdictOnPart name.now text.now (refused_arm no.now) v.status v.said) }
    ensures last { IfOk result (λ v. IsLast v.status) }
{
    match refused_arm(no) {
        Some(arm) => verdict_on_arm(alloc, name, text, arm),
        None => unread_verdict(alloc, name, text, why),
    }
}

/// The arm that is no narration, or not well formed.
fn refused_arm(no: &BranchNo) -> Option<u32>
    ensures { result ≡ refused_arm no.now }
{
    match no {
        BranchNo::ArmRead(arm, _) => Some(*arm),
        BranchNo::ArmResolve(arm, _) => Some(*arm),
        _ => None,
    }
}

/// The verdict on the text of the arm with this number.
fn verdict_on_arm(alloc: Global, name: &Text, text: &[u8], arm: u32) -> Result<Verdict, NoMemory>
    requires within { length text.now ≤ NARRATION_LIMIT }
    requires ordered { HasArms text.now }
    ensures is { IfOk result (λ v. IsVerdictOnArm name.now text.now arm v.status v.said) }
    ensures last { IfOk result (λ v. IsLast v.status) }
{
    let texts = arm_texts(alloc, text)?;
    verdict_on_text(alloc, name, text_of_arm(text, &texts, arm))
}

/// Of these texts that of the arm with this number.
fn text_of_arm<'t>(text: &'t [u8], texts: &'t [Bytes], arm: u32) -> &'t [u8]
    requires { AllByRecursion (λ (t : List ℕ). length t ≤ length text.now) texts.now }
    ensures text { result.now ≡ text_of_arm text.now texts.now arm }
    ensures short { length result.now ≤ length text.now }
{
    match texts.get(arm.saturating_sub(1) as usize) {
        Some(own) => own.as_slice(),
        None => text,
    }
}

/// The verdict on a text that tells a choice, lawful or not.
fn verdict_on_choice(
    alloc: Global,
    name: &Text,
    text: &[u8],
    why: ReadNo,
    b: &Branched,
) -> Result<Verdict, NoMemory>
    requires within { length text.now ≤ NARRATION_LIMIT }
    requires refused { IsRefusal text.now why }
    requires tells { BranchedText text.now (branched_of b.now) }
    requires few { length b.now.arms.items ≤ 8 }
    ensures is { IfOk result (λ v. IsVerdictOnUnread name.now text.now why v.status v.said) }
    ensures last { IfOk result (λ v. IsLast v.status) }
{
    faultless_is_lawful();
    let fault = choice_fault(alloc, b)?;
    match fault {
        None => verdict_on_arms(alloc, name, text),
        Some(no) => {
            let said = fault_said(alloc, name, text, why, b, &no)?;
            let status = Status::BadNarration(NarrationNo::Read(why));
            Ok(Verdict { status, said })
        }
    }
}

/// The verdict on all arms.
fn verdict_on_arms(alloc: Global, name: &Text, text: &[u8]) -> Result<Verdict, NoMemory>
    requires within { length text.now ≤ NARRATION_LIMIT }
    requires ordered { HasArms text.now }
    ensures is { IfOk result (λ v. IsVerdictOnArms name.now text.now v.status v.said) }
    ensures last { IfOk result (λ v. IsLast v.status) }
{
    let texts = arm_texts(alloc, text)?;
    verdict_on_each(alloc, name, 1, &texts)
}

/// The verdict on arms with these texts, from this number on: what is said of each below its number, and
/// the first status but `Done`.
fn verdict_on_each(
    alloc: Global,
    name: &Text,
    number: usize,
    texts: &[Bytes],
) -> Result<Verdict, NoMemory>
    requires short { AllByRecursion (λ (t : List ℕ). length t ≤ NARRATION_LIMIT) texts.now }
    requires few { number + length texts.now ≤ 9 }
    ensures is { IfOk result (λ v. AreArms name.now number texts.now v.status v.said) }
    ensures last { IfOk result (λ v. IsLast v.status) }
{
    let Some((text, others)) = texts.split_first() else {
        return Ok(verdict_on_none(alloc));
    };
    let own = verdict_on_text(alloc, name, text.as_slice())?;
    let later = verdict_on_each(alloc, name, number + 1, others)?;
    with_arm(alloc, number, own, later)
}

/// The verdict on no arm.
fn verdict_on_none(alloc: Global) -> Verdict
    ensures status { result.status ≡ Done }
    ensures said { result.said ≡ [] }
    ensures last { IsLast result.status }
{
    Verdict {
        status: Status::Done,
        said: Bytes::new(Vec::new(alloc)),
    }
}

/// The verdict on an arm, and then on the later ones.
fn with_arm(alloc: Global, number: usize, own: Verdict, later: Verdict) -> Result<Verdict, NoMemory>
    requires own { IsLast own.status }
    requires later { IsLast later.status }
    ensures status { IfOk result (λ v. v.status ≡ first_refusal own.status later.status) }
    ensures said { IfOk result (λ v. v.said ≡ arm_line number ++ (own.said ++ later.said)) }
    ensures last { IfOk result (λ v. IsLast v.status) }
{
    let said = with_number(alloc, number, own.said.as_slice(), later.said.as_slice())?;
    Ok(Verdict {
        status: first_refusal(own.status, later.status),
        said: Bytes::new(said),
    })
}

/// What is said of an arm below its number, and then of the later ones.
fn with_number(alloc: Global, number: usize, own: &[u8], later: &[u8]) -> Result<Vec<u8>, NoMemory>
    ensures { IfOk result (λ said. said.items ≡ arm_line number ++ (own.now ++ later.now)) }
{
    let mut said = Vec::new(alloc);
    put_arm(&mut said, number, b":\n")?;
    said.extend_from_slice(own)?;
    said.extend_from_slice(later)?;
    Ok(said)
}

/// The first status but `Done`.
fn first_refusal(own: Status, later: Status) -> Status
    requires own { IsLast own }
    requires later { IsLast later }
    ensures status { result ≡ first_refusal own later }
    ensures last { IsLast result }
{
    match own {
        Status::Done => later,
        own => own,
    }
}

/// What is said of a choice that isn't lawful.
fn fault_said(
    alloc: Global,
    name: &Text,
    text: &[u8],
    why: ReadNo,
    b: &Branched,
    no: &BranchNo,
) -> Result<Bytes, NoMemory>
    requires within { length text.now ≤ NARRATION_LIMIT }
    requires refused { IsRefusal text.now why }
    requires ordered { HasArms text.now }
    ensures { IfOk result (IsFaultSaid name.now text.now why (branched_of b.now) no.now) }
{
    match no {
        BranchNo::Blind { role, arm } => blind_said(alloc, name, text, why, b, role, *arm),
        _ => {
            let line = fault_line(alloc, &b.chooser, no)?;
            let mend = b"a role has a line of knowledge or an action";
            said_at_choice(alloc, name, text, why, &line, mend)
        }
    }
}

/// A line on a text that is no narration for this reason, at the place of that.
fn said_at_choice(
    alloc: Global,
    name: &Text,
    text: &[u8],
    why: ReadNo,
    line: &[u8],
    mend: &[u8],
) -> Result<Bytes, NoMemory>
    requires within { length text.now ≤ NARRATION_LIMIT }
    requires refused { IsRefusal text.now why }
    ensures { IfOk result (λ said.
        said ≡ pointed name.now text.now (offset why) line.now mend.now) }
{
    let at = why.offset() as usize;
    let name = name.as_str().as_bytes();
    Ok(Bytes::new(pointed(alloc, name, text, at, line, mend)?))
}

/// What is said of other roles, and of who is to choose.
fn fault_line(alloc: Global, chooser: &Text, no: &BranchNo) -> Result<Vec<u8>, NoMemory>
    ensures { IfOk result (λ v. v.items ≡ fault_line chooser.now no.now) }
{
    match no {
        BranchNo::Roles(arm) => roles_line(alloc, *arm),
        BranchNo::Chooser => chooser_line(alloc, chooser),
        _ => Ok(Vec::new(alloc)),
    }
}

fn roles_line(alloc: Global, arm: u32) -> Result<Vec<u8>, NoMemory>
    ensures { IfOk result (λ v. v.items ≡ numbered arm (codes " has other roles than arm 1")) }
{
    let mut out = Vec::new(alloc);
    put_arm(&mut out, arm as usize, b" has other roles than arm 1")?;
    Ok(out)
}

fn chooser_line(alloc: Global, chooser: &Text) -> Result<Vec<u8>, NoMemory>
    ensures { IfOk result (λ v.
        v.items ≡ chooser.now ++ codes " is to choose, and is no role") }
{
    let mut out = Vec::from_slice(alloc, chooser.as_str().as_bytes())?;
    out.extend_from_slice(b" is to choose, and is no role")?;
    Ok(out)
}

/// What is said of a role that is blind in an arm: why, at the message of its first action there.
fn blind_said(
    alloc: Global,
    name: &Text,
    text: &[u8],
    why: ReadNo,
    b: &Branched,
    role: &Text,
    arm: u32,
) -> Result<Bytes, NoMemory>
    requires within { length text.now ≤ NARRATION_LIMIT }
    requires refused { IsRefusal text.now why }
    requires ordered { HasArms text.now }
    ensures { IfOk result (IsBlindSaid name.now text.now why (branched_of b.now) role.now arm) }
{
    let first = first_at(alloc, b, role, arm)?;
    let line = blind_line(alloc, role, arm, first)?;
    said_at(alloc, name, text, why, arm, action_at(b, arm, first), &line)
}

/// A line at the message of an action, or where the choice begins.
fn said_at(
    alloc: Global,
    name: &Text,
    text: &[u8],
    why: ReadNo,
    arm: u32,
    action: Option<u32>,
    line: &[u8],
) -> Result<Bytes, NoMemory>
    requires within { length text.now ≤ NARRATION_LIMIT }
    requires refused { IsRefusal text.now why }
    requires ordered { HasArms text.now }
    ensures { IfOk result (IsSaidAt name.now text.now why arm action line.now) }
{
    let mend =
        b"a role that hears the arm receives first in each one, with a format at the root that is another in each";
    match action {
        Some(action) => said_at_action(alloc, name, text, arm, action, line),
        None => said_at_choice(alloc, name, text, why, line, mend),
    }
}

/// A line at the message of an action of an arm.
fn said_at_action(
    alloc: Global,
    name: &Text,
    text: &[u8],
    arm: u32,
    action: u32,
    line: &[u8],
) -> Result<Bytes, NoMemory>
    requires within { length text.now ≤ NARRATION_LIMIT }
    requires ordered { HasArms text.now }
    ensures { IfOk result (IsSaidAtAction name.now text.now arm action line.now) }
{
    let texts = arm_texts(alloc, text)?;
    let own = text_of_arm(text, &texts, arm);
    let mend =
        b"a role that hears the arm receives first in each one, with a format at the root that is another in each\n";
    let said = unsent_text(alloc, name, own, action, line, mend)?;
    Ok(said)
}
