//! The verdict on a narration's text: a status, and what is said of the text.
ghost use Rattle.std.specs.Prelude.{◌≡◌, ◌≤◌, ◌++◌, length, IfOk};
ghost use Rattle.std.specs.List.{AllByRecursion};
ghost use Rattle.anb_base.specs.declared.TheConstants.{ARRIVAL, WIDE};
ghost use Rattle.anb_code.specs.Verified.{IsVerifiedCode};
ghost use Rattle.anb_read.specs.Refusals.{IsRefusal};
ghost use Rattle.anb_syntax.specs.Grammar.{IsSpellable};
ghost use Rattle.anb_syntax.specs.Sizes.{size};
ghost use Rattle.anb_syntax.specs.Text.{Text as IsTextOf};
ghost use Rattle.anb_syntax.specs.Views.{narration_of};
ghost use Rattle.anb_command.specs.declared.limits.TheConstants.{NARRATION_LIMIT};
ghost use Rattle.anb_status.specs.Statuses.{why_ill_formed};
ghost use Rattle.anb_compile.specs.Fitting.{FitRoles};
ghost use Rattle.anb_compile.specs.Unsent.{IsFirstUnsentOfAll};
ghost use Rattle.anb_check_commands.specs.CheckCommand.{AreTaken, IsLackSaid, IsReport, IsShownVerdict, IsVerdict, IsVerdictOnText};
ghost use Rattle.anb_check_commands.specs.Telling.{IsLast, IsVerdictOnNarration, IsVerdictOnProtocol};

use crate::choices::verdict_on_unread;
use anb_base::{Bytes, NoMemory, Text};
use anb_code::RoleCode;
use anb_command::{NarrationNo, Status, ill_formed};
use anb_compile::{CompileNo, compile_all};
use anb_lack::lack_text;
use anb_mistakes::{unread_text, unresolved_text, unsent_text};
use anb_notes::{noted_of, notes_on};
use anb_pattern::Taken;
use anb_protocol::{Protocol, ResolveNo, protocols_hold};
use anb_read::{ReadNo, read};
use anb_report::report;
use anb_resolve::{resolve, small_is_countable};
use anb_syntax::Narration;
use anb_visible::visible;
use itoa::Buffer;
use std::alloc::Global;

/// The status of a narration's text, and what is said of it.
#[derive(Drop)]
pub(crate) struct Verdict {
    pub(crate) status: Status,
    pub(crate) said: Bytes,
}

/// The verdict on the text in the file of this name, as a terminal may have it.
pub(crate) fn verdict_on(alloc: Global, name: &Text, text: &[u8]) -> Result<Verdict, NoMemory>
    requires { length text.now ≤ NARRATION_LIMIT }
    ensures is { IfOk result (λ v. IsShownVerdict name.now text.now v.status v.said) }
    ensures last { IfOk result (λ v. IsLast v.status) }
{
    let Verdict { status, said } = plain_verdict_on(alloc, name, text)?;
    let shown = visible(alloc, said.as_slice())?;
    Ok(Verdict {
        status,
        said: Bytes::new(shown),
    })
}

/// The verdict with all bytes of the file as they are.
fn plain_verdict_on(alloc: Global, name: &Text, text: &[u8]) -> Result<Verdict, NoMemory>
    requires { length text.now ≤ NARRATION_LIMIT }
    ensures is { IfOk result (λ v. IsVerdict name.now text.now v.status v.said) }
    ensures last { IfOk result (λ v. IsLast v.status) }
{
    match read(alloc, text) {
        Ok(narration) => verdict_on_narration(alloc, name, text, &narration),
        Err(ReadNo::NoMemory) => Err(NoMemory),
        Err(why) => verdict_on_unread(alloc, name, text, why),
    }
}

/// The verdict on a text as that of a narration.
pub(crate) fn verdict_on_text(alloc: Global, name: &Text, text: &[u8]) -> Result<Verdict, NoMemory>
    requires { length text.now ≤ NARRATION_LIMIT }
    ensures is { IfOk result (λ v. IsVerdictOnText name.now text.now v.status v.said) }
    ensures last { IfOk result (λ v. IsLast v.status) }
{
    match read(alloc, text) {
        Ok(narration) => verdict_on_narration(alloc, name, text, &narration),
        Err(ReadNo::NoMemory) => Err(NoMemory),
        Err(why) => unread_verdict(alloc, name, text, why),
    }
}

/// The verdict on a text that is no narration, and is told as such.
pub(crate) fn unread_verdict(
    alloc: Global,
    name: &Text,
    text: &[u8],
    why: ReadNo,
) -> Result<Verdict, NoMemory>
    requires within { length text.now ≤ NARRATION_LIMIT }
    requires refused { IsRefusal text.now why }
    ensures is { IfOk result (λ v. IsVerdictOnText name.now text.now v.status v.said) }
    ensures last { IfOk result (λ v. IsLast v.status) }
{
    Ok(Verdict {
        said: unread_text(alloc, name, text, why)?,
        status: Status::BadNarration(NarrationNo::Read(why)),
    })
}

/// The verdict on the narration of a text.
fn verdict_on_narration(
    alloc: Global,
    name: &Text,
    text: &[u8],
    narration: &Narration,
) -> Result<Verdict, NoMemory>
    requires within { length text.now ≤ NARRATION_LIMIT }
    requires told { IsTextOf (narration_of narration.now) text.now }
    requires spellable { IsSpellable (narration_of narration.now) }
    requires small { size (narration_of narration.now) ≤ NARRATION_LIMIT }
    ensures is { IfOk result (λ v.
        IsVerdictOnNarration name.now text.now (narration_of narration.now) v.status v.said) }
    ensures last { IfOk result (λ v. IsLast v.status) }
{
    small_is_countable();
    match resolve(alloc, narration) {
        Ok(protocol) => verdict_on_protocol(alloc, name, text, &protocol),
        Err(ResolveNo::NoMemory) => Err(NoMemory),
        Err(why) => {
            let reason = reason_of(alloc, &why)?;
            Ok(Verdict {
                said: unresolved_text(alloc, name, text, narration, &why, &reason)?,
                status: Status::BadNarration(NarrationNo::Resolve(why)),
            })
        }
    }
}

/// Why a narration isn't well formed.
fn reason_of(alloc: Global, why: &ResolveNo) -> Result<Vec<u8>, NoMemory>
    ensures { IfOk result (λ v. v.items ≡ why_ill_formed why.now) }
{
    let mut digits = Buffer::new();
    let (first, second, third, fourth) = ill_formed(why, &mut digits);
    let mut out = Vec::from_slice(alloc, first.as_bytes())?;
    out.extend_from_slice(second.as_bytes())?;
    out.extend_from_slice(third.as_bytes())?;
    out.extend_from_slice(fourth.as_bytes())?;
    Ok(out)
}

/// The verdict on the protocol of a text: a report on its roles, or what one of them lacks that can't send.
fn verdict_on_protocol(
    alloc: Global,
    name: &Text,
    text: &[u8],
    protocol: &Protocol,
) -> Result<Verdict, NoMemory>
    requires within { length text.now ≤ NARRATION_LIMIT }
    ensures is { IfOk result (λ v.
        IsVerdictOnProtocol name.now text.now protocol.now v.status v.said) }
    ensures last { IfOk result (λ v. IsLast v.status) }
{
    match compile_all(alloc, protocol) {
        Ok(codes) => Ok(Verdict {
            said: report_on(alloc, protocol, &codes)?,
            status: Status::Done,
        }),
        Err(CompileNo::CannotSend { action, role }) => {
            let said = lack_said(alloc, name, text, protocol, role, action)?;
            let role = protocol.roles()[role as usize].copy(alloc)?;
            Ok(Verdict {
                said,
                status: Status::CannotSend { action, role },
            })
        }
        Err(CompileNo::NoMemory) => Err(NoMemory),
    }
}

/// What is said of the first action that its sender can't compose.
fn lack_said(
    alloc: Global,
    name: &Text,
    text: &[u8],
    protocol: &Protocol,
    role: u32,
    action: u32,
) -> Result<Bytes, NoMemory>
    requires within { length text.now ≤ NARRATION_LIMIT }
    requires first { IsFirstUnsentOfAll protocol.now role action }
    ensures { IfOk result (IsLackSaid name.now text.now protocol.now action) }
{
    let lack = lack_text(alloc, protocol, role, action)?;
    let said = unsent_text(alloc, name, text, action, &lack.line, &lack.lists)?;
    Ok(said)
}

/// The report on a protocol, by codes of its roles and by what these take, and the notes on its keys.
fn report_on(alloc: Global, protocol: &Protocol, codes: &[RoleCode]) -> Result<Bytes, NoMemory>
    requires { FitRoles protocol.now codes.now }
    ensures { IfOk result (λ said. IsReport protocol.now said) }
{
    are_accepted(codes);
    let taken = taken_by_all(alloc, protocol)?;
    let said = report(alloc, protocol, codes, &taken)?;
    let notes = notes_on(alloc, protocol)?;
    with_more(said, &notes)
}

/// A text with more behind it.
fn with_more(text: Bytes, more: &[u8]) -> Result<Bytes, NoMemory>
    ensures { IfOk result (λ whole. whole ≡ text ++ more.now) }
{
    let mut whole = text.into_vec();
    whole.extend_from_slice(more)?;
    Ok(Bytes::new(whole))
}

/// A law: codes of roles are accepted.
fn are_accepted(codes: &[RoleCode])
    ensures { AllByRecursion (IsVerifiedCode ARRIVAL WIDE) codes.now }
{
    for code in codes {
        is_accepted(code);
    }
}

/// A law: the code of a role is accepted.
fn is_accepted(code: &RoleCode)
    ensures { IsVerifiedCode ARRIVAL WIDE code.now }
{
    let _ = code.instrs();
}

/// What is said of each role: what it takes, what others can play to it, and new names on which nothing
/// depends.
fn taken_by_all(alloc: Global, protocol: &Protocol) -> Result<Vec<Taken>, NoMemory>
    ensures { IfOk result (λ taken. AreTaken protocol.now taken.items) }
{
    protocols_hold();
    let _ = protocol.name();
    let mut out = Vec::new(alloc);
    for role in 0..protocol.roles().len() {
        let taken = noted_of(alloc, protocol, role as u32)?;
        out.push(taken)?;
    }
    Ok(out)
}
