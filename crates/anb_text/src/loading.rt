//! A role file is read and verified.
ghost use Rattle.std.specs.Prelude.{◌≡◌, ◌≢◌, ◌⊎◌, ◌≤◌, ◌==◌, length, position, IfOk, IfErr, IfSome, IfNone, MatchResult};
ghost use Rattle.anb_base.specs.declared.TheConstants.{LARGE_FILE};
ghost use Rattle.anb_code.specs.CodeValue.{CodeValue};
ghost use Rattle.anb_code.specs.Verified.{IsVerifiedCode};
ghost use Rattle.anb_text.specs.declared.refusal.LoadNo.{LoadNo as No};
ghost use Rattle.anb_text.specs.declared.refusal.LoadNo.TheVariants as refusal;
ghost use Rattle.anb_text.specs.RoleFiles.{IsTextOf};
ghost use Rattle.anb_text.specs.Refusals.{IsRefusal};
ghost use Rattle.anb_text.specs.Stages.{IsFault, IsOneLine, IsSplit, IsStuck, ReadsOn, Spells, refusal_of};

use crate::LoadNo;
use crate::reading::read_line;
use crate::stages::{Stage, stage_after};
use anb_base::{ARRIVAL, NoMemory, WIDE};
use anb_code::{CodeNo, RawCode, RoleCode, verify};
use std::alloc::Global;

/// Reads a role file of version 1 or 2, and verifies the code.
pub fn load(alloc: Global, text: &[u8]) -> Result<RoleCode, LoadNo>
    requires size { length text.now ≤ LARGE_FILE }
    ensures spelled { IfOk result (λ code. IsTextOf text.now code) }
    ensures read { (code : CodeValue) → IsVerifiedCode ARRIVAL WIDE code → IsTextOf text.now code
        → MatchResult result (λ c. c ≡ code) (λ no. no ≡ refusal.NoMemory) }
    // What is refused has the refusal, and each text with a refusal is refused so.
    ensures refused { IfErr result (IsRefusal text.now) }
    ensures exact { (due : No) → due ≢ refusal.NoMemory → IsRefusal text.now due
        → MatchResult result (λ code. ⊥) (λ no. (no ≡ due) ⊎ (no ≡ refusal.NoMemory)) }
{
    let raw = read_code(alloc, text)?;
    match verify(alloc, raw) {
        Ok(code) => Ok(code),
        Err(fault) => Err(refusal_of(fault)),
    }
}

fn refusal_of(fault: CodeNo) -> LoadNo
    ensures { result ≡ refusal_of fault }
{
    match fault {
        CodeNo::NoMemory => LoadNo::NoMemory,
        fault => LoadNo::Code(fault),
    }
}

/// The code that a role file spells.
fn read_code(alloc: Global, text: &[u8]) -> Result<RawCode, LoadNo>
    requires { length text.now ≤ LARGE_FILE }
    ensures spelled { IfOk result (Spells text.now) }
    ensures refused { IfErr result (IsFault text.now) }
{
    let mut stage = Stage::Start;
    let mut rest = text;
    let mut number = 1;
    while let Some((line, behind)) = split_line(rest) {
        let Some(after) = read_on(alloc, stage, line)? else {
            return Err(LoadNo::Line(number));
        };
        stage = after;
        rest = behind;
        number += 1;
    }
    match stage {
        Stage::End(_, raw) if rest.is_empty() => Ok(raw),
        _ => Err(LoadNo::Line(number)),
    }
}

/// The first line, without the byte that ends it, and what stands behind that; nothing, where no line
/// is ended.
fn split_line(text: &[u8]) -> Option<(&[u8], &[u8])>
    ensures some { IfSome result (λ parts. IsSplit text.now parts.0.now parts.1.now) }
    ensures none { IfNone result (IsOneLine text.now) }
{
    let Some(end) = line_end(text) else {
        return None;
    };
    Some((&text[..end], &text[end + 1..]))
}

fn line_end(text: &[u8]) -> Option<usize>
    ensures { result ≡ position (λ b. b == 10) text.now }
{
    text.iter().position(|byte| *byte == b'\n')
}

/// What was read with this line more, where it is in the grammar there.
fn read_on(alloc: Global, stage: Stage, line: &[u8]) -> Result<Option<Stage>, NoMemory>
    requires { length line.now ≤ LARGE_FILE }
    ensures some { IfOk result (λ r. IfSome r (ReadsOn stage line.now)) }
    ensures none { IfOk result (λ r. IfNone r (IsStuck stage line.now)) }
{
    match read_line(alloc, line)? {
        Some(line) => stage_after(alloc, stage, line),
        None => Ok(None),
    }
}
