//! Texts that are no narration.
ghost use Rattle.std.specs.Prelude.{◌≡◌, ◌≤◌, IfOk, length};
ghost use Rattle.anb_base.specs.declared.TheConstants.{SMALL_FILE};
ghost use Rattle.anb_read.specs.Refusals.{IsRefusal};
ghost use Rattle.anb_mistakes.specs.Laws.{UnreadTextsAreUnique};
ghost use Rattle.anb_mistakes.specs.Unread.{AreHints, AreWords, IsUnreadText, Mends, reason};

use crate::near::put_section;
use crate::pointing::{pointed, put};
use crate::spots::item_at;
use crate::tokens::tokens;
use crate::words::expected_text;
use anb_base::{Bytes, NoMemory, Text};
use anb_read::{ReadNo, expected};
use anb_syntax::{Next, next_token};
use std::alloc::Global;

/// What is said of a text that is refused, which is in a file of this name. It takes the time of about
/// thirty reads of what stands before the refused token.
pub fn unread_text(alloc: Global, name: &Text, text: &[u8], why: ReadNo) -> Result<Bytes, NoMemory>
    requires size { length text.now ≤ SMALL_FILE }
    requires refused { IsRefusal text.now why }
    ensures { IfOk result (IsUnreadText name.now text.now why) }
{
    let reason = reason(alloc, text, why)?;
    let mend = mend(alloc, text, why)?;
    let name = name.as_str().as_bytes();
    let at = why.offset() as usize;
    Ok(Bytes::new(pointed(alloc, name, text, at, &reason, &mend)?))
}

/// Why it is refused.
fn reason(alloc: Global, text: &[u8], why: ReadNo) -> Result<Vec<u8>, NoMemory>
    requires size { length text.now ≤ SMALL_FILE }
    requires refused { IsRefusal text.now why }
    ensures { IfOk result (λ v. v.items ≡ reason text.now why) }
{
    match why {
        ReadNo::Token { at: _ } => Ok(Vec::from_slice(alloc, b"no token begins here")?),
        ReadNo::Grammar { at } => unexpected(alloc, text, at),
        ReadNo::Deep { at: _ } => Ok(Vec::from_slice(alloc, b"this term is at level 65")?),
        ReadNo::NoMemory => Ok(Vec::new(alloc)),
    }
}

/// The token that isn't expected, or the end.
fn unexpected(alloc: Global, text: &[u8], at: u32) -> Result<Vec<u8>, NoMemory>
    requires size { length text.now ≤ SMALL_FILE }
    requires refused { IsRefusal text.now (ReadNo.Grammar at) }
    ensures { IfOk result (λ v. v.items ≡ reason text.now (ReadNo.Grammar at)) }
{
    match next_token(text, at) {
        Next::Token(token) => {
            let from = token.at as usize;
            let mut out = Vec::from_slice(alloc, b"unexpected `")?;
            put(&mut out, &text[from..from + token.len as usize])?;
            put(&mut out, b"`")?;
            Ok(out)
        }
        _ => Ok(Vec::from_slice(alloc, b"unexpected end")?),
    }
}

/// What would mend it.
fn mend(alloc: Global, text: &[u8], why: ReadNo) -> Result<Vec<u8>, NoMemory>
    requires size { length text.now ≤ SMALL_FILE }
    requires refused { IsRefusal text.now why }
    ensures { IfOk result (λ v. Mends text.now why v.items) }
{
    match why {
        ReadNo::Deep { at: _ } => Ok(Vec::from_slice(alloc, b"a term has 64 levels at most")?),
        ReadNo::Grammar { at } => hints(alloc, text, at),
        _ => words(alloc, text, why),
    }
}

/// The words that are expected there, and the section that is near.
fn hints(alloc: Global, text: &[u8], at: u32) -> Result<Vec<u8>, NoMemory>
    requires size { length text.now ≤ SMALL_FILE }
    requires refused { IsRefusal text.now (ReadNo.Grammar at) }
    ensures { IfOk result (λ v. AreHints text.now at v.items) }
{
    let mut out = words(alloc, text, ReadNo::Grammar { at })?;
    let all = tokens(alloc, text)?;
    let item = item_at(at, &all);
    put_section(alloc, &mut out, text, item)?;
    Ok(out)
}

/// The words that are expected there.
fn words(alloc: Global, text: &[u8], why: ReadNo) -> Result<Vec<u8>, NoMemory>
    requires size { length text.now ≤ SMALL_FILE }
    requires refused { IsRefusal text.now why }
    ensures { IfOk result (λ v. AreWords text.now why v.items) }
{
    let words = expected(alloc, text, why)?;
    Ok(expected_text(alloc, &words)?)
}

/// A law: one text is said of a refusal.
pub fn unread_texts_are_unique()
    ensures { UnreadTextsAreUnique }
{}
