//! Narrations that aren't well formed.
ghost use Rattle.std.specs.Prelude.{◌≡◌, ◌≤◌, IfOk, length, map};
ghost use Rattle.anb_base.specs.declared.TheConstants.{SMALL_FILE};
ghost use Rattle.anb_syntax.specs.Views.{narration_of, tok_of};
ghost use Rattle.anb_mistakes.specs.Laws.{UnresolvedTextsAreUnique};
ghost use Rattle.anb_mistakes.specs.Unresolved.{IsUnresolvedText, offset_in};

use crate::mends::mend;
use crate::pointing::pointed;
use crate::spots::spot;
use crate::tokens::tokens;
use anb_base::{Bytes, NoMemory, Text};
use anb_protocol::ResolveNo;
use anb_syntax::{Narration, Token};
use std::alloc::Global;

/// What is said of the refusal of a narration, which is read from this text in a file of this name,
/// with this reason.
pub fn unresolved_text(
    alloc: Global,
    name: &Text,
    text: &[u8],
    narration: &Narration,
    why: &ResolveNo,
    reason: &[u8],
) -> Result<Bytes, NoMemory>
    requires { length text.now ≤ SMALL_FILE }
    ensures { IfOk result (IsUnresolvedText name.now text.now (narration_of narration.now)
        why.now reason.now) }
{
    let all = tokens(alloc, text)?;
    let there = spot(alloc, narration, why, text, &all)?;
    let mend = mend(alloc, narration, why, text, there)?;
    let name = name.as_str().as_bytes();
    let at = offset(text, there);
    Ok(Bytes::new(pointed(alloc, name, text, at, reason, &mend)?))
}

/// Where the first of these tokens begins.
pub(crate) fn offset(text: &[u8], tokens: &[Token]) -> usize
    ensures offset { result ≡ offset_in text.now (map (tok_of text.now) tokens.now) }
    ensures within { result ≤ length text.now }
{
    match tokens {
        [] => 0,
        [token, ..] => text.len().min(token.at as usize),
    }
}

/// A law: one text is said of the refusal of a narration.
pub fn unresolved_texts_are_unique()
    ensures { UnresolvedTextsAreUnique }
{}
