//! Actions whose sender can't compose the message.
ghost use Rattle.std.specs.Prelude.{◌≤◌, IfOk, length};
ghost use Rattle.anb_base.specs.declared.TheConstants.{SMALL_FILE};
ghost use Rattle.anb_mistakes.specs.Laws.{UnsentTextsAreUnique};
ghost use Rattle.anb_mistakes.specs.Unsent.{IsUnsentText};

use crate::pointing::{located, put};
use crate::spots::message;
use crate::tokens::tokens;
use crate::unresolved::offset;
use anb_base::{Bytes, NoMemory, Text};
use std::alloc::Global;

/// What is said of an action of the narration that is read from this text in a file of this name: a line
/// at its message, and further lines.
pub fn unsent_text(
    alloc: Global,
    name: &Text,
    text: &[u8],
    action: u32,
    line: &[u8],
    lines: &[u8],
) -> Result<Bytes, NoMemory>
    requires { length text.now ≤ SMALL_FILE }
    ensures { IfOk result (IsUnsentText name.now text.now action line.now lines.now) }
{
    let all = tokens(alloc, text)?;
    let there = message(action, text, &all);
    let name = name.as_str().as_bytes();
    let mut out = located(alloc, name, text, offset(text, there), line)?;
    put(&mut out, lines)?;
    Ok(Bytes::new(out))
}

/// A law: one text is said of an action with these lines.
pub fn unsent_texts_are_unique()
    ensures { UnsentTextsAreUnique }
{}
