//! Where a choice goes wrong whose tokens aren't in order.
ghost use Rattle.std.specs.Prelude.{◌≡◌, ◌≤◌, length, min, bytes_eq, IfOk};
ghost use Rattle.anb_mistakes.specs.Pointing.{pointed};
ghost use Rattle.anb_read.specs.Refusals.{IsRefusal};
ghost use Rattle.anb_command.specs.declared.limits.TheConstants.{NARRATION_LIMIT};
ghost use Rattle.anb_check_commands.specs.ChoiceLines.{begins_choice, order_line, order_mend, wrong_at, wrong_behind};

use anb_base::{Bytes, NoMemory, Text};
use anb_choice::BranchNo;
use anb_mistakes::pointed;
use anb_read::ReadNo;
use anb_syntax::{Next, next_token};
use std::alloc::Global;

/// Where a choice goes wrong that begins with the token with which no narration goes on.
pub(crate) fn wrong_at(text: &[u8], why: ReadNo, no: &BranchNo) -> Option<u32>
    requires within { length text.now ≤ NARRATION_LIMIT }
    requires refused { IsRefusal text.now why }
    ensures { result ≡ wrong_at text.now why no.now }
{
    match no {
        BranchNo::Token(at) => wrong_behind(text, why, *at),
        BranchNo::Shape(at) => wrong_behind(text, why, *at),
        _ => None,
    }
}

/// This offset, where such a choice begins before it.
fn wrong_behind(text: &[u8], why: ReadNo, at: u32) -> Option<u32>
    requires within { length text.now ≤ NARRATION_LIMIT }
    requires refused { IsRefusal text.now why }
    ensures { result ≡ wrong_behind text.now why at }
{
    if begins_choice(text, why) && why.offset() < at {
        Some(at)
    } else {
        None
    }
}

/// Whether the token with which no narration goes on begins a choice.
fn begins_choice(text: &[u8], why: ReadNo) -> bool
    requires within { length text.now ≤ NARRATION_LIMIT }
    requires refused { IsRefusal text.now why }
    ensures { result ≡ begins_choice text.now why }
{
    match why {
        ReadNo::Grammar { at } => is_choice_at(text, at),
        _ => false,
    }
}

fn is_choice_at(text: &[u8], at: u32) -> bool
    requires within { length text.now ≤ NARRATION_LIMIT }
    requires refused { IsRefusal text.now (ReadNo.Grammar at) }
    ensures { result ≡ begins_choice text.now (ReadNo.Grammar at) }
{
    match next_token(text, at) {
        Next::Token(token) => {
            let from = token.at as usize;
            is_same(b"Choice", &text[from..from + token.len as usize])
        }
        _ => false,
    }
}

fn is_same(one: &[u8], other: &[u8]) -> bool
    ensures { result ≡ bytes_eq one.now other.now }
{
    one == other
}

/// What is said of it.
pub(crate) fn order_said(
    alloc: Global,
    name: &Text,
    text: &[u8],
    no: &BranchNo,
    at: u32,
) -> Result<Bytes, NoMemory>
    requires { length text.now ≤ NARRATION_LIMIT }
    ensures { IfOk result (λ said. said
        ≡ pointed name.now text.now (min at (length text.now)) (order_line no.now) order_mend) }
{
    pointed_at(alloc, name, text, place_in(text, at), order_line(no))
}

/// A place in the text, or its end.
fn place_in(text: &[u8], at: u32) -> usize
    ensures offset { result ≡ min at (length text.now) }
    ensures within { result ≤ length text.now }
{
    text.len().min(at as usize)
}

fn pointed_at(
    alloc: Global,
    name: &Text,
    text: &[u8],
    at: usize,
    line: &[u8],
) -> Result<Bytes, NoMemory>
    requires size { length text.now ≤ NARRATION_LIMIT }
    requires within { at ≤ length text.now }
    ensures { IfOk result (λ said. said ≡ pointed name.now text.now at line.now order_mend) }
{
    let name = name.as_str().as_bytes();
    let mend =
        b"a choice is `Choice: <role>;`, and then two to eight times `Actions:` and the actions of an arm";
    Ok(Bytes::new(pointed(alloc, name, text, at, line, mend)?))
}

fn order_line(no: &BranchNo) -> &'static [u8]
    ensures { result.now ≡ order_line no.now }
{
    match no {
        BranchNo::Token(_) => b"no token begins here",
        _ => b"no text with a choice goes on so",
    }
}
