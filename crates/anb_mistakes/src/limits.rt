//! Where in a text stands what is beyond a limit.
ghost use Rattle.std.specs.Prelude.{◌≡◌, ◌≤◌, IfOk, length, map};
ghost use Rattle.anb_base.specs.declared.TheConstants.{SMALL_FILE};
ghost use Rattle.anb_syntax.specs.Grammar.{list_of};
ghost use Rattle.anb_syntax.specs.Views.{know_of, narration_of, tok_of};
ghost use Rattle.anb_mistakes.specs.Spots.{is_long, limit_spot, long_name, role_spot, term_spot as term_spot_in};

use crate::beyond::{heavy_term, large_term, wide_format};
use crate::listing::{in_line, known};
use crate::parts::{role_names, terms_of};
use crate::spots::{a_format, a_line, a_role, a_sender, behind_ends, nth, used};
use crate::tokens::bytes_of;
use anb_base::NoMemory;
use anb_protocol::Kind;
use anb_syntax::{KnowItem, Narration, Token, TokenKind};
use std::alloc::Global;

/// The first name, format, role, action or term that is beyond the limit.
pub(crate) fn limit_spot<'t>(
    alloc: Global,
    narration: &Narration,
    kind: Kind,
    text: &[u8],
    tokens: &'t [Token],
) -> Result<&'t [Token], NoMemory>
    requires { length tokens.now ≤ SMALL_FILE }
    ensures tokens { IfOk result (λ s. map (tok_of text.now) s.now
        ≡ limit_spot (narration_of narration.now) kind (map (tok_of text.now) tokens.now)) }
    ensures most { IfOk result (λ s. length s.now ≤ length tokens.now) }
{
    match kind {
        Kind::Name => Ok(long_name(text, tokens)),
        Kind::Formats => Ok(nth(b"", a_format(), 64, text, tokens)),
        Kind::Fields => {
            let number = wide_format(&narration.formats);
            Ok(nth(b"", a_format(), number, text, tokens))
        }
        Kind::Roles => role_spot(alloc, narration, 32, text, tokens),
        Kind::Actions => Ok(nth(b"", a_sender(), 256, text, used(text, tokens))),
        Kind::TermNodes => {
            let number = large_term(1024, &terms_of(alloc, narration)?);
            Ok(term_spot(&narration.knows, number, text, tokens))
        }
        Kind::AllNodes => {
            let number = heavy_term(65536, &terms_of(alloc, narration)?);
            Ok(term_spot(&narration.knows, number, text, tokens))
        }
    }
}

/// Whether a token is a name that is too long.
fn is_long(text: &[u8], token: Token) -> bool
    ensures { result ≡ is_long (tok_of text.now token).word }
{
    match token.kind {
        TokenKind::Name => bytes_of(text, token).len() > 64,
        _ => false,
    }
}

/// The first name that is too long.
fn long_name<'t>(text: &[u8], tokens: &'t [Token]) -> &'t [Token]
    ensures tokens { map (tok_of text.now) result.now
        ≡ long_name (map (tok_of text.now) tokens.now) }
    ensures most { length result.now ≤ length tokens.now }
{
    for i in 0..tokens.len() {
        if is_long(text, tokens[i]) {
            return &tokens[i..];
        }
    }
    &[]
}

/// The role of a number from 0, where it first heads a line or stands at an end of an action.
fn role_spot<'t>(
    alloc: Global,
    narration: &Narration,
    number: usize,
    text: &[u8],
    tokens: &'t [Token],
) -> Result<&'t [Token], NoMemory>
    requires { length tokens.now ≤ SMALL_FILE }
    ensures tokens { IfOk result (λ s. map (tok_of text.now) s.now
        ≡ role_spot (narration_of narration.now) number (map (tok_of text.now) tokens.now)) }
    ensures most { IfOk result (λ s. length s.now ≤ length tokens.now) }
{
    let roles = role_names(alloc, narration)?;
    let used = used(text, tokens);
    match roles.get(number) {
        Some(role) => Ok(nth(role.as_str().as_bytes(), a_role(), 0, text, used)),
        None => Ok(nth(b"", a_role(), 0, text, used)),
    }
}

/// How many terms a line of knowledge has.
fn terms_in(line: &KnowItem) -> usize
    ensures { result ≡ length (list_of (know_of line.now).terms) }
{
    line.terms.as_slice().len()
}

/// A term of a narration by its number from 0: those of lines of knowledge, and then the messages.
fn term_spot<'t>(knows: &[KnowItem], number: usize, text: &[u8], tokens: &'t [Token]) -> &'t [Token]
    requires { length tokens.now ≤ SMALL_FILE }
    ensures tokens { map (tok_of text.now) result.now
        ≡ term_spot_in (map know_of knows.now) 0 number (map (tok_of text.now) tokens.now) }
    ensures most { length result.now ≤ length tokens.now }
{
    let used = used(text, tokens);
    let mut left = number;
    for i in 0..knows.len() {
        let count = terms_in(&knows[i]);
        if left < count {
            return known(b"", left, text, in_line(nth(b"", a_line(), i, text, used)));
        }
        left -= count;
    }
    behind_ends(nth(b"", a_sender(), left, text, used))
}
