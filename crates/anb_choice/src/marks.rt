//! The tokens of a branched text, as its order sees them.
ghost use Rattle.std.specs.Prelude.{◌≡◌, ◌≤◌, ◌+◌, ℕ, length, bytes_eq, IfOk};
ghost use Rattle.anb_base.specs.declared.TheConstants.{SMALL_FILE};
ghost use Rattle.anb_syntax.specs.Views.{tok_of};
ghost use Rattle.anb_choice.specs.Order.{AreMarks, bad_at, ends_looking, kind_of, word_kind};
ghost use Rattle.anb_choice.specs.Standing.{Stand};

use anb_base::NoMemory;
use anb_read::each_is_either;
use anb_syntax::{Next, Token, TokenKind, is_name, next_token};
use std::alloc::Global;

/// What a token is in the order: one of its words, signs and names, another token, or what ends the
/// looking: goals or the end of the text, or an offset at which no token begins.
#[derive(Clone, Copy, Debug, PartialEq, Eq, Drop)]
pub(crate) enum Kind {
    Choice,
    Actions,
    Colon,
    Semicolon,
    Name,
    Other,
    Stop,
    Bad,
}

/// A token: its bytes begin at the offset `at`, and end before the offset `past`.
#[derive(Clone, Copy, Debug, Drop)]
pub(crate) struct Mark {
    pub(crate) kind: Kind,
    pub(crate) at: u32,
    pub(crate) past: u32,
}

fn is_same(a: &[u8], b: &[u8]) -> bool
    ensures { result ≡ bytes_eq a.now b.now }
{
    a == b
}

/// What a name or a reserved word is in the order.
fn word_kind(word: &[u8]) -> Kind
    ensures { result ≡ word_kind word.now }
{
    if is_same(b"Choice", word) {
        Kind::Choice
    } else if is_same(b"Actions", word) {
        Kind::Actions
    } else if is_same(b"Goals", word) {
        Kind::Stop
    } else if is_name(word) {
        Kind::Name
    } else {
        Kind::Other
    }
}

/// What the token is in the order.
fn token_kind(text: &[u8], token: Token) -> Kind
    requires { token.at + token.len ≤ length text.now }
    ensures { result ≡ kind_of (tok_of text.now token).word }
{
    match token.kind {
        TokenKind::Name => word_kind(&text[token.at as usize..][..token.len as usize]),
        TokenKind::Colon => Kind::Colon,
        TokenKind::Semicolon => Kind::Semicolon,
        TokenKind::Literal => Kind::Other,
        TokenKind::Comma => Kind::Other,
        TokenKind::Open => Kind::Other,
        TokenKind::Close => Kind::Other,
        TokenKind::Equals => Kind::Other,
        TokenKind::Arrow => Kind::Other,
    }
}

fn ends_looking(kind: Kind) -> bool
    ensures { result ≡ ends_looking kind }
{
    matches!(kind, Kind::Stop | Kind::Bad)
}

/// The tokens of the text up to the first that ends the looking, with that one.
pub(crate) fn marks(alloc: Global, text: &[u8]) -> Result<Vec<Mark>, NoMemory>
    requires { length text.now ≤ SMALL_FILE }
    ensures are { IfOk result (λ ms. AreMarks text.now ms.items) }
    ensures count { IfOk result (λ ms. length ms.items ≤ length text.now + 1) }
    ensures stand { IfOk result (λ ms. (to : ℕ) × Stand text.now 0 ms.items to) }
{
    each_is_either();
    let mut marks = Vec::new(alloc);
    let mut from: u32 = 0;
    'tokens: loop {
        match next_token(text, from) {
            Next::Token(token) => {
                let kind = token_kind(text, token);
                let past = token.at + token.len;
                marks.push(Mark {
                    kind,
                    at: token.at,
                    past,
                })?;
                if ends_looking(kind) {
                    return Ok(marks);
                }
                from = past;
            }
            Next::End => {
                let at = text.len() as u32;
                marks.push(Mark {
                    kind: Kind::Stop,
                    at,
                    past: at,
                })?;
                return Ok(marks);
            }
            Next::Bad(at) => {
                marks.push(Mark {
                    kind: Kind::Bad,
                    at,
                    past: at,
                })?;
                return Ok(marks);
            }
        }
    }
}

/// Where no token begins.
pub(crate) fn bad_at(marks: &[Mark]) -> Option<u32>
    ensures { result ≡ bad_at marks.now }
{
    for mark in marks {
        if matches!(mark.kind, Kind::Bad) {
            return Some(mark.at);
        }
    }
    None
}
