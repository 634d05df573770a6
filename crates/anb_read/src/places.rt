//! The tokens of a text, and the words that they are to the grammar.

ghost use Rattle.std.specs.Prelude.{◌≡◌, ◌≤◌, ℕ, List, length, take, drop, IfOk};
ghost use Rattle.anb_base.specs.declared.TheConstants.{SMALL_FILE};
ghost use Rattle.anb_syntax.specs.Words.{head, tail};
ghost use Rattle.anb_syntax.specs.Lexing.{Lexes};
ghost use Rattle.anb_read.specs.Places.{kind_of, tok_of, toks, word_in};

use crate::grammar::GrammarWord;
use anb_syntax::{Next, Token, TokenKind, next_token};
use std::alloc::{AllocError, Global};

/// A token, or what stands behind the last one: the end, or an offset at which no token begins; or a
/// word that isn't in the text.
#[derive(Clone, Copy, Debug, Drop)]
pub(crate) enum Place {
    At(Token),
    End(u32),
    Bad(u32),
    Given(GrammarWord),
}

impl Place {
    /// Its offset, which is 0 where it isn't in the text.
    pub(crate) fn at(&self) -> u32
        ensures { (text : List ℕ) → result ≡ (tok_of text self.now).at }
    {
        match self {
            Place::At(token) => token.at,
            Place::End(at) => *at,
            Place::Bad(at) => *at,
            Place::Given(_) => 0,
        }
    }
}

/// A token as the grammar sees it: a name or a reserved word, the offset of a literal, a literal
/// without bytes, the first byte of a sign, or what stands behind the last token.
#[derive(Clone, Copy)]
pub(crate) enum Word<'t> {
    Name(&'t [u8]),
    Literal(u32),
    Quotes,
    Sign(u8),
    End,
    Bad,
}

/// The bytes of the text from an offset on.
fn from(text: &[u8], at: usize) -> &[u8]
    ensures { result.now ≡ drop at text.now }
{
    if at <= text.len() { &text[at..] } else { &[] }
}

/// The first bytes of a text.
fn up_to(text: &[u8], len: usize) -> &[u8]
    ensures { result.now ≡ take len text.now }
{
    if len <= text.len() {
        &text[..len]
    } else {
        text
    }
}

/// The word that a token is.
fn word_of(text: &[u8], token: Token) -> Word
    ensures { word_in text.now result ≡ kind_of token.kind token.len (drop token.at text.now) }
{
    match token.kind {
        TokenKind::Name => Word::Name(up_to(from(text, token.at as usize), token.len as usize)),
        TokenKind::Literal => Word::Literal(token.at),
        TokenKind::Colon => Word::Sign(b':'),
        TokenKind::Semicolon => Word::Sign(b';'),
        TokenKind::Comma => Word::Sign(b','),
        TokenKind::Open => Word::Sign(b'('),
        TokenKind::Close => Word::Sign(b')'),
        TokenKind::Equals => Word::Sign(b'='),
        TokenKind::Arrow => Word::Sign(b'-'),
    }
}

/// The first word.
pub(crate) fn first<'t>(text: &'t [u8], places: &[Place]) -> Word<'t>
    ensures { word_in text.now result ≡ head (toks text.now places.now) }
{
    match places {
        [] => Word::Bad,
        [place, ..] => match place {
            Place::At(token) => word_of(text, *token),
            Place::End(_) => Word::End,
            Place::Bad(_) => Word::Bad,
            Place::Given(word) => word.word(),
        },
    }
}

/// What follows the first token.
pub(crate) fn others(places: &[Place]) -> &[Place]
    ensures { (text : List ℕ) → toks text result.now ≡ tail (toks text places.now) }
{
    match places {
        [] => places,
        [_, rest @ ..] => rest,
    }
}

/// All tokens of a text, and what stands behind the last one.
pub(crate) fn places(alloc: Global, text: &[u8]) -> Result<Vec<Place>, AllocError>
    requires { length text.now ≤ SMALL_FILE }
    ensures { IfOk result (λ v. Lexes 0 text.now (toks text.now v.items)) }
{
    let mut all = Vec::new(alloc);
    let mut from: u32 = 0;
    'tokens: loop {
        match next_token(text, from) {
            Next::Token(token) => {
                all.push(Place::At(token))?;
                from = token.at + token.len;
            }
            Next::End => {
                all.push(Place::End(text.len() as u32))?;
                return Ok(all);
            }
            Next::Bad(at) => {
                all.push(Place::Bad(at))?;
                return Ok(all);
            }
        }
    }
}
