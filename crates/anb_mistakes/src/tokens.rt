//! The tokens of a text that is a narration's.
ghost use Rattle.std.specs.Prelude.{◌≡◌, ◌+◌, ◌<◌, ◌≤◌, ◌++◌, IfOk, IfSome, List, ℕ, bytes_eq, drop, length, map, take};
ghost use Rattle.anb_base.specs.declared.TheConstants.{SMALL_FILE};
ghost use Rattle.anb_syntax.specs.Views.{tok_of};
ghost use Rattle.anb_syntax.specs.Words.{head, name, sign, word_eqb};
ghost use Rattle.anb_mistakes.specs.Spots.{HasTokens, arguments, commas, sign_step};

use anb_base::NoMemory;
use anb_syntax::{Next, Token, TokenKind, next_token};
use std::alloc::Global;

/// All tokens of a text, up to its end or to where none begins.
pub(crate) fn tokens(alloc: Global, text: &[u8]) -> Result<Vec<Token>, NoMemory>
    requires { length text.now ≤ SMALL_FILE }
    ensures tokens { IfOk result (λ v. HasTokens text.now (map (tok_of text.now) v.items)) }
    ensures few { IfOk result (λ v. length v.items ≤ length text.now) }
{
    let mut all = Vec::new(alloc);
    let mut from: u32 = 0;
    'tokens: loop {
        match next_token(text, from) {
            Next::Token(token) => {
                all.push(token)?;
                from = token.at + token.len;
            }
            _ => return Ok(all),
        }
    }
}

/// The bytes of a token.
pub(crate) fn bytes_of(text: &[u8], token: Token) -> &[u8]
    ensures { result.now ≡ take token.len (drop token.at text.now) }
{
    let (at, len) = (token.at as usize, token.len as usize);
    let rest = if at <= text.len() { &text[at..] } else { &[] };
    if len <= rest.len() {
        &rest[..len]
    } else {
        rest
    }
}

/// Whether a token is this word.
pub(crate) fn is_word(word: &[u8], text: &[u8], token: Token) -> bool
    ensures { result ≡ word_eqb (name word.now) (tok_of text.now token).word }
{
    match token.kind {
        TokenKind::Name => is_same(word, bytes_of(text, token)),
        _ => false,
    }
}

fn is_same(a: &[u8], b: &[u8]) -> bool
    ensures { result ≡ bytes_eq a.now b.now }
{
    a == b
}

/// Whether a token is this sign.
pub(crate) fn is_sign(c: u8, token: Token) -> bool
    ensures { (text : List ℕ) → result ≡ word_eqb (sign c) (tok_of text token).word }
{
    match token.kind {
        TokenKind::Name => false,
        TokenKind::Literal => false,
        TokenKind::Colon => c == b':',
        TokenKind::Semicolon => c == b';',
        TokenKind::Comma => c == b',',
        TokenKind::Open => c == b'(',
        TokenKind::Close => c == b')',
        TokenKind::Equals => c == b'=',
        TokenKind::Arrow => c == b'-',
    }
}

/// Whether the first token is this sign.
pub(crate) fn begins(c: u8, tokens: &[Token]) -> bool
    ensures { (text : List ℕ) → result
        ≡ word_eqb (sign c) (head (map (tok_of text) tokens.now)) }
{
    match tokens {
        [] => false,
        [token, ..] => is_sign(c, *token),
    }
}

/// The tokens behind the first.
pub(crate) fn others(tokens: &[Token]) -> &[Token]
    ensures { result.now ≡ drop 1 tokens.now }
{
    match tokens {
        [] => tokens,
        [_, rest @ ..] => rest,
    }
}

/// How many arguments stand behind an opening sign.
pub(crate) fn arguments(tokens: &[Token]) -> usize
    requires { length tokens.now ≤ SMALL_FILE }
    ensures { (text : List ℕ) → result ≡ arguments (map (tok_of text) tokens.now) }
{
    if begins(b')', tokens) {
        return 0;
    }
    1 + commas(tokens)
}

/// How many commas stand there outside of inner signs.
fn commas(tokens: &[Token]) -> usize
    requires { length tokens.now ≤ SMALL_FILE }
    ensures commas { (text : List ℕ) → result ≡ commas (map (tok_of text) tokens.now) 0 }
    ensures most { result ≤ length tokens.now }
{
    let mut depth: usize = 0;
    let mut count: usize = 0;
    for token in tokens {
        match sign_step(depth, *token) {
            None => return count,
            Some((next, more)) => {
                depth = next;
                count += more;
            }
        }
    }
    count
}

/// The depth behind a sign, and how many commas it adds.
fn sign_step(depth: usize, token: Token) -> Option<(usize, usize)>
    requires { depth < 4294967296 }
    ensures step { (text : List ℕ) → result ≡ sign_step depth (tok_of text token).word }
    ensures most { IfSome result (λ step. step.0 + step.1 ≤ depth + 1) }
{
    if is_sign(b'(', token) {
        Some((depth + 1, 0))
    } else if is_sign(b')', token) {
        if depth == 0 {
            None
        } else {
            Some((depth - 1, 0))
        }
    } else if is_sign(b',', token) && depth == 0 {
        Some((depth, 1))
    } else {
        Some((depth, 0))
    }
}
