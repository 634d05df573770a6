//! The terms of lines of knowledge among the tokens of a text.
ghost use Rattle.std.specs.Prelude.{◌≡◌, ◌≤◌, ◌<◌, ◌+◌, ◌&&◌, List, ℕ, length, map, true};
ghost use Rattle.anb_base.specs.declared.TheConstants.{SMALL_FILE};
ghost use Rattle.anb_syntax.specs.Views.{tok_of};
ghost use Rattle.anb_mistakes.specs.Spots.{depth_after, in_line, is_end, is_term, known as known_in, parts, spelling, spells};

use crate::tokens::{bytes_of, is_sign, others};
use anb_syntax::{Token, TokenKind};

/// What stands behind the head of a line, and its sign.
pub(crate) fn in_line(tokens: &[Token]) -> &[Token]
    ensures tokens { (text : List ℕ) → map (tok_of text) result.now
        ≡ in_line (map (tok_of text) tokens.now) }
    ensures most { length result.now ≤ length tokens.now }
{
    others(others(tokens))
}

/// Whether the token ends a term of a line.
fn is_end(token: Token) -> bool
    ensures { (text : List ℕ) → result ≡ is_end (tok_of text token).word }
{
    is_sign(b',', token) || is_sign(b';', token)
}

/// The bytes of a token of a term.
fn spelling(text: &[u8], token: Token) -> &[u8]
    ensures { result.now ≡ spelling (tok_of text.now token).word }
{
    match token.kind {
        TokenKind::Name => bytes_of(text, token),
        TokenKind::Literal => b"",
        TokenKind::Colon => b":",
        TokenKind::Semicolon => b";",
        TokenKind::Comma => b",",
        TokenKind::Open => b"(",
        TokenKind::Close => b")",
        TokenKind::Equals => b"=",
        TokenKind::Arrow => b"-",
    }
}

/// Whether a term is spelled so by these tokens.
fn spells(spelled: &[u8], text: &[u8], tokens: &[Token]) -> bool
    ensures { result ≡ spells spelled.now (map (tok_of text.now) tokens.now) }
{
    let mut left = spelled;
    for token in tokens {
        if left.is_empty() {
            return is_end(*token);
        }
        match left.strip_prefix(spelling(text, *token)) {
            Some(rest) => left = rest,
            None => return false,
        }
    }
    false
}

/// Whether a term that begins there is spelled so, where it is told how.
fn is_term(spelled: &[u8], text: &[u8], tokens: &[Token]) -> bool
    ensures { result ≡ is_term spelled.now (map (tok_of text.now) tokens.now) }
{
    match spelled {
        [] => true,
        [_, ..] => spells(spelled, text, tokens),
    }
}

/// Whether such a term begins there, where one begins.
fn is_here(begins: bool, spelled: &[u8], text: &[u8], tokens: &[Token]) -> bool
    ensures { result ≡ (begins && is_term spelled.now (map (tok_of text.now) tokens.now)) }
{
    begins && is_term(spelled, text, tokens)
}

/// How many signs are open behind a token.
fn depth_after(depth: usize, token: Token) -> usize
    requires { depth < 4294967296 }
    ensures depth { (text : List ℕ) → result ≡ depth_after depth (tok_of text token).word }
    ensures most { result ≤ depth + 1 }
{
    if is_sign(b'(', token) {
        depth + 1
    } else if is_sign(b')', token) {
        depth.saturating_sub(1)
    } else {
        depth
    }
}

/// Whether a token is a comma between the terms of a line.
fn parts(depth: usize, token: Token) -> bool
    ensures { (text : List ℕ) → result ≡ parts depth (tok_of text token).word }
{
    is_sign(b',', token) && depth == 0
}

/// The tokens from the k-th such term of a line on, counted from 0, where the first begins here.
pub(crate) fn known<'t>(spelled: &[u8], k: usize, text: &[u8], tokens: &'t [Token]) -> &'t [Token]
    requires { length tokens.now ≤ SMALL_FILE }
    ensures tokens { map (tok_of text.now) result.now
        ≡ known_in spelled.now k true 0 (map (tok_of text.now) tokens.now) }
    ensures most { length result.now ≤ length tokens.now }
{
    let mut left = k;
    let mut begins = true;
    let mut depth: usize = 0;
    for i in 0..tokens.len() {
        let token = tokens[i];
        if is_here(begins, spelled, text, &tokens[i..]) {
            if left == 0 {
                return &tokens[i..];
            }
            left -= 1;
        }
        begins = parts(depth, token);
        depth = depth_after(depth, token);
    }
    &[]
}
