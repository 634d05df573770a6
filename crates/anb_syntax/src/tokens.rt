//! The tokens of a text.
ghost use Rattle.std.specs.Prelude.{◌≡◌, ◌+◌, ◌<◌, ◌≤◌, ◌==◌, ◌∷◌, length, drop, option_map, IfSome, IfNone, None, true, false, ℕ, List};
ghost use Rattle.std.specs.List.{prefix_len};
ghost use Rattle.anb_base.specs.declared.TheConstants.{SMALL_FILE};
ghost use Rattle.anb_syntax.specs.Words.{is_name_byte, sign};
ghost use Rattle.anb_syntax.specs.Lexing.{is_blank, is_sign, gap_len, comment_len, token_here};
ghost use Rattle.anb_syntax.specs.Scanning.{token_of, characters_len, escaped_len, closing, farther};
ghost use Rattle.anb_syntax.specs.Nexts.{IsNext, IsWithin};

use crate::words::{is_letter, is_name_byte};

/// What kind of token it is. `Name` is a reserved word too.
#[derive(Clone, Copy, Debug, PartialEq, Eq, Drop)]
pub enum TokenKind {
    Name,
    Literal,
    Colon,
    Semicolon,
    Comma,
    Open,
    Close,
    Equals,
    Arrow,
}

/// A token: the `len` bytes of the text from the offset `at` on.
#[derive(Clone, Copy, Debug, PartialEq, Eq, Drop)]
pub struct Token {
    pub kind: TokenKind,
    pub at: u32,
    pub len: u32,
}

/// What comes next in a text: a token, the end, or an offset at which no token begins.
#[derive(Clone, Copy, Debug, PartialEq, Eq, Drop)]
pub enum Next {
    Token(Token),
    End,
    Bad(u32),
}

fn is_blank(b: u8) -> bool
    ensures { result ≡ is_blank b }
{
    b == b' ' || b == b'\t' || b == b'\n' || b == b'\r'
}

/// The offset after the comment that has begun, behind its line.
fn comment_end(text: &[u8], from: usize) -> usize
    requires { from ≤ length text.now }
    ensures low { from ≤ result }
    ensures high { result ≤ length text.now }
    ensures gap { comment_len (drop from text.now) + from
        ≡ gap_len (drop result text.now) + result }
{
    let mut i = from;
    'line: while i < text.len() {
        if text[i] == b'\n' {
            return i + 1;
        }
        i += 1;
    }
    i
}

/// The offset after one blank or comment, or the same offset.
fn past_one(text: &[u8], i: usize) -> usize
    requires { i ≤ length text.now }
    ensures low { i ≤ result }
    ensures high { result ≤ length text.now }
    ensures gap { gap_len (drop i text.now) + i ≡ gap_len (drop result text.now) + result }
    ensures none { result ≡ i → gap_len (drop i text.now) ≡ 0 }
{
    if i >= text.len() {
        return i;
    }
    if is_blank(text[i]) {
        return i + 1;
    }
    if text[i] == b'#' {
        return comment_end(text, i + 1);
    }
    i
}

/// Where the next token begins.
fn gap_end(text: &[u8], from: usize) -> usize
    requires { from ≤ length text.now }
    ensures high { result ≤ length text.now }
    ensures gap { result ≡ from + gap_len (drop from text.now) }
{
    let mut i = from;
    'gap: loop {
        let next = past_one(text, i);
        if next == i {
            return i;
        }
        i = next;
    }
}

/// Where a name ends.
fn name_end(text: &[u8], from: usize) -> usize
    requires { from ≤ length text.now }
    ensures low { from ≤ result }
    ensures high { result ≤ length text.now }
    ensures name { result ≡ from + prefix_len is_name_byte (drop from text.now) }
{
    let mut i = from;
    'name: while i < text.len() {
        if !is_name_byte(text[i]) {
            return i;
        }
        i += 1;
    }
    i
}

/// How many bytes the character of a literal at the front takes, where one stands there.
fn character_len(text: &[u8]) -> Option<usize>
    ensures some { IfSome result (λ n. (0 < n) × (n ≤ length text.now)
        × (characters_len text.now ≡ farther n (characters_len (drop n text.now)))) }
    ensures none { IfNone result (characters_len text.now ≡ closing text.now) }
{
    match text {
        [b'\\', rest @ ..] => Some(1 + escape_len(rest)?),
        [b'"', ..] => None,
        [b' '..=b'~', ..] => Some(1),
        _ => None,
    }
}

/// The same of what follows a `\`.
fn escape_len(text: &[u8]) -> Option<usize>
    ensures some { IfSome result (λ n. (0 < n) × (n ≤ length text.now)
        × (escaped_len text.now ≡ farther (1 + n) (characters_len (drop n text.now)))) }
    ensures none { IfNone result (escaped_len text.now ≡ None) }
{
    match text {
        [b'"' | b'\\', ..] => Some(1),
        [b'x', high, low, ..] if high.is_ascii_hexdigit() && low.is_ascii_hexdigit() => Some(3),
        _ => None,
    }
}

/// How many bytes a literal has behind its opening quote, if it is closed.
fn literal_len(text: &[u8]) -> Option<usize>
    ensures len { result ≡ characters_len text.now }
    ensures within { IfSome result (λ n. n ≤ length text.now) }
{
    let mut len = 0;
    'characters: while let Some(n) = character_len(&text[len..]) {
        len += n;
    }
    if len < text.len() && text[len] == b'"' {
        Some(len + 1)
    } else {
        None
    }
}

/// The kind of the sign that this byte is, where it is one.
fn sign_kind(b: u8) -> Option<TokenKind>
    ensures some { IfSome result (λ k. (is_sign b ≡ true)
        × ((n : ℕ) (x : List ℕ) → token_of k n x ≡ (sign b, n))) }
    ensures none { IfNone result (is_sign b ≡ false) }
{
    match b {
        b':' => Some(TokenKind::Colon),
        b';' => Some(TokenKind::Semicolon),
        b',' => Some(TokenKind::Comma),
        b'(' => Some(TokenKind::Open),
        b')' => Some(TokenKind::Close),
        b'=' => Some(TokenKind::Equals),
        _ => None,
    }
}

/// The kind and the length of the token that begins at an offset, where one does.
fn token_at(text: &[u8], i: usize) -> Option<(TokenKind, usize)>
    requires { i ≤ length text.now }
    ensures token { option_map (λ k. token_of k.0 k.1 (drop i text.now)) result
        ≡ token_here (drop i text.now) }
    ensures within { IfSome result (λ k. (0 < k.1) × (i + k.1 ≤ length text.now)) }
{
    if i >= text.len() {
        return None;
    }
    let b = text[i];
    if is_letter(b) {
        return Some((TokenKind::Name, name_end(text, i) - i));
    }
    if b == b'"' {
        let len = literal_len(&text[i + 1..])?;
        return Some((TokenKind::Literal, 1 + len));
    }
    if let Some(kind) = sign_kind(b) {
        return Some((kind, 1));
    }
    if b == b'-' && i + 1 < text.len() && text[i + 1] == b'>' {
        return Some((TokenKind::Arrow, 2));
    }
    None
}

/// The first token from an offset on, behind blanks and comments. A literal that isn't closed is no
/// token.
pub fn next_token(text: &[u8], from: u32) -> Next
    requires size { length text.now ≤ SMALL_FILE }
    requires from { from ≤ length text.now }
    ensures next { IsNext text.now from result }
    ensures within { IsWithin (length text.now) result }
{
    let at = gap_end(text, from as usize);
    if at >= text.len() {
        return Next::End;
    }
    match token_at(text, at) {
        Some((kind, len)) => Next::Token(Token {
            kind,
            at: at as u32,
            len: len as u32,
        }),
        None => Next::Bad(at as u32),
    }
}
