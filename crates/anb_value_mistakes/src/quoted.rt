//! Values in quotes.
ghost use Rattle.std.specs.Prelude.{◌≡◌, ◌≤◌, ◌+◌, ◌&&◌, ◌==◌, length, nat_le, not};
ghost use Rattle.anb_base.specs.declared.TheConstants.{SMALL_FILE};
ghost use Rattle.anb_value_mistakes.specs.Diagnosis.{at_quote, after_value, character_len, characters_len, escape_len, in_quotes, unspaced};

use crate::classes::{Class, begins, behind, count, first};
use crate::wrong::Wrong;

/// What is wrong behind the opening quote.
pub(crate) fn in_quotes(bytes: &[u8]) -> (usize, Wrong)
    requires { length bytes.now ≤ SMALL_FILE }
    ensures wrong { result ≡ in_quotes bytes.now }
    ensures within { result.0 ≤ length bytes.now }
{
    let n = characters_len(bytes);
    let (more, wrong) = at_quote(behind(n, bytes));
    (n + more, wrong)
}

/// How many bytes the characters at the front take.
fn characters_len(bytes: &[u8]) -> usize
    ensures count { result ≡ characters_len 0 bytes.now }
    ensures within { result ≤ length bytes.now }
{
    let mut n = 0;
    'characters: while n < bytes.len() {
        let more = character_len(&bytes[n..]);
        if more == 0 {
            return n;
        }
        n += more;
    }
    n
}

/// How many bytes the character at the front takes.
fn character_len(bytes: &[u8]) -> usize
    ensures count { result ≡ character_len bytes.now }
    ensures within { result ≤ length bytes.now }
{
    match bytes {
        [] => 0,
        [b, more @ ..] => {
            if *b == b'\\' {
                escape_len(more)
            } else if is_plain(*b) {
                1
            } else {
                0
            }
        }
    }
}

fn is_plain(b: u8) -> bool
    ensures { result ≡ (nat_le 32 b && (nat_le b 126 && not (b == 34))) }
{
    32 <= b && b <= 126 && b != b'"'
}

/// How many bytes stand for one behind a backslash, with that.
fn escape_len(bytes: &[u8]) -> usize
    ensures count { result ≡ escape_len bytes.now }
    ensures within { result ≤ length bytes.now + 1 }
{
    match bytes {
        [] => 0,
        [b, more @ ..] => {
            if *b == b'"' || *b == b'\\' {
                2
            } else if *b == b'x' && count(Class::Digit, first(2, more)) == 2 {
                4
            } else {
                0
            }
        }
    }
}

/// What is wrong where no more character stands.
fn at_quote(rest: &[u8]) -> (usize, Wrong)
    requires { length rest.now ≤ SMALL_FILE }
    ensures wrong { result ≡ at_quote rest.now }
    ensures within { result.0 ≤ length rest.now }
{
    if rest.is_empty() {
        (0, Wrong::Unclosed)
    } else if begins(b'"', rest) {
        let (more, wrong) = after_value(behind(1, rest));
        (1 + more, wrong)
    } else if begins(b'\\', rest) {
        (0, Wrong::Escape)
    } else {
        (0, Wrong::Byte)
    }
}

/// What is wrong behind the end of a value.
pub(crate) fn after_value(rest: &[u8]) -> (usize, Wrong)
    ensures wrong { result ≡ after_value rest.now }
    ensures within { result.0 ≤ length rest.now }
{
    let n = count(Class::Space, rest);
    if begins(b'#', unspaced(rest)) {
        (n, Wrong::Comment)
    } else {
        (n, Wrong::Behind)
    }
}

/// What stands behind spaces.
pub(crate) fn unspaced(bytes: &[u8]) -> &[u8]
    ensures { result.now ≡ unspaced bytes.now }
{
    behind(count(Class::Space, bytes), bytes)
}
