//! Names, suites and kinds by their words.
ghost use Rattle.std.specs.Prelude.{◌≡◌, true, bytes_eq, IfOk};
ghost use Rattle.std.specs.List.{list_all, list_any};
ghost use Rattle.anb_syntax.specs.Words.{is_letter, is_name, is_name_byte, is_spelled, kind_of_word, reserved_words, suite_of_word};

use anb_base::{NoMemory, Suite, Text};
use anb_format::FieldKind;
use std::alloc::Global;

pub(crate) fn is_letter(b: u8) -> bool
    ensures { result ≡ is_letter b }
{
    (b'A' <= b && b <= b'Z') || (b'a' <= b && b <= b'z')
}

pub(crate) fn is_name_byte(b: u8) -> bool
    ensures { result ≡ is_name_byte b }
{
    is_letter(b) || (b'0' <= b && b <= b'9') || b == b'_'
}

fn are_name_bytes(bytes: &[u8]) -> bool
    ensures { result ≡ list_all is_name_byte bytes.now }
{
    bytes.iter().all(|b| is_name_byte(*b))
}

/// Whether the bytes are a letter, and then letters, digits and underscores.
fn is_spelled(bytes: &[u8]) -> bool
    ensures { result ≡ is_spelled bytes.now }
{
    match bytes {
        [] => false,
        [first, rest @ ..] => is_letter(*first) && are_name_bytes(rest),
    }
}

fn is_same(a: &[u8], b: &[u8]) -> bool
    ensures { result ≡ bytes_eq a.now b.now }
{
    a == b
}

/// Whether the grammar keeps the word for itself.
fn is_reserved(bytes: &[u8]) -> bool
    ensures { result ≡ list_any (bytes_eq bytes.now) reserved_words }
{
    is_same(bytes, b"Protocol")
        || is_same(bytes, b"Suite")
        || is_same(bytes, b"Types")
        || is_same(bytes, b"Formats")
        || is_same(bytes, b"Knowledge")
        || is_same(bytes, b"Actions")
        || is_same(bytes, b"Choice")
        || is_same(bytes, b"Goals")
        || is_same(bytes, b"Agent")
        || is_same(bytes, b"Number")
        || is_same(bytes, b"Key")
        || is_same(bytes, b"h")
        || is_same(bytes, b"mac")
        || is_same(bytes, b"scrypt")
        || is_same(bytes, b"wrap")
}

/// Whether this is a name of the grammar: a letter, then letters, digits and underscores, and no
/// reserved word.
#[tactic(auto, unfolding(crate::specs::Words::is_name))]
pub fn is_name(bytes: &[u8]) -> bool
    ensures { result ≡ is_name bytes.now }
{
    is_spelled(bytes) && !is_reserved(bytes)
}

/// A name of the grammar as a text.
pub fn name_text(alloc: Global, name: &[u8]) -> Result<Text, NoMemory>
    requires { is_name name.now ≡ true }
    ensures { IfOk result (λ text. text ≡ name.now) }
{
    Ok(Text::new(String::from_utf8_lossy(alloc, name)?))
}

/// The suite whose hash has this name: `sha256` or `sha512`.
pub fn suite_of_word(bytes: &[u8]) -> Option<Suite>
    ensures { result ≡ suite_of_word bytes.now }
{
    if is_same(b"sha256", bytes) {
        Some(Suite::One)
    } else if is_same(b"sha512", bytes) {
        Some(Suite::Two)
    } else {
        None
    }
}

/// The kind of field with this word: `len`, `net`, `hex` or `rest`.
pub fn kind_of_word(bytes: &[u8]) -> Option<FieldKind>
    ensures { result ≡ kind_of_word bytes.now }
{
    if is_same(b"len", bytes) {
        Some(FieldKind::Len)
    } else if is_same(b"net", bytes) {
        Some(FieldKind::Net)
    } else if is_same(b"hex", bytes) {
        Some(FieldKind::Hex)
    } else if is_same(b"rest", bytes) {
        Some(FieldKind::Rest)
    } else {
        None
    }
}
