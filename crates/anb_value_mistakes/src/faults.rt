//! Where a line that isn't of the grammar goes wrong, and how.
ghost use Rattle.std.specs.Prelude.{◌≡◌, ◌≤◌, ◌+◌, length};
ghost use Rattle.anb_base.specs.declared.TheConstants.{SMALL_FILE};
ghost use Rattle.anb_values.specs.Lines.{before_trailing, is_edge};
ghost use Rattle.anb_value_mistakes.specs.Diagnosis.{behind_digits, behind_equals, diagnosis, has_colon, has_mark, in_content, in_digits, in_label, in_named, in_sides, in_value, is_label_text, is_seed_label, unequal};

use crate::classes::{Class, begins, behind, count, first, is_of};
use crate::quoted::{after_value, in_quotes, unspaced};
use crate::wrong::Wrong;

/// The place in the line, and what is wrong there.
pub(crate) fn diagnosis(line: &[u8]) -> (usize, Wrong)
    requires { length line.now ≤ SMALL_FILE }
    ensures wrong { result ≡ diagnosis line.now }
    ensures within { result.0 ≤ length line.now }
{
    let n = count(Class::Edge, line);
    let (more, wrong) = in_content(before_edges(behind(n, line)));
    (n + more, wrong)
}

fn before_edges(bytes: &[u8]) -> &[u8]
    ensures is { result.now ≡ before_trailing is_edge bytes.now }
    ensures within { length result.now ≤ length bytes.now }
{
    let mut kept = bytes;
    while let [rest @ .., last] = kept
        && is_of(Class::Edge, *last)
    {
        kept = rest;
    }
    kept
}

/// What is wrong with a line without what is dropped at its ends.
fn in_content(bytes: &[u8]) -> (usize, Wrong)
    requires { length bytes.now ≤ SMALL_FILE }
    ensures wrong { result ≡ in_content bytes.now }
    ensures within { result.0 ≤ length bytes.now }
{
    if has_mark(bytes) {
        (0, Wrong::Mark)
    } else {
        in_named(bytes)
    }
}

/// Whether it begins as some programs begin a file.
fn has_mark(bytes: &[u8]) -> bool
    ensures { result ≡ has_mark bytes.now }
{
    first(3, bytes) == b"\xef\xbb\xbf".as_slice()
}

/// What is wrong with a line that begins with a name.
fn in_named(bytes: &[u8]) -> (usize, Wrong)
    requires { length bytes.now ≤ SMALL_FILE }
    ensures wrong { result ≡ in_named bytes.now }
    ensures within { result.0 ≤ length bytes.now }
{
    let n = count(Class::BeforeEquals, bytes);
    if n < bytes.len() {
        in_sides(&bytes[..n], &bytes[n + 1..])
    } else {
        unequal(bytes)
    }
}

/// What is wrong with the two sides of `=`.
fn in_sides(label: &[u8], bytes: &[u8]) -> (usize, Wrong)
    requires { length label.now + length bytes.now ≤ SMALL_FILE }
    ensures wrong { result ≡ in_sides label.now bytes.now }
    ensures within { result.0 ≤ length label.now + 1 + length bytes.now }
{
    let is_seed = is_seed_label(label);
    if is_seed || is_label_text(label) {
        let (more, wrong) = behind_equals(is_seed, bytes);
        (label.len() + 1 + more, wrong)
    } else {
        in_label(label)
    }
}

/// What is wrong with a line without `=`.
fn unequal(bytes: &[u8]) -> (usize, Wrong)
    ensures wrong { result ≡ unequal bytes.now }
    ensures within { result.0 ≤ length bytes.now }
{
    let wrong = if has_colon(bytes) {
        Wrong::Colon
    } else {
        Wrong::NoEquals
    };
    (count(Class::Front, bytes), wrong)
}

/// Whether a colon stands behind what may be a label.
fn has_colon(bytes: &[u8]) -> bool
    ensures { result ≡ has_colon bytes.now }
{
    begins(b':', behind(count(Class::Front, bytes), bytes))
}

fn is_seed_label(label: &[u8]) -> bool
    ensures { result ≡ is_seed_label label.now }
{
    let rest = behind(5, label);
    first(5, label) == b"@seed".as_slice() && count(Class::Space, rest) == rest.len()
}

fn is_label_text(label: &[u8]) -> bool
    ensures { result ≡ is_label_text label.now }
{
    count(Class::Label, label) == label.len() && count(Class::Space, label) < label.len()
}

/// What is wrong with what isn't a label.
fn in_label(label: &[u8]) -> (usize, Wrong)
    ensures wrong { result ≡ in_label label.now }
    ensures within { result.0 ≤ length label.now }
{
    if label.is_empty() {
        (0, Wrong::NoName)
    } else if has_colon(label) {
        (count(Class::Front, label), Wrong::Colon)
    } else {
        (count(Class::Label, label), Wrong::Name)
    }
}

/// What is wrong behind `=`.
fn behind_equals(is_seed: bool, bytes: &[u8]) -> (usize, Wrong)
    requires { length bytes.now ≤ SMALL_FILE }
    ensures wrong { result ≡ behind_equals is_seed bytes.now }
    ensures within { result.0 ≤ length bytes.now }
{
    let (more, wrong) = in_value(is_seed, unspaced(bytes));
    (count(Class::Space, bytes) + more, wrong)
}

/// What is wrong with a value.
fn in_value(is_seed: bool, bytes: &[u8]) -> (usize, Wrong)
    requires { length bytes.now ≤ SMALL_FILE }
    ensures wrong { result ≡ in_value is_seed bytes.now }
    ensures within { result.0 ≤ length bytes.now }
{
    if bytes.is_empty() {
        (0, Wrong::NoValue)
    } else if begins(b'x', bytes) {
        let (more, wrong) = in_digits(is_seed, behind(1, bytes));
        (1 + more, wrong)
    } else if begins(b'0', bytes) && begins(b'x', behind(1, bytes)) {
        (0, Wrong::Prefix)
    } else if is_seed {
        (0, Wrong::SeedBare)
    } else if begins(b'"', bytes) {
        let (more, wrong) = in_quotes(behind(1, bytes));
        (1 + more, wrong)
    } else if begins(b'\'', bytes) {
        (0, Wrong::Apostrophe)
    } else {
        (0, Wrong::Bare)
    }
}

/// What is wrong with digits.
fn in_digits(is_seed: bool, bytes: &[u8]) -> (usize, Wrong)
    requires { length bytes.now ≤ SMALL_FILE }
    ensures wrong { result ≡ in_digits is_seed bytes.now }
    ensures within { result.0 ≤ length bytes.now }
{
    let n = count(Class::Digit, bytes);
    if n == bytes.len() {
        (
            n,
            if is_seed {
                Wrong::SeedLength
            } else {
                Wrong::Odd
            },
        )
    } else {
        let (more, wrong) = behind_digits(behind(n, bytes));
        (n + more, wrong)
    }
}

/// What is wrong behind digits.
fn behind_digits(rest: &[u8]) -> (usize, Wrong)
    ensures wrong { result ≡ behind_digits rest.now }
    ensures within { result.0 ≤ length rest.now }
{
    if begins(b'#', unspaced(rest)) || count(Class::Space, rest) > 0 {
        after_value(rest)
    } else {
        (0, Wrong::Digit)
    }
}
