//! Kinds of bytes in a values file.
ghost use Rattle.std.specs.Prelude.{◌≡◌, ◌≤◌, drop, length, take};
ghost use Rattle.anb_values.specs.Lines.{is_label_byte};
ghost use Rattle.anb_value_mistakes.specs.Classes.{begins, count, is_of};

/// A kind of bytes.
#[derive(Clone, Copy, Drop)]
pub enum Class {
    /// Spaces, tabs and the byte 0D.
    Edge,
    /// Spaces and tabs.
    Space,
    /// Hexadecimal digits.
    Digit,
    /// Bytes of labels, and spaces.
    Label,
    /// Bytes of labels, spaces and `@`.
    Front,
    /// All but `=`.
    BeforeEquals,
}

/// Whether a byte is of this kind.
pub(crate) fn is_of(class: Class, byte: u8) -> bool
    ensures { result ≡ is_of class byte }
{
    match class {
        Class::Edge => is_space(byte) || byte == b'\r',
        Class::Space => is_space(byte),
        Class::Digit => byte.is_ascii_hexdigit(),
        Class::Label => is_label_byte(byte) || is_space(byte),
        Class::Front => is_label_byte(byte) || is_space(byte) || byte == b'@',
        Class::BeforeEquals => byte != b'=',
    }
}

fn is_space(byte: u8) -> bool
    ensures { result ≡ is_of Class.Space byte }
{
    byte == b' ' || byte == b'\t'
}

fn is_label_byte(byte: u8) -> bool
    ensures { result ≡ is_label_byte byte }
{
    byte.is_ascii_alphanumeric() || byte == b'_' || byte == b'(' || byte == b')' || byte == b','
}

/// How many bytes of this kind stand at the front.
pub(crate) fn count(class: Class, bytes: &[u8]) -> usize
    ensures count { result ≡ count class bytes.now }
    ensures within { result ≤ length bytes.now }
{
    let mut n = 0;
    'counted: while n < bytes.len() && is_of(class, bytes[n]) {
        n += 1;
    }
    n
}

/// Whether this byte stands at the front.
pub(crate) fn begins(byte: u8, bytes: &[u8]) -> bool
    ensures { result ≡ begins byte bytes.now }
{
    match bytes {
        [] => false,
        [first, ..] => *first == byte,
    }
}

/// What stands behind so many bytes.
pub(crate) fn behind(n: usize, bytes: &[u8]) -> &[u8]
    ensures { result.now ≡ drop n bytes.now }
{
    if n <= bytes.len() { &bytes[n..] } else { &[] }
}

/// The first bytes, so many where there are as many.
pub(crate) fn first(n: usize, bytes: &[u8]) -> &[u8]
    ensures { result.now ≡ take n bytes.now }
{
    if n <= bytes.len() { &bytes[..n] } else { bytes }
}
