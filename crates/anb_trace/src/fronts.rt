//! What stands at the front of some bytes.
ghost use Rattle.std.specs.Prelude.{◌≡◌, ◌+◌, ◌<◌, ◌≤◌, ◌^◌, ℕ, IfSome, IfNone, None, Some, not, length, nat_lt, position, take};
ghost use Rattle.std.specs.List.{position_or_len};
ghost use Rattle.std.specs.Fmt.{decimal};
ghost use Rattle.anb_text.specs.Reading.{number_of};
ghost use Rattle.std.specs.Str.{bytes_eq};
ghost use Rattle.anb_trace.specs.Misfits.{is_digit, is_lower_digit, length_at};

use itoa::Buffer;

/// The first bytes, so many at most.
pub(crate) fn front(bytes: &[u8], most: usize) -> &[u8]
    ensures { result.now ≡ take most bytes.now }
{
    if most < bytes.len() {
        &bytes[..most]
    } else {
        bytes
    }
}

/// The length in minimal LEB128 at the front, which may take this many bytes more than one, and
/// what follows it.
pub(crate) fn length_at(bytes: &[u8], more: u8) -> Option<(usize, &[u8])>
    requires { more ≤ 8 }
    ensures bound { IfSome result (λ x. x.0 < 128 ^ (more + 1)) }
    ensures some { IfSome result (λ x. length_at more bytes.now ≡ Some (x.0, x.1.now)) }
    ensures none { IfNone result (length_at more bytes.now ≡ None) }
{
    let (first, rest) = bytes.split_first()?;
    if *first < 128 {
        return Some((usize::from(*first), rest));
    }
    if more == 0 {
        return None;
    }
    let (high, rest) = length_at(rest, more - 1)?;
    if high == 0 {
        return None;
    }
    Some((high * 128 + usize::from(*first - 128), rest))
}

/// The place of the first byte that ends a length.
pub(crate) fn end_of_length(bytes: &[u8]) -> Option<usize>
    ensures place { result ≡ position (λ b. nat_lt b 128) bytes.now }
    ensures within { IfSome result (λ i. i < length bytes.now) }
{
    last_of_length(bytes)
}

fn last_of_length(bytes: &[u8]) -> Option<usize>
    ensures { result ≡ position (λ b. nat_lt b 128) bytes.now }
{
    bytes.iter().position(|b| *b < 128)
}

/// How many decimal digits stand at the front.
pub(crate) fn count_digits(bytes: &[u8]) -> usize
    ensures count { result ≡ position_or_len (λ b. not (is_digit b)) bytes.now }
    ensures within { result ≤ length bytes.now }
{
    match no_digit(bytes) {
        Some(i) => i,
        None => bytes.len(),
    }
}

fn no_digit(bytes: &[u8]) -> Option<usize>
    ensures { result ≡ position (λ b. not (is_digit b)) bytes.now }
{
    bytes.iter().position(|b| !is_digit(*b))
}

fn is_digit(byte: u8) -> bool
    ensures { result ≡ is_digit byte }
{
    48 <= byte && byte <= 57
}

/// How many lower-case hexadecimal digits stand at the front.
pub(crate) fn count_lower_digits(bytes: &[u8]) -> usize
    ensures count { result ≡ position_or_len (λ b. not (is_lower_digit b)) bytes.now }
    ensures within { result ≤ length bytes.now }
{
    match no_lower_digit(bytes) {
        Some(i) => i,
        None => bytes.len(),
    }
}

fn no_lower_digit(bytes: &[u8]) -> Option<usize>
    ensures { result ≡ position (λ b. not (is_lower_digit b)) bytes.now }
{
    bytes.iter().position(|b| !is_lower_digit(*b))
}

fn is_lower_digit(byte: u8) -> bool
    ensures { result ≡ is_lower_digit byte }
{
    is_digit(byte) || (97 <= byte && byte <= 102)
}

/// The number below 2^32 that is written so.
pub(crate) fn read_number(digits: &[u8]) -> Option<u32>
    ensures { result ≡ number_of digits.now }
{
    let number = parsed(digits)?;
    let mut buffer = Buffer::new();
    if is_same(buffer.format(number).as_bytes(), digits) {
        Some(number)
    } else {
        None
    }
}

/// A number, which is the one that is written so where one is.
fn parsed(digits: &[u8]) -> Option<u32>
    ensures again { (n : ℕ) → n < 2 ^ 32 → digits.now ≡ decimal n → result ≡ Some n }
{
    match std::str::from_utf8(digits) {
        Ok(text) => text.parse::<u32>().ok(),
        Err(_) => None,
    }
}

/// Whether two byte strings are one.
pub(crate) fn is_same(one: &[u8], other: &[u8]) -> bool
    ensures { result ≡ bytes_eq one.now other.now }
{
    one == other
}
