//! What a field writes for its argument, and how it is read back.
ghost use Rattle.std.specs.Prelude.{◌≡◌, ◌≢◌, ◌≤◌, ◌<◌, ◌+◌, ◌^◌, ◌++◌, ◌∷◌, [], ℕ, List, length, IfOk, OnOk, IfSome, IsSomeAnd, Some, ◌==◌, position};
ghost use Rattle.std.specs.List.{AllByRecursion};
ghost use Rattle.std.specs.Fmt.{decimal};
ghost use Rattle.anb_base.specs.Bytes.{IsBytes};
ghost use Rattle.hex.specs.Hex.{encode_lower};
ghost use Rattle.anb_format.specs.Fields.{decimal_digits, field_bytes, hex_bytes, leb128, len_bytes, net_bytes};

use crate::FieldKind;
use anb_base::{Bytes, NoMemory};
use std::alloc::Global;

/// Appends what a field of this kind writes for the argument.
pub(crate) fn put_field(
    alloc: Global,
    out: &mut Vec<u8>,
    kind: FieldKind,
    argument: &[u8],
) -> Result<(), NoMemory>
    ensures { OnOk result (out.new.items ≡ out.old.items ++ field_bytes kind argument.now) }
{
    match kind {
        FieldKind::Len => {
            put_leb128(out, argument.len() as u64)?;
            out.extend_from_slice(argument)?;
        }
        FieldKind::Net => {
            let digits = argument.len().to_string(alloc)?;
            out.extend_from_slice(digits.as_str().as_bytes())?;
            out.push(b':')?;
            out.extend_from_slice(argument)?;
            out.push(b',')?;
        }
        FieldKind::Hex => {
            let digits = hex::encode(alloc, argument)?;
            out.extend_from_slice(digits.as_str().as_bytes())?;
            out.push(b';')?;
        }
        FieldKind::Rest => out.extend_from_slice(argument)?,
    }
    Ok(())
}

/// Appends the number in minimal unsigned LEB128.
fn put_leb128(out: &mut Vec<u8>, n: u64) -> Result<(), NoMemory>
    ensures { OnOk result (out.new.items ≡ out.old.items ++ leb128 n) }
{
    let mut left = n;
    while left >= 128 {
        out.push(128 + (left % 128) as u8)?;
        left /= 128;
    }
    out.push(left as u8)?;
    Ok(())
}

/// The argument of the field of this kind that seems to stand at the front, and what follows it. A
/// field that begins the bytes is found; whether one does, building it again shows.
pub(crate) fn field_at(
    alloc: Global,
    kind: FieldKind,
    bytes: &[u8],
) -> Result<Option<(Bytes, &[u8])>, NoMemory>
    ensures strings { IfOk result (λ r. IfSome r (λ x. IsBytes x.0)) }
    ensures again { IfOk result (λ r. (b rest : List ℕ) → IsBytes b
        → (kind ≡ FieldKind.Rest → rest ≡ []) → bytes.now ≡ field_bytes kind b ++ rest
        → IsSomeAnd r (λ x. (x.0 ≡ b) × (x.1.now ≡ rest))) }
{
    match kind {
        FieldKind::Len => copied(alloc, len_at(bytes)),
        FieldKind::Net => copied(alloc, net_at(bytes)),
        FieldKind::Hex => hex_at(alloc, bytes),
        FieldKind::Rest => {
            let argument = string(Vec::from_slice(alloc, bytes)?);
            Ok(Some((argument, &bytes[bytes.len()..])))
        }
    }
}

/// The same with the first part copied.
fn copied<'a>(
    alloc: Global,
    found: Option<(&[u8], &'a [u8])>,
) -> Result<Option<(Bytes, &'a [u8])>, NoMemory>
    ensures strings { IfOk result (λ r. IfSome r (λ x. IsBytes x.0)) }
    ensures same { IfOk result (λ r. (b rest : List ℕ)
        → IsSomeAnd found.entry (λ x. (x.0.now ≡ b) × (x.1.now ≡ rest))
        → IsSomeAnd r (λ x. (x.0 ≡ b) × (x.1.now ≡ rest))) }
{
    let Some((argument, rest)) = found else {
        return Ok(None);
    };
    Ok(Some((string(Vec::from_slice(alloc, argument)?), rest)))
}

/// The argument after its length in LEB128, and what follows it.
fn len_at(bytes: &[u8]) -> Option<(&[u8], &[u8])>
    ensures again { (b rest : List ℕ) → bytes.now ≡ len_bytes b ++ rest
        → IsSomeAnd result (λ x. (x.0.now ≡ b) × (x.1.now ≡ rest)) }
{
    let (n, after) = leb128_at(bytes, 8)?;
    let n = usize::try_from(n).ok()?;
    if after.len() < n {
        return None;
    }
    Some(after.split_at(n))
}

/// The number in LEB128 at the front, which may take this many bytes more than one, and what
/// follows it. A length is below 2^63, so it takes nine bytes at most.
fn leb128_at(bytes: &[u8], more: u8) -> Option<(u64, &[u8])>
    requires { more ≤ 8 }
    ensures bound { IfSome result (λ x. x.0 < 128 ^ (more + 1)) }
    ensures again { (n : ℕ) (rest : List ℕ) → n < 128 ^ (more + 1) → bytes.now ≡ leb128 n ++ rest
        → IsSomeAnd result (λ x. (x.0 ≡ n) × (x.1.now ≡ rest)) }
{
    let (first, rest) = bytes.split_first()?;
    if *first < 128 {
        return Some((u64::from(*first), rest));
    }
    if more == 0 {
        return None;
    }
    let (high, rest) = leb128_at(rest, more - 1)?;
    Some((high * 128 + u64::from(*first - 128), rest))
}

/// The argument of a netstring, and what follows the netstring.
fn net_at(bytes: &[u8]) -> Option<(&[u8], &[u8])>
    ensures again { (b rest : List ℕ) → bytes.now ≡ net_bytes b ++ rest
        → IsSomeAnd result (λ x. (x.0.now ≡ b) × (x.1.now ≡ rest)) }
{
    let (digits, after) = split_at_first(bytes, b':')?;
    let n = number(digits)?;
    if after.len() <= n {
        return None;
    }
    Some((&after[..n], &after[n + 1..]))
}

/// The number that is written so.
fn number(digits: &[u8]) -> Option<usize>
    ensures again { (n : ℕ) → n < 2 ^ 64 → digits.now ≡ decimal_digits n → result ≡ Some n }
{
    match std::str::from_utf8(digits) {
        Ok(text) => text.parse::<usize>().ok(),
        Err(_) => None,
    }
}

/// The argument in hexadecimal before the first `;`, and what follows that.
fn hex_at(alloc: Global, bytes: &[u8]) -> Result<Option<(Bytes, &[u8])>, NoMemory>
    ensures strings { IfOk result (λ r. IfSome r (λ x. IsBytes x.0)) }
    ensures again { IfOk result (λ r. (b rest : List ℕ) → IsBytes b
        → bytes.now ≡ hex_bytes b ++ rest → IsSomeAnd r (λ x. (x.0 ≡ b) × (x.1.now ≡ rest))) }
{
    let Some((digits, rest)) = split_at_first(bytes, b';') else {
        return Ok(None);
    };
    let Some(argument) = decoded(alloc, digits)? else {
        return Ok(None);
    };
    Ok(Some((argument, rest)))
}

/// The bytes of these hexadecimal digits, which may be of either case.
fn decoded(alloc: Global, digits: &[u8]) -> Result<Option<Bytes>, NoMemory>
    ensures strings { IfOk result (λ r. IfSome r IsBytes) }
    ensures again { IfOk result (λ r. (b : List ℕ) → IsBytes b → digits.now ≡ encode_lower b
        → IsSomeAnd r (λ x. x ≡ b)) }
{
    match hex::decode(alloc, digits) {
        Ok(bytes) => Ok(Some(string(bytes))),
        Err(hex::FromHexError::OutOfMemory) => Err(NoMemory),
        Err(hex::FromHexError::InvalidHexCharacter { .. }) => Ok(None),
        Err(hex::FromHexError::OddLength) => Ok(None),
        Err(hex::FromHexError::InvalidStringLength) => Ok(None),
    }
}

/// These bytes, of which contracts then know that they are bytes.
fn string(bytes: Vec<u8>) -> Bytes
    ensures value { result ≡ bytes.items }
    ensures strings { IsBytes result }
{
    tell_bytes(bytes.as_slice());
    Bytes::new(bytes)
}

/// Does nothing. Contracts then know that these are bytes.
pub(crate) fn tell_bytes(_bytes: &[u8])
    ensures { IsBytes _bytes.now }
{}

/// What stands before the first such byte, and what follows it.
fn split_at_first(bytes: &[u8], separator: u8) -> Option<(&[u8], &[u8])>
    ensures again { (front rest : List ℕ) → AllByRecursion (λ b. b ≢ separator) front
        → bytes.now ≡ front ++ separator ∷ rest
        → IsSomeAnd result (λ x. (x.0.now ≡ front) × (x.1.now ≡ rest)) }
{
    let at = first_place(bytes, separator)?;
    Some((&bytes[..at], &bytes[at + 1..]))
}

fn first_place(bytes: &[u8], wanted: u8) -> Option<usize>
    ensures { result ≡ position (λ b. b == wanted) bytes.now }
{
    bytes.iter().position(|b| *b == wanted)
}
