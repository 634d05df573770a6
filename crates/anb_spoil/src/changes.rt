//! Values that are changed in one way.
ghost use Rattle.std.specs.Prelude.{◌≡◌, ◌≢◌, ◌≤◌, ◌+◌, ◌++◌, ◌∷◌, [], length, OnOk, IfOk, IfSome, IfNone};
ghost use Rattle.std.specs.Option.{option_map};
ghost use Rattle.anb_base.specs.Bytes.{IsBytes};
ghost use Rattle.anb_spoil.specs.Changes.{changed_by, first_changed, last_changed, xor_one};

use anb_base::{Bytes, NoMemory};
use std::alloc::Global;

/// In what way a value is changed.
#[derive(Clone, Copy, Debug, PartialEq, Eq, Drop)]
pub enum Change {
    /// Its last byte is xor 1.
    LastByte,
    /// Its last byte is left out. Of one byte nothing would be left, which many refuse for that
    /// reason: it gets a zero byte more, as an empty value does.
    WithoutLast,
    /// Its first byte is xor 1.
    FirstByte,
    /// A zero byte follows it.
    ByteMore,
    /// A zero byte stands before it.
    ZeroInFront,
}

/// The changes that are tried by default.
pub const CHANGES: [Change; 2] = [Change::LastByte, Change::WithoutLast];

/// Those that are tried too where all are asked for.
pub const MORE_CHANGES: [Change; 3] = [Change::FirstByte, Change::ByteMore, Change::ZeroInFront];

/// What the change makes of these bytes. An empty value has no byte that could be another one: then
/// there is nothing for `LastByte` and `FirstByte`.
pub fn changed(alloc: Global, change: Change, bytes: &[u8]) -> Result<Option<Bytes>, NoMemory>
    ensures value { IfOk result (λ r. r ≡ changed_by change bytes.now) }
    ensures differs { IfOk result (λ r. IfSome r (λ wrong. wrong ≢ bytes.now)) }
    ensures none { IfOk result (λ r. IfNone r (bytes.now ≡ [])) }
    ensures strings { IfOk result (λ r. IfSome r IsBytes) }
    ensures size { IfOk result (λ r. IfSome r (λ wrong. length wrong ≤ length bytes.now + 1)) }
{
    match made(alloc, change, bytes)? {
        Some(wrong) => Ok(Some(string(wrong))),
        None => Ok(None),
    }
}

fn made(alloc: Global, change: Change, bytes: &[u8]) -> Result<Option<Vec<u8>>, NoMemory>
    ensures { IfOk result (λ r. option_map (λ v. v.items) r ≡ changed_by change bytes.now) }
{
    match change {
        Change::LastByte => {
            if bytes.is_empty() {
                return Ok(None);
            }
            Ok(Some(last_changed(alloc, bytes)?))
        }
        Change::WithoutLast => {
            if bytes.len() > 1 {
                let (front, _) = bytes.split_at(bytes.len() - 1);
                return Ok(Some(Vec::from_slice(alloc, front)?));
            }
            Ok(Some(with_zero(alloc, bytes)?))
        }
        Change::FirstByte => {
            if bytes.is_empty() {
                return Ok(None);
            }
            Ok(Some(first_changed(alloc, bytes)?))
        }
        Change::ByteMore => Ok(Some(with_zero(alloc, bytes)?)),
        Change::ZeroInFront => Ok(Some(behind_zero(alloc, bytes)?)),
    }
}

/// The bytes with the last one xor 1.
pub(crate) fn last_changed(alloc: Global, bytes: &[u8]) -> Result<Vec<u8>, NoMemory>
    ensures { IfOk result (λ v. v.items ≡ last_changed bytes.now) }
{
    let (front, last) = bytes.split_at(bytes.len().saturating_sub(1));
    let mut wrong = Vec::from_slice(alloc, front)?;
    put_xor_one(&mut wrong, last)?;
    Ok(wrong)
}

fn first_changed(alloc: Global, bytes: &[u8]) -> Result<Vec<u8>, NoMemory>
    ensures { IfOk result (λ v. v.items ≡ first_changed bytes.now) }
{
    let mut wrong = Vec::new(alloc);
    if let Some((first, rest)) = bytes.split_first() {
        wrong.push(*first ^ 1)?;
        wrong.extend_from_slice(rest)?;
    }
    Ok(wrong)
}

/// Appends each of the bytes xor 1.
fn put_xor_one(out: &mut Vec<u8>, bytes: &[u8]) -> Result<(), NoMemory>
    ensures { OnOk result (out.new.items ≡ out.old.items ++ xor_one bytes.now) }
{
    for b in bytes {
        out.push(*b ^ 1)?;
    }
    Ok(())
}

fn with_zero(alloc: Global, bytes: &[u8]) -> Result<Vec<u8>, NoMemory>
    ensures { IfOk result (λ v. v.items ≡ bytes.now ++ 0 ∷ []) }
{
    let mut longer = Vec::from_slice(alloc, bytes)?;
    longer.push(0)?;
    Ok(longer)
}

fn behind_zero(alloc: Global, bytes: &[u8]) -> Result<Vec<u8>, NoMemory>
    ensures { IfOk result (λ v. v.items ≡ 0 ∷ bytes.now) }
{
    let mut longer = Vec::new(alloc);
    longer.push(0)?;
    longer.extend_from_slice(bytes)?;
    Ok(longer)
}

/// These bytes, of which contracts then know that they are bytes.
pub(crate) fn string(bytes: Vec<u8>) -> Bytes
    ensures value { result ≡ bytes.items }
    ensures strings { IsBytes result }
{
    tell_bytes(bytes.as_slice());
    Bytes::new(bytes)
}

/// Does nothing. Contracts then know that these are bytes.
pub(crate) fn tell_bytes(_bytes: &[u8])
    ensures { IsBytes _bytes.now }
{}
