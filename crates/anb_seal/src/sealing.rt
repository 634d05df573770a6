// Sealing and wrapping over the hash function of a suite.
ghost use Rattle.std.specs.Prelude.{◌≡◌, ◌≢◌, ◌≤◌, ℕ, ◌-◌, List, [], ◌++◌, length, take, drop, IfOk, IfSome, IfNone};
ghost use Rattle.anb_seal.specs.Streams.{key_stream, xored};
ghost use Rattle.anb_seal.specs.Primitives.{cut, tag_of, masked, closed, opened, key_for, sealed, unsealed, wrapped, unwrapped};

use crate::digest::SuiteHash;
use crate::hmac::mac_with;
use crate::stream;
use anb_base::{Bytes, NoMemory};
use std::alloc::Global;
use std::convert::AsSlice;

/// The length of a tag.
const TAG: usize = 32;

/// The purposes that keys are made for, each a number of its own.
const SEAL_STREAM: u8 = 1;

const SEAL_TAG: u8 = 2;

const WRAP_STREAM: u8 = 3;

const WRAP_TAG: u8 = 4;

#[tactic(auto, unfolding(crate::specs::Primitives::sealed))]
pub(crate) fn seal_with<H: SuiteHash>(alloc: Global, k: &[u8], m: &[u8]) -> Result<Bytes, NoMemory>
    ensures { IfOk result (λ c. c ≡ sealed H.suite k.now m.now) }
{
    let stream_key = key_for::<H>(SEAL_STREAM, k);
    let tag_key = key_for::<H>(SEAL_TAG, k);
    close::<H>(alloc, stream_key.as_slice(), tag_key.as_slice(), &[], m)
}

#[tactic(auto, unfolding(crate::specs::Primitives::sealed, crate::specs::Primitives::unsealed))]
pub(crate) fn unseal_with<H: SuiteHash>(
    alloc: Global,
    k: &[u8],
    c: &[u8],
) -> Result<Option<Bytes>, NoMemory>
    ensures some { IfOk result (λ r. IfSome r (λ m. sealed H.suite k.now m ≡ c.now)) }
    ensures none { IfOk result (λ r. IfNone r ((m : List ℕ) → sealed H.suite k.now m ≢ c.now)) }
    ensures computed { IfOk result (λ r. r ≡ unsealed H.suite k.now c.now) }
{
    let stream_key = key_for::<H>(SEAL_STREAM, k);
    let tag_key = key_for::<H>(SEAL_TAG, k);
    open::<H>(alloc, stream_key.as_slice(), tag_key.as_slice(), &[], c)
}

#[tactic(auto, unfolding(crate::specs::Primitives::wrapped))]
pub(crate) fn wrap_with<H: SuiteHash>(
    alloc: Global,
    k: &[u8],
    d: &[u8],
    m: &[u8],
) -> Result<Bytes, NoMemory>
    ensures { IfOk result (λ c. c ≡ wrapped H.suite k.now d.now m.now) }
{
    let stream_key = key_for::<H>(WRAP_STREAM, k);
    let tag_key = key_for::<H>(WRAP_TAG, k);
    let head = H::hash(d, &[], &[]);
    close::<H>(
        alloc,
        stream_key.as_slice(),
        tag_key.as_slice(),
        head.as_slice(),
        m,
    )
}

#[tactic(auto, unfolding(crate::specs::Primitives::wrapped, crate::specs::Primitives::unwrapped))]
pub(crate) fn unwrap_with<H: SuiteHash>(
    alloc: Global,
    k: &[u8],
    d: &[u8],
    c: &[u8],
) -> Result<Option<Bytes>, NoMemory>
    ensures some { IfOk result (λ r. IfSome r (λ m. wrapped H.suite k.now d.now m ≡ c.now)) }
    ensures none { IfOk result (λ r.
        IfNone r ((m : List ℕ) → wrapped H.suite k.now d.now m ≢ c.now)) }
    ensures computed { IfOk result (λ r. r ≡ unwrapped H.suite k.now d.now c.now) }
{
    let stream_key = key_for::<H>(WRAP_STREAM, k);
    let tag_key = key_for::<H>(WRAP_TAG, k);
    let head = H::hash(d, &[], &[]);
    open::<H>(
        alloc,
        stream_key.as_slice(),
        tag_key.as_slice(),
        head.as_slice(),
        c,
    )
}

fn key_for<H: SuiteHash>(purpose: u8, k: &[u8]) -> H::Bytes
    ensures { H.Bytes.items result ≡ key_for H.suite purpose k.now }
{
    H::hash(&[purpose], k, &[])
}

/// The sealed bytes of a message, of which the tag covers a head too.
fn close<H: SuiteHash>(
    alloc: Global,
    stream_key: &[u8],
    tag_key: &[u8],
    head: &[u8],
    m: &[u8],
) -> Result<Bytes, NoMemory>
    ensures { IfOk result (λ c. c ≡ closed H.suite stream_key.now tag_key.now head.now m.now) }
{
    let tag = short_mac::<H>(tag_key, head, m);
    let bytes = masked_after::<H>(alloc, &tag, stream_key, &tag, m)?;
    Ok(Bytes::new(bytes))
}

/// The message that is closed to these bytes, where there is one.
fn open<H: SuiteHash>(
    alloc: Global,
    stream_key: &[u8],
    tag_key: &[u8],
    head: &[u8],
    c: &[u8],
) -> Result<Option<Bytes>, NoMemory>
    ensures some { IfOk result (λ r.
        IfSome r (λ m. closed H.suite stream_key.now tag_key.now head.now m ≡ c.now)) }
    ensures none { IfOk result (λ r.
        IfNone r ((m : List ℕ) → closed H.suite stream_key.now tag_key.now head.now m ≢ c.now)) }
    ensures computed { IfOk result (λ r.
        r ≡ opened H.suite stream_key.now tag_key.now head.now c.now) }
{
    if c.len() < TAG {
        return Ok(None);
    }
    let (tag, body) = c.split_at(TAG);
    let m = masked_after::<H>(alloc, &[], stream_key, tag, body)?;
    if short_mac::<H>(tag_key, head, &m).as_slice() == tag {
        Ok(Some(Bytes::new(m)))
    } else {
        Ok(None)
    }
}

/// A front, and after it the bytes xor the stream of a tag.
fn masked_after<H: SuiteHash>(
    alloc: Global,
    front: &[u8],
    stream_key: &[u8],
    tag: &[u8],
    bytes: &[u8],
) -> Result<Vec<u8>, NoMemory>
    ensures { IfOk result (λ v.
        v.items ≡ front.now ++ masked H.suite stream_key.now tag.now bytes.now) }
{
    let key = short_mac::<H>(stream_key, &[], tag);
    let mut masked = Vec::with_capacity(alloc, front.len() + bytes.len())?;
    masked.extend_from_slice(front)?;
    Ok(stream::append_masked(&key, masked, bytes))
}

/// The first 32 bytes of a mac.
fn short_mac<H: SuiteHash>(key: &[u8], head: &[u8], m: &[u8]) -> [u8; 32]
    ensures { result ≡ tag_of H.suite key.now head.now m.now }
{
    front(mac_with::<H>(key, head, m).as_slice())
}

fn front(bytes: &[u8]) -> [u8; 32]
    requires { 32 ≤ length bytes.now }
    ensures { result ≡ cut bytes.now }
{
    let mut front = [0; 32];
    front.copy_from_slice(&bytes[..32]);
    front
}
