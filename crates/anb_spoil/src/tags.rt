//! Sealed and wrapped bytes with a false tag.
ghost use Rattle.std.specs.Prelude.{◌≡◌, ◌<◌, ◌≤◌, ◌+◌, ◌^◌, ◌++◌, None, length, take, IfOk, OnOk};
ghost use Rattle.anb_seal.specs.Primitives.{cut, key_for, mac_of, masked, sealed, unsealed, unwrapped, wrapped};
ghost use Rattle.anb_seal.specs.Streams.{xored};
ghost use Rattle.anb_spoil.specs.Tags.{falsely_sealed, falsely_wrapped, held_in, retagged, stream_purpose};

use crate::changes::last_changed;
use anb_base::{Bytes, NoMemory, Suite};
use anb_seal::{draw, hash, hash512, mac, mac512, seal, seal512, wrap, wrap512};
use std::alloc::Global;

/// The length of a tag.
const TAG: usize = 32;

/// The bytes of one draw.
const DRAW: usize = 32;

/// The purposes of the keys that streams are made of, as anb_seal numbers them.
const SEAL_STREAM: u8 = 1;

const WRAP_STREAM: u8 = 3;

/// In which way bytes are closed.
#[derive(Clone, Copy, Debug, PartialEq, Eq, Drop)]
pub enum Closing {
    Seal,
    Wrap,
}

/// Gives bytes that are sealed, or wrapped, under a key another tag: their own with its last byte xor
/// 1. Their message is masked anew by the stream of that tag, so a reader that doesn't compare the tag
/// gets exactly the message. Whatever the context of wrapped bytes is, it is asked of the tag alone.
pub fn retag(
    alloc: Global,
    suite: Suite,
    closing: Closing,
    k: &[u8],
    c: &[u8],
) -> Result<Bytes, NoMemory>
    requires tag { 32 ≤ length c.now }
    requires short { length c.now < 2 ^ 32 }
    ensures { IfOk result (λ made. made ≡ retagged suite closing k.now c.now) }
{
    let stream_key = key_for(alloc, suite, stream_purpose(closing), k)?;
    let message = held_in(alloc, suite, stream_key.as_slice(), c)?;
    let (tag, _) = c.split_at(TAG);
    let another = last_changed(alloc, tag)?;
    masked_after(
        alloc,
        suite,
        another,
        stream_key.as_slice(),
        message.as_slice(),
    )
}

/// The purpose of the key that the stream is made of.
fn stream_purpose(closing: Closing) -> u8
    ensures { result ≡ stream_purpose closing }
{
    match closing {
        Closing::Seal => SEAL_STREAM,
        Closing::Wrap => WRAP_STREAM,
    }
}

/// The message that closed bytes hold, whatever their tag is.
fn held_in(alloc: Global, suite: Suite, stream_key: &[u8], c: &[u8]) -> Result<Bytes, NoMemory>
    requires tag { 32 ≤ length c.now }
    requires short { length c.now < 2 ^ 32 }
    ensures { IfOk result (λ m. m ≡ held_in suite stream_key.now c.now) }
{
    let (tag, body) = c.split_at(TAG);
    let tag = Vec::from_slice(alloc, tag)?;
    let masked = masked_after(alloc, suite, tag, stream_key, body)?;
    let (_, message) = masked.as_slice().split_at(TAG);
    Ok(Bytes::new(Vec::from_slice(alloc, message)?))
}

/// Seals a message under a key with a false tag: that of the message with its last byte xor 1. The
/// message is masked by the stream of the false tag, so a reader that doesn't compare the tag gets
/// exactly the message.
pub fn seal_falsely(alloc: Global, suite: Suite, k: &[u8], m: &[u8]) -> Result<Bytes, NoMemory>
    requires { length m.now < 2 ^ 32 }
    ensures value { IfOk result (λ c. c ≡ falsely_sealed suite k.now m.now) }
    ensures shut { IfOk result (λ c. unsealed suite k.now c ≡ None) }
    ensures size { IfOk result (λ c. length c ≡ length m.now + 32) }
{
    let right = seal_in(alloc, suite, k, m)?;
    let (tag, _) = right.as_slice().split_at(TAG);
    let tag = last_changed(alloc, tag)?;
    let stream_key = key_for(alloc, suite, SEAL_STREAM, k)?;
    masked_after(alloc, suite, tag, stream_key.as_slice(), m)
}

/// The same of wrapping under a key and a context.
pub fn wrap_falsely(
    alloc: Global,
    suite: Suite,
    k: &[u8],
    d: &[u8],
    m: &[u8],
) -> Result<Bytes, NoMemory>
    requires { length m.now < 2 ^ 32 }
    ensures value { IfOk result (λ c. c ≡ falsely_wrapped suite k.now d.now m.now) }
    ensures shut { IfOk result (λ c. unwrapped suite k.now d.now c ≡ None) }
    ensures size { IfOk result (λ c. length c ≡ length m.now + 32) }
{
    let right = wrap_in(alloc, suite, k, d, m)?;
    let (tag, _) = right.as_slice().split_at(TAG);
    let tag = last_changed(alloc, tag)?;
    let stream_key = key_for(alloc, suite, WRAP_STREAM, k)?;
    masked_after(alloc, suite, tag, stream_key.as_slice(), m)
}

fn seal_in(alloc: Global, suite: Suite, k: &[u8], m: &[u8]) -> Result<Bytes, NoMemory>
    ensures { IfOk result (λ c. c ≡ sealed suite k.now m.now) }
{
    match suite {
        Suite::One => seal(alloc, k, m),
        Suite::Two => seal512(alloc, k, m),
    }
}

fn wrap_in(alloc: Global, suite: Suite, k: &[u8], d: &[u8], m: &[u8]) -> Result<Bytes, NoMemory>
    ensures { IfOk result (λ c. c ≡ wrapped suite k.now d.now m.now) }
{
    match suite {
        Suite::One => wrap(alloc, k, d, m),
        Suite::Two => wrap512(alloc, k, d, m),
    }
}

/// The key of a purpose: the hash of its number and a key.
fn key_for(alloc: Global, suite: Suite, purpose: u8, k: &[u8]) -> Result<Vec<u8>, NoMemory>
    ensures { IfOk result (λ v. v.items ≡ key_for suite purpose k.now) }
{
    let mut numbered = vec![in alloc; purpose]?;
    numbered.extend_from_slice(k)?;
    match suite {
        Suite::One => Ok(Vec::from_slice(alloc, &hash(numbered.as_slice()))?),
        Suite::Two => Ok(Vec::from_slice(alloc, &hash512(numbered.as_slice()))?),
    }
}

/// A tag, and after it the message xor its stream.
fn masked_after(
    alloc: Global,
    suite: Suite,
    tag: Vec<u8>,
    stream_key: &[u8],
    m: &[u8],
) -> Result<Bytes, NoMemory>
    requires { length m.now < 2 ^ 32 }
    ensures { IfOk result (λ c. c ≡ tag.items ++ masked suite stream_key.now tag.items m.now) }
{
    let seed = short_mac(suite, stream_key, tag.as_slice());
    let mut masked = tag;
    for i in 0..m.len().div_ceil(DRAW) {
        let start = DRAW * i;
        let end = m.len().min(start + DRAW);
        let pad = draw(&seed, 0, i as u32);
        put_xored(&mut masked, &m[start..end], &pad)?;
    }
    Ok(Bytes::new(masked))
}

/// The first 32 bytes of a mac.
fn short_mac(suite: Suite, key: &[u8], m: &[u8]) -> [u8; 32]
    ensures { result ≡ cut (mac_of suite key.now m.now) }
{
    match suite {
        Suite::One => front(&mac(key, m)),
        Suite::Two => front(&mac512(key, m)),
    }
}

fn front(bytes: &[u8]) -> [u8; 32]
    requires { 32 ≤ length bytes.now }
    ensures { result ≡ take 32 bytes.now }
{
    let mut front = [0; 32];
    front.copy_from_slice(&bytes[..32]);
    front
}

/// Appends the bytes xor those of a pad, which are as many or more.
fn put_xored(out: &mut Vec<u8>, bytes: &[u8], pad: &[u8; DRAW]) -> Result<(), NoMemory>
    requires { length bytes.now ≤ 32 }
    ensures { OnOk result (out.new.items ≡ out.old.items ++ xored bytes.now pad.now) }
{
    for i in 0..bytes.len() {
        out.push(bytes[i] ^ pad[i])?;
    }
    Ok(())
}
