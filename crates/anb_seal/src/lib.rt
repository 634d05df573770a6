//! Hashes, macs, sealing and draws. A call whose name ends in 512 is of suite Two, over SHA-512;
//! the others are of suite One, over SHA-256.
//!
//! Sealed bytes are a tag of 32 bytes, which is cut from the mac of the message, and the message
//! xor a ChaCha20 stream, whose key is cut from the mac of the tag. So a message has one sealing
//! under a key, and the tag of sealed bytes fixes their stream. Wrapping does the same under a key
//! and a context. Both are anb's own construction, and nothing is claimed of their strength.
#![tactic(auto)]

ghost use Rattle.std.specs.Prelude.{◌≡◌, ◌≢◌, ℕ, List, IfOk, IfSome, IfNone};
ghost use Rattle.anb_seal.specs.Streams.{draw_of};
ghost use Rattle.anb_seal.specs.Primitives.{hash_of, mac_of, sealed, unsealed, wrapped, unwrapped};

mod digest;
mod hmac;
mod laws;
mod sealing;
mod stream;

use anb_base::{Bytes, NoMemory, Suite};
use hmac::mac_with;
pub use laws::{
    gives_bytes, seals_apart, seals_longer, unseals_exactly, unwraps_exactly, wraps_apart,
    wraps_longer,
};
use sealing::{seal_with, unseal_with, unwrap_with, wrap_with};
use sha2::{Digest, Sha256, Sha512};
use std::alloc::Global;

/// SHA-256 of a message.
pub fn hash(m: &[u8]) -> [u8; 32]
    ensures { result ≡ hash_of Suite.One m.now }
{
    Sha256::digest(m)
}

/// SHA-512 of a message.
pub fn hash512(m: &[u8]) -> [u8; 64]
    ensures { result ≡ hash_of Suite.Two m.now }
{
    Sha512::digest(m)
}

/// HMAC of a message over SHA-256, with a key of any length.
pub fn mac(k: &[u8], m: &[u8]) -> [u8; 32]
    ensures { result ≡ mac_of Suite.One k.now m.now }
{
    mac_with::<Sha256>(k, &[], m)
}

/// HMAC of a message over SHA-512, with a key of any length.
pub fn mac512(k: &[u8], m: &[u8]) -> [u8; 64]
    ensures { result ≡ mac_of Suite.Two k.now m.now }
{
    mac_with::<Sha512>(k, &[], m)
}

/// Seals a message under a key. The sealed bytes are 32 longer than the message.
pub fn seal(alloc: Global, k: &[u8], m: &[u8]) -> Result<Bytes, NoMemory>
    ensures { IfOk result (λ c. c ≡ sealed Suite.One k.now m.now) }
{
    seal_with::<Sha256>(alloc, k, m)
}

/// [`seal`] over SHA-512.
pub fn seal512(alloc: Global, k: &[u8], m: &[u8]) -> Result<Bytes, NoMemory>
    ensures { IfOk result (λ c. c ≡ sealed Suite.Two k.now m.now) }
{
    seal_with::<Sha512>(alloc, k, m)
}

/// The one message that is sealed to these bytes under this key, where there is one.
pub fn unseal(alloc: Global, k: &[u8], c: &[u8]) -> Result<Option<Bytes>, NoMemory>
    ensures some { IfOk result (λ r. IfSome r (λ m. sealed Suite.One k.now m ≡ c.now)) }
    ensures none { IfOk result (λ r. IfNone r ((m : List ℕ) → sealed Suite.One k.now m ≢ c.now)) }
    ensures computed { IfOk result (λ r. r ≡ unsealed Suite.One k.now c.now) }
{
    unseal_with::<Sha256>(alloc, k, c)
}

/// [`unseal`] over SHA-512.
pub fn unseal512(alloc: Global, k: &[u8], c: &[u8]) -> Result<Option<Bytes>, NoMemory>
    ensures some { IfOk result (λ r. IfSome r (λ m. sealed Suite.Two k.now m ≡ c.now)) }
    ensures none { IfOk result (λ r. IfNone r ((m : List ℕ) → sealed Suite.Two k.now m ≢ c.now)) }
    ensures computed { IfOk result (λ r. r ≡ unsealed Suite.Two k.now c.now) }
{
    unseal_with::<Sha512>(alloc, k, c)
}

/// Seals a message under a key and a context, which unwrapping must name again. The wrapped bytes
/// are 32 longer than the message, and the context isn't among them.
pub fn wrap(alloc: Global, k: &[u8], d: &[u8], m: &[u8]) -> Result<Bytes, NoMemory>
    ensures { IfOk result (λ c. c ≡ wrapped Suite.One k.now d.now m.now) }
{
    wrap_with::<Sha256>(alloc, k, d, m)
}

/// [`wrap`] over SHA-512.
pub fn wrap512(alloc: Global, k: &[u8], d: &[u8], m: &[u8]) -> Result<Bytes, NoMemory>
    ensures { IfOk result (λ c. c ≡ wrapped Suite.Two k.now d.now m.now) }
{
    wrap_with::<Sha512>(alloc, k, d, m)
}

/// The one message that is wrapped to these bytes under this key and context, where there is one.
pub fn unwrap(alloc: Global, k: &[u8], d: &[u8], c: &[u8]) -> Result<Option<Bytes>, NoMemory>
    ensures some { IfOk result (λ r. IfSome r (λ m. wrapped Suite.One k.now d.now m ≡ c.now)) }
    ensures none { IfOk result (λ r.
        IfNone r ((m : List ℕ) → wrapped Suite.One k.now d.now m ≢ c.now)) }
    ensures computed { IfOk result (λ r. r ≡ unwrapped Suite.One k.now d.now c.now) }
{
    unwrap_with::<Sha256>(alloc, k, d, c)
}

/// [`unwrap`] over SHA-512.
pub fn unwrap512(alloc: Global, k: &[u8], d: &[u8], c: &[u8]) -> Result<Option<Bytes>, NoMemory>
    ensures some { IfOk result (λ r. IfSome r (λ m. wrapped Suite.Two k.now d.now m ≡ c.now)) }
    ensures none { IfOk result (λ r.
        IfNone r ((m : List ℕ) → wrapped Suite.Two k.now d.now m ≢ c.now)) }
    ensures computed { IfOk result (λ r. r ≡ unwrapped Suite.Two k.now d.now c.now) }
{
    unwrap_with::<Sha512>(alloc, k, d, c)
}

/// Number `i` of the draws of a session, from 0: words 8i to 8i+7 of the ChaCha20 stream that has
/// the session's number, under the seed.
pub fn draw(seed: &[u8; 32], session: u32, i: u32) -> [u8; 32]
    ensures { result ≡ draw_of seed.now session i }
{
    let mut bytes = [0u8; 32];
    let mut words = stream::words_from(seed, session, 8 * u64::from(i));
    stream::fill(&mut words, &mut bytes);
    bytes
}
