// HMAC (RFC 2104) over the hash function of a suite.
ghost use Rattle.std.specs.Prelude.{◌≡◌, ◌≤◌, ◌++◌, length, take, drop, map, bit_xor};
ghost use Rattle.anb_seal.specs.Primitives.{block_of, block_key, mac_of};

use crate::digest::SuiteHash;
use std::convert::AsSlice;

/// The length of the longest block.
const LONGEST_BLOCK: usize = 128;

/// What the key is xored with before the inner and the outer hash.
const INNER: u8 = 0x36;

const OUTER: u8 = 0x5c;

/// The mac of a head and a message.
#[tactic(auto, unfolding(crate::specs::Primitives::mac_of))]
pub(crate) fn mac_with<H: SuiteHash>(k: &[u8], head: &[u8], m: &[u8]) -> H::Bytes
    ensures { H.Bytes.items result ≡ mac_of H.suite k.now (head.now ++ m.now) }
{
    let mut inner_key = block_key::<H>(k);
    let mut outer_key = inner_key;
    xor_each(&mut inner_key, INNER);
    xor_each(&mut outer_key, OUTER);
    let inner = H::hash(&inner_key[..H::block()], head, m);
    H::hash(&outer_key[..H::block()], inner.as_slice(), &[])
}

/// The key that HMAC takes, a block long, in the front of the array.
fn block_key<H: SuiteHash>(k: &[u8]) -> [u8; LONGEST_BLOCK]
    ensures { take (block_of H.suite) result ≡ block_key H.suite k.now }
{
    let mut block = [0; LONGEST_BLOCK];
    if k.len() > H::block() {
        put_front(&mut block, H::hash(k, &[], &[]).as_slice());
    } else {
        put_front(&mut block, k);
    }
    block
}

fn put_front(block: &mut [u8], bytes: &[u8])
    requires { length bytes.now ≤ length block.old }
    ensures { block.new ≡ bytes.now ++ drop (length bytes.now) block.old }
{
    block[..bytes.len()].copy_from_slice(bytes);
}

fn xor_each(block: &mut [u8], pad: u8)
    ensures { block.new ≡ map (λ b. bit_xor b pad) block.old }
{
    for b in block.iter_mut() {
        *b ^= pad;
    }
}
