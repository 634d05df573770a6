// The hash functions of the suites.
ghost use Rattle.std.specs.Prelude.{◌≡◌, ◌++◌, ⊤};
ghost use Rattle.anb_base.specs.declared.content.Suite.{Suite};
ghost use Rattle.anb_base.specs.declared.content.Suite.TheVariants.{One, Two};
ghost use Rattle.anb_seal.specs.Primitives.{hash_of, block_of};

use sha2::{Digest, Sha256, Sha512};
use std::convert::AsSlice;

/// The hash function of a suite, as HMAC asks for it.
pub(crate) trait SuiteHash {
    /// A digest.
    type Bytes: AsSlice<u8> + Drop;

    /// The suite.
    ghost suite: { Suite };

    /// The length of a block.
    fn block() -> usize
        ensures { result ≡ block_of suite };

    /// The hash of three pieces, one after the other.
    fn hash(first: &[u8], second: &[u8], third: &[u8]) -> Self::Bytes
        ensures { Self.Bytes.items result ≡ hash_of suite (first.now ++ second.now ++ third.now) };
}

impl SuiteHash for Sha256 {
    type Bytes = [u8; 32];

    ghost suite = { One };

    fn block() -> usize {
        64
    }

    fn hash(first: &[u8], second: &[u8], third: &[u8]) -> [u8; 32] {
        digest_of::<Sha256>(first, second, third)
    }
}

impl SuiteHash for Sha512 {
    type Bytes = [u8; 64];

    ghost suite = { Two };

    fn block() -> usize {
        128
    }

    fn hash(first: &[u8], second: &[u8], third: &[u8]) -> [u8; 64] {
        digest_of::<Sha512>(first, second, third)
    }
}

fn digest_of<D: Digest>(first: &[u8], second: &[u8], third: &[u8]) -> D::Output
    ensures { D.digest_of (first.now ++ second.now ++ third.now) result }
{
    let mut hasher = D::new();
    hasher.update(first);
    hasher.update(second);
    hasher.update(third);
    hasher.finalize()
}
