// The operations of both suites, one call for each.
ghost use Rattle.std.specs.Prelude.{◌≡◌, IfOk};
ghost use Rattle.anb_seal.specs.Primitives.{hash_of, mac_of, sealed, unsealed, wrapped, unwrapped};

use anb_base::{Bytes, NoMemory, Suite};
use anb_seal::{
    hash, hash512, mac, mac512, seal, seal512, unseal, unseal512, unwrap, unwrap512, wrap, wrap512,
};
use std::alloc::Global;

pub(crate) fn hash_in(alloc: Global, suite: Suite, m: &[u8]) -> Result<Bytes, NoMemory>
    ensures { IfOk result (λ bytes. bytes ≡ hash_of suite m.now) }
{
    let digest = match suite {
        Suite::One => Vec::from_slice(alloc, &hash(m))?,
        Suite::Two => Vec::from_slice(alloc, &hash512(m))?,
    };
    Ok(Bytes::new(digest))
}

pub(crate) fn mac_in(alloc: Global, suite: Suite, k: &[u8], m: &[u8]) -> Result<Bytes, NoMemory>
    ensures { IfOk result (λ bytes. bytes ≡ mac_of suite k.now m.now) }
{
    let tag = match suite {
        Suite::One => Vec::from_slice(alloc, &mac(k, m))?,
        Suite::Two => Vec::from_slice(alloc, &mac512(k, m))?,
    };
    Ok(Bytes::new(tag))
}

pub(crate) fn seal_in(alloc: Global, suite: Suite, k: &[u8], m: &[u8]) -> Result<Bytes, NoMemory>
    ensures { IfOk result (λ bytes. bytes ≡ sealed suite k.now m.now) }
{
    match suite {
        Suite::One => seal(alloc, k, m),
        Suite::Two => seal512(alloc, k, m),
    }
}

pub(crate) fn unseal_in(
    alloc: Global,
    suite: Suite,
    k: &[u8],
    c: &[u8],
) -> Result<Option<Bytes>, NoMemory>
    ensures { IfOk result (λ r. r ≡ unsealed suite k.now c.now) }
{
    match suite {
        Suite::One => unseal(alloc, k, c),
        Suite::Two => unseal512(alloc, k, c),
    }
}

pub(crate) fn wrap_in(
    alloc: Global,
    suite: Suite,
    k: &[u8],
    d: &[u8],
    m: &[u8],
) -> Result<Bytes, NoMemory>
    ensures { IfOk result (λ bytes. bytes ≡ wrapped suite k.now d.now m.now) }
{
    match suite {
        Suite::One => wrap(alloc, k, d, m),
        Suite::Two => wrap512(alloc, k, d, m),
    }
}

pub(crate) fn unwrap_in(
    alloc: Global,
    suite: Suite,
    k: &[u8],
    d: &[u8],
    c: &[u8],
) -> Result<Option<Bytes>, NoMemory>
    ensures { IfOk result (λ r. r ≡ unwrapped suite k.now d.now c.now) }
{
    match suite {
        Suite::One => unwrap(alloc, k, d, c),
        Suite::Two => unwrap512(alloc, k, d, c),
    }
}
