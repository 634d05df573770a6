//! Hashes, macs, seals and draws by published values, and by values that were computed elsewhere.
//!
//! Values from outside. The seals, the wraps, the macs under keys of a block's length and the draws
//! that no standard shows were computed in Python, with hashlib, hmac and the ChaCha20 of the
//! package cryptography, from the description of sealing in the root of anb_seal.
use crate::values::{are, bytes_of, may_be};
use anb_base::{Bytes, NoMemory, Suite};
use anb_seal::*;
use std::alloc::Global;

/// Whether this is the hash of the message.
fn is_hash(alloc: Global, suite: Suite, message: &str, want: &str) -> Result<bool, NoMemory> {
    match suite {
        Suite::One => are(alloc, &hash(message.as_bytes()), want),
        Suite::Two => are(alloc, &hash512(message.as_bytes()), want),
    }
}

/// The first of these messages that has another hash.
fn wrong_hash(alloc: Global, suite: Suite, rows: &[(&'static str, &str)]) -> Option<&'static str> {
    for (message, want) in rows {
        if !matches!(is_hash(alloc, suite, message, want), Ok(true)) {
            return Some(*message);
        }
    }
    None
}

// FIPS 180-4's examples, and the empty message.
const HASHES: [(&str, &str); 3] = [
    (
        "abc",
        "0xba7816bf8f01cfea414140de5dae2223b00361a396177a9cb410ff61f20015ad",
    ),
    (
        "abcdbcdecdefdefgefghfghighijhijkijkljklmklmnlmnomnopnopq",
        "0x248d6a61d20638b8e5c026930c3e6039a33ce45964ff2167f6ecedd419db06c1",
    ),
    (
        "",
        "0xe3b0c44298fc1c149afbf4c8996fb92427ae41e4649b934ca495991b7852b855",
    ),
];

const HASHES_TWO: [(&str, &str); 2] = [
    (
        "abc",
        "0xddaf35a193617abacc417349ae20413112e6fa4e89a97ea20a9eeee64b55d39a2192992a274fc1a836ba3c23a3feebbd454d4423643ce80e2a9ac94fa54ca49f",
    ),
    (
        "abcdefghbcdefghicdefghijdefghijkefghijklfghijklmghijklmnhijklmnoijklmnopjklmnopqklmnopqrlmnopqrsmnopqrstnopqrstu",
        "0x8e959b75dae313da8cf4f72814fc143f8f7779c6eb9f7fa17299aeadb6889018501d289e4900f7e4331b99dec4b5433ac7d329eeb6dd26545e96e55b874be909",
    ),
];

#[test]
fn digests_of_the_standard(rt: HostRuntime) {
    assert_eq!(rt; wrong_hash(rt.alloc(), Suite::One, &HASHES), None);
    assert_eq!(rt; wrong_hash(rt.alloc(), Suite::Two, &HASHES_TWO), None);
}

/// Whether this is the mac of the message under the bytes that the key stands for.
fn is_mac(
    alloc: Global,
    suite: Suite,
    key: &str,
    message: &str,
    want: &str,
) -> Result<bool, NoMemory> {
    let key = bytes_of(alloc, key)?;
    match suite {
        Suite::One => are(alloc, &mac(key.as_slice(), message.as_bytes()), want),
        Suite::Two => are(alloc, &mac512(key.as_slice(), message.as_bytes()), want),
    }
}

/// The first of these keys under which the message has another mac.
fn wrong_mac(
    alloc: Global,
    suite: Suite,
    rows: &[(&'static str, &str, &str)],
) -> Option<&'static str> {
    for (key, message, want) in rows {
        if !matches!(is_mac(alloc, suite, key, message, want), Ok(true)) {
            return Some(*key);
        }
    }
    None
}

// Keys shorter and longer than a block are those of RFC 4231, its cases 1, 2 and 6.
const MACS: [(&str, &str, &str); 4] = [
    (
        "0x0b*20",
        "Hi There",
        "0xb0344c61d8db38535ca8afceaf0bf12b881dc200c9833da726e9376c2e32cff7",
    ),
    (
        "Jefe",
        "what do ya want for nothing?",
        "0x5bdcc146bf60754e6a042426089575c75a003f089d2739839dec58b964ec3843",
    ),
    (
        "0x6b*64",
        "Sample message",
        "0x2899301f83b25e17d369e51063626796b668bb82bf72ba7a45d32e6c59921e8a",
    ),
    (
        "0xaa*131",
        "Test Using Larger Than Block-Size Key - Hash Key First",
        "0x60e431591ee0b67f0d8a26aacbf5b77f8e0bc6213728c5140546040f0ee37f54",
    ),
];

const MACS_TWO: [(&str, &str, &str); 4] = [
    (
        "0x0b*20",
        "Hi There",
        "0x87aa7cdea5ef619d4ff0b4241a1d6cb02379f4e2ce4ec2787ad0b30545e17cdedaa833b7d6b8a702038b274eaea3f4e4be9d914eeb61f1702e696c203a126854",
    ),
    (
        "Jefe",
        "what do ya want for nothing?",
        "0x164b7a7bfcf819e2e395fbe73b56e0a387bd64222e831fd610270cd7ea2505549758bf75c05a994a6d034f65f8f0e6fdcaeab1a34d4a6b4b636e070a38bce737",
    ),
    (
        "0x6b*128",
        "Sample message",
        "0x6d87436137027b7c025943bde5d999f4521dc116cbc3119cf7ac6e5215ef23764eee938b2bda73f3fc3331cb33e12492ac92560408a9720375bd78e20608513f",
    ),
    (
        "0xaa*131",
        "Test Using Larger Than Block-Size Key - Hash Key First",
        "0x80b24263c7c1a3ebb71493c1dd7be8b49b46d1f41b4aeec1121b013783f8f3526b56d037e05f2598bd0fd2215d6a1e5295e64f73f63f0aec8b915a985d786598",
    ),
];

#[test]
fn macs_under_keys_of_each_length(rt: HostRuntime) {
    assert_eq!(rt; wrong_mac(rt.alloc(), Suite::One, &MACS), None);
    assert_eq!(rt; wrong_mac(rt.alloc(), Suite::Two, &MACS_TWO), None);
}

/// The first of these draws, by the byte of which the seed consists, the session and the number,
/// that is other bytes.
fn wrong_draw(alloc: Global, rows: &[(u8, u32, u32, &'static str)]) -> Option<&'static str> {
    for (byte, session, i, want) in rows {
        if !matches!(is_draw(alloc, *byte, *session, *i, want), Ok(true)) {
            return Some(*want);
        }
    }
    None
}

fn is_draw(alloc: Global, byte: u8, session: u32, i: u32, want: &str) -> Result<bool, NoMemory> {
    are(alloc, &draw(&[byte; 32], session, i), want)
}

// The first two are the key stream of RFC 8439's first test vector.
const DRAWS: [(u8, u32, u32, &str); 5] = [
    (
        0,
        0,
        0,
        "0x76b8e0ada0f13d90405d6ae55386bd28bdd219b8a08ded1aa836efcc8b770dc7",
    ),
    (
        0,
        0,
        1,
        "0xda41597c5157488d7724e03fb8d84a376a43b8f41518a11cc387b669b2ee6586",
    ),
    (
        0,
        1,
        0,
        "0xef3fdfd6c61578fbf5cf35bd3dd33b8009631634d21e42ac33960bd138e50d32",
    ),
    (
        1,
        5,
        3,
        "0xafd7a43e7e0dd8a59f134eabc4c2208833ab212648869ddfffe7ba04f6b48174",
    ),
    (
        1,
        0xffff_ffff,
        1000,
        "0xbc0df692b662180e6a53a1de7cf681015b27adb75762116a3e5bd13e9a129d61",
    ),
];

#[test]
fn draws_of_two_sessions(rt: HostRuntime) {
    assert_eq!(rt; wrong_draw(rt.alloc(), &DRAWS), None);
}

fn sealed(alloc: Global, suite: Suite, key: &str, message: &[u8]) -> Result<Bytes, NoMemory> {
    match suite {
        Suite::One => seal(alloc, key.as_bytes(), message),
        Suite::Two => seal512(alloc, key.as_bytes(), message),
    }
}

fn is_sealed(
    alloc: Global,
    suite: Suite,
    key: &str,
    message: &str,
    want: &str,
) -> Result<bool, NoMemory> {
    let sealed = sealed(alloc, suite, key, message.as_bytes())?;
    are(alloc, sealed.as_slice(), want)
}

/// Whether the sealed bytes, opened with this key, are this message, or aren't opened.
fn opens_to(
    alloc: Global,
    suite: Suite,
    key: &str,
    sealed: &[u8],
    message: Option<&str>,
) -> Result<bool, NoMemory> {
    let opened = match suite {
        Suite::One => unseal(alloc, key.as_bytes(), sealed)?,
        Suite::Two => unseal512(alloc, key.as_bytes(), sealed)?,
    };
    may_be(alloc, &opened, message)
}

/// The message `a message` under the key `key`, in suite One and in suite Two.
const SHORT: &str =
    "0x93cca4f22cc23a4b0d881311272e343e1e29b5211cb37425ec0bc854e26e3fcd694d4cef1a2b92c072";

const SHORT_TWO: &str =
    "0x1b6f10c0c7df8936e23f8946be3710f9e1d2ccf40c431d670f374d523437e43eb85739b425b826b8ae";

/// The empty message under the key `k`, in suite One.
const EMPTY: &str = "0x248d118e7392770e02c1d7180a132a87e82322f576a8f1dd22f4e7acd3e356af";

#[test]
fn sealed_messages(rt: HostRuntime) -> Result<(), NoMemory> {
    assert!(rt; is_sealed(rt.alloc(), Suite::One, "key", "a message", SHORT)?);
    assert!(rt; is_sealed(rt.alloc(), Suite::One, "k", "", EMPTY)?);
    assert!(rt; is_sealed(rt.alloc(), Suite::Two, "key", "a message", SHORT_TWO)?);
    Ok(())
}

fn opens(
    alloc: Global,
    suite: Suite,
    key: &str,
    sealed: &str,
    message: Option<&str>,
) -> Result<bool, NoMemory> {
    let sealed = bytes_of(alloc, sealed)?;
    opens_to(alloc, suite, key, sealed.as_slice(), message)
}

/// The first of these sealed bytes that aren't opened with the key as said.
fn wrong_opening(
    alloc: Global,
    suite: Suite,
    rows: &[(&str, &'static str, Option<&str>)],
) -> Option<&'static str> {
    for (key, sealed, message) in rows {
        if !matches!(opens(alloc, suite, key, sealed, *message), Ok(true)) {
            return Some(*sealed);
        }
    }
    None
}

/// The last two are a tag that no message has, and fewer bytes than a tag.
const OPENED: [(&str, &str, Option<&str>); 5] = [
    ("key", SHORT, Some("a message")),
    ("other", SHORT, None),
    ("k", EMPTY, Some("")),
    ("k", "0x00*32", None),
    ("k", "0x00*31", None),
];

const OPENED_TWO: [(&str, &str, Option<&str>); 2] = [
    ("key", SHORT_TWO, Some("a message")),
    ("other", SHORT_TWO, None),
];

#[test]
fn opened_messages(rt: HostRuntime) {
    assert_eq!(rt; wrong_opening(rt.alloc(), Suite::One, &OPENED), None);
    assert_eq!(rt; wrong_opening(rt.alloc(), Suite::Two, &OPENED_TWO), None);
}

/// More than a block of the stream's generator, and no whole number of words.
const LONG: &str = "0x61*303";

/// Whether the long message's sealed bytes have this hash over SHA-256, and are opened as it.
fn goes_both_ways(alloc: Global, suite: Suite, digest: &str) -> Result<bool, NoMemory> {
    let long = bytes_of(alloc, LONG)?;
    let sealed = sealed(alloc, suite, "key", long.as_slice())?;
    if are(alloc, &hash(sealed.as_slice()), digest)? {
        opens_to(alloc, suite, "key", sealed.as_slice(), Some(LONG))
    } else {
        Ok(false)
    }
}

/// The hash over SHA-256 of the long message's sealed bytes in suite One, and in suite Two.
const LONG_HASH: &str = "0xc2cfdf7d4edc963ea7b94437324568cbf30db1503a6fe120821b3e1e4b6f72cb";

const LONG_HASH_TWO: &str = "0xc2aa3420e9420f2ad2aa8098cb5d8681f88137c2a64656bf415062578b6237e5";

#[test]
fn a_long_message_is_sealed_and_opened(rt: HostRuntime) -> Result<(), NoMemory> {
    assert!(rt; goes_both_ways(rt.alloc(), Suite::One, LONG_HASH)?);
    assert!(rt; goes_both_ways(rt.alloc(), Suite::Two, LONG_HASH_TWO)?);
    Ok(())
}

fn is_wrapped(alloc: Global, suite: Suite, want: &str) -> Result<bool, NoMemory> {
    let wrapped = match suite {
        Suite::One => wrap(alloc, b"key", b"context", b"a message")?,
        Suite::Two => wrap512(alloc, b"key", b"context", b"a message")?,
    };
    are(alloc, wrapped.as_slice(), want)
}

fn unwraps(
    alloc: Global,
    suite: Suite,
    context: &str,
    wrapped: &str,
    message: Option<&str>,
) -> Result<bool, NoMemory> {
    let wrapped = bytes_of(alloc, wrapped)?;
    let opened = match suite {
        Suite::One => unwrap(alloc, b"key", context.as_bytes(), wrapped.as_slice())?,
        Suite::Two => unwrap512(alloc, b"key", context.as_bytes(), wrapped.as_slice())?,
    };
    may_be(alloc, &opened, message)
}

/// Whether the message is wrapped to these bytes, which are unwrapped under its context alone.
fn wraps_both_ways(alloc: Global, suite: Suite, wrapped: &str) -> Result<bool, NoMemory> {
    Ok(
        is_wrapped(alloc, suite, wrapped)?
            && unwraps(alloc, suite, "context", wrapped, Some("a message"))?
            && unwraps(alloc, suite, "other", wrapped, None)?,
    )
}

/// The message `a message` under the key `key` and the context `context`, in suite One and in suite
/// Two.
const WRAPPED: &str =
    "0x703f080e967cc71d688f4508bf382f4d989a5434019071d1bb787ec333e0c1b84125d16d7d0378664b";

const WRAPPED_TWO: &str =
    "0xc921b7e825cb5465feea61873b0cc61599bf1d128cca0be116cef434ffbcc5e2effdc4ebb0b97ddd48";

#[test]
fn wrapped_and_unwrapped(rt: HostRuntime) -> Result<(), NoMemory> {
    assert!(rt; wraps_both_ways(rt.alloc(), Suite::One, WRAPPED)?);
    assert!(rt; wraps_both_ways(rt.alloc(), Suite::Two, WRAPPED_TWO)?);
    Ok(())
}
