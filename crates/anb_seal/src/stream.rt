// ChaCha20 (RFC 8439) as a source of bytes.
ghost use Rattle.std.specs.Prelude.{◌≡◌, ◌+◌, ◌/◌, ◌%◌, ◌^◌, ◌<◌, ◌≤◌, ◌++◌, length, vec_len};
ghost use Rattle.std.specs.Vec.{vec_capacity};
ghost use Rattle.rand_chacha.specs.ChaCha.{key_of};
ghost use Rattle.anb_seal.specs.Streams.{stream_bytes, key_stream, xored};

use rand_chacha::ChaCha20Rng;
use rand_core::SeedableRng;
use rand_core::utils::NextWord;

/// The bytes that are masked at a time: those of the four blocks that the generator makes at once.
const PAD: usize = 256;

/// A front, and after it the bytes xor the key stream of a key.
///
/// For speed the front comes by value, since behind a reference its length would be written with
/// each byte, and the loops stay out of the callers, where their code varies in speed.
#[inline(never)]
pub(crate) fn append_masked(key: &[u8; 32], front: Vec<u8>, bytes: &[u8]) -> Vec<u8>
    requires { vec_len front + length bytes.now ≤ vec_capacity front }
    ensures { result.items ≡ front.items ++ xored bytes.now
        (key_stream key.now (length bytes.now)) }
{
    let mut masked = front;
    let mut words = words_from(key, 0, 0);
    let mut pad = [0; PAD];
    for i in 0..bytes.len().div_ceil(PAD) {
        let start = PAD * i;
        let end = bytes.len().min(start + PAD);
        fill(&mut words, &mut pad);
        append_xored(&mut masked, &bytes[start..end], &pad);
    }
    masked
}

/// Appends the bytes xor those of a pad, which are as many or more.
fn append_xored(masked: &mut Vec<u8>, bytes: &[u8], pad: &[u8; PAD])
    requires room { vec_len masked.old + length bytes.now ≤ vec_capacity masked.old }
    requires pad { length bytes.now ≤ 256 }
    ensures items { masked.new.items ≡ masked.old.items ++ xored bytes.now pad.now }
    ensures len { vec_len masked.new ≡ vec_len masked.old + length bytes.now }
    ensures capacity { vec_capacity masked.new ≡ vec_capacity masked.old }
{
    for i in 0..bytes.len() {
        masked.push_reserved(bytes[i] ^ pad[i]);
    }
}

/// A stream under a key, from word `first` on.
pub(crate) fn words_from(key: &[u8; 32], stream: u32, first: u64) -> ChaCha20Rng
    requires { first < 2 ^ 40 }
    ensures { result ≡ record { key = key_of key.now; stream = stream; word_pos = first } }
{
    let mut words = ChaCha20Rng::from_seed(*key);
    words.set_stream(u64::from(stream));
    words.set_word_pos(u128::from(first));
    words
}

/// Writes the next words of a stream over the bytes.
pub(crate) fn fill(words: &mut ChaCha20Rng, bytes: &mut [u8])
    requires whole { length bytes.old % 4 ≡ 0 }
    requires near { words.old.word_pos < 2 ^ 67 }
    ensures bytes { bytes.new ≡ stream_bytes words.old.key words.old.stream words.old.word_pos
        (length bytes.old / 4) }
    ensures words { words.new ≡ record words.old
        { word_pos = words.old.word_pos + length bytes.old / 4 } }
{
    for i in 0..bytes.len() / 4 {
        bytes[4 * i..4 * i + 4].copy_from_slice(&words.next_word().to_le_bytes());
    }
}
