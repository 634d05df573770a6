//! What a record holds, written and read.

ghost use Rattle.std.specs.Prelude.{◌≡◌, ◌≢◌, ◌≤◌, ◌<◌, ◌^◌, ◌⊎◌, ℕ, List, [], ◌∷◌, ◌++◌, length, take, drop, All, IfOk, OnOk, IfSome, IfNone, IsSome};
ghost use Rattle.anb_base.specs.declared.TheConstants.{ARRIVAL};
ghost use Rattle.anb_frame.specs.Frames.{frame, frames, length_bytes};
ghost use Rattle.anb_frame.specs.Cuts.{End, Cut};
ghost use Rattle.anb_park.specs.Records.{marker};
ghost use Rattle.anb_park.specs.Going.{AreFrames, HasHead, HasNoHead};

use anb_base::{ARRIVAL, Bytes, NoMemory};
use std::alloc::Global;

const MARKER: &[u8] = b"PK1";

/// How many bytes stand in front of the frames.
const HEAD: usize = 71;

/// What stands in front of the frames, behind the marker.
#[derive(Drop)]
pub(crate) struct Head {
    pub(crate) id: [u8; 32],
    pub(crate) seed: [u8; 32],
    pub(crate) session: u32,
}

/// A body without arrivals.
pub(crate) fn begin_body(
    alloc: Global,
    id: &[u8; 32],
    seed: &[u8; 32],
    session: u32,
    init: &[Bytes],
) -> Result<Vec<u8>, NoMemory>
    requires short { All (λ value. length value ≤ ARRIVAL) init.now }
    ensures id { length id.now ≡ 32 }
    ensures body { IfOk result (λ body. body.items
        ≡ marker ++ id.now ++ seed.now ++ length_bytes session ++ frames init.now) }
{
    let mut body = Vec::with_capacity(alloc, HEAD)?;
    body.extend_from_slice(MARKER)?;
    body.extend_from_slice(id)?;
    body.extend_from_slice(seed)?;
    body.extend_from_slice(&written_number(session))?;
    for value in init {
        append_frame(&mut body, value.as_slice())?;
    }
    Ok(body)
}

/// Appends the frame of these bytes.
pub(crate) fn append_frame(body: &mut Vec<u8>, bytes: &[u8]) -> Result<(), NoMemory>
    requires { length bytes.now ≤ ARRIVAL }
    ensures { OnOk result (body.new.items ≡ body.old.items ++ frame bytes.now) }
{
    body.extend_from_slice(&written_number(bytes.len() as u32))?;
    body.extend_from_slice(bytes)?;
    Ok(())
}

/// What stands in front of the frames, and the rest, where there is enough of it.
pub(crate) fn read_head(body: &[u8]) -> Option<(Head, &[u8])>
    ensures some { IfSome result (λ read. HasHead body.now read.0 read.1.now) }
    ensures none { IfNone result (HasNoHead body.now) }
{
    if body.len() < HEAD {
        return None;
    }
    let (mark, rest) = body.split_at(3);
    if mark != MARKER {
        return None;
    }
    let (id, rest) = rest.split_at(32);
    let (seed, rest) = rest.split_at(32);
    let (session, frames) = rest.split_at(4);
    let head = Head {
        id: array_of(id),
        seed: array_of(seed),
        session: number_of(session),
    };
    Some((head, frames))
}

fn array_of(bytes: &[u8]) -> [u8; 32]
    requires { length bytes.now ≡ 32 }
    ensures { result ≡ bytes.now }
{
    let mut array = [0; 32];
    array.copy_from_slice(bytes);
    array
}

fn number_of(bytes: &[u8]) -> u32
    requires { length bytes.now ≡ 4 }
    ensures { length_bytes result ≡ bytes.now }
{
    let mut head = [0; 4];
    head.copy_from_slice(bytes);
    read_number(&head)
}

/// The number that these four bytes say.
fn read_number(head: &[u8; 4]) -> u32
    ensures { length_bytes result ≡ head.now }
{
    u32::from_be_bytes(*head)
}

#[tactic(auto, unfolding(anb_frame::specs::Frames::length_bytes))]
fn written_number(n: u32) -> [u8; 4]
    ensures { result ≡ length_bytes n }
{
    n.to_be_bytes()
}

/// The first frame's bytes and what follows it, where this begins with a whole frame that is no
/// longer than an arrival.
pub(crate) fn split_frame(bytes: &[u8]) -> Option<(&[u8], &[u8])>
    ensures fits { IfSome result (λ split. length split.0.now ≤ ARRIVAL) }
    ensures some { IfSome result (λ split. bytes.now ≡ frame split.0.now ++ split.1.now) }
    ensures again { (b rest : List ℕ) → length b ≤ ARRIVAL → bytes.now ≡ frame b ++ rest
        → IsSome result }
{
    if bytes.len() < 4 {
        return None;
    }
    let (head, rest) = bytes.split_at(4);
    let len = number_of(head);
    if len > ARRIVAL || len as usize > rest.len() {
        return None;
    }
    Some(rest.split_at(len as usize))
}

/// How many frames these bytes are, where they are frames and nothing else.
pub(crate) fn count_frames(bytes: &[u8]) -> Option<usize>
    ensures some { IfSome result (λ count.
        (bs : List (List ℕ)) × AreFrames bytes.now bs × (length bs ≡ count)) }
    ensures none { IfNone result ((bs : List (List ℕ)) → Cut ARRIVAL bytes.now bs End → ⊥) }
{
    let mut rest = bytes;
    let mut count = 0;
    while !rest.is_empty() {
        let Some((_, behind)) = split_frame(rest) else {
            return None;
        };
        rest = behind;
        count += 1;
    }
    Some(count)
}

/// The bytes of the first frames, as many as asked for, and what follows them.
pub(crate) fn read_values(
    alloc: Global,
    frames: &[u8],
    count: u32,
) -> Result<(Vec<Bytes>, &[u8]), NoMemory>
    requires { (bs : List (List ℕ)) × AreFrames frames.now bs × (count ≤ length bs) }
    ensures values { IfOk result (λ read. (bs : List (List ℕ)) → AreFrames frames.now bs
        → read.0.items ≡ take count bs) }
    ensures rest { IfOk result (λ read. (bs : List (List ℕ)) → AreFrames frames.now bs
        → AreFrames read.1.now (drop count bs)) }
{
    let mut values = Vec::new(alloc);
    let mut rest = frames;
    for _ in 0..count {
        let Some((value, behind)) = split_frame(rest) else {
            unreachable!()
        };
        values.push(Bytes::new(Vec::from_slice(alloc, value)?))?;
        rest = behind;
    }
    Ok((values, rest))
}
