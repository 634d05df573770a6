//! Frames: a length in four bytes, the most significant first, and then so many bytes.
#![tactic(auto)]

ghost use Rattle.std.specs.Prelude.{◌≡◌, ◌≤◌, ◌<◌, ℕ, List, length, IfOk, OnOk, OnErr};
ghost use Rattle.anb_base.specs.Moves.{Rose, Put, PutPrefix, count_written};
ghost use Rattle.anb_frame.specs.Frames.{frame, length_bytes, IsFrameLength};
ghost use Rattle.anb_frame.specs.Cuts.{Tail, CutLeft, HasCut, HasOneCut};
ghost use Rattle.anb_frame.specs.Answers.{Takes, Follows, OnFailed, UnlessFailed};

use anb_base::{Bytes, Failed, NoMemory, Sink, Source, read_full, write_whole};
use std::alloc::Global;

/// What [`take`] found: a frame of so many bytes, or the end of input.
#[derive(Clone, Copy, Debug, PartialEq, Eq, Drop)]
pub enum Taken {
    Frame(u32),
    End,
}

/// Why [`take`] has no frame.
#[derive(Clone, Copy, Debug, PartialEq, Eq, Drop)]
pub enum FrameNo {
    /// The input ended within a frame. Both numbers count its four bytes of length: `need` is 4
    /// while these aren't whole.
    Truncated { have: u64, need: u64 },
    /// This length exceeds the buffer. Its four bytes alone were read.
    TooLarge(u32),
    /// The source failed.
    Failed,
}

/// Law: each input has exactly one cut into frames, of at most `limit` bytes each, and a tail.
pub fn one_cut(limit: u32)
    ensures exists { HasCut limit }
    ensures unique { HasOneCut limit }
{}

/// The length that these four bytes say.
fn read_length(head: &[u8; 4]) -> u32
    ensures { length_bytes result ≡ head.now }
{
    u32::from_be_bytes(*head)
}

#[tactic(auto, unfolding(crate::specs::Frames::length_bytes))]
fn written_length(len: u32) -> [u8; 4]
    ensures { result ≡ length_bytes len }
{
    len.to_be_bytes()
}

/// Takes the next frame into the front of the buffer, whose length is the limit. What the buffer
/// holds beyond the frame has no meaning.
pub fn take<S: Source>(src: &mut S, buf: &mut [u8]) -> Result<Taken, FrameNo>
    requires { IsFrameLength (length buf.old) }
    ensures takes { Takes (S.left src.old) (S.left src.new) (S.taken_at src.old)
        (S.taken_at src.new)
        (count_written (S.kept src.old)) (length buf.old) buf.new result }
    ensures follows { (bs : List (List ℕ)) (tail : Tail)
        → CutLeft (length buf.old) (S.left src.old) bs tail
        → Follows (length buf.old) bs tail (S.left src.new) buf.new result }
    ensures cause { OnFailed result (Rose (S.faults src.old) (S.faults src.new)) }
    ensures quiet { UnlessFailed result (S.faults src.new ≡ S.faults src.old) }
    ensures never_falls { S.faults src.old ≤ S.faults src.new }
    ensures kept { S.kept src.new ≡ S.kept src.old }
{
    let mut head = [0u8; 4];
    let Ok(have) = read_full(src, &mut head) else {
        return Err(FrameNo::Failed);
    };
    if have == 0 {
        return Ok(Taken::End);
    }
    if have < 4 {
        return Err(FrameNo::Truncated {
            have: have as u64,
            need: 4,
        });
    }
    let len = read_length(&head);
    if len as usize > buf.len() {
        return Err(FrameNo::TooLarge(len));
    }
    let Ok(got) = read_full(src, &mut buf[..len as usize]) else {
        return Err(FrameNo::Failed);
    };
    if got < len as usize {
        return Err(FrameNo::Truncated {
            have: 4 + got as u64,
            need: 4 + u64::from(len),
        });
    }
    Ok(Taken::Frame(len))
}

/// The frame of these bytes.
pub fn framed(alloc: Global, bytes: &[u8]) -> Result<Bytes, NoMemory>
    requires { IsFrameLength (length bytes.now) }
    ensures { IfOk result (λ framed. framed ≡ frame bytes.now) }
{
    let mut framed = Vec::with_capacity(alloc, 4 + bytes.len())?;
    framed.extend_from_slice(&written_length(bytes.len() as u32))?;
    framed.extend_from_slice(bytes)?;
    Ok(Bytes::new(framed))
}

/// Appends the frame of these bytes, its length in a write of its own.
pub fn put<K: Sink>(snk: &mut K, bytes: &[u8]) -> Result<(), Failed>
    requires { IsFrameLength (length bytes.now) }
    ensures put { OnOk result (Put (K.written snk.old) (K.written snk.new) (frame bytes.now)) }
    ensures failed { OnErr result
        (PutPrefix (K.written snk.old) (K.written snk.new) (frame bytes.now)) }
    ensures cause { OnErr result (Rose (K.faults snk.old) (K.faults snk.new)) }
    ensures quiet { OnOk result (K.faults snk.new ≡ K.faults snk.old) }
    ensures never_falls { K.faults snk.old ≤ K.faults snk.new }
    ensures kept { K.kept snk.new ≡ K.kept snk.old }
{
    write_whole(snk, &written_length(bytes.len() as u32))?;
    write_whole(snk, bytes)?;
    Ok(())
}
