//! The frames of events, read piece by piece, and the frames of notices.

ghost use Rattle.std.specs.Prelude.{◌≡◌, ◌<◌, ◌≤◌, List, [], ◌∷◌, ◌++◌, length, IfOk, OnOk, OnErr};
ghost use Rattle.anb_base.specs.Moves.{Rose, TookLess, count_written};
ghost use Rattle.anb_base.specs.declared.TheConstants.{ARRIVAL};
ghost use Rattle.anb_host.specs.HostFrames.{number, notice_frame, cause_number};
ghost use Rattle.anb_host.specs.Hosts.{IsNarrow};
ghost use Rattle.anb_host.specs.Turns.{ReadsOn, Skips};

use crate::{Cause, HostEnd, HostEvent, Notice};
use anb_base::{ARRIVAL, Bytes, Failed, NoMemory, Source, read_full};
use std::alloc::Global;

/// Takes the frame of the next event.
pub(crate) fn read_event<S: Source>(alloc: Global, src: &mut S) -> Result<HostEvent, HostEnd>
    ensures reads { ReadsOn (S.left src.old) (S.left src.new)
        (S.taken_at src.old) (S.taken_at src.new) (count_written (S.kept src.old)) [] result }
    ensures cause { result ≡ Err HostEnd.ReadFault → Rose (S.faults src.old) (S.faults src.new) }
    ensures told { S.faults src.old < S.faults src.new → result ≡ Err HostEnd.ReadFault }
    ensures never_falls { S.faults src.old ≤ S.faults src.new }
    ensures kept { S.kept src.new ≡ S.kept src.old }
{
    let mut kind = [0u8; 1];
    let Ok(have) = read_full(src, &mut kind) else {
        return Err(HostEnd::ReadFault);
    };
    if have == 0 {
        return Err(HostEnd::Ended);
    }
    match kind[0] {
        0 => read_start(src),
        1 => read_arrival(alloc, src),
        other => Err(HostEnd::BadKind(other)),
    }
}

/// Takes what follows the kind of a start.
fn read_start<S: Source>(src: &mut S) -> Result<HostEvent, HostEnd>
    ensures reads { ReadsOn (S.left src.old) (S.left src.new)
        (S.taken_at src.old) (S.taken_at src.new) (count_written (S.kept src.old)) (0 ∷ []) result }
    ensures cause { result ≡ Err HostEnd.ReadFault → Rose (S.faults src.old) (S.faults src.new) }
    ensures told { S.faults src.old < S.faults src.new → result ≡ Err HostEnd.ReadFault }
    ensures never_falls { S.faults src.old ≤ S.faults src.new }
    ensures kept { S.kept src.new ≡ S.kept src.old }
{
    let mut head = [0u8; 4];
    let Ok(have) = read_full(src, &mut head) else {
        return Err(HostEnd::ReadFault);
    };
    if have < 4 {
        return Err(HostEnd::Truncated {
            have: 1 + have as u64,
            need: 5,
        });
    }
    Ok(HostEvent::Start(read_number(&head)))
}

/// Takes what follows the kind of an arrival.
fn read_arrival<S: Source>(alloc: Global, src: &mut S) -> Result<HostEvent, HostEnd>
    ensures reads { ReadsOn (S.left src.old) (S.left src.new)
        (S.taken_at src.old) (S.taken_at src.new) (count_written (S.kept src.old)) (1 ∷ []) result }
    ensures cause { result ≡ Err HostEnd.ReadFault → Rose (S.faults src.old) (S.faults src.new) }
    ensures told { S.faults src.old < S.faults src.new → result ≡ Err HostEnd.ReadFault }
    ensures never_falls { S.faults src.old ≤ S.faults src.new }
    ensures kept { S.kept src.new ≡ S.kept src.old }
{
    let mut head = [0u8; 8];
    let Ok(have) = read_full(src, &mut head) else {
        return Err(HostEnd::ReadFault);
    };
    if have < 8 {
        return Err(HostEnd::Truncated {
            have: 1 + have as u64,
            need: 9,
        });
    }
    let (s, len) = read_numbers(&head);
    if len > ARRIVAL {
        read_oversize(src, s, len)
    } else {
        read_body(alloc, src, s, len)
    }
}

/// Takes the bytes of an arrival.
fn read_body<S: Source>(alloc: Global, src: &mut S, s: u32, len: u32) -> Result<HostEvent, HostEnd>
    requires { len ≤ ARRIVAL }
    ensures reads { ReadsOn (S.left src.old) (S.left src.new)
        (S.taken_at src.old) (S.taken_at src.new) (count_written (S.kept src.old))
        (1 ∷ number s ++ number len) result }
    ensures cause { result ≡ Err HostEnd.ReadFault → Rose (S.faults src.old) (S.faults src.new) }
    ensures told { S.faults src.old < S.faults src.new → result ≡ Err HostEnd.ReadFault }
    ensures never_falls { S.faults src.old ≤ S.faults src.new }
    ensures kept { S.kept src.new ≡ S.kept src.old }
{
    let Ok(mut body) = vec![in alloc; 0u8; len as usize] else {
        return Err(HostEnd::NoMemory);
    };
    let Ok(have) = read_full(src, &mut body) else {
        return Err(HostEnd::ReadFault);
    };
    if have < len as usize {
        return Err(HostEnd::Truncated {
            have: 9 + have as u64,
            need: 9 + u64::from(len),
        });
    }
    Ok(HostEvent::Arrive(s, Bytes::new(body)))
}

/// Takes the bytes of what is longer than an arrival may be, and drops them.
fn read_oversize<S: Source>(src: &mut S, s: u32, len: u32) -> Result<HostEvent, HostEnd>
    requires { ARRIVAL < len }
    ensures reads { ReadsOn (S.left src.old) (S.left src.new)
        (S.taken_at src.old) (S.taken_at src.new) (count_written (S.kept src.old))
        (1 ∷ number s ++ number len) result }
    ensures cause { result ≡ Err HostEnd.ReadFault → Rose (S.faults src.old) (S.faults src.new) }
    ensures told { S.faults src.old < S.faults src.new → result ≡ Err HostEnd.ReadFault }
    ensures never_falls { S.faults src.old ≤ S.faults src.new }
    ensures kept { S.kept src.new ≡ S.kept src.old }
{
    let Ok(have) = skip(src, len) else {
        return Err(HostEnd::ReadFault);
    };
    if have < len {
        return Err(HostEnd::Truncated {
            have: 9 + u64::from(have),
            need: 9 + u64::from(len),
        });
    }
    Ok(HostEvent::Oversize(s, len))
}

/// Takes so many bytes, or as many as there are, piece by piece, and answers how many there were.
fn skip<S: Source>(src: &mut S, len: u32) -> Result<u32, Failed>
    ensures skips { IfOk result (Skips (S.left src.old) (S.left src.new)
        (S.taken_at src.old) (S.taken_at src.new) (count_written (S.kept src.old)) len) }
    ensures failed { OnErr result (TookLess (S.left src.old) (S.left src.new)
        (S.taken_at src.old) (S.taken_at src.new) (count_written (S.kept src.old)) len) }
    ensures cause { OnErr result (Rose (S.faults src.old) (S.faults src.new)) }
    ensures quiet { OnOk result (S.faults src.new ≡ S.faults src.old) }
    ensures never_falls { S.faults src.old ≤ S.faults src.new }
    ensures kept { S.kept src.new ≡ S.kept src.old }
{
    let mut piece = [0u8; 4096];
    let mut left = len;
    while left > 0 {
        let want = left.min(4096);
        let have = read_full(src, &mut piece[..want as usize])?;
        left -= have as u32;
        if have < want as usize {
            return Ok(len - left);
        }
    }
    Ok(len)
}

/// The number that these four bytes say.
fn read_number(head: &[u8; 4]) -> u32
    ensures { number result ≡ head.now }
{
    u32::from_be_bytes(*head)
}

/// The two numbers that these eight bytes say.
fn read_numbers(head: &[u8; 8]) -> (u32, u32)
    ensures { number result.0 ++ number result.1 ≡ head.now }
{
    let [a, b, c, d, e, f, g, h] = *head;
    (read_number(&[a, b, c, d]), read_number(&[e, f, g, h]))
}

#[tactic(auto, unfolding(anb_frame::specs::Frames::length_bytes))]
fn written_number(n: u32) -> [u8; 4]
    ensures { result ≡ number n }
{
    n.to_be_bytes()
}

/// The frame of a notice.
pub(crate) fn notice_bytes(alloc: Global, notice: &Notice) -> Result<Bytes, NoMemory>
    requires { IsNarrow notice.now }
    ensures { IfOk result (λ bytes. bytes ≡ notice_frame notice.now) }
{
    match notice {
        Notice::Message(s, message) => {
            let message = message.as_slice();
            let mut frame = begun(alloc, 0, *s, message.len() + 4)?;
            frame.extend_from_slice(&written_number(message.len() as u32))?;
            frame.extend_from_slice(message)?;
            Ok(Bytes::new(frame))
        }
        Notice::Stopped(s, event) => {
            let mut frame = begun(alloc, 1, *s, 4)?;
            frame.extend_from_slice(&written_number(*event))?;
            Ok(Bytes::new(frame))
        }
        Notice::Finished(s) => Ok(Bytes::new(begun(alloc, 2, *s, 0)?)),
        Notice::Refused(s, cause) => {
            let mut frame = begun(alloc, 3, *s, 1)?;
            frame.push(number_of(*cause))?;
            Ok(Bytes::new(frame))
        }
    }
}

/// The kind and the session of a frame, with room for so many bytes more.
fn begun(alloc: Global, kind: u8, s: u32, room: usize) -> Result<Vec<u8>, NoMemory>
    requires { room ≤ 67108868 }
    ensures { IfOk result (λ frame. frame.items ≡ kind ∷ number s) }
{
    let mut frame = Vec::with_capacity(alloc, 5 + room)?;
    frame.push(kind)?;
    frame.extend_from_slice(&written_number(s))?;
    Ok(frame)
}

fn number_of(cause: Cause) -> u8
    ensures { result ≡ cause_number cause }
{
    match cause {
        Cause::Range => 1,
        Cause::Started => 2,
        Cause::NotStarted => 3,
        Cause::Ended => 4,
        Cause::Oversize => 5,
    }
}
