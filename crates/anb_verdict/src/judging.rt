//! The verdict on a conversation.
ghost use Rattle.std.specs.Prelude.{◌≡◌, ◌<◌, ◌≤◌, ◌^◌, ◌+◌, ℕ, length, drop, All, IfOk, IfSome, IfNone, true, nat_le, nat_lt};
ghost use Rattle.std.specs.List.{AllByRecursion};
ghost use Rattle.std.specs.Option.{option_map_or};
ghost use Rattle.anb_base.specs.Bytes.{IsBytes};
ghost use Rattle.anb_base.specs.declared.TheConstants.{ARRIVAL};
ghost use Rattle.anb_judge.specs.Verdicts.{is_said, line_bytes, refused_at};
ghost use Rattle.anb_protocol.specs.Texts.{known_by};
ghost use Rattle.anb_transcript.specs.Replays.{messages_of};
ghost use Rattle.anb_transcript.specs.declared.following.ReplayEnd.TheVariants as replayed;
ghost use Rattle.anb_verdict.specs.Verdicts.{IsVerdict, at_over, at_short, at_stop, last_said, lax_message, next_said, is_there, reached_by, stop_by_status, stop_unseen, stops_when_due, verdict_of};

use crate::seen::{Ended, Seen};
use crate::verdict::Verdict;
use anb_base::{Bytes, NoMemory};
use anb_judge::{is_said, judge, sides};
use anb_protocol::Protocol;
use anb_transcript::{Due, ReplayEnd, Transcript, TranscriptLine};
use std::alloc::Global;

/// The verdict on a conversation of a role that begins with these values. It takes as long as compiling
/// the role and running it.
pub fn judge_case(
    alloc: Global,
    p: &Protocol,
    role: u32,
    initial: &[Bytes],
    transcript: &Transcript,
    seen: Seen,
) -> Result<Verdict, NoMemory>
    requires role { role < length p.now.roles }
    requires count { length initial.now ≡ length (known_by p.now role) }
    requires bytes { AllByRecursion IsBytes initial.now }
    requires short { All (λ value. length value ≤ ARRIVAL) initial.now }
    requires few { length transcript.now + 1 < 2 ^ 32 }
    requires lines { All (λ line. length (line_bytes line) ≤ ARRIVAL) transcript.now }
    ensures { IfOk result (IsVerdict (record {
      protocol = p.now;
      role = role;
      initial = initial.now;
      lines = transcript.now;
    }) seen) }
{
    let plan = p.plan(alloc, role)?;
    let sides = sides(alloc, plan.events())?;
    let end = judge(alloc, p, role, initial, transcript)?;
    Ok(verdict_of(&sides, &end, transcript.lines(), seen))
}

/// The verdict on these lines, where they are judged so, of a role that says its messages where `sides`
/// has true, and hears the others.
pub fn verdict_of(sides: &[bool], end: &ReplayEnd, lines: &[TranscriptLine], seen: Seen) -> Verdict
    requires few { length lines.now < 2 ^ 32 }
    ensures { result ≡ verdict_of sides.now end.now lines.now seen }
{
    if let Some(stop) = stop_due(seen, lines.len(), end) {
        return at_stop(sides, lines, seen, stop);
    }
    match end {
        ReplayEnd::Stopped { line, .. } => at_stop(sides, lines, seen, *line),
        ReplayEnd::Differs { line, due } => match due {
            Due::Send(_) => Verdict::Wrong { event: *line },
            Due::Receive | Due::End => Verdict::Unnarrated,
        },
        ReplayEnd::Short(event) => {
            if seen.refused {
                return Verdict::Wrong {
                    event: lines.len() as u32,
                };
            }
            at_short(sides, seen, *event)
        }
        ReplayEnd::Follows => {
            if seen.refused {
                return Verdict::Wrong {
                    event: lines.len() as u32,
                };
            }
            at_over(seen)
        }
        ReplayEnd::NoMemory => Verdict::Lost,
    }
}

/// The event at which the role is known to stop, where these lines come to it and none before is
/// refused.
fn stop_due(seen: Seen, lines: usize, end: &ReplayEnd) -> Option<u32>
    ensures some { IfSome result (λ stop. stops_when_due seen.due lines end.now
        ≡ replayed.Stopped (record { event = stop; at = 0 }) stop) }
    ensures none { IfNone result (stops_when_due seen.due lines end.now ≡ end.now) }
{
    let Some(due) = seen.due else {
        return None;
    };
    if due as usize <= lines && is_unrefused_before(end, due) {
        Some(due)
    } else {
        None
    }
}

/// Whether no line before an event is refused.
fn is_unrefused_before(end: &ReplayEnd, event: u32) -> bool
    ensures { result ≡ option_map_or (λ n. nat_le event n) (refused_at end.now) true }
{
    match end {
        ReplayEnd::Differs { line, .. } => event <= *line,
        ReplayEnd::Stopped { line, .. } => event <= *line,
        ReplayEnd::Short(_) => true,
        ReplayEnd::Follows => true,
        ReplayEnd::NoMemory => true,
    }
}

/// The verdict where the role must stop at an event.
fn at_stop(sides: &[bool], lines: &[TranscriptLine], seen: Seen, stop: u32) -> Verdict
    ensures { result ≡ at_stop sides.now lines.now seen stop }
{
    let next = next_said(sides, stop);
    if seen.more > 0 || says_behind(lines, stop) {
        return lax_message(next, stop);
    }
    match seen.ended {
        Ended::Status(status) => stop_by_status(next, stop, seen.reached, status),
        Ended::Signal(signal) => Verdict::Signal(signal),
        Ended::Unseen => stop_unseen(next, stop, seen.reached),
        Ended::Silent => Verdict::Silent,
        Ended::Lost => Verdict::Lost,
    }
}

/// The first event behind this one whose message the role says.
fn next_said(sides: &[bool], event: u32) -> Option<usize>
    ensures { result ≡ next_said sides.now event }
{
    for i in event as usize..sides.len() {
        if sides[i] {
            return Some(i + 1);
        }
    }
    None
}

/// Whether the role says something in the lines behind an event.
fn says_behind(lines: &[TranscriptLine], event: u32) -> bool
    ensures { result ≡ nat_lt 0 (length (messages_of (drop event lines.now))) }
{
    for i in event as usize..lines.len() {
        if let TranscriptLine::Out(_) = &lines[i] {
            return true;
        }
    }
    false
}

/// A message came where it must stop.
fn lax_message(next: Option<usize>, stop: u32) -> Verdict
    ensures { result ≡ lax_message next stop }
{
    match next {
        Some(event) => Verdict::LaxMessage { event, stop },
        None => Verdict::LaxUnnarrated { stop },
    }
}

/// It stopped, and ended with this status.
fn stop_by_status(next: Option<usize>, stop: u32, reached: usize, status: u8) -> Verdict
    ensures { result ≡ stop_by_status next stop reached status }
{
    if status == 0 && next.is_none() {
        Verdict::LaxEnd { stop }
    } else if reached <= stop as usize {
        Verdict::Skipped
    } else {
        Verdict::Good
    }
}

/// It stopped, and how it ended isn't seen.
fn stop_unseen(next: Option<usize>, stop: u32, reached: usize) -> Verdict
    ensures { result ≡ stop_unseen next stop reached }
{
    if next.is_none() {
        Verdict::NotSeen
    } else if reached <= stop as usize {
        Verdict::Skipped
    } else {
        Verdict::Good
    }
}

/// Its lines are the role's, and it ended before this event.
fn at_short(sides: &[bool], seen: Seen, event: u32) -> Verdict
    ensures { result ≡ at_short sides.now seen event }
{
    match seen.ended {
        Ended::Status(status) => {
            if is_said(sides, event) {
                Verdict::StrictMessage { event, status }
            } else {
                Verdict::StrictEnd { status }
            }
        }
        Ended::Signal(signal) => Verdict::Signal(signal),
        Ended::Unseen => {
            if is_said(sides, event) {
                Verdict::StrictUnseen { event }
            } else {
                Verdict::Lost
            }
        }
        Ended::Silent => Verdict::Silent,
        Ended::Lost => Verdict::Lost,
    }
}

/// Its lines are the role's to the end.
fn at_over(seen: Seen) -> Verdict
    ensures { result ≡ at_over seen }
{
    if seen.more > 0 {
        return Verdict::Unnarrated;
    }
    if seen.loose {
        return Verdict::Loose;
    }
    match seen.ended {
        Ended::Status(0) | Ended::Unseen => Verdict::Good,
        Ended::Status(status) => Verdict::StrictEnd { status },
        Ended::Signal(signal) => Verdict::Signal(signal),
        Ended::Silent => Verdict::Silent,
        Ended::Lost => Verdict::Lost,
    }
}

/// How far the honest case got with this verdict and these lines: behind all of them where all was
/// good, and else to the last message that the program said, or 0 where it said none.
pub fn reached_by(verdict: Verdict, lines: &[TranscriptLine]) -> usize
    ensures { result ≡ reached_by verdict lines.now }
{
    if verdict.is_good() {
        return lines.len() + 1;
    }
    let mut last = 0;
    for i in 0..lines.len() {
        if let TranscriptLine::Out(_) = &lines[i] {
            last = i + 1;
        }
    }
    last
}
