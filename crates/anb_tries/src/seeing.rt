//! What is seen of a program in a conversation.
ghost use Rattle.std.specs.Prelude.{◌≡◌};
ghost use Rattle.anb_tries.specs.Seen.{ended_by, ended_of, is_no_message, is_refused, is_unread, seen_of};

use anb_partner::{ChildEnd, Conversation, TalkEnd};
use anb_verdict::{Ended, Seen};

/// What is seen of a program in a conversation, where the role is known to stop at the event `due`, and
/// the honest case got as far as `reached` says. A part of a message, and one that is too long, count as
/// bytes that are no message; and where reading failed its end tells nothing.
pub fn seen_of(conversation: &Conversation, due: Option<u32>, reached: usize) -> Seen
    ensures { result ≡ seen_of conversation.now due reached }
{
    Seen {
        due,
        more: conversation.behind,
        loose: conversation.loose || is_no_message(conversation.end),
        refused: is_refused(conversation.end),
        ended: ended_of(conversation),
        reached,
    }
}

/// How the program ended.
fn ended_of(conversation: &Conversation) -> Ended
    ensures { result ≡ ended_of conversation.now }
{
    if conversation.silent {
        Ended::Silent
    } else if is_unread(conversation.end) {
        Ended::Lost
    } else {
        ended_by(conversation.child)
    }
}

/// How it ended, by its end where that is told.
fn ended_by(child: Option<ChildEnd>) -> Ended
    ensures { result ≡ ended_by child }
{
    match child {
        Some(ChildEnd::Status(status)) => Ended::Status(status),
        Some(ChildEnd::Signal(signal)) => Ended::Signal(u32::from(signal)),
        Some(ChildEnd::Closed) => Ended::Unseen,
        None => Ended::Lost,
    }
}

/// Whether the partner refused the last message.
fn is_refused(end: TalkEnd) -> bool
    ensures { result ≡ is_refused end }
{
    match end {
        TalkEnd::Refused => true,
        TalkEnd::Done
        | TalkEnd::Missing
        | TalkEnd::Cut { .. }
        | TalkEnd::Long(_)
        | TalkEnd::ReadFault
        | TalkEnd::WriteFault
        | TalkEnd::TooLong
        | TalkEnd::Unchanged => false,
    }
}

/// Whether bytes that are no message came where one was due.
fn is_no_message(end: TalkEnd) -> bool
    ensures { result ≡ is_no_message end }
{
    match end {
        TalkEnd::Cut { .. } | TalkEnd::Long(_) => true,
        TalkEnd::Done
        | TalkEnd::Refused
        | TalkEnd::Missing
        | TalkEnd::ReadFault
        | TalkEnd::WriteFault
        | TalkEnd::TooLong
        | TalkEnd::Unchanged => false,
    }
}

/// Whether reading failed where a message was due.
fn is_unread(end: TalkEnd) -> bool
    ensures { result ≡ is_unread end }
{
    match end {
        TalkEnd::ReadFault => true,
        TalkEnd::Done
        | TalkEnd::Refused
        | TalkEnd::Missing
        | TalkEnd::Cut { .. }
        | TalkEnd::Long(_)
        | TalkEnd::WriteFault
        | TalkEnd::TooLong
        | TalkEnd::Unchanged => false,
    }
}
