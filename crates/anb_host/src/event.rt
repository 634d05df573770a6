//! Events that come to a host, and the notices that it gives.

ghost use Rattle.std.specs.Prelude.{◌≡◌};
ghost use Rattle.anb_host.specs.Own.{session_of};

use anb_base::Bytes;

/// What comes to a session, whose number stands first.
#[derive(Debug, Drop)]
pub enum HostEvent {
    Start(u32),
    /// An arrival of at most 262,144 bytes.
    Arrive(u32, Bytes),
    /// An arrival of so many bytes, more than one may have.
    Oversize(u32, u32),
}

impl HostEvent {
    pub fn session(&self) -> u32
        ensures { result ≡ session_of self.now }
    {
        match self {
            HostEvent::Start(s) | HostEvent::Arrive(s, _) | HostEvent::Oversize(s, _) => *s,
        }
    }
}

/// What a session is told, whose number stands first.
#[derive(Debug, Drop)]
pub enum Notice {
    /// It sends this message.
    Message(u32, Bytes),
    /// A demand of its code failed, after so many sends and receives.
    Stopped(u32, u32),
    /// All of its code is done.
    Finished(u32),
    /// The event changed nothing.
    Refused(u32, Cause),
}

/// Why an event is refused: the first that holds.
#[derive(Clone, Copy, Debug, PartialEq, Eq, Drop)]
pub enum Cause {
    /// The session's number is above 1,023.
    Range,
    /// A start of a session that was started.
    Started,
    /// Another event for a session that was not started.
    NotStarted,
    /// The session has stopped or is done.
    Ended,
    /// The arrival is longer than one may be.
    Oversize,
}
