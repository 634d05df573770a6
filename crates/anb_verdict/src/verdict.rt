//! Verdicts.

/// What a conversation says of a program. Events are numbered from 1.
#[derive(Clone, Copy, Debug, PartialEq, Eq, Drop)]
pub enum Verdict {
    /// All that was seen is what the role does for some draws.
    Good,
    /// The same; but in the honest case it got no further than where it stopped here.
    Skipped,
    /// The same; but it must stop where only its end would tell, which isn't seen.
    NotSeen,
    /// Nothing was tried: the change gives the right bytes.
    Unchanged,
    /// Nothing was tried: a message is longer than a frame may be.
    TooLong,
    /// It sent the message of an event, where it must stop before.
    LaxMessage { event: usize, stop: u32 },
    /// It sent a message that isn't narrated, where it must stop.
    LaxUnnarrated { stop: u32 },
    /// It ended with the status 0, where it must stop.
    LaxEnd { stop: u32 },
    /// The message of an event didn't come.
    StrictMessage { event: u32, status: u8 },
    /// The same, of a program whose end isn't seen.
    StrictUnseen { event: u32 },
    /// It heard and said all, and ended with another status than 0; or ended before it heard all.
    StrictEnd { status: u8 },
    /// Its message of an event is another one for all draws.
    Wrong { event: u32 },
    /// It sent a message that isn't narrated.
    Unnarrated,
    /// Behind its last message came bytes that are none.
    Loose,
    /// A signal ended it.
    Signal(u32),
    /// It was silent for too long.
    Silent,
    /// Its end can't be told.
    Lost,
}

impl Verdict {
    ghost use Rattle.std.specs.Prelude.{◌≡◌};
    ghost use Rattle.anb_verdict.specs.Verdicts.{is_good};

    /// Whether nothing is said against the program, so that its line is `ok`.
    pub fn is_good(self) -> bool
        ensures { result ≡ is_good self }
    {
        match self {
            Verdict::Good
            | Verdict::Skipped
            | Verdict::NotSeen
            | Verdict::Unchanged
            | Verdict::TooLong => true,
            Verdict::LaxMessage { .. }
            | Verdict::LaxUnnarrated { .. }
            | Verdict::LaxEnd { .. }
            | Verdict::StrictMessage { .. }
            | Verdict::StrictUnseen { .. }
            | Verdict::StrictEnd { .. }
            | Verdict::Wrong { .. }
            | Verdict::Unnarrated
            | Verdict::Loose
            | Verdict::Signal(_)
            | Verdict::Silent
            | Verdict::Lost => false,
        }
    }
}
