//! The words of `replay` and `trace` where the number of a session is said.
ghost use Rattle.std.specs.Prelude.{◌≡◌, ◌<◌, ◌^◌, ℕ, Some, decimal};
ghost use Rattle.anb_text.specs.Reading.{number_of};

use anb_base::Text;
use anb_command::{Command, ReplayWords};
use itoa::Buffer;

/// What is asked of `replay` or `trace`, and the number of the session.
#[derive(Clone, Copy)]
pub enum SessionWords<'w> {
    Replay(ReplayWords<'w>, u32),
    Trace(ReplayWords<'w>, u32),
}

impl<'w> SessionWords<'w> {
    ghost use Rattle.std.specs.Prelude.{◌≡◌};
    ghost use Rattle.anb_session_commands.specs.Asking.{following_by};
    ghost use Rattle.anb_session_commands.specs.Words.{following_in, following_of};
    ghost use Rattle.anb_words.specs.Words.{asked_of};

    /// Reads a whole word list.
    pub fn read(words: &'w [Text]) -> Option<Self>
        ensures { following_by result ≡ following_of words.now }
    {
        let (command, end) = words.split_at(words.len().saturating_sub(2));
        let [flag, number] = end else {
            return None;
        };
        if flag.as_str() != "--session" {
            return None;
        }
        let session = read_session(number.as_str())?;
        Self::read_command(command, session)
    }

    /// Reads the words before the last two.
    fn read_command(words: &'w [Text], session: u32) -> Option<Self>
        ensures { following_by result ≡ following_in (asked_of words.now) session }
    {
        match Command::read(words) {
            None => None,
            Some(Command::Replay(words)) => Some(SessionWords::Replay(words, session)),
            Some(Command::Trace(words)) => Some(SessionWords::Trace(words, session)),
            Some(Command::Play(_other)) => None,
            Some(Command::Enact(_other)) => None,
            Some(Command::Branch(_other)) => None,
            Some(Command::Park(_other)) => None,
            Some(Command::Resume(_other)) => None,
            Some(Command::Host(_other)) => None,
            Some(Command::Rehearse(_other)) => None,
            Some(Command::Drill(_other)) => None,
            Some(Command::Certify(_other)) => None,
            Some(Command::Judge(_other)) => None,
            Some(Command::Page(_other)) => None,
            Some(
                Command::Fmt {
                    narration: _narration,
                },
            ) => None,
            Some(
                Command::Describe {
                    kind: _kind,
                    narration: _narration,
                    role: _role,
                },
            ) => None,
            Some(Command::Help) => None,
            Some(
                Command::Why {
                    narration: _narration,
                },
            ) => None,
            Some(
                Command::Chart {
                    narration: _narration,
                },
            ) => None,
            Some(
                Command::RoleChart {
                    narration: _narration,
                    role: _role,
                },
            ) => None,
            Some(
                Command::CheckValues {
                    narration: _narration,
                    role: _role,
                    values: _values,
                },
            ) => None,
            Some(
                Command::Check {
                    narration: _narration,
                },
            ) => None,
            Some(
                Command::Values {
                    narration: _narration,
                },
            ) => None,
            Some(
                Command::RoleValues {
                    narration: _narration,
                    role: _role,
                    values: _values,
                },
            ) => None,
        }
    }
}

/// The session whose number a word spells.
fn read_session(word: &str) -> Option<u32>
    ensures { result ≡ number_of word.now }
{
    let session = parsed(word)?;
    let mut buffer = Buffer::new();
    if buffer.format(session) == word {
        Some(session)
    } else {
        None
    }
}

/// A number, which is the one that is written so where one is.
fn parsed(digits: &str) -> Option<u32>
    ensures { (n : ℕ) → n < 2 ^ 32 → digits.now ≡ decimal n → result ≡ Some n }
{
    digits.parse::<u32>().ok()
}
