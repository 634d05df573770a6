//! The words of `park` and `resume` where the record goes to a file.

use anb_base::Text;
use anb_command::{Command, ParkWords, ResumeWords, is_operand};

/// What is asked of `park` or `resume`, and the name of the record's file.
#[derive(Clone, Copy)]
pub enum RecordWords<'w> {
    Park(ParkWords<'w>, &'w Text),
    Resume(ResumeWords<'w>, &'w Text),
}

impl<'w> RecordWords<'w> {
    ghost use Rattle.std.specs.Prelude.{◌≡◌};
    ghost use Rattle.anb_park_commands.specs.Asking.{recorded_by};
    ghost use Rattle.anb_park_commands.specs.Words.{recorded_in, recorded_of};
    ghost use Rattle.anb_words.specs.Words.{asked_of};

    /// Reads a whole word list.
    pub fn read(words: &'w [Text]) -> Option<Self>
        ensures { recorded_by result ≡ recorded_of words.now }
    {
        let (command, end) = words.split_at(words.len().saturating_sub(2));
        let [flag, file] = end else {
            return None;
        };
        if !(flag.as_str() == "--record" && is_operand(file)) {
            return None;
        }
        Self::read_command(command, file)
    }

    /// Reads the words before the last two.
    fn read_command(words: &'w [Text], file: &'w Text) -> Option<Self>
        ensures { recorded_by result ≡ recorded_in (asked_of words.now) file.now }
    {
        match Command::read(words) {
            None => None,
            Some(Command::Park(words)) => Some(RecordWords::Park(words, file)),
            Some(Command::Resume(words)) => Some(RecordWords::Resume(words, file)),
            Some(Command::Play(_other)) => None,
            Some(Command::Enact(_other)) => None,
            Some(Command::Replay(_other)) => None,
            Some(Command::Host(_other)) => None,
            Some(Command::Rehearse(_other)) => None,
            Some(Command::Drill(_other)) => None,
            Some(Command::Certify(_other)) => None,
            Some(Command::Branch(_other)) => None,
            Some(Command::Trace(_other)) => None,
            Some(Command::Judge(_other)) => None,
            Some(Command::Page(_other)) => None,
            Some(
                Command::Fmt {
                    narration: _narration,
                },
            ) => None,
            Some(
                Command::Describe {
                    kind: _kind,
                    narration: _narration,
                    role: _role,
                },
            ) => None,
            Some(Command::Help) => None,
            Some(
                Command::Why {
                    narration: _narration,
                },
            ) => None,
            Some(
                Command::Chart {
                    narration: _narration,
                },
            ) => None,
            Some(
                Command::RoleChart {
                    narration: _narration,
                    role: _role,
                },
            ) => None,
            Some(
                Command::CheckValues {
                    narration: _narration,
                    role: _role,
                    values: _values,
                },
            ) => None,
            Some(
                Command::Check {
                    narration: _narration,
                },
            ) => None,
            Some(
                Command::Values {
                    narration: _narration,
                },
            ) => None,
            Some(
                Command::RoleValues {
                    narration: _narration,
                    role: _role,
                    values: _values,
                },
            ) => None,
        }
    }
}
