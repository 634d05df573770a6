//! The words of `play`, `enact`, `branch` and `host` where what is played is recorded in a folder.

use anb_base::Text;
use anb_command::{BranchWords, Command, EnactWords, PlayWords, is_operand};

/// What is asked of `play`, `enact`, `branch` or `host`, and the name of the folder.
#[derive(Clone, Copy)]
pub enum RecordingWords<'w> {
    Play(PlayWords<'w>, &'w Text),
    Enact(EnactWords<'w>, &'w Text),
    Branch(BranchWords<'w>, &'w Text),
    Host(PlayWords<'w>, &'w Text),
}

impl<'w> RecordingWords<'w> {
    ghost use Rattle.std.specs.Prelude.{◌≡◌};
    ghost use Rattle.anb_record_commands.specs.Asking.{recording_by};
    ghost use Rattle.anb_record_commands.specs.Words.{recording_in, recording_of};
    ghost use Rattle.anb_words.specs.Words.{asked_of};

    /// Reads a whole word list.
    pub fn read(words: &'w [Text]) -> Option<Self>
        ensures { recording_by result ≡ recording_of words.now }
    {
        let (command, end) = words.split_at(words.len().saturating_sub(2));
        let [flag, folder] = end else {
            return None;
        };
        if !(flag.as_str() == "--record" && is_operand(folder)) {
            return None;
        }
        Self::read_command(command, folder)
    }

    /// Reads the words before the last two.
    fn read_command(words: &'w [Text], folder: &'w Text) -> Option<Self>
        ensures { recording_by result ≡ recording_in (asked_of words.now) folder.now }
    {
        match Command::read(words) {
            None => None,
            Some(Command::Play(words)) => Some(RecordingWords::Play(words, folder)),
            Some(Command::Enact(words)) => Some(RecordingWords::Enact(words, folder)),
            Some(Command::Branch(words)) => Some(RecordingWords::Branch(words, folder)),
            Some(Command::Host(words)) => Some(RecordingWords::Host(words, folder)),
            Some(Command::Park(_other)) => None,
            Some(Command::Resume(_other)) => None,
            Some(Command::Replay(_other)) => None,
            Some(Command::Rehearse(_other)) => None,
            Some(Command::Drill(_other)) => None,
            Some(Command::Certify(_other)) => None,
            Some(Command::Trace(_other)) => None,
            Some(Command::Judge(_other)) => None,
            Some(Command::Page(_other)) => None,
            Some(
                Command::Fmt {
                    narration: _narration,
                },
            ) => None,
            Some(
                Command::Describe {
                    kind: _kind,
                    narration: _narration,
                    role: _role,
                },
            ) => None,
            Some(Command::Help) => None,
            Some(
                Command::Why {
                    narration: _narration,
                },
            ) => None,
            Some(
                Command::Chart {
                    narration: _narration,
                },
            ) => None,
            Some(
                Command::RoleChart {
                    narration: _narration,
                    role: _role,
                },
            ) => None,
            Some(
                Command::CheckValues {
                    narration: _narration,
                    role: _role,
                    values: _values,
                },
            ) => None,
            Some(
                Command::Check {
                    narration: _narration,
                },
            ) => None,
            Some(
                Command::Values {
                    narration: _narration,
                },
            ) => None,
            Some(
                Command::RoleValues {
                    narration: _narration,
                    role: _role,
                    values: _values,
                },
            ) => None,
        }
    }
}
