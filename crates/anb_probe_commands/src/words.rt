//! The words of `probe`.
ghost use Rattle.std.specs.Prelude.{◌≡◌};
ghost use Rattle.anb_words.specs.Words.{seconds_in};
ghost use Rattle.std.specs.Option.{option_map};
ghost use Rattle.anb_partner.specs.Trials.{target_words};
ghost use Rattle.anb_probe_commands.specs.Words.{case_of, target_in};

use anb_base::Text;
use anb_command::{is_operand, read_seconds};
use anb_partner::Target;

/// What is asked of `probe`: the names of the narration's file, of the role and of the values file, and
/// how the program is tried.
#[derive(Clone, Copy)]
pub struct ProbeWords<'w> {
    pub narration: &'w Text,
    pub name: &'w Text,
    pub values: &'w Text,
    pub trying: TryWords<'w>,
}

/// How a program is tried: whether in all cases, the number of the one that is asked for, from 1, for how
/// many seconds it may be silent, and the name of the folder where that is recorded; and its own words,
/// the first of which is its name, or where it is dialled.
#[derive(Clone, Copy)]
pub struct TryWords<'w> {
    pub all: bool,
    pub case: Option<u32>,
    pub limit: Option<u32>,
    pub folder: Option<&'w Text>,
    pub target: Target<'w>,
}

impl<'w> ProbeWords<'w> {
    ghost use Rattle.std.specs.Prelude.{◌≡◌};
    ghost use Rattle.anb_probe_commands.specs.Asking.{probed_by};
    ghost use Rattle.anb_probe_commands.specs.Words.{probed_in, probed_of};

    /// Reads a whole word list.
    pub fn read(words: &'w [Text]) -> Option<Self>
        ensures { probed_by result ≡ probed_of words.now }
    {
        let [command, words @ ..] = words else {
            return None;
        };
        if command.as_str() != "probe" {
            return None;
        }
        Self::read_names(words)
    }

    fn read_names(words: &'w [Text]) -> Option<Self>
        ensures { probed_by result ≡ probed_in words.now }
    {
        let [narration, name, values, words @ ..] = words else {
            return None;
        };
        if !(is_operand(narration) && is_operand(name) && is_operand(values)) {
            return None;
        }
        let trying = TryWords::read(words)?;
        Some(ProbeWords {
            narration,
            name,
            values,
            trying,
        })
    }
}

impl<'w> TryWords<'w> {
    ghost use Rattle.std.specs.Prelude.{◌≡◌};
    ghost use Rattle.anb_probe_commands.specs.Asking.{folder_by, tried_by};
    ghost use Rattle.anb_probe_commands.specs.Words.{marked_in, numbered_in, recorded_in, timed_in, trying_in};

    /// Reads the words behind the names.
    fn read(words: &'w [Text]) -> Option<Self>
        ensures { tried_by result ≡ trying_in words.now }
    {
        match words {
            [flag, words @ ..] if flag.as_str() == "--all" => Self::read_numbered(true, words),
            words => Self::read_numbered(false, words),
        }
    }

    /// Reads those behind `--all`.
    fn read_numbered(all: bool, words: &'w [Text]) -> Option<Self>
        ensures { tried_by result ≡ numbered_in all words.now }
    {
        match words {
            [flag, number, words @ ..] if flag.as_str() == "--case" => {
                Self::read_timed(all, Some(read_case(number)?), words)
            }
            words => Self::read_timed(all, None, words),
        }
    }

    /// Reads those behind the number of a case.
    fn read_timed(all: bool, case: Option<u32>, words: &'w [Text]) -> Option<Self>
        ensures { tried_by result ≡ timed_in all case words.now }
    {
        match words {
            [flag, seconds, words @ ..] if flag.as_str() == "--timeout" => {
                Self::read_recorded(all, case, Some(read_seconds(seconds)?), words)
            }
            words => Self::read_recorded(all, case, None, words),
        }
    }

    /// Reads those behind the limit.
    fn read_recorded(
        all: bool,
        case: Option<u32>,
        limit: Option<u32>,
        words: &'w [Text],
    ) -> Option<Self>
        ensures { tried_by result ≡ recorded_in all case limit words.now }
    {
        match words {
            [flag, folder, words @ ..] if flag.as_str() == "--record" => {
                if is_operand(folder) {
                    Self::read_marked(all, case, limit, Some(folder), words)
                } else {
                    None
                }
            }
            words => Self::read_marked(all, case, limit, None, words),
        }
    }

    /// Reads what is tried.
    fn read_marked(
        all: bool,
        case: Option<u32>,
        limit: Option<u32>,
        folder: Option<&'w Text>,
        words: &'w [Text],
    ) -> Option<Self>
        ensures { tried_by result ≡ marked_in all case limit (folder_by folder.entry) words.now }
    {
        let target = read_target(words)?;
        Some(TryWords {
            all,
            case,
            limit,
            folder,
            target,
        })
    }
}

/// What is tried: `--` and the words of a program, or `--dial` and where.
fn read_target(words: &[Text]) -> Option<Target<'_>>
    ensures { option_map target_words result ≡ target_in words.now }
{
    match words {
        [mark, program @ ..] if mark.as_str() == "--" => {
            if program.is_empty() {
                None
            } else {
                Some(Target::Program(program))
            }
        }
        [flag, place] if flag.as_str() == "--dial" => {
            if is_operand(place) {
                Some(Target::Dial(place))
            } else {
                None
            }
        }
        _ => None,
    }
}

/// The number of a case that a word spells.
fn read_case(word: &Text) -> Option<u32>
    ensures { result ≡ case_of (seconds_in word.now) }
{
    let number = read_seconds(word)?;
    if number <= 4096 { Some(number) } else { None }
}
