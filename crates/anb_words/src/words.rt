//! The words of a command, and what they ask for.
ghost use Rattle.std.specs.Prelude.{◌≡◌, ◌<◌, ◌^◌, ℕ, decimal, is_some};
ghost use Rattle.anb_text.specs.Reading.{number_of};
ghost use Rattle.std.specs.Option.{option_map};
ghost use Rattle.anb_words.specs.Words.{are_seconds, arm_of, drill, drill_of, is_operand, seconds_in};

use anb_base::{NoMemory, Place, Text};
use anb_help::{Page, page_of};
use itoa::Buffer;
use std::alloc::Global;

/// What the words ask for.
pub enum Command<'w> {
    Fmt {
        narration: &'w Text,
    },
    Describe {
        kind: RoleText,
        narration: &'w Text,
        role: &'w Text,
    },
    Play(PlayWords<'w>),
    Enact(EnactWords<'w>),
    Replay(ReplayWords<'w>),
    Host(PlayWords<'w>),
    Rehearse(RehearseWords<'w>),
    /// The number of exchanges of the drill, from 1 to 200.
    Drill(u32),
    Help,
    Page(Page),
    Certify(CertifyWords<'w>),
    Why {
        narration: &'w Text,
    },
    Park(ParkWords<'w>),
    Resume(ResumeWords<'w>),
    Chart {
        narration: &'w Text,
    },
    RoleChart {
        narration: &'w Text,
        role: &'w Text,
    },
    Branch(BranchWords<'w>),
    Check {
        narration: &'w Text,
    },
    CheckValues {
        narration: &'w Text,
        role: &'w Text,
        values: &'w Text,
    },
    Trace(ReplayWords<'w>),
    Values {
        narration: &'w Text,
    },
    RoleValues {
        narration: &'w Text,
        role: &'w Text,
        values: &'w Text,
    },
    Judge(ReplayWords<'w>),
}

/// What is written of a role.
#[derive(Clone, Copy, Debug, PartialEq, Eq, Drop)]
pub enum RoleText {
    /// The role file of its code.
    RoleFile,
    /// Its plan and its code, with the terms of the registers.
    Explanation,
}

/// What is asked of `play` and of `host`: the names of the files and of the role, and the place.
#[derive(Clone, Copy)]
pub struct PlayWords<'w> {
    pub narration: &'w Text,
    pub name: &'w Text,
    pub values: &'w Text,
    pub endpoint: Endpoint<'w>,
}

/// What is asked of `enact`: the names of the files, and the place.
#[derive(Clone, Copy)]
pub struct EnactWords<'w> {
    pub code: &'w Text,
    pub values: &'w Text,
    pub endpoint: Endpoint<'w>,
}

/// What is asked of `replay`, of `trace` and of `judge`: the names of the files and of the role.
#[derive(Clone, Copy)]
pub struct ReplayWords<'w> {
    pub narration: &'w Text,
    pub name: &'w Text,
    pub values: &'w Text,
    pub transcript: &'w Text,
}

/// What is asked of `branch`: what is asked of `play`, and the number of the arm that the role is told
/// to take, from 1 to 8.
#[derive(Clone, Copy)]
pub struct BranchWords<'w> {
    pub play: PlayWords<'w>,
    pub told: Option<u32>,
}

/// What is asked of `rehearse`: the names of the files.
#[derive(Clone, Copy)]
pub struct RehearseWords<'w> {
    pub narration: &'w Text,
    pub values: &'w Text,
    pub schedule: &'w Text,
}

/// What is asked of `certify`: the names of the files and of the role.
#[derive(Clone, Copy)]
pub struct CertifyWords<'w> {
    pub narration: &'w Text,
    pub name: &'w Text,
    pub code: &'w Text,
}

/// What is asked of `park`: what is asked of `play`, and the name of the key's file.
#[derive(Clone, Copy)]
pub struct ParkWords<'w> {
    pub play: PlayWords<'w>,
    pub key: &'w Text,
}

/// What is asked of `resume`: the names of the files, one of them the record's, and of the role, and
/// the place.
#[derive(Clone, Copy)]
pub struct ResumeWords<'w> {
    pub narration: &'w Text,
    pub name: &'w Text,
    pub parked: &'w Text,
    pub key: &'w Text,
    pub endpoint: Endpoint<'w>,
}

/// The place that the words name, and the most seconds that reaching it or a single wait may take.
#[derive(Clone, Copy)]
pub enum Endpoint<'w> {
    Stdio,
    Dial(&'w Text, Option<u32>),
    Listen(&'w Text, Option<u32>),
}

impl<'w> Command<'w> {
    ghost use Rattle.std.specs.Prelude.{◌≡◌};
    ghost use Rattle.anb_words.specs.Commands.{asked_by};
    ghost use Rattle.anb_words.specs.Words.{asked_of, command_in, enact_in, fmt_in, help_in, host_in, play_in, describe_in, replay_in};
    ghost use Rattle.anb_words.specs.Words.{certify_in, chart_in, drill_in, park_in, rehearse_in, resume_in, why_in};
    ghost use Rattle.anb_words.specs.Words.{alone_in, branch_in, branch_on, check_in, judge_in, trace_in, values_in};

    /// Reads a whole word list.
    pub fn read(words: &'w [Text]) -> Option<Self>
        ensures { asked_by result ≡ asked_of words.now }
    {
        let [command, words @ ..] = words else {
            return None;
        };
        Self::read_command(command, words)
    }

    fn read_command(command: &Text, words: &'w [Text]) -> Option<Self>
        ensures { asked_by result ≡ command_in command.now words.now }
    {
        match command.as_str() {
            "fmt" => Self::read_fmt(words),
            "compile" => Self::read_describe(RoleText::RoleFile, words),
            "explain" => Self::read_describe(RoleText::Explanation, words),
            "play" => Self::read_play(words),
            "enact" => Self::read_enact(words),
            "replay" => Self::read_replay(words),
            "host" => Self::read_host(words),
            "rehearse" => Self::read_rehearse(words),
            "drill" => Self::read_drill(words),
            "help" => Self::read_help(words),
            "certify" => Self::read_certify(words),
            "why" => Self::read_why(words),
            "park" => Self::read_park(words),
            "resume" => Self::read_resume(words),
            "chart" => Self::read_chart(words),
            "branch" => Self::read_branch(words),
            "check" => Self::read_check(words),
            "trace" => Self::read_trace(words),
            "values" => Self::read_values(words),
            "--help" => Self::read_alone(Page::Overview, words),
            "--version" => Self::read_alone(Page::Version, words),
            "judge" => Self::read_judge(words),
            _ => None,
        }
    }

    fn read_fmt(words: &'w [Text]) -> Option<Self>
        ensures { asked_by result ≡ fmt_in words.now }
    {
        match words {
            [narration] if is_operand(narration) => Some(Command::Fmt { narration }),
            _ => None,
        }
    }

    fn read_describe(kind: RoleText, words: &'w [Text]) -> Option<Self>
        ensures { asked_by result ≡ describe_in kind words.now }
    {
        match words {
            [narration, role] if is_operand(narration) && is_operand(role) => {
                Some(Command::Describe {
                    kind,
                    narration,
                    role,
                })
            }
            _ => None,
        }
    }

    fn read_play(words: &'w [Text]) -> Option<Self>
        ensures { asked_by result ≡ play_in words.now }
    {
        let [narration, name, values, place @ ..] = words else {
            return None;
        };
        if !(is_operand(narration) && is_operand(name) && is_operand(values)) {
            return None;
        }
        let endpoint = Endpoint::read(place)?;
        Some(Command::Play(PlayWords {
            narration,
            name,
            values,
            endpoint,
        }))
    }

    fn read_enact(words: &'w [Text]) -> Option<Self>
        ensures { asked_by result ≡ enact_in words.now }
    {
        let [code, values, place @ ..] = words else {
            return None;
        };
        if !(is_operand(code) && is_operand(values)) {
            return None;
        }
        let endpoint = Endpoint::read(place)?;
        Some(Command::Enact(EnactWords {
            code,
            values,
            endpoint,
        }))
    }

    fn read_replay(words: &'w [Text]) -> Option<Self>
        ensures { asked_by result ≡ replay_in words.now }
    {
        let [narration, name, values, transcript] = words else {
            return None;
        };
        if !(is_operand(narration) && is_operand(name) && is_operand(values)) {
            return None;
        }
        if !is_operand(transcript) {
            return None;
        }
        Some(Command::Replay(ReplayWords {
            narration,
            name,
            values,
            transcript,
        }))
    }

    fn read_host(words: &'w [Text]) -> Option<Self>
        ensures { asked_by result ≡ host_in words.now }
    {
        let [narration, name, values, place @ ..] = words else {
            return None;
        };
        if !(is_operand(narration) && is_operand(name) && is_operand(values)) {
            return None;
        }
        let endpoint = Endpoint::read(place)?;
        Some(Command::Host(PlayWords {
            narration,
            name,
            values,
            endpoint,
        }))
    }

    fn read_rehearse(words: &'w [Text]) -> Option<Self>
        ensures { asked_by result ≡ rehearse_in words.now }
    {
        match words {
            [narration, values, schedule]
                if is_operand(narration) && is_operand(values) && is_operand(schedule) => {
                Some(Command::Rehearse(RehearseWords {
                    narration,
                    values,
                    schedule,
                }))
            }
            _ => None,
        }
    }

    fn read_drill(words: &'w [Text]) -> Option<Self>
        ensures { asked_by result ≡ drill_in words.now }
    {
        match words {
            [exchanges] => Some(Command::Drill(read_exchanges(exchanges)?)),
            _ => None,
        }
    }

    fn read_park(words: &'w [Text]) -> Option<Self>
        ensures { asked_by result ≡ park_in words.now }
    {
        let [narration, name, values, key, place @ ..] = words else {
            return None;
        };
        if !(is_operand(narration) && is_operand(name) && is_operand(values)) {
            return None;
        }
        if !is_operand(key) {
            return None;
        }
        let endpoint = Endpoint::read(place)?;
        let play = PlayWords {
            narration,
            name,
            values,
            endpoint,
        };
        Some(Command::Park(ParkWords { play, key }))
    }

    fn read_resume(words: &'w [Text]) -> Option<Self>
        ensures { asked_by result ≡ resume_in words.now }
    {
        let [narration, name, parked, key, place @ ..] = words else {
            return None;
        };
        if !(is_operand(narration) && is_operand(name) && is_operand(parked)) {
            return None;
        }
        if !is_operand(key) {
            return None;
        }
        let endpoint = Endpoint::read(place)?;
        Some(Command::Resume(ResumeWords {
            narration,
            name,
            parked,
            key,
            endpoint,
        }))
    }

    fn read_certify(words: &'w [Text]) -> Option<Self>
        ensures { asked_by result ≡ certify_in words.now }
    {
        let [narration, name, code] = words else {
            return None;
        };
        if !(is_operand(narration) && is_operand(name) && is_operand(code)) {
            return None;
        }
        Some(Command::Certify(CertifyWords {
            narration,
            name,
            code,
        }))
    }

    fn read_why(words: &'w [Text]) -> Option<Self>
        ensures { asked_by result ≡ why_in words.now }
    {
        match words {
            [narration] if is_operand(narration) => Some(Command::Why { narration }),
            _ => None,
        }
    }

    fn read_chart(words: &'w [Text]) -> Option<Self>
        ensures { asked_by result ≡ chart_in words.now }
    {
        match words {
            [narration] if is_operand(narration) => Some(Command::Chart { narration }),
            [narration, flag, role]
                if is_operand(narration) && flag.as_str() == "--role" && is_operand(role) => {
                Some(Command::RoleChart { narration, role })
            }
            _ => None,
        }
    }

    fn read_branch(words: &'w [Text]) -> Option<Self>
        ensures { asked_by result ≡ branch_in words.now }
    {
        let [narration, name, values, words @ ..] = words else {
            return None;
        };
        if !(is_operand(narration) && is_operand(name) && is_operand(values)) {
            return None;
        }
        Self::read_branch_on(narration, name, values, words)
    }

    /// The words behind the names of the files and of the role: an arm, where one is told, and the
    /// place.
    fn read_branch_on(
        narration: &'w Text,
        name: &'w Text,
        values: &'w Text,
        words: &'w [Text],
    ) -> Option<Self>
        ensures { asked_by result ≡ branch_on narration.now name.now values.now words.now }
    {
        let (told, place) = match words {
            [flag, arm, place @ ..] if flag.as_str() == "--arm" => (Some(read_arm(arm)?), place),
            place => (None, place),
        };
        let endpoint = Endpoint::read(place)?;
        let play = PlayWords {
            narration,
            name,
            values,
            endpoint,
        };
        Some(Command::Branch(BranchWords { play, told }))
    }

    fn read_check(words: &'w [Text]) -> Option<Self>
        ensures { asked_by result ≡ check_in words.now }
    {
        match words {
            [narration] if is_operand(narration) => Some(Command::Check { narration }),
            [narration, role, values]
                if is_operand(narration) && is_operand(role) && is_operand(values) => {
                Some(Command::CheckValues {
                    narration,
                    role,
                    values,
                })
            }
            _ => None,
        }
    }

    fn read_trace(words: &'w [Text]) -> Option<Self>
        ensures { asked_by result ≡ trace_in words.now }
    {
        let [narration, name, values, transcript] = words else {
            return None;
        };
        if !(is_operand(narration) && is_operand(name) && is_operand(values)) {
            return None;
        }
        if !is_operand(transcript) {
            return None;
        }
        Some(Command::Trace(ReplayWords {
            narration,
            name,
            values,
            transcript,
        }))
    }

    fn read_values(words: &'w [Text]) -> Option<Self>
        ensures { asked_by result ≡ values_in words.now }
    {
        match words {
            [narration] if is_operand(narration) => Some(Command::Values { narration }),
            [narration, role, values]
                if is_operand(narration) && is_operand(role) && is_operand(values) => {
                Some(Command::RoleValues {
                    narration,
                    role,
                    values,
                })
            }
            _ => None,
        }
    }

    fn read_judge(words: &'w [Text]) -> Option<Self>
        ensures { asked_by result ≡ judge_in words.now }
    {
        let [narration, name, values, transcript] = words else {
            return None;
        };
        if !(is_operand(narration) && is_operand(name) && is_operand(values)) {
            return None;
        }
        if !is_operand(transcript) {
            return None;
        }
        Some(Command::Judge(ReplayWords {
            narration,
            name,
            values,
            transcript,
        }))
    }

    fn read_help(words: &'w [Text]) -> Option<Self>
        ensures { asked_by result ≡ help_in words.now }
    {
        match words {
            [] => Some(Command::Help),
            [command] => Some(Command::Page(page_of(command.as_str())?)),
            _ => None,
        }
    }

    fn read_alone(page: Page, words: &'w [Text]) -> Option<Self>
        ensures { asked_by result ≡ alone_in page words.now }
    {
        match words {
            [] => Some(Command::Page(page)),
            _ => None,
        }
    }
}

impl<'w> Endpoint<'w> {
    ghost use Rattle.std.specs.Prelude.{◌≡◌, IfOk};
    ghost use Rattle.std.specs.Option.{option_map};
    ghost use Rattle.anb_words.specs.Commands.{place_by};
    ghost use Rattle.anb_words.specs.Words.{place_at, place_in};

    /// Reads the words at the end of a command that has a place.
    fn read(words: &'w [Text]) -> Option<Self>
        ensures { option_map place_by result ≡ place_in words.now }
    {
        match words {
            [] => Some(Endpoint::Stdio),
            [flag, at] => Self::at(flag, at, None),
            [flag, at, timeout, seconds] if timeout.as_str() == "--timeout" => {
                let seconds = read_seconds(seconds)?;
                Self::at(flag, at, Some(seconds))
            }
            _ => None,
        }
    }

    /// The place of a flag and where.
    fn at(flag: &Text, at: &'w Text, timeout: Option<u32>) -> Option<Self>
        ensures { option_map place_by result ≡ place_at flag.now at.now }
    {
        if !is_operand(at) {
            return None;
        }
        match flag.as_str() {
            "--dial" => Some(Endpoint::Dial(at, timeout)),
            "--listen" => Some(Endpoint::Listen(at, timeout)),
            _ => None,
        }
    }

    /// The place, in memory of its own.
    pub fn place(self, alloc: Global) -> Result<Place, NoMemory>
        ensures { IfOk result (λ place. place ≡ place_by self.entry) }
    {
        match self {
            Endpoint::Stdio => Ok(Place::Stdio),
            Endpoint::Dial(at, _) => Ok(Place::Dial(at.copy(alloc)?)),
            Endpoint::Listen(at, _) => Ok(Place::Listen(at.copy(alloc)?)),
        }
    }

    /// The most seconds that reaching the place or a single wait may take, where there is a limit.
    pub fn timeout(self) -> Option<u32> {
        match self {
            Endpoint::Stdio => None,
            Endpoint::Dial(_, timeout) | Endpoint::Listen(_, timeout) => timeout,
        }
    }
}

/// The seconds that a word spells.
pub fn read_seconds(word: &Text) -> Option<u32>
    ensures are { is_some result ≡ are_seconds word.now }
    ensures value { result ≡ seconds_in word.now }
{
    let seconds = read_number(word.as_str())?;
    if 1 <= seconds && seconds <= 86_400 {
        Some(seconds)
    } else {
        None
    }
}

/// The exchanges of a drill that a word spells.
fn read_exchanges(word: &Text) -> Option<u32>
    ensures { option_map drill result ≡ drill_of (number_of word.now) }
{
    let exchanges = read_number(word.as_str())?;
    if 1 <= exchanges && exchanges <= 200 {
        Some(exchanges)
    } else {
        None
    }
}

/// The number of an arm that a word spells.
fn read_arm(word: &Text) -> Option<u32>
    ensures { result ≡ arm_of (number_of word.now) }
{
    let arm = read_number(word.as_str())?;
    if 1 <= arm && arm <= 8 {
        Some(arm)
    } else {
        None
    }
}

/// The number below 2^32 that is written so.
fn read_number(digits: &str) -> Option<u32>
    ensures { result ≡ number_of digits.now }
{
    let number = parsed(digits)?;
    let mut buffer = Buffer::new();
    if buffer.format(number) == digits {
        Some(number)
    } else {
        None
    }
}

/// A number, which is the one that is written so where one is.
fn parsed(digits: &str) -> Option<u32>
    ensures { (n : ℕ) → n < 2 ^ 32 → digits.now ≡ decimal n → result ≡ Some n }
{
    digits.parse::<u32>().ok()
}

/// Whether a word may stand as a name: it isn't empty and doesn't begin with `-`.
pub fn is_operand(word: &Text) -> bool
    ensures { result ≡ is_operand word.now }
{
    match word.as_str().as_bytes() {
        [first, ..] => *first != b'-',
        [] => false,
    }
}
