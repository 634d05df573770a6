//! The words of `stage`, and those of the children that it starts.
ghost use Rattle.std.specs.Prelude.{◌≡◌, [], ◌∷◌, codes, Some, None, IfOk};
ghost use Rattle.anb_stage.specs.Words.{asked_by, asked_lists};
ghost use Rattle.anb_stage_commands.specs.Asking.{behind_by, staged};
ghost use Rattle.anb_stage_commands.specs.Words.{asked_for, limit_in, names_file, options_in, program_for, words_for};

use crate::casts::{has_none_twice, is_cast, program_of, program_words};
use anb_base::{Bytes, NoMemory, Text};
use anb_command::{is_operand, read_seconds};
use anb_stage::ChildWords;
use std::alloc::Global;

/// What is asked of `stage`: the names of the narration's file and of a folder with the values of its roles,
/// or of a file with those of all, the programs of some roles, and for how many seconds a child may be
/// silent, where that is said. Each program is three words: `--as`, the role's name, and the program.
#[derive(Clone, Copy)]
pub struct StageWords<'w> {
    pub narration: &'w Text,
    pub values: &'w Text,
    pub casts: &'w [Text],
    pub limit: Option<u32>,
}

impl<'w> StageWords<'w> {
    ghost use Rattle.std.specs.Prelude.{◌≡◌};
    ghost use Rattle.anb_stage_commands.specs.Asking.{staged_by};
    ghost use Rattle.anb_stage_commands.specs.Words.{stage_in, staged_of};

    /// Reads a whole word list.
    pub fn read(words: &'w [Text]) -> Option<Self>
        ensures { staged_by result ≡ staged_of words.now }
    {
        let [command, words @ ..] = words else {
            return None;
        };
        if command.as_str() != "stage" {
            return None;
        }
        Self::read_files(words)
    }

    fn read_files(words: &'w [Text]) -> Option<Self>
        ensures { staged_by result ≡ stage_in words.now }
    {
        let [narration, values, words @ ..] = words else {
            return None;
        };
        if !(is_operand(narration) && is_operand(values)) {
            return None;
        }
        let behind = read_behind(words)?;
        if !has_none_twice(behind.casts) {
            return None;
        }
        Some(StageWords {
            narration,
            values,
            casts: behind.casts,
            limit: behind.limit,
        })
    }
}

/// What is asked of `stage` where it is recorded, and the name of the folder.
#[derive(Clone, Copy)]
pub struct StageRecordWords<'w> {
    pub stage: StageWords<'w>,
    pub folder: &'w Text,
}

impl<'w> StageRecordWords<'w> {
    ghost use Rattle.std.specs.Prelude.{◌≡◌};
    ghost use Rattle.anb_stage_commands.specs.Asking.{staged_into_by};
    ghost use Rattle.anb_stage_commands.specs.Words.{staged_into_of};

    /// Reads a whole word list.
    pub fn read(words: &'w [Text]) -> Option<Self>
        ensures { staged_into_by result ≡ staged_into_of words.now }
    {
        let (stage, end) = words.split_at(words.len().saturating_sub(2));
        let [flag, folder] = end else {
            return None;
        };
        if !(flag.as_str() == "--record" && is_operand(folder)) {
            return None;
        }
        let stage = StageWords::read(stage)?;
        Some(StageRecordWords { stage, folder })
    }
}

/// What stands behind the names.
#[derive(Clone, Copy)]
struct Behind<'w> {
    casts: &'w [Text],
    limit: Option<u32>,
}

/// The programs of roles, and then the limit.
fn read_behind(words: &[Text]) -> Option<Behind<'_>>
    ensures { behind_by result ≡ options_in words.now }
{
    let mut count = 0;
    let mut rest = words;
    while let [flag, role, program, behind @ ..] = rest {
        if !is_cast(flag, role, program) {
            return None;
        }
        count += 3;
        rest = behind;
    }
    let limit = read_limit(rest)?;
    Some(Behind {
        casts: &words[..count],
        limit,
    })
}

/// The most seconds for which a child may be silent, where the words say them.
fn read_limit(words: &[Text]) -> Option<Option<u32>>
    ensures { result ≡ limit_in words.now }
{
    match words {
        [] => Some(None),
        [flag, seconds] if flag.as_str() == "--timeout" => Some(Some(read_seconds(seconds)?)),
        _ => None,
    }
}

/// What the children of all roles are started with, where their values stand in a folder.
pub(crate) fn words_for(
    alloc: Global,
    words: StageWords,
    roles: &[Text],
) -> Result<Vec<ChildWords>, NoMemory>
    ensures words { IfOk result (λ all. asked_lists words.entry.limit all.items
        ≡ words_for (staged words.entry) roles.now) }
{
    let mut all = Vec::new(alloc);
    for role in roles {
        all.push(folder_words(alloc, words, role)?)?;
    }
    Ok(all)
}

/// What one role's child is started with, where its values stand in a folder.
fn folder_words(alloc: Global, words: StageWords, role: &Text) -> Result<ChildWords, NoMemory>
    ensures { IfOk result (λ own. asked_by words.entry.limit own
        ≡ asked_for (staged words.entry) None role.now) }
{
    let values = format!(in alloc; "{}/{}.values", words.values.as_str(), role.as_str())?;
    let mut own = child_words(alloc, words, role)?;
    own.push(Text::new(values))?;
    Ok(ChildWords {
        program: program_for(alloc, words, role)?,
        words: own,
        values: None,
    })
}

/// What it is started with, where they stand in a file of its own.
pub(crate) fn own_words(
    alloc: Global,
    words: StageWords,
    role: &Text,
    values: Bytes,
) -> Result<ChildWords, NoMemory>
    ensures { IfOk result (λ own. asked_by words.entry.limit own
        ≡ asked_for (staged words.entry) (Some values) role.now) }
{
    Ok(ChildWords {
        program: program_for(alloc, words, role)?,
        words: child_words(alloc, words, role)?,
        values: Some(values),
    })
}

/// The words of its program; none where the role is `anb`'s.
fn program_for(alloc: Global, words: StageWords, role: &Text) -> Result<Vec<Text>, NoMemory>
    ensures { IfOk result (λ program. program.items
        ≡ program_for (staged words.entry) role.now) }
{
    match program_of(words.casts, role) {
        Some(program) => program_words(alloc, program),
        None => Ok(Vec::new(alloc)),
    }
}

/// The words behind them, up to the values.
fn child_words(alloc: Global, words: StageWords, role: &Text) -> Result<Vec<Text>, NoMemory>
    ensures { IfOk result (λ own. own.items
        ≡ codes "play" ∷ words.entry.narration.now ∷ role.now ∷ []) }
{
    let mut own = Vec::with_capacity(alloc, 4)?;
    own.push(Text::new(String::from_str(alloc, "play")?))?;
    own.push(words.narration.copy(alloc)?)?;
    own.push(role.copy(alloc)?)?;
    Ok(own)
}

/// Whether a name is that of a file with values.
pub(crate) fn names_file(name: &Text) -> bool
    ensures { result ≡ names_file name.now }
{
    name.as_str().as_bytes().ends_with(b".values")
}
