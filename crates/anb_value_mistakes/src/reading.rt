//! What each line of a values file says by itself.
ghost use Rattle.std.specs.Prelude.{◌≡◌, ◌≤◌, All, IfOk, length};
ghost use Rattle.std.specs.List.{AllZip};
ghost use Rattle.anb_base.specs.declared.TheConstants.{SMALL_FILE};
ghost use Rattle.anb_values.specs.Lines.{lines_of};
ghost use Rattle.anb_value_mistakes.specs.Reading.{IsLong, IsRead, Says};

use anb_base::{Bytes, NoMemory, Text};
use anb_values::{ValuesNo, values};
use std::alloc::Global;

/// What a line says.
#[derive(Debug, Drop)]
pub enum Saying {
    /// It is passed over.
    Nothing,
    /// It has this label.
    Label(Text),
    /// It isn't of the grammar.
    Faulty,
}

/// A line, what it says, and whether its value is too long.
#[derive(Debug, Drop)]
pub struct ReadLine {
    pub line: Bytes,
    pub said: Saying,
    pub is_long: bool,
}

/// The lines of a text.
pub(crate) fn read_lines(alloc: Global, text: &[u8]) -> Result<Vec<ReadLine>, NoMemory>
    requires { length text.now ≤ SMALL_FILE }
    ensures lines { IfOk result (λ reads. AllZip IsRead (lines_of text.now) reads.items) }
    ensures short { IfOk result (λ reads. All (λ read. length read.line ≤ SMALL_FILE) reads.items) }
{
    let mut reads = Vec::new(alloc);
    for line in text.split(|byte| *byte == b'\n') {
        reads.push(read_line(alloc, line)?)?;
    }
    Ok(reads)
}

fn read_line(alloc: Global, line: &[u8]) -> Result<ReadLine, NoMemory>
    requires { length line.now ≤ SMALL_FILE }
    ensures read { IfOk result (IsRead line.now) }
    ensures short { IfOk result (λ read. length read.line ≤ SMALL_FILE) }
{
    let said = said_by(alloc, line)?;
    let is_long = is_long(alloc, line, &said)?;
    let line = Bytes::new(Vec::from_slice(alloc, line)?);
    Ok(ReadLine {
        line,
        said,
        is_long,
    })
}

/// What a line says, by the values that it alone gives for no names.
fn said_by(alloc: Global, line: &[u8]) -> Result<Saying, NoMemory>
    requires { length line.now ≤ SMALL_FILE }
    ensures { IfOk result (Says line.now) }
{
    match values(alloc, line, &[]) {
        Ok(fitted) => match fitted.seed {
            Some(_seed) => Ok(Saying::Label(Text::new(String::from_str(alloc, "@seed")?))),
            None => Ok(Saying::Nothing),
        },
        Err(ValuesNo::Line(_)) => Ok(Saying::Faulty),
        Err(ValuesNo::Extra(label)) => Ok(Saying::Label(label)),
        Err(ValuesNo::Twice(label)) => Ok(Saying::Label(label)),
        Err(ValuesNo::Long(label)) => Ok(Saying::Label(label)),
        Err(ValuesNo::Missing(_)) => Ok(Saying::Nothing),
        Err(ValuesNo::NoMemory) => Err(NoMemory),
    }
}

/// Whether a line's value is too long, by what it gives for its label.
fn is_long(alloc: Global, line: &[u8], said: &Saying) -> Result<bool, NoMemory>
    requires { length line.now ≤ SMALL_FILE }
    ensures { IfOk result (IsLong line.now said.now) }
{
    match said {
        Saying::Label(label) => is_long_for(alloc, line, label),
        Saying::Nothing => Ok(false),
        Saying::Faulty => Ok(false),
    }
}

fn is_long_for(alloc: Global, line: &[u8], label: &Text) -> Result<bool, NoMemory>
    requires { length line.now ≤ SMALL_FILE }
    ensures { IfOk result (IsLong line.now (Saying.Label label.now)) }
{
    let label = label.copy(alloc)?;
    match values(alloc, line, &[label]) {
        Err(ValuesNo::Long(_)) => Ok(true),
        Err(ValuesNo::NoMemory) => Err(NoMemory),
        Err(ValuesNo::Line(_)) => Ok(false),
        Err(ValuesNo::Extra(_)) => Ok(false),
        Err(ValuesNo::Twice(_)) => Ok(false),
        Err(ValuesNo::Missing(_)) => Ok(false),
        Ok(_) => Ok(false),
    }
}
