//! The files of a recording.
ghost use Rattle.std.specs.Prelude.{◌≡◌, IfOk};
ghost use Rattle.anb_recorded.specs.Names.{values_in};
ghost use Rattle.anb_record_commands.specs.Names.{transcript_in};

use anb_base::{NoMemory, Text};
use anb_recorded::values_name;
use std::alloc::Global;

/// The names of a recording's files.
#[derive(Drop)]
pub(crate) struct Names {
    pub(crate) values: Text,
    pub(crate) transcript: Text,
}

/// The names in this folder.
pub(crate) fn names_in(alloc: Global, folder: &Text) -> Result<Names, NoMemory>
    ensures values { IfOk result (λ names. names.values ≡ values_in folder.now) }
    ensures transcript { IfOk result (λ names. names.transcript ≡ transcript_in folder.now) }
{
    let values = values_name(alloc, folder)?;
    let transcript = transcript_name(alloc, folder)?;
    Ok(Names { values, transcript })
}

/// The name of the transcript in this folder.
fn transcript_name(alloc: Global, folder: &Text) -> Result<Text, NoMemory>
    ensures { IfOk result (λ name. name ≡ transcript_in folder.now) }
{
    let mut name = String::from_str(alloc, folder.as_str())?;
    name.push_str("/transcript")?;
    Ok(Text::new(name))
}
