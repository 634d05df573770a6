//! The file with the values of a recording.
ghost use Rattle.std.specs.Prelude.{◌≡◌, IfOk};
ghost use Rattle.anb_recorded.specs.Names.{values_in};

use anb_base::{NoMemory, Text};
use std::alloc::Global;

/// The name of the values in this folder.
pub fn values_name(alloc: Global, folder: &Text) -> Result<Text, NoMemory>
    ensures { IfOk result (λ name. name ≡ values_in folder.now) }
{
    let mut name = String::from_str(alloc, folder.as_str())?;
    name.push_str("/values")?;
    Ok(Text::new(name))
}
