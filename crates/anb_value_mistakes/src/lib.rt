//! What is said of a values file that doesn't give the values that are asked for: where in it, why, and
//! what would mend it.
#![tactic(auto)]

ghost use Rattle.std.specs.Prelude.{◌≤◌, IfOk, length};
ghost use Rattle.anb_base.specs.declared.TheConstants.{SMALL_FILE};
ghost use Rattle.anb_value_mistakes.specs.Mistakes.{IsMistakesText};

mod classes;
mod faults;
mod labels;
mod laws;
mod names;
mod quoted;
mod reading;
mod telling;
mod wording;
mod wrong;

use anb_base::{Bytes, NoMemory, Text};
pub use laws::{mistakes_are_faults, mistakes_texts_are_one};
use reading::read_lines;
use std::alloc::Global;
use telling::mistakes;

/// What is said of this text, which is in a file of this name, where these names are asked for: nothing
/// where it gives their values. It takes the time of about two reads of the text.
pub fn mistakes_text(
    alloc: Global,
    name: &Text,
    text: &[u8],
    names: &[Text],
) -> Result<Bytes, NoMemory>
    requires { length text.now ≤ SMALL_FILE }
    ensures { IfOk result (IsMistakesText name.now text.now names.now) }
{
    let reads = read_lines(alloc, text)?;
    Ok(Bytes::new(mistakes(alloc, name, names, &reads)?))
}
