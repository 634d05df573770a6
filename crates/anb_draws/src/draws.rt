//! Names with their values.
ghost use Rattle.std.specs.Prelude.{◌≡◌, ◌<◌, ◌∷◌, [], ℕ, length, IfSome, IfNone, IfOk, OnOk, Some, None};
ghost use Rattle.anb_draws.specs.Draws.{value_in};
ghost use Rattle.anb_draws.specs.Telling.{first_of, value_among};

use anb_base::{Bytes, NoMemory};
use std::alloc::Global;
use std::marker::Model;

/// The values of names in one conversation, each at the number of its name, where it is told: what the
/// role drew for it, where the role makes it. Contracts see it as a list. It ends with the last value.
#[derive(Debug, Drop)]
pub struct Draws {
    values: Vec<Option<Bytes>>,
}

impl Model for Draws {
    ghost use Rattle.anb_draws.specs.Draws.{Values};

    ghost Value = { Values };

    ghost view = { λ d. d.values.items };
}

impl Draws {
    ghost use Rattle.std.specs.Prelude.{◌≡◌};

    pub fn values(&self) -> &[Option<Bytes>]
        ensures { result.now ≡ self.now }
    {
        self.values.as_slice()
    }
}

/// The value of a name, where it is told.
pub fn value_in(values: &[Option<Bytes>], name: u32) -> Option<&[u8]>
    ensures some { IfSome result (λ value. value_in values.now name ≡ Some value.now) }
    ensures none { IfNone result (value_in values.now name ≡ None) }
{
    match values.get(name as usize) {
        Some(Some(value)) => Some(value.as_slice()),
        Some(None) | None => None,
    }
}

/// A name, by its number, and its value.
#[derive(Drop)]
pub(crate) struct Drawn {
    pub(crate) name: u32,
    pub(crate) value: Bytes,
}

/// The value of a name among these: the first one.
pub(crate) fn value_among(draws: &[Drawn], name: u32) -> Option<&[u8]>
    ensures some { IfSome result (λ value. value_among draws.now name ≡ Some value.now) }
    ensures none { IfNone result (value_among draws.now name ≡ None) }
{
    for drawn in draws {
        if drawn.name == name {
            return Some(drawn.value.as_slice());
        }
    }
    None
}

/// These values, each at the number of its name.
pub(crate) fn by_name(alloc: Global, found: Vec<Drawn>) -> Result<Draws, NoMemory>
    ensures { IfOk result (λ draws. (name : ℕ)
        → value_in draws name ≡ value_among found.items name) }
{
    let mut values = Vec::new(alloc);
    for drawn in found {
        put(&mut values, drawn)?;
    }
    Ok(Draws { values })
}

/// Puts a value at the number of its name, where none stands there.
fn put(values: &mut Vec<Option<Bytes>>, drawn: Drawn) -> Result<(), NoMemory>
    ensures { OnOk result ((name : ℕ) → value_in values.new.items name
        ≡ first_of (value_in values.old.items name) (value_among (drawn ∷ []) name)) }
{
    let Drawn { name, value } = drawn;
    let at = name as usize;
    make_room(values, at)?;
    match values[at] {
        Some(_) => {}
        None => values[at] = Some(value),
    }
    Ok(())
}

/// Makes room for a value at this place.
fn make_room(values: &mut Vec<Option<Bytes>>, at: usize) -> Result<(), NoMemory>
    ensures there { OnOk result (at < length values.new.items) }
    ensures same { OnOk result ((name : ℕ)
        → value_in values.new.items name ≡ value_in values.old.items name) }
{
    while values.len() <= at {
        values.push(None)?;
    }
    Ok(())
}
