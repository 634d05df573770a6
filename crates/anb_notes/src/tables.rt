//! The first place of each name, looked up by the name's number.
ghost use Rattle.std.specs.Prelude.{◌≡◌, ◌<◌, ◌++◌, ◌∷◌, [], ℕ, List, Bool, length, map, filter, IfOk};
ghost use Rattle.anb_protocol.specs.Views.{action_value};
ghost use Rattle.anb_notes.specs.declared.places.Place.{Place as PlaceValue};
ghost use Rattle.anb_notes.specs.Places.{first_of, is_bare, is_for_other, is_from_other};
ghost use Rattle.anb_notes.specs.Tables.{AreFirsts};

use crate::places::Place;
use anb_base::NoMemory;
use anb_protocol::Action;
use std::alloc::Global;

/// The number of the first place of a name, or none.
pub(crate) fn first_at(table: &[Option<u32>], x: u32) -> Option<u32>
    ensures { (many : ℕ) (all : List PlaceValue) → AreFirsts many all table.now
        → x < many → result ≡ first_of x all }
{
    match table.get(x as usize) {
        Some(first) => *first,
        None => None,
    }
}

/// For each of so many names, the number of its first place.
pub(crate) fn firsts(
    alloc: Global,
    many: usize,
    all: &[Place],
) -> Result<Vec<Option<u32>>, NoMemory>
    ensures { IfOk result (λ table. AreFirsts many all.now table.items) }
{
    let mut table = blank(alloc, many)?;
    for place in all {
        put_first(&mut table, place);
    }
    Ok(table)
}

fn blank(alloc: Global, many: usize) -> Result<Vec<Option<u32>>, NoMemory>
    ensures { IfOk result (λ table. AreFirsts many [] table.items) }
{
    Ok(vec![in alloc; None; many]?)
}

/// Takes one more place.
fn put_first(table: &mut Vec<Option<u32>>, place: &Place)
    ensures { (many : ℕ) (all : List PlaceValue) → AreFirsts many all table.old.items
        → AreFirsts many (all ++ place.now ∷ []) table.new.items }
{
    let x = place.name as usize;
    if x >= table.len() {
        return;
    }
    match table[x] {
        Some(_) => {}
        None => table[x] = Some(place.number),
    }
}

/// Takes one more place where a test says so.
fn put_first_if(table: &mut Vec<Option<u32>>, so: bool, place: &Place)
    ensures { (many : ℕ) (all : List PlaceValue) (keep : PlaceValue → Bool)
        → AreFirsts many all table.old.items → (place.now.name < many → so ≡ keep place.now)
        → AreFirsts many (all ++ filter keep (place.now ∷ [])) table.new.items }
{
    if so {
        put_first(table, place);
    }
}

/// The first of these places of each name that come no earlier than its first in another table.
pub(crate) fn bare_firsts(
    alloc: Global,
    many: usize,
    clear: &[Option<u32>],
    keys: &[Place],
) -> Result<Vec<Option<u32>>, NoMemory>
    ensures { (all : List PlaceValue) → AreFirsts many all clear.now
        → IfOk result (λ table. AreFirsts many (filter (is_bare all) keys.now) table.items) }
{
    let mut table = blank(alloc, many)?;
    for place in keys {
        put_first_if(&mut table, is_bare(clear, place), place);
    }
    Ok(table)
}

fn is_bare(clear: &[Option<u32>], place: &Place) -> bool
    ensures { (many : ℕ) (all : List PlaceValue) → AreFirsts many all clear.now
        → place.now.name < many → result ≡ is_bare all place.now }
{
    match first_at(clear, place.name) {
        Some(first) => first <= place.number,
        None => false,
    }
}

/// The first of these places of each name whose action another role receives than the one in a table.
pub(crate) fn others_firsts(
    alloc: Global,
    many: usize,
    actions: &[Action],
    makers: &[Option<u32>],
    keys: &[Place],
) -> Result<Vec<Option<u32>>, NoMemory>
    ensures { (all : List PlaceValue) → AreFirsts many all makers.now
        → IfOk result (λ table. AreFirsts many
        (filter (is_from_other (map action_value actions.now) all) keys.now) table.items) }
{
    let mut table = blank(alloc, many)?;
    for place in keys {
        put_first_if(&mut table, is_from_other(actions, makers, place), place);
    }
    Ok(table)
}

fn is_from_other(actions: &[Action], makers: &[Option<u32>], place: &Place) -> bool
    ensures { (many : ℕ) (all : List PlaceValue) → AreFirsts many all makers.now
        → place.now.name < many
        → result ≡ is_from_other (map action_value actions.now) all place.now }
{
    match first_at(makers, place.name) {
        Some(role) => is_for_other(actions, place.number, role),
        None => false,
    }
}

/// Whether another role than this one receives an action.
fn is_for_other(actions: &[Action], action: u32, role: u32) -> bool
    ensures { result ≡ is_for_other (map action_value actions.now) action role }
{
    match actions.get(action as usize) {
        Some(action) => action.to != role,
        None => false,
    }
}
