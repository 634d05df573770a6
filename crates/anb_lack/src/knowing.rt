//! Which roles know a key, and which make it.
ghost use Rattle.std.specs.Prelude.{◌≡◌, ◌<◌, ℕ, List, Bool, Some, length, map, slice_get, IfOk};
ghost use Rattle.std.specs.List.{flat_map};
ghost use Rattle.anb_term.specs.Tree.{Tree};
ghost use Rattle.anb_term.specs.View.{tree_of};
ghost use Rattle.anb_protocol.specs.Views.{plan_event};
ghost use Rattle.anb_reason.specs.Decided.{is_among};
ghost use Rattle.anb_lack.specs.Roots.{is_had, known_at, knows, made_at, makes};
ghost use Rattle.anb_lack.specs.Rows.{AreRows};

use crate::opening::{flags_at, opened};
use anb_base::NoMemory;
use anb_intern::Pool;
use anb_protocol::{Event, Protocol, protocols_hold};
use anb_reason::{composing, marks, put_all};
use anb_term::Term;
use std::alloc::Global;

/// For each role, which of these keys it knows.
pub(crate) fn knowing(
    alloc: Global,
    protocol: &Protocol,
    keys: &[Term],
) -> Result<Vec<Vec<bool>>, NoMemory>
    ensures { IfOk result (λ rows. AreRows (length protocol.now.roles)
        (map tree_of keys.now) (knows protocol.now) rows.items) }
{
    protocols_hold();
    let _ = protocol.name();
    let mut rows = Vec::new(alloc);
    for role in 0..protocol.roles().len() {
        let plan = protocol.plan(alloc, role as u32)?;
        let known = known_terms(alloc, plan.events())?;
        let row = had(alloc, &known, keys)?;
        rows.push(row)?;
    }
    Ok(rows)
}

/// For each role, which of these it makes.
pub(crate) fn making(
    alloc: Global,
    protocol: &Protocol,
    keys: &[Term],
) -> Result<Vec<Vec<bool>>, NoMemory>
    ensures { IfOk result (λ rows. AreRows (length protocol.now.roles)
        (map tree_of keys.now) (makes protocol.now) rows.items) }
{
    protocols_hold();
    let _ = protocol.name();
    let mut rows = Vec::new(alloc);
    for role in 0..protocol.roles().len() {
        let plan = protocol.plan(alloc, role as u32)?;
        let made = made_terms(alloc, plan.events())?;
        let row = among(alloc, &made, keys)?;
        rows.push(row)?;
    }
    Ok(rows)
}

/// What is known from the start.
fn known_terms(alloc: Global, events: &[Event]) -> Result<Vec<Term>, NoMemory>
    ensures { IfOk result (λ terms.
        map tree_of terms.items ≡ flat_map known_at (map plan_event events.now)) }
{
    let mut terms = Vec::new(alloc);
    for event in events {
        match event {
            Event::Know(term) => terms.push(term.copy(alloc)?)?,
            _ => {}
        }
    }
    Ok(terms)
}

/// What is made.
fn made_terms(alloc: Global, events: &[Event]) -> Result<Vec<Term>, NoMemory>
    ensures { IfOk result (λ terms.
        map tree_of terms.items ≡ flat_map made_at (map plan_event events.now)) }
{
    let mut terms = Vec::new(alloc);
    for event in events {
        match event {
            Event::Fresh(term) => terms.push(term.copy(alloc)?)?,
            _ => {}
        }
    }
    Ok(terms)
}

/// For each of these keys, whether it composes from these terms and what comes out of them.
fn had(alloc: Global, terms: &[Term], keys: &[Term]) -> Result<Vec<bool>, NoMemory>
    ensures { IfOk result (λ flags.
        flags.items ≡ map (is_had (map tree_of terms.now)) (map tree_of keys.now)) }
{
    let mut pool = Pool::new(alloc);
    let known = put_all(alloc, &mut pool, terms)?;
    let asked = put_all(alloc, &mut pool, keys)?;
    let listed = marks(alloc, &pool, &known)?;
    let composing_at_first = composing(alloc, &pool, &listed)?;
    let out = opened(alloc, &pool, &composing_at_first, &known)?;
    let had = marks(alloc, &pool, &out)?;
    let composing_then = composing(alloc, &pool, &had)?;
    let flags = flags_at(alloc, &pool, &composing_then, &asked)?;
    Ok(flags)
}

/// For each of these keys, whether it is one of the terms.
fn among(alloc: Global, terms: &[Term], keys: &[Term]) -> Result<Vec<bool>, NoMemory>
    ensures { IfOk result (λ flags.
        flags.items ≡ map (is_among (map tree_of terms.now)) (map tree_of keys.now)) }
{
    let mut pool = Pool::new(alloc);
    let listed = put_all(alloc, &mut pool, terms)?;
    let asked = put_all(alloc, &mut pool, keys)?;
    let marks = marks(alloc, &pool, &listed)?;
    let flags = flags_at(alloc, &pool, &marks, &asked)?;
    Ok(flags)
}
