//! The names that can be had of what somebody heard.
ghost use Rattle.std.specs.Prelude.{◌≡◌, ◌+◌, ◌<◌, ◌++◌, ◌∷◌, [], length, map, true, false, None, IfOk, OnOk, MatchOption};
ghost use Rattle.std.specs.List.{AllByRecursion};
ghost use Rattle.anb_term.specs.Tree.{nodes, trees_of, AreFormed, IsFormed};
ghost use Rattle.anb_term.specs.View.{tree_of};
ghost use Rattle.anb_algebra.specs.ByteMeaning.{has_operator};
ghost use Rattle.anb_close.specs.Entries as entries;
ghost use Rattle.anb_compile.specs.Unsent.{label_of, labels_of};
ghost use Rattle.anb_protocol.specs.Views.{plan_event};
ghost use Rattle.anb_draws.specs.Telling.{AreOpen, IsHad, value_among};

use crate::draws::{Drawn, value_among};
use anb_base::NoMemory;
use anb_close::Closure;
use anb_protocol::{Event, Protocol};
use anb_term::Term;
use std::alloc::Global;

/// What these events bring, opened as far as it can be.
pub(crate) fn closed(alloc: Global, events: &[Event]) -> Result<Closure, NoMemory>
    requires formed { AllByRecursion (IsFormed (λ o. true))
        (labels_of (map plan_event events.now)) }
    requires few { nodes (labels_of (map plan_event events.now)) < 4294967295 }
    ensures { IfOk result (λ closure.
        entries.labels_of closure ≡ labels_of (map plan_event events.now)) }
{
    let mut closure = Closure::new(alloc);
    for event in events {
        learn(alloc, &mut closure, event)?;
    }
    Ok(closure)
}

/// Takes the term that an event brings, if any.
fn learn(alloc: Global, closure: &mut Closure, event: &Event) -> Result<(), NoMemory>
    requires formed { AllByRecursion (IsFormed (λ o. true)) (label_of (plan_event event.now)) }
    requires few { nodes (entries.labels_of closure.old)
        + nodes (label_of (plan_event event.now)) < 4294967295 }
    ensures { OnOk result (entries.labels_of closure.new
        ≡ entries.labels_of closure.old ++ label_of (plan_event event.now)) }
{
    match brought(event) {
        Some(term) => match closure.add(alloc, term) {
            Ok(_) => Ok(()),
            Err(_) => Err(NoMemory),
        },
        None => Ok(()),
    }
}

/// The term that an event brings.
fn brought(event: &Event) -> Option<&Term>
    ensures { MatchOption result (label_of (plan_event event.now) ≡ [])
        (λ t. label_of (plan_event event.now) ≡ tree_of t.now ∷ []) }
{
    match event {
        Event::Know(term) => Some(term),
        Event::Fresh(term) => Some(term),
        Event::Send { .. } => None,
        Event::Recv { term, .. } => Some(term),
    }
}

/// The names that can be had of what was closed, but those that are known.
pub(crate) fn open_in(
    alloc: Global,
    p: &Protocol,
    closure: &Closure,
    known: &[Drawn],
) -> Result<Vec<u32>, NoMemory>
    requires { AreFormed (has_operator p.now.formats) (trees_of (entries.labels_of closure.now)) }
    ensures { IfOk result (λ names. AreOpen p.now (entries.labels_of closure.now) known.now
        (length p.now.atoms) names.items) }
{
    let Ok(count) = u32::try_from(p.declared().len()) else {
        return Err(NoMemory);
    };
    let mut names = Vec::new(alloc);
    for name in 0..count {
        if is_open(alloc, p, closure, known, name)? {
            names.push(name)?;
        }
    }
    Ok(names)
}

/// Whether a name can be had and isn't known.
fn is_open(
    alloc: Global,
    p: &Protocol,
    closure: &Closure,
    known: &[Drawn],
    name: u32,
) -> Result<bool, NoMemory>
    requires { AreFormed (has_operator p.now.formats) (trees_of (entries.labels_of closure.now)) }
    ensures had { IfOk result (λ is. is ≡ true
        → IsHad p.now (entries.labels_of closure.now) name) }
    ensures hidden { IfOk result (λ is. is ≡ false → value_among known.now name ≡ None
        → IsHad p.now (entries.labels_of closure.now) name → ⊥) }
{
    let _ = p;
    if value_among(known, name).is_some() {
        return Ok(false);
    }
    match closure.compose(alloc, &Term::Atom(name)) {
        Ok(Some(_)) => Ok(true),
        Ok(None) => Ok(false),
        Err(_) => Err(NoMemory),
    }
}
