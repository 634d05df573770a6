//! Where the terms that a role has are from.
ghost use Rattle.std.specs.Prelude.{◌≡◌, ◌↔◌, ◌<◌, ◌≤◌, ◌∷◌, [], ℕ, true, length, map, IfOk, MatchOption};
ghost use Rattle.std.specs.List.{AllByRecursion, AllZip};
ghost use Rattle.anb_term.specs.Tree.{nodes, trees_of, IsFormed};
ghost use Rattle.anb_term.specs.View.{tree_of};
ghost use Rattle.anb_close.specs.MadeView.{made_tree};
ghost use Rattle.anb_protocol.specs.Laws.{HoldsOf};
ghost use Rattle.anb_protocol.specs.Plans.{plan_of};
ghost use Rattle.anb_protocol.specs.Texts.{IsTermOf};
ghost use Rattle.anb_protocol.specs.Views.{plan_event};
ghost use Rattle.anb_compile.specs.Unsent.{label_of, labels_of};
ghost use Rattle.anb_lack.specs.Held.{AreWithin, IsHeld, IsWithin};
ghost use Rattle.anb_lack.specs.Origins.{ComesFrom, HasBy, IsFrom};

use anb_base::NoMemory;
use anb_close::{Closure, Compositions, Made};
use anb_protocol::{Event, Protocol};
use anb_term::Term;
use std::alloc::Global;

/// Where a role has a term from: it knows it from the start, makes it, builds it, or can have it once
/// it has received the message of an action, numbered from 1.
#[derive(Clone, Copy, Debug, PartialEq, Eq)]
pub enum Origin {
    Known,
    Made,
    Built,
    Received(u32),
}

/// What a role can have, and where each entry is from.
#[derive(Drop)]
pub(crate) struct Held {
    pub(crate) closure: Closure,
    pub(crate) from: Vec<Origin>,
}

/// Where a role has each of these terms from, which it can have. Its plan is closed under opening once,
/// and each term is composed once, so this costs no more than `reason` does.
pub(crate) fn origins(
    alloc: Global,
    p: &Protocol,
    role: u32,
    terms: &[Term],
) -> Result<Vec<Origin>, NoMemory>
    requires role { role < length p.now.roles }
    requires holds { HoldsOf p.now }
    requires terms { AllByRecursion (IsTermOf p.now) (map tree_of terms.now) }
    requires had { AllByRecursion (HasBy p.now (plan_of p.now role) (length (plan_of p.now role)))
        (map tree_of terms.now) }
    ensures { IfOk result (λ origins.
        AllZip (ComesFrom p.now (plan_of p.now role)) (map tree_of terms.now) origins.items) }
{
    let plan = p.plan(alloc, role)?;
    let held = hold(alloc, plan.events())?;
    let mut origins = Vec::new(alloc);
    for term in terms {
        let origin = held.origin(alloc, term)?;
        origins.push(origin)?;
    }
    Ok(origins)
}

/// What a role can have after these events.
fn hold(alloc: Global, events: &[Event]) -> Result<Held, NoMemory>
    requires formed { AllByRecursion (IsFormed (λ o. true))
        (labels_of (map plan_event events.now)) }
    requires few { nodes (labels_of (map plan_event events.now)) < 4294967295 }
    ensures { IfOk result (λ held.
        IsHeld (map plan_event events.now) (length events.now) held.closure held.from.items) }
{
    let mut held = Held::new(alloc);
    for event in events {
        held.learn(alloc, event)?;
    }
    Ok(held)
}

/// What an event brings, if anything.
fn brought(event: &Event) -> Option<(&Term, Origin)>
    ensures { MatchOption result (label_of (plan_event event.now) ≡ [])
        (λ x. (label_of (plan_event event.now) ≡ tree_of x.0.now ∷ [])
        × IsFrom (plan_event event.now) x.1) }
{
    match event {
        Event::Know(term) => Some((term, Origin::Known)),
        Event::Fresh(term) => Some((term, Origin::Made)),
        Event::Send { .. } => None,
        Event::Recv { action, term } => Some((term, Origin::Received(*action))),
    }
}

/// How many of the first entries a composition needs.
#[cycle(needed)]
fn needed(made: &Made) -> usize
    ensures { (count : ℕ) → (result ≤ count) ↔ IsWithin count (made_tree made.now) }
{
    match made {
        Made::Entry(n) => *n as usize + 1,
        Made::Build(_, operands) => needed_by_all(operands),
    }
}

/// How many all of these need.
#[cycle(needed)]
fn needed_by_all(all: &Compositions) -> usize
    ensures { (count : ℕ) → (result ≤ count) ↔ AreWithin count (trees_of all.now) }
{
    let mut most = 0;
    for made in all.as_slice() {
        let count = needed(made);
        if count > most {
            most = count;
        }
    }
    most
}

impl Held {
    ghost use Rattle.std.specs.Prelude.{◌≡◌, ◌+◌, ◌<◌, ℕ, List, Bool, true, length, Some, slice_get, IfOk, OnOk};
    ghost use Rattle.std.specs.List.{AllByRecursion};
    ghost use Rattle.anb_term.specs.declared.term.Op.{Op};
    ghost use Rattle.anb_term.specs.Agree.{HasRecipe};
    ghost use Rattle.anb_term.specs.Tree.{nodes, trees_of, AreFormed, IsFormed};
    ghost use Rattle.anb_term.specs.View.{tree_of};
    ghost use Rattle.anb_algebra.specs.ByteMeaning.{has_operator};
    ghost use Rattle.anb_close.specs.Entries as entries;
    ghost use Rattle.anb_protocol.specs.Plans.{PlanEvent};
    ghost use Rattle.anb_protocol.specs.Protocols.{ProtocolValue};
    ghost use Rattle.anb_protocol.specs.Views.{plan_event};
    ghost use Rattle.anb_compile.specs.Unsent.{label_of};
    ghost use Rattle.anb_lack.specs.Held.{IsHeld};
    ghost use Rattle.anb_lack.specs.Origins.{ComesFrom};

    fn new(alloc: Global) -> Held
        ensures { (plan : List PlanEvent) → IsHeld plan 0 result.closure result.from.items }
    {
        Held {
            closure: Closure::new(alloc),
            from: Vec::new(alloc),
        }
    }

    /// Takes what an event brings.
    fn learn(&mut self, alloc: Global, event: &Event) -> Result<(), NoMemory>
        requires formed { AllByRecursion (IsFormed (λ o. true)) (label_of (plan_event event.now)) }
        requires few { nodes (entries.labels_of self.old.closure)
            + nodes (label_of (plan_event event.now)) < 4294967295 }
        ensures { OnOk result ((plan : List PlanEvent) (i : ℕ)
            → slice_get plan i ≡ Some (plan_event event.now)
            → IsHeld plan i self.old.closure self.old.from.items
            → IsHeld plan (i + 1) self.new.closure self.new.from.items) }
    {
        match brought(event) {
            Some((term, origin)) => {
                let _ = self.closure.add(alloc, term)?;
                let count = self.closure.entries().len();
                for k in self.from.len()..count {
                    let _ = k;
                    self.from.push(origin)?;
                }
                Ok(())
            }
            None => {
                let _ = self.closure.entries();
                Ok(())
            }
        }
    }

    /// Where a term is from that the role can have.
    fn origin(&self, alloc: Global, term: &Term) -> Result<Origin, NoMemory>
        requires formed { IsFormed (λ o. true) (tree_of term.now) }
        requires had { (has : Op → Bool)
            × HasRecipe has (entries.labels_of self.now.closure) (tree_of term.now) }
        requires all { length self.now.from.items ≡ length self.now.closure }
        ensures { IfOk result (λ origin. (p : ProtocolValue) (plan : List PlanEvent) (i : ℕ)
            → IsHeld plan i self.now.closure self.now.from.items
            → AreFormed (has_operator p.formats) (trees_of (entries.labels_of self.now.closure))
            → IsFormed (has_operator p.formats) (tree_of term.now)
            → ComesFrom p plan (tree_of term.now) origin) }
    {
        match self.closure.compose(alloc, term)? {
            Some(made) => {
                let count = needed(&made);
                if count == 0 {
                    return Ok(Origin::Known);
                }
                Ok(self.from[count - 1])
            }
            None => unreachable!(),
        }
    }
}
