//! Where the terms of a refusal's list are from: an event, or the role builds them.
ghost use Rattle.std.specs.Prelude.{◌≡◌, ◌<◌, length, map, IfOk};
ghost use Rattle.std.specs.List.{AllByRecursion, AllZip};
ghost use Rattle.anb_term.specs.View.{tree_of};
ghost use Rattle.anb_protocol.specs.Laws.{HoldsOf};
ghost use Rattle.anb_protocol.specs.Plans.{plan_of};
ghost use Rattle.anb_protocol.specs.Texts.{IsTermOf};
ghost use Rattle.anb_protocol.specs.Views.{plan_event};
ghost use Rattle.anb_compile.specs.Unsent.{labels_of};
ghost use Rattle.anb_lack.specs.Before.{IsBefore, is_send, or_built, unless_built};
ghost use Rattle.anb_lack.specs.Origins.{HasBy, IsListedFrom, is_out};

use crate::opening::{flags_at, opened};
use crate::origins::{Origin, origins};
use anb_base::NoMemory;
use anb_intern::Pool;
use anb_protocol::{Event, Protocol};
use anb_reason::{composing, marks, put_all};
use anb_term::Term;
use std::alloc::Global;

/// Where each of these terms is from, which a role has after these events of its plan.
pub(crate) fn listed_origins(
    alloc: Global,
    p: &Protocol,
    role: u32,
    terms: &[Term],
    before: &[Event],
) -> Result<Vec<Origin>, NoMemory>
    requires role { role < length p.now.roles }
    requires holds { HoldsOf p.now }
    requires terms { AllByRecursion (IsTermOf p.now) (map tree_of terms.now) }
    requires had { AllByRecursion (HasBy p.now (plan_of p.now role) (length (plan_of p.now role)))
        (map tree_of terms.now) }
    ensures { IfOk result (λ origins. AllZip (IsListedFrom p.now (map tree_of terms.now)
        (plan_of p.now role) (map plan_event before.now)) (map tree_of terms.now) origins.items) }
{
    let came = origins(alloc, p, role, terms)?;
    let out = come_out(alloc, terms, before)?;
    let listed = unless_built(alloc, &came, &out)?;
    Ok(listed)
}

/// For each of these terms, whether it comes out of what these events bring, by what composes from them.
fn come_out(alloc: Global, terms: &[Term], events: &[Event]) -> Result<Vec<bool>, NoMemory>
    ensures { IfOk result (λ flags. flags.items
        ≡ map (is_out (map tree_of terms.now) (map plan_event events.now))
        (map tree_of terms.now)) }
{
    let labels = label_terms(alloc, events)?;
    let mut pool = Pool::new(alloc);
    let had = put_all(alloc, &mut pool, terms)?;
    let brought = put_all(alloc, &mut pool, &labels)?;
    let listed = marks(alloc, &pool, &had)?;
    let composing = composing(alloc, &pool, &listed)?;
    let out = opened(alloc, &pool, &composing, &brought)?;
    let marks = marks(alloc, &pool, &out)?;
    let flags = flags_at(alloc, &pool, &marks, &had)?;
    Ok(flags)
}

/// The terms that events bring.
fn label_terms(alloc: Global, events: &[Event]) -> Result<Vec<Term>, NoMemory>
    ensures { IfOk result (λ terms.
        map tree_of terms.items ≡ labels_of (map plan_event events.now)) }
{
    let mut terms = Vec::new(alloc);
    for event in events {
        match event {
            Event::Send { .. } => {}
            _ => terms.push(event.term().copy(alloc)?)?,
        }
    }
    Ok(terms)
}

/// These origins where the flag is set, and else that the role builds the term.
fn unless_built(alloc: Global, came: &[Origin], out: &[bool]) -> Result<Vec<Origin>, NoMemory>
    requires { length came.now ≡ length out.now }
    ensures { IfOk result (λ origins. origins.items ≡ unless_built out.now came.now) }
{
    let mut origins = Vec::new(alloc);
    for i in 0..came.len() {
        let origin = or_built(out[i], came[i]);
        origins.push(origin)?;
    }
    Ok(origins)
}

/// An origin where the flag is set, and else that the role builds the term.
fn or_built(out: bool, origin: Origin) -> Origin
    ensures { result ≡ or_built out origin }
{
    if out { origin } else { Origin::Built }
}

/// The events before the send of an action.
pub(crate) fn before_send(events: &[Event], action: u32) -> &[Event]
    ensures { IsBefore action (map plan_event events.now) (map plan_event result.now) }
{
    for i in 0..events.len() {
        if sends(&events[i], action) {
            return &events[..i];
        }
    }
    events
}

/// Whether an event sends an action.
fn sends(event: &Event, action: u32) -> bool
    ensures { result ≡ is_send action (plan_event event.now) }
{
    match event {
        Event::Send { action: a, .. } => *a == action,
        _ => false,
    }
}
