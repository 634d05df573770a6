//! Why a narration is refused: the first action that can't be sent, and what its sender can have.
ghost use Rattle.std.specs.Prelude.{◌≡◌, ◌↔◌, ◌+◌, ◌<◌, ◌++◌, ◌∷◌, [], List, length, map, take, true, slice_get, Some, IsTrue, IfOk, OnOk, IfSome, MatchOption};
ghost use Rattle.std.specs.List.{AllByRecursion};
ghost use Rattle.anb_term.specs.Tree.{trees_of, nodes, IsFormed, AreFormed};
ghost use Rattle.anb_term.specs.View.{tree_of};
ghost use Rattle.anb_algebra.specs.ByteMeaning.{has_operator};
ghost use Rattle.anb_close.specs.Entries as entries;
ghost use Rattle.anb_protocol.specs.Laws.{HoldsOf};
ghost use Rattle.anb_protocol.specs.declared.plans.Event as code;
ghost use Rattle.anb_protocol.specs.Plans.{plan_of, term_in};
ghost use Rattle.anb_protocol.specs.Plays.{IsSendable};
ghost use Rattle.anb_protocol.specs.Texts.{IsTermOf};
ghost use Rattle.anb_protocol.specs.Views.{plan_event};
ghost use Rattle.anb_protocol.specs.WellFormed.{IsProtocol};
ghost use Rattle.anb_compile.specs.Unsent.{label_of, labels_of, IsFirstUnsentOfAll};
ghost use Rattle.anb_reason.specs.Found.{Finds};
ghost use Rattle.anb_reason.specs.Reach.{OccursInOne, IsReason, IsReach};
ghost use Rattle.anb_reason.specs.Stuck.{IsStuck};

use crate::found::{Found, find_subterms, has_recipe};
use anb_base::NoMemory;
use anb_close::Closure;
use anb_compile::{CompileNo, compile_all};
use anb_protocol::{Event, Protocol, protocols_hold, terms_of_plans};
use anb_term::{Term, Terms};
use std::alloc::Global;

/// Why a narration is refused. The terms are a list that is shut for what the sender knows, made and
/// received before, and for the message. So no recipe gives the message, and a reader can check it.
#[derive(Drop)]
pub struct Refusal {
    /// The first action that can't be sent, numbered from 1.
    pub action: u32,
    /// Its sender, by its number.
    pub role: u32,
    /// Its message.
    pub term: Term,
    /// All that the sender can have of what occurs in the terms that it has, each once, in the byte
    /// order of their canonical texts.
    pub terms: Terms,
}

/// Why a narration is refused, or None where each role can send what it has to. It compiles all roles;
/// where one can't send, [`refusal_of`] follows.
pub fn reason(alloc: Global, p: &Protocol) -> Result<Option<Refusal>, NoMemory>
    ensures reason { IfOk result (λ r. MatchOption r (IsSendable p.now) (IsReason p.now)) }
    ensures terms { IfOk result (λ r. IfSome r (λ refusal.
        IsTermOf p.now (tree_of refusal.term) × AllByRecursion (IsTermOf p.now) refusal.terms)) }
{
    match compile_all(alloc, p) {
        Ok(_) => Ok(None),
        Err(CompileNo::NoMemory) => Err(NoMemory),
        Err(CompileNo::CannotSend { action, role }) => {
            let refusal = refusal_of(alloc, p, role, action)?;
            Ok(Some(refusal))
        }
    }
}

/// Why a narration is refused whose first action that can't be sent is known, with its sender, as
/// [`compile_all`] tells them. It composes each subterm of what the sender has.
pub fn refusal_of(alloc: Global, p: &Protocol, role: u32, action: u32) -> Result<Refusal, NoMemory>
    requires { IsFirstUnsentOfAll p.now role action }
    ensures reason { IfOk result (IsReason p.now) }
    ensures terms { IfOk result (λ refusal.
        IsTermOf p.now (tree_of refusal.term) × AllByRecursion (IsTermOf p.now) refusal.terms) }
{
    protocols_hold();
    terms_of_plans();
    let _ = p.name();
    refusal_in_plan(alloc, p, role, action)
}

/// The refusal in a role's plan, which has an action that can't be sent.
fn refusal_in_plan(alloc: Global, p: &Protocol, role: u32, action: u32) -> Result<Refusal, NoMemory>
    requires protocol { IsProtocol p.now }
    requires holds { HoldsOf p.now }
    requires terms { AllByRecursion (λ e. IsTermOf p.now (term_in e)) (plan_of p.now role) }
    requires unsent { IsFirstUnsentOfAll p.now role action }
    ensures reason { IfOk result (IsReason p.now) }
    ensures terms { IfOk result (λ refusal.
        IsTermOf p.now (tree_of refusal.term) × AllByRecursion (IsTermOf p.now) refusal.terms) }
{
    let plan = p.plan(alloc, role)?;
    let events = plan.events();
    let mut closure = Closure::new(alloc);
    for i in 0..events.len() {
        if is_unsent(alloc, p, &closure, &events[i], action)? {
            return refused(alloc, p, role, action, &closure, events, i);
        }
        learn(alloc, &mut closure, &events[i])?;
    }
    unreachable!()
}

/// Whether an event sends an action's message, and no recipe over the closure's labels has it.
fn is_unsent(
    alloc: Global,
    p: &Protocol,
    closure: &Closure,
    event: &Event,
    action: u32,
) -> Result<bool, NoMemory>
    requires labels { AreFormed (has_operator p.now.formats)
        (trees_of (entries.labels_of closure.now)) }
    requires term { IsTermOf p.now (term_in (plan_event event.now)) }
    ensures { IfOk result (λ unsent. IsTrue unsent
        ↔ IsStuck p.now (entries.labels_of closure.now) action (plan_event event.now)) }
{
    match event {
        Event::Send { action: a, term } => {
            if *a != action {
                return Ok(false);
            }
            let has = has_recipe(alloc, p, closure, term)?;
            Ok(!has)
        }
        Event::Know(_) => Ok(false),
        Event::Fresh(_) => Ok(false),
        Event::Recv { .. } => Ok(false),
    }
}

/// The refusal at the event at place i, behind which the closure stands.
fn refused(
    alloc: Global,
    p: &Protocol,
    role: u32,
    action: u32,
    closure: &Closure,
    events: &[Event],
    i: usize,
) -> Result<Refusal, NoMemory>
    requires protocol { IsProtocol p.now }
    requires holds { HoldsOf p.now }
    requires terms { AllByRecursion (λ e. IsTermOf p.now (term_in e)) (plan_of p.now role) }
    requires unsent { IsFirstUnsentOfAll p.now role action }
    requires plan { map plan_event events.now ≡ plan_of p.now role }
    requires within { i < length events.now }
    requires labels { entries.labels_of closure.now
        ≡ labels_of (map plan_event (take i events.now)) }
    requires stuck { (e : code.Event) × (slice_get events.now i ≡ Some e)
        × IsStuck p.now (entries.labels_of closure.now) action (plan_event e) }
    ensures reason { IfOk result (IsReason p.now) }
    ensures terms { IfOk result (λ refusal.
        IsTermOf p.now (tree_of refusal.term) × AllByRecursion (IsTermOf p.now) refusal.terms) }
{
    let term = events[i].term().copy(alloc)?;
    let terms = reach(alloc, p, closure, &events[..i])?;
    Ok(Refusal {
        action,
        role,
        term,
        terms,
    })
}

/// Takes the term that an event brings, if any.
fn learn(alloc: Global, closure: &mut Closure, event: &Event) -> Result<(), NoMemory>
    requires formed { AllByRecursion (IsFormed (λ o. true)) (label_of (plan_event event.now)) }
    requires few { nodes (entries.labels_of closure.old)
        + nodes (label_of (plan_event event.now)) < 4294967295 }
    ensures { OnOk result (entries.labels_of closure.new
        ≡ entries.labels_of closure.old ++ label_of (plan_event event.now)) }
{
    match label(event) {
        Some(term) => match closure.add(alloc, term) {
            Ok(_) => Ok(()),
            Err(_) => Err(NoMemory),
        },
        None => Ok(()),
    }
}

/// The term that an event brings: one that the role knows, makes or receives.
fn label(event: &Event) -> Option<&Term>
    ensures { MatchOption result (label_of (plan_event event.now) ≡ [])
        (λ t. label_of (plan_event event.now) ≡ tree_of t.now ∷ []) }
{
    match event {
        Event::Know(term) => Some(term),
        Event::Fresh(term) => Some(term),
        Event::Send { .. } => None,
        Event::Recv { term, .. } => Some(term),
    }
}

/// What occurs in the terms of these events' labels, which are the closure's, and has a recipe.
fn reach(
    alloc: Global,
    p: &Protocol,
    closure: &Closure,
    events: &[Event],
) -> Result<Terms, NoMemory>
    requires protocol { IsProtocol p.now }
    requires labels { entries.labels_of closure.now ≡ labels_of (map plan_event events.now) }
    requires formed { AreFormed (has_operator p.now.formats)
        (trees_of (entries.labels_of closure.now)) }
    requires terms { AllByRecursion (λ e. IsTermOf p.now (term_in e)) (map plan_event events.now) }
    ensures { IfOk result (IsReach p.now (entries.labels_of closure.now)) }
{
    let mut found = Found::new(alloc);
    for event in events {
        find_label(alloc, p, closure, event, &mut found)?;
    }
    let terms = found.into_terms(alloc)?;
    Ok(terms)
}

/// Puts in all that occurs in the term that an event brings, and has a recipe.
fn find_label(
    alloc: Global,
    p: &Protocol,
    closure: &Closure,
    event: &Event,
    found: &mut Found,
) -> Result<(), NoMemory>
    requires formed { AreFormed (has_operator p.now.formats)
        (trees_of (entries.labels_of closure.now)) }
    requires term { IsTermOf p.now (term_in (plan_event event.now)) }
    ensures { OnOk result (IsProtocol p.now → Finds p.now (entries.labels_of closure.now)
        (λ u. OccursInOne (label_of (plan_event event.now)) u) found.old found.new) }
{
    match label(event) {
        Some(term) => {
            find_subterms(alloc, p, closure, term, found)?;
            Ok(())
        }
        None => Ok(()),
    }
}
