//! The labels of a plan.
ghost use Rattle.std.specs.Prelude.{◌≡◌, ◌++◌, ◌∷◌, [], map, false, IfOk, OnOk};
ghost use Rattle.anb_term.specs.View.{tree_of};
ghost use Rattle.anb_plays.specs.Plans.{known};
ghost use Rattle.anb_accept.specs.Taking.{later, labels};
ghost use Rattle.anb_accept.specs.Equations.{later_heard, heard_labels};
ghost use Rattle.anb_accept.specs.Events.{event_value};

use anb_base::NoMemory;
use anb_protocol::Event;
use anb_term::Term;
use std::alloc::Global;

/// The terms of labels, and which of them are heard.
#[derive(Drop)]
pub(crate) struct Frame {
    pub(crate) terms: Vec<Term>,
    pub(crate) heard: Vec<bool>,
}

/// The labels of events: what is known, and then what is made and what is heard.
pub(crate) fn frame_of(alloc: Global, events: &[Event]) -> Result<Frame, NoMemory>
    ensures terms { IfOk result (λ frame.
        map tree_of frame.terms.items ≡ labels (map event_value events.now)) }
    ensures heard { IfOk result (λ frame.
        frame.heard.items ≡ heard_labels (map event_value events.now)) }
{
    let mut terms = Vec::new(alloc);
    let mut heard = Vec::new(alloc);
    put_known(alloc, &mut terms, &mut heard, events)?;
    put_later(alloc, &mut terms, &mut heard, events)?;
    Ok(Frame { terms, heard })
}

/// Appends the labels of what is known.
fn put_known(
    alloc: Global,
    terms: &mut Vec<Term>,
    heard: &mut Vec<bool>,
    events: &[Event],
) -> Result<(), NoMemory>
    ensures terms { OnOk result (map tree_of terms.new.items
        ≡ map tree_of terms.old.items ++ known (map event_value events.now)) }
    ensures heard { OnOk result (heard.new.items
        ≡ heard.old.items ++ map (λ t. false) (known (map event_value events.now))) }
{
    for event in events {
        put_if_known(alloc, terms, heard, event)?;
    }
    Ok(())
}

/// Appends the label of an event where it is one of what is known.
fn put_if_known(
    alloc: Global,
    terms: &mut Vec<Term>,
    heard: &mut Vec<bool>,
    event: &Event,
) -> Result<(), NoMemory>
    ensures terms { OnOk result (map tree_of terms.new.items
        ≡ map tree_of terms.old.items ++ known (event_value event.now ∷ [])) }
    ensures heard { OnOk result (heard.new.items
        ≡ heard.old.items ++ map (λ t. false) (known (event_value event.now ∷ []))) }
{
    match event {
        Event::Know(term) => put_label(alloc, terms, heard, term, false),
        Event::Fresh(_) => Ok(()),
        Event::Send { .. } => Ok(()),
        Event::Recv { .. } => Ok(()),
    }
}

/// Appends the labels of what is made and of what is heard.
fn put_later(
    alloc: Global,
    terms: &mut Vec<Term>,
    heard: &mut Vec<bool>,
    events: &[Event],
) -> Result<(), NoMemory>
    ensures terms { OnOk result (map tree_of terms.new.items
        ≡ map tree_of terms.old.items ++ later (map event_value events.now)) }
    ensures heard { OnOk result (heard.new.items
        ≡ heard.old.items ++ later_heard (map event_value events.now)) }
{
    for event in events {
        put_if_later(alloc, terms, heard, event)?;
    }
    Ok(())
}

/// Appends the label of an event where it is one of what is made or heard.
fn put_if_later(
    alloc: Global,
    terms: &mut Vec<Term>,
    heard: &mut Vec<bool>,
    event: &Event,
) -> Result<(), NoMemory>
    ensures terms { OnOk result (map tree_of terms.new.items
        ≡ map tree_of terms.old.items ++ later (event_value event.now ∷ [])) }
    ensures heard { OnOk result (heard.new.items
        ≡ heard.old.items ++ later_heard (event_value event.now ∷ [])) }
{
    match event {
        Event::Know(_) => Ok(()),
        Event::Fresh(term) => put_label(alloc, terms, heard, term, false),
        Event::Send { .. } => Ok(()),
        Event::Recv { term, .. } => put_label(alloc, terms, heard, term, true),
    }
}

/// Appends a label.
fn put_label(
    alloc: Global,
    terms: &mut Vec<Term>,
    heard: &mut Vec<bool>,
    term: &Term,
    is_heard: bool,
) -> Result<(), NoMemory>
    ensures terms { OnOk result (map tree_of terms.new.items
        ≡ map tree_of terms.old.items ++ tree_of term.now ∷ []) }
    ensures heard { OnOk result (heard.new.items ≡ heard.old.items ++ is_heard ∷ []) }
{
    let copy = term.copy(alloc)?;
    terms.push(copy)?;
    heard.push(is_heard)?;
    Ok(())
}
