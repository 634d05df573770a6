//! The spare name in place of a term.
ghost use Rattle.std.specs.Prelude.{◌≡◌, ◌∷◌, ◌++◌, [], map, IfOk, OnOk};
ghost use Rattle.anb_term.specs.View.{tree_of};
ghost use Rattle.anb_plays.specs.Honest.{heard};
ghost use Rattle.anb_openings.specs.Openings.{spared};
ghost use Rattle.anb_openings.specs.Walks.{events_in};

use anb_base::NoMemory;
use anb_protocol::Event;
use anb_term::{Term, Terms};
use std::alloc::Global;

/// What is heard along events, with the spare name in place of a term.
pub(crate) fn spared_arrivals(
    alloc: Global,
    spare: u32,
    opened: &Term,
    events: &[Event],
) -> Result<Vec<Term>, NoMemory>
    ensures { IfOk result (λ terms. map tree_of terms.items
        ≡ map (spared spare (tree_of opened.now)) (heard (events_in events.now))) }
{
    let mut arrivals = Vec::new(alloc);
    for event in events {
        put_heard(alloc, spare, opened, &mut arrivals, event)?;
    }
    Ok(arrivals)
}

/// Appends what is heard by an event, if it is an arrival, with the spare name in place of a term.
fn put_heard(
    alloc: Global,
    spare: u32,
    opened: &Term,
    arrivals: &mut Vec<Term>,
    event: &Event,
) -> Result<(), NoMemory>
    ensures { OnOk result (map tree_of arrivals.new.items ≡ map tree_of arrivals.old.items
        ++ map (spared spare (tree_of opened.now)) (heard (events_in (event.now ∷ [])))) }
{
    match event {
        Event::Recv {
            action: _action,
            term,
        } => {
            let arrival = spared(alloc, spare, opened, term)?;
            arrivals.push(arrival)?;
            Ok(())
        }
        Event::Know(_) => Ok(()),
        Event::Fresh(_) => Ok(()),
        Event::Send { .. } => Ok(()),
    }
}

/// A term with the spare name in place of another one, wherever that stands in it.
#[cycle(spared)]
fn spared(alloc: Global, spare: u32, opened: &Term, term: &Term) -> Result<Term, NoMemory>
    ensures { IfOk result (λ t. tree_of t ≡ spared spare (tree_of opened.now) (tree_of term.now)) }
{
    if term.same(opened) {
        return Ok(Term::Atom(spare));
    }
    match term {
        Term::Atom(n) => Ok(Term::Atom(*n)),
        Term::Node(op, operands) => {
            let operands = all_spared(alloc, spare, opened, operands.as_slice())?;
            Ok(Term::Node(*op, Terms::new(operands)))
        }
    }
}

/// The same of each of these.
#[cycle(spared)]
fn all_spared(
    alloc: Global,
    spare: u32,
    opened: &Term,
    terms: &[Term],
) -> Result<Vec<Term>, NoMemory>
    ensures { IfOk result (λ ts. map tree_of ts.items
        ≡ map (spared spare (tree_of opened.now)) (map tree_of terms.now)) }
{
    let mut out = Vec::new(alloc);
    for term in terms {
        let term = spared(alloc, spare, opened, term)?;
        out.push(term)?;
    }
    Ok(out)
}
