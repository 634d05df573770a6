//! A run of instructions over terms.
ghost use Rattle.std.specs.Prelude.{◌≡◌, ◌∷◌, ◌++◌, [], List, length, map, IfOk, OnOk};
ghost use Rattle.std.specs.List.{AllByRecursion};
ghost use Rattle.anb_term.specs.declared.term.Term.{Term};
ghost use Rattle.anb_term.specs.View.{tree_of};
ghost use Rattle.anb_plays.specs.Codes.{draws, receives, sends};
ghost use Rattle.anb_plays.specs.Honest.{made};
ghost use Rattle.anb_plays.specs.Plans.{known};
ghost use Rattle.anb_code.specs.Meaning.{act_of};
ghost use Rattle.anb_machine.specs.Works.{HasFewFields};
ghost use Rattle.anb_openings.specs.Walks.{events_in, AreReady, EndsAt, HasGone};

use anb_base::NoMemory;
use anb_code::Instr;
use anb_format::Format;
use anb_machine::do_work;
use anb_protocol::Event;
use anb_term::{Term, TermAlgebra};
use std::alloc::Global;

/// How far a run over terms is.
#[derive(Drop)]
pub(crate) struct Walk {
    /// The registers that are written.
    pub(crate) table: Vec<Term>,
    /// The messages that were sent.
    pub(crate) sent: Vec<Term>,
    /// How many sends and receives there were.
    pub(crate) event: u32,
    /// How many names were drawn.
    pub(crate) drawn: usize,
    /// How many arrivals were used.
    pub(crate) heard: usize,
}

/// The names that are made along events, in order.
pub(crate) fn made_in(alloc: Global, events: &[Event]) -> Result<Vec<Term>, NoMemory>
    ensures { IfOk result (λ terms. map tree_of terms.items ≡ made (events_in events.now)) }
{
    let mut terms = Vec::new(alloc);
    for event in events {
        put_made(alloc, &mut terms, event)?;
    }
    Ok(terms)
}

/// Appends the name that an event makes, if it does.
fn put_made(alloc: Global, terms: &mut Vec<Term>, event: &Event) -> Result<(), NoMemory>
    ensures { OnOk result (map tree_of terms.new.items
        ≡ map tree_of terms.old.items ++ made (events_in (event.now ∷ []))) }
{
    match event {
        Event::Fresh(term) => {
            let copy = term.copy(alloc)?;
            terms.push(copy)?;
            Ok(())
        }
        Event::Know(_) => Ok(()),
        Event::Send { .. } => Ok(()),
        Event::Recv { .. } => Ok(()),
    }
}

/// What is known by events, in order.
pub(crate) fn known_in(alloc: Global, events: &[Event]) -> Result<Vec<Term>, NoMemory>
    ensures { IfOk result (λ terms. map tree_of terms.items ≡ known (events_in events.now)) }
{
    let mut terms = Vec::new(alloc);
    for event in events {
        put_known(alloc, &mut terms, event)?;
    }
    Ok(terms)
}

/// Appends what is known by an event, if it is one of these.
fn put_known(alloc: Global, terms: &mut Vec<Term>, event: &Event) -> Result<(), NoMemory>
    ensures { OnOk result (map tree_of terms.new.items
        ≡ map tree_of terms.old.items ++ known (events_in (event.now ∷ []))) }
{
    match event {
        Event::Know(term) => {
            let copy = term.copy(alloc)?;
            terms.push(copy)?;
            Ok(())
        }
        Event::Fresh(_) => Ok(()),
        Event::Send { .. } => Ok(()),
        Event::Recv { .. } => Ok(()),
    }
}

/// Goes on by these instructions up to their end, or to one that doesn't: then its place.
pub(crate) fn walk_over(
    alloc: Global,
    formats: &[Format],
    made: &[Term],
    arrivals: &[Term],
    instrs: &[Instr],
    walk: &mut Walk,
) -> Result<Option<usize>, NoMemory>
    requires ready { AreReady (map (act_of formats.now) instrs.now)
        (length walk.old.table.items) }
    requires few { AllByRecursion (HasFewFields formats.now) instrs.now }
    ensures { IfOk result (EndsAt made.now arrivals.now (map (act_of formats.now) instrs.now)
        walk.old walk.new) }
{
    for (i, instr) in instrs.iter().enumerate() {
        if !step(alloc, formats, made, arrivals, instr, walk)? {
            return Ok(Some(i));
        }
    }
    Ok(None)
}

/// Goes on by one instruction, where it goes on.
fn step(
    alloc: Global,
    formats: &[Format],
    made: &[Term],
    arrivals: &[Term],
    instr: &Instr,
    walk: &mut Walk,
) -> Result<bool, NoMemory>
    requires ready { AreReady (act_of formats.now instr.now ∷ []) (length walk.old.table.items) }
    requires few { HasFewFields formats.now instr.now }
    ensures { IfOk result (HasGone made.now arrivals.now (act_of formats.now instr.now)
        walk.old walk.new) }
{
    match instr {
        Instr::Take(_) => Ok(true),
        Instr::Fresh => draw(alloc, made, walk),
        Instr::Recv => hear(alloc, arrivals, walk),
        Instr::Send(register) => say(alloc, *register, walk),
        _ => do_work(&TermAlgebra, alloc, formats, &mut walk.table, instr),
    }
}

/// Writes the next name that is made into the next register.
fn draw(alloc: Global, made: &[Term], walk: &mut Walk) -> Result<bool, NoMemory>
    ensures { (arrivals : List Term) → IfOk result (HasGone made.now arrivals draws
        walk.old walk.new) }
{
    let Some(name) = made.get(walk.drawn) else {
        return Ok(false);
    };
    walk.table.push(name.copy(alloc)?)?;
    walk.drawn += 1;
    Ok(true)
}

/// Writes the next arrival into the next register.
fn hear(alloc: Global, arrivals: &[Term], walk: &mut Walk) -> Result<bool, NoMemory>
    ensures { (made : List Term) → IfOk result (HasGone made arrivals.now receives
        walk.old walk.new) }
{
    let Some(arrival) = arrivals.get(walk.heard) else {
        return Ok(false);
    };
    let Some(event) = walk.event.checked_add(1) else {
        return Err(NoMemory);
    };
    walk.table.push(arrival.copy(alloc)?)?;
    walk.heard += 1;
    walk.event = event;
    Ok(true)
}

/// Sends a register.
fn say(alloc: Global, register: u32, walk: &mut Walk) -> Result<bool, NoMemory>
    ensures { (made arrivals : List Term) → IfOk result (HasGone made arrivals (sends register)
        walk.old walk.new) }
{
    let Some(message) = walk.table.get(register as usize) else {
        return Ok(false);
    };
    let Some(event) = walk.event.checked_add(1) else {
        return Err(NoMemory);
    };
    walk.sent.push(message.copy(alloc)?)?;
    walk.event = event;
    Ok(true)
}
