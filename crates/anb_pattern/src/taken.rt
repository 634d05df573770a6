//! What a role takes, in words.
ghost use Rattle.std.specs.Prelude.{◌≡◌, ◌++◌, ◌∷◌, [], map, drop, filter, IfOk, OnOk, if◌then◌else◌};
ghost use Rattle.std.specs.List.{AllByRecursion};
ghost use Rattle.anb_term.specs.Tree.{tree_eqb};
ghost use Rattle.anb_term.specs.View.{tree_of};
ghost use Rattle.anb_protocol.specs.Plans.{messages};
ghost use Rattle.anb_protocol.specs.Texts.{IsTermOf};
ghost use Rattle.anb_protocol.specs.Views.{action_value};
ghost use Rattle.anb_pattern.specs.Taken.{accepted, accepted_at, accepts, accepts_first, end_lines, is_received, received, taken_of, taken_unchecked, unchecked_line};

use crate::counts::{counts_of, picked};
use crate::notes::Notes;
use crate::places::stand_for;
use crate::texts::{put_listed, put_pattern};
use anb_base::{Bytes, NoMemory};
use anb_protocol::{Action, Protocol, protocols_hold};
use anb_term::Term;
use std::alloc::Global;
use std::marker::Model;

/// What is said of a role: for each of its events from event 0 on, and at its end; and the terms that
/// it takes unchecked.
#[derive(Drop)]
pub struct Taken {
    notes: Vec<Notes>,
    lines: Vec<u8>,
    unchecked: Vec<Term>,
}

impl Model for Taken {
    ghost use Rattle.std.specs.Prelude.{map};
    ghost use Rattle.anb_term.specs.View.{tree_of};
    ghost use Rattle.anb_pattern.specs.Taken.{TakenValue, coded_taken};

    ghost Value = { TakenValue };

    ghost coded = { coded_taken };

    ghost view = { λ t. record {
      notes = t.notes.items;
      lines = t.lines.items;
      unchecked = map tree_of t.unchecked.items;
    } };
}

impl Taken {
    ghost use Rattle.std.specs.Prelude.{◌≡◌, ◌++◌, map, IfOk};
    ghost use Rattle.anb_term.specs.View.{tree_of};
    ghost use Rattle.anb_pattern.specs.Taken.{with_lines};

    /// For each event, where the role takes more than the narrated message, its pattern.
    pub fn notes(&self) -> &[Notes]
        ensures { result.now ≡ self.now.notes }
    {
        self.notes.as_slice()
    }

    /// The lines at the role's end.
    pub fn lines(&self) -> &[u8]
        ensures { result.now ≡ self.now.lines }
    {
        self.lines.as_slice()
    }

    /// The terms that the role takes unchecked.
    pub fn unchecked(&self) -> &[Term]
        ensures { map tree_of result.now ≡ self.now.unchecked }
    {
        self.unchecked.as_slice()
    }

    /// The same, with further lines at the role's end.
    pub fn with_lines(self, further: &[u8]) -> Result<Taken, NoMemory>
        ensures { IfOk result (λ taken. taken ≡ with_lines self further.now) }
    {
        let Taken {
            notes,
            mut lines,
            unchecked,
        } = self;
        lines.extend_from_slice(further)?;
        Ok(Taken {
            notes,
            lines,
            unchecked,
        })
    }
}

/// What is said of a role with these patterns of what it receives, in order.
pub fn taken_of(
    alloc: Global,
    protocol: &Protocol,
    role: u32,
    patterns: &[Term],
) -> Result<Taken, NoMemory>
    ensures { IfOk result (λ taken.
        taken ≡ taken_of protocol.now role (map tree_of patterns.now)) }
{
    let mut notes = Vec::new(alloc);
    notes.push(Notes::new(Vec::new(alloc)))?;
    let actions = protocol.messages();
    put_accepted(alloc, &mut notes, protocol, role, patterns, actions)?;
    let mut lines = Vec::new(alloc);
    let unchecked = put_lines(alloc, &mut lines, protocol, role, patterns)?;
    Ok(Taken {
        notes,
        lines,
        unchecked,
    })
}

/// Appends the notes of each message that a role sends or receives.
fn put_accepted(
    alloc: Global,
    out: &mut Vec<Notes>,
    protocol: &Protocol,
    role: u32,
    patterns: &[Term],
    actions: &[Action],
) -> Result<(), NoMemory>
    ensures { OnOk result (out.new.items ≡ out.old.items
        ++ accepted protocol.now role (map tree_of patterns.now) (map action_value actions.now)) }
{
    let mut next = 0;
    for action in actions {
        put_accepted_at(alloc, out, protocol, role, patterns, next, action)?;
        if is_received(role, action) {
            next += 1;
        }
    }
    Ok(())
}

fn is_received(role: u32, action: &Action) -> bool
    ensures { result ≡ is_received role (action_value action.now) }
{
    action.to == role
}

/// Appends the notes of a message, where it is the role's.
fn put_accepted_at(
    alloc: Global,
    out: &mut Vec<Notes>,
    protocol: &Protocol,
    role: u32,
    patterns: &[Term],
    next: usize,
    action: &Action,
) -> Result<(), NoMemory>
    ensures { OnOk result (out.new.items ≡ out.old.items
        ++ accepted_at protocol.now role (drop next (map tree_of patterns.now))
        (action_value action.now)) }
{
    if is_received(role, action) {
        let notes = accepts_at(alloc, protocol, patterns, next, &action.message)?;
        out.push(notes)?;
    } else if action.from == role {
        out.push(Notes::new(Vec::new(alloc)))?;
    }
    Ok(())
}

/// The note of a receive, by the number of its pattern.
fn accepts_at(
    alloc: Global,
    protocol: &Protocol,
    patterns: &[Term],
    at: usize,
    narrated: &Term,
) -> Result<Notes, NoMemory>
    ensures { IfOk result (λ notes. notes
        ≡ accepts_first protocol.now (drop at (map tree_of patterns.now)) (tree_of narrated.now)) }
{
    if at >= patterns.len() {
        return Ok(Notes::new(Vec::new(alloc)));
    }
    accepts(alloc, protocol, &patterns[at], narrated)
}

fn accepts(
    alloc: Global,
    protocol: &Protocol,
    pattern: &Term,
    narrated: &Term,
) -> Result<Notes, NoMemory>
    ensures { IfOk result (λ notes.
        notes ≡ accepts protocol.now (tree_of pattern.now) (tree_of narrated.now)) }
{
    if is_same(pattern, narrated) {
        return Ok(Notes::new(Vec::new(alloc)));
    }
    let mut text = Vec::from_slice(alloc, b"accepts ")?;
    put_pattern(&mut text, protocol, pattern)?;
    let mut items = Vec::new(alloc);
    items.push(Bytes::new(text))?;
    Ok(Notes::new(items))
}

/// Whether two terms are one.
fn is_same(one: &Term, other: &Term) -> bool
    ensures { result ≡ tree_eqb (tree_of one.now) (tree_of other.now) }
{
    one.same(other)
}

/// The messages that a role receives.
fn received(alloc: Global, protocol: &Protocol, role: u32) -> Result<Vec<Term>, NoMemory>
    ensures is { IfOk result (λ terms. map tree_of terms.items ≡ received protocol.now role) }
    ensures terms { IfOk result (λ terms.
        AllByRecursion (IsTermOf protocol.now) (map tree_of terms.items)) }
{
    protocols_hold();
    let mut out = Vec::new(alloc);
    let actions = protocol.messages();
    put_received(alloc, &mut out, role, actions)?;
    Ok(out)
}

fn put_received(
    alloc: Global,
    out: &mut Vec<Term>,
    role: u32,
    actions: &[Action],
) -> Result<(), NoMemory>
    ensures { OnOk result (map tree_of out.new.items ≡ map tree_of out.old.items
        ++ messages (filter (is_received role) (map action_value actions.now))) }
{
    for action in actions {
        put_if_received(alloc, out, role, action)?;
    }
    Ok(())
}

fn put_if_received(
    alloc: Global,
    out: &mut Vec<Term>,
    role: u32,
    action: &Action,
) -> Result<(), NoMemory>
    ensures { OnOk result (map tree_of out.new.items ≡ map tree_of out.old.items
        ++ (if is_received role (action_value action.now) then tree_of action.now.message ∷ [] else [])) }
{
    if is_received(role, action) {
        let message = action.message.copy(alloc)?;
        out.push(message)?;
    }
    Ok(())
}

/// Appends the lines at a role's end, and gives the terms that it takes unchecked.
fn put_lines(
    alloc: Global,
    out: &mut Vec<u8>,
    protocol: &Protocol,
    role: u32,
    patterns: &[Term],
) -> Result<Vec<Term>, NoMemory>
    ensures lines { OnOk result (out.new.items ≡ out.old.items
        ++ end_lines protocol.now role (map tree_of patterns.now)) }
    ensures unchecked { IfOk result (λ terms. map tree_of terms.items
        ≡ taken_unchecked protocol.now role (map tree_of patterns.now)) }
{
    let names = protocol.declared().len();
    let narrated = received(alloc, protocol, role)?;
    let terms = stand_for(alloc, names, patterns, &narrated)?;
    let counts = counts_of(alloc, names, terms.len(), patterns)?;
    let unchecked = picked(alloc, &counts, true, &terms)?;
    let resting = picked(alloc, &counts, false, &terms)?;
    put_listed(alloc, out, protocol, b"  ?1 stands for ", true, &terms)?;
    put_unchecked(alloc, out, protocol, &unchecked)?;
    put_listed(
        alloc,
        out,
        protocol,
        b"  rests on arrivals alone: ",
        false,
        &resting,
    )?;
    Ok(unchecked)
}

/// Appends the line of what is taken unchecked.
fn put_unchecked(
    alloc: Global,
    out: &mut Vec<u8>,
    protocol: &Protocol,
    terms: &[Term],
) -> Result<(), NoMemory>
    requires { AllByRecursion (IsTermOf protocol.now) (map tree_of terms.now) }
    ensures { OnOk result (out.new.items
        ≡ out.old.items ++ unchecked_line protocol.now (map tree_of terms.now)) }
{
    if terms.is_empty() {
        out.extend_from_slice(b"  takes nothing unchecked\n")?;
        return Ok(());
    }
    put_listed(alloc, out, protocol, b"  takes unchecked: ", false, terms)
}
