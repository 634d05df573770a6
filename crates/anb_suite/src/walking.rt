//! The equations of a code less a check, and the registers that come and go.
ghost use Rattle.std.specs.Prelude.{◌≡◌, ◌+◌, ◌-◌, ◌≤◌, ◌<◌, ◌∷◌, ◌++◌, [], ℕ, length, map, slice_get, unwrap_or, IfOk, OnOk, Some};
ghost use Rattle.std.specs.List.{AllByRecursion, range_with_len};
ghost use Rattle.anb_format.specs.Formats.{FormatValue, field_count, pieces_at};
ghost use Rattle.anb_term.specs.declared.term.Op.TheVariants as op;
ghost use Rattle.anb_term.specs.Operator.{arity, keys as keys_of};
ghost use Rattle.anb_term.specs.Tree.{Tree, leaf, node, trees_of};
ghost use Rattle.anb_term.specs.View.{tree_of};
ghost use Rattle.anb_plays.specs.Codes.{draws, receives, sends, works, make, undo, equal};
ghost use Rattle.anb_plays.specs.Honest.{made};
ghost use Rattle.anb_code.specs.Meaning.{act_of, acts_of};
ghost use Rattle.anb_code.specs.Verified.{HasItsFormat};
ghost use Rattle.anb_distinguish.specs.Equations.{registers};
ghost use Rattle.anb_suite.specs.Reading.{read_behind};
ghost use Rattle.anb_suite.specs.Suites.{HasCheck};
ghost use Rattle.anb_suite.specs.Walks.{act_at, events_in, HasHeld, HasStepped, IsBegun, IsWalked};

use crate::reading::read_for;
use anb_base::NoMemory;
use anb_code::{Instr, RoleCode};
use anb_format::Format;
use anb_protocol::Event;
use anb_term::{Op, Term, Terms};
use anb_unify::{Equation, variable};
use std::alloc::Global;

/// What a walk over the instructions of a code collects.
#[derive(Drop)]
pub(crate) struct Walk {
    /// What each instruction says.
    pub(crate) equations: Vec<Equation>,
    /// The registers that arrivals are written to.
    pub(crate) received: Vec<u32>,
    /// The registers that are sent.
    pub(crate) sent: Vec<u32>,
    /// The next register.
    next: u32,
    /// How many names were drawn.
    drawn: u32,
}

/// Walks over a code less a check, along a plan, where behind the check one register is read for another.
/// One pass.
pub(crate) fn walk_over(
    alloc: Global,
    names: u32,
    events: &[Event],
    code: &RoleCode,
    check: u32,
    gone: u32,
    used: u32,
) -> Result<Walk, NoMemory>
    requires { HasCheck code.now check }
    ensures { IfOk result (IsWalked names (events_in events.now)
        (read_behind check gone used (acts_of code.now)) check) }
{
    let formats = code.formats();
    let made = made_in(alloc, events)?;
    let mut walk = begin(alloc, events)?;
    for (i, instr) in code.instrs().iter().enumerate() {
        if i + 1 != check as usize {
            step_at(
                alloc, names, formats, &made, instr, i, check, gone, used, &mut walk,
            )?;
        }
    }
    Ok(walk)
}

/// The names that are made along events, in order.
fn made_in(alloc: Global, events: &[Event]) -> Result<Vec<Term>, NoMemory>
    ensures { IfOk result (λ terms. map tree_of terms.items ≡ made (events_in events.now)) }
{
    let mut terms = Vec::new(alloc);
    for event in events {
        put_made_name(alloc, &mut terms, event)?;
    }
    Ok(terms)
}

/// Appends the name that an event makes, if it does.
fn put_made_name(alloc: Global, terms: &mut Vec<Term>, event: &Event) -> Result<(), NoMemory>
    ensures { OnOk result (map tree_of terms.new.items
        ≡ map tree_of terms.old.items ++ made (events_in (event.now ∷ []))) }
{
    match event {
        Event::Fresh(term) => {
            let copy = term.copy(alloc)?;
            terms.push(copy)?;
            Ok(())
        }
        Event::Know(_) => Ok(()),
        Event::Send { .. } => Ok(()),
        Event::Recv { .. } => Ok(()),
    }
}

/// Before the first instruction: the first registers hold what is known.
fn begin(alloc: Global, events: &[Event]) -> Result<Walk, NoMemory>
    ensures { IfOk result (IsBegun (events_in events.now)) }
{
    let mut walk = Walk {
        equations: Vec::new(alloc),
        received: Vec::new(alloc),
        sent: Vec::new(alloc),
        next: 0,
        drawn: 0,
    };
    for event in events {
        hold(alloc, event, &mut walk)?;
    }
    Ok(walk)
}

/// The next register holds what is known by an event, if it is one of these.
fn hold(alloc: Global, event: &Event, walk: &mut Walk) -> Result<(), NoMemory>
    ensures { OnOk result (HasHeld (events_in (event.now ∷ [])) walk.old walk.new) }
{
    match event {
        Event::Know(term) => {
            let term = term.copy(alloc)?;
            let variable = walk.next;
            walk.next = behind(walk.next, 1)?;
            walk.equations.push(Equation { variable, term })?;
            Ok(())
        }
        Event::Fresh(_) => Ok(()),
        Event::Send { .. } => Ok(()),
        Event::Recv { .. } => Ok(()),
    }
}

/// The register that stands so many behind another.
fn behind(register: u32, count: u16) -> Result<u32, NoMemory>
    ensures { IfOk result (λ next. next ≡ register + count) }
{
    match register.checked_add(u32::from(count)) {
        Some(next) => Ok(next),
        None => Err(NoMemory),
    }
}

/// One instruction more, with so many before it.
fn step_at(
    alloc: Global,
    names: u32,
    formats: &[Format],
    made: &[Term],
    instr: &Instr,
    at: usize,
    check: u32,
    gone: u32,
    used: u32,
    walk: &mut Walk,
) -> Result<(), NoMemory>
    requires fields { AllByRecursion (λ format. field_count format.pieces ≤ 32) formats.now }
    requires format { HasItsFormat formats.now instr.now }
    ensures { OnOk result (HasStepped names
        (λ i. unwrap_or (slice_get (map tree_of made.now) i) (leaf 0))
        (act_at check gone used at (act_of formats.now instr.now)) walk.old walk.new) }
{
    if at < check as usize {
        step(alloc, names, formats, made, instr, walk)
    } else {
        let read = read_for(alloc, instr, gone, used)?;
        step(alloc, names, formats, made, &read, walk)
    }
}

/// One instruction more.
fn step(
    alloc: Global,
    names: u32,
    formats: &[Format],
    made: &[Term],
    instr: &Instr,
    walk: &mut Walk,
) -> Result<(), NoMemory>
    requires fields { AllByRecursion (λ format. field_count format.pieces ≤ 32) formats.now }
    requires format { HasItsFormat formats.now instr.now }
    ensures { OnOk result (HasStepped names
        (λ i. unwrap_or (slice_get (map tree_of made.now) i) (leaf 0))
        (act_of formats.now instr.now) walk.old walk.new) }
{
    match instr {
        Instr::Take(_) => Ok(()),
        Instr::Fresh => draw(alloc, made, walk),
        Instr::Recv => receive(walk),
        Instr::Send(r) => {
            walk.sent.push(*r)?;
            Ok(())
        }
        Instr::Equal(a, b) => compare(names, *a, *b, walk),
        Instr::Hash(m) => build(alloc, names, Op::Hash, &[*m], walk),
        Instr::Mac(k, m) => build(alloc, names, Op::Mac, &[*k, *m], walk),
        Instr::Seal(k, m) => build(alloc, names, Op::Seal, &[*k, *m], walk),
        Instr::Unseal(k, c) => open(alloc, names, Op::Seal, &[*k], *c, walk),
        Instr::Wrap(k, d, m) => build(alloc, names, Op::Wrap, &[*k, *d, *m], walk),
        Instr::Unwrap(k, d, c) => open(alloc, names, Op::Wrap, &[*k, *d], *c, walk),
        Instr::Build(f, operands) => {
            let op = format_op(formats, *f);
            build(alloc, names, op, operands.as_slice(), walk)
        }
        Instr::Parse(f, r) => {
            let op = format_op(formats, *f);
            open(alloc, names, op, &[], *r, walk)
        }
    }
}

/// The operator of the format at a place.
fn format_op(formats: &[Format], f: u16) -> Op
    requires fields { AllByRecursion (λ format. field_count format.pieces ≤ 32) formats.now }
    requires there { (format : FormatValue) × (slice_get formats.now f ≡ Some format) }
    ensures { result ≡ op.Format f (field_count (pieces_at formats.now f)) }
{
    Op::Format {
        index: f,
        arity: formats[f as usize].arity(),
    }
}

/// The next register holds the next name that is made.
fn draw(alloc: Global, made: &[Term], walk: &mut Walk) -> Result<(), NoMemory>
    ensures { (names : ℕ) → OnOk result (HasStepped names
        (λ i. unwrap_or (slice_get (map tree_of made.now) i) (leaf 0)) draws walk.old walk.new) }
{
    let term = term_at(alloc, made, walk.drawn)?;
    let variable = walk.next;
    walk.next = behind(walk.next, 1)?;
    walk.drawn = behind(walk.drawn, 1)?;
    walk.equations.push(Equation { variable, term })?;
    Ok(())
}

/// The term at a place, or the first name.
pub(crate) fn term_at(alloc: Global, terms: &[Term], i: u32) -> Result<Term, NoMemory>
    ensures { IfOk result (λ t. tree_of t
        ≡ unwrap_or (slice_get (map tree_of terms.now) i) (leaf 0)) }
{
    match terms.get(i as usize) {
        Some(term) => term.copy(alloc),
        None => Ok(Term::Atom(0)),
    }
}

/// The next register holds what arrives.
fn receive(walk: &mut Walk) -> Result<(), NoMemory>
    ensures { (names : ℕ) (draw : ℕ → Tree)
        → OnOk result (HasStepped names draw receives walk.old walk.new) }
{
    let register = walk.next;
    walk.next = behind(walk.next, 1)?;
    walk.received.push(register)?;
    Ok(())
}

/// Two registers hold one term.
fn compare(names: u32, a: u32, b: u32, walk: &mut Walk) -> Result<(), NoMemory>
    ensures { (draw : ℕ → Tree)
        → OnOk result (HasStepped names draw (works (equal a b)) walk.old walk.new) }
{
    let atom = variable(names, b)?;
    walk.equations.push(Equation {
        variable: a,
        term: Term::Atom(atom),
    })?;
    Ok(())
}

/// The next register holds what an operator makes of others.
fn build(alloc: Global, names: u32, op: Op, at: &[u32], walk: &mut Walk) -> Result<(), NoMemory>
    ensures { (draw : ℕ → Tree)
        → OnOk result (HasStepped names draw (works (make op at.now)) walk.old walk.new) }
{
    let operands = registers(alloc, names, at)?;
    let variable = walk.next;
    walk.next = behind(walk.next, 1)?;
    walk.equations.push(Equation {
        variable,
        term: Term::Node(op, Terms::new(operands)),
    })?;
    Ok(())
}

/// The next registers hold the parts of one that is undone with keys.
fn open(
    alloc: Global,
    names: u32,
    op: Op,
    keys: &[u32],
    of: u32,
    walk: &mut Walk,
) -> Result<(), NoMemory>
    ensures { (draw : ℕ → Tree)
        → OnOk result (HasStepped names draw (works (undo op keys.now of)) walk.old walk.new) }
{
    let count = count_parts(op);
    let mut operands = registers(alloc, names, keys)?;
    put_next(&mut operands, names, walk.next, count)?;
    walk.next = behind(walk.next, count)?;
    walk.equations.push(Equation {
        variable: of,
        term: Term::Node(op, Terms::new(operands)),
    })?;
    Ok(())
}

fn count_parts(op: Op) -> u16
    ensures { result ≡ arity op - keys_of op }
{
    op.arity().saturating_sub(op.keys())
}

/// Registers as terms: the variables of their numbers.
fn registers(alloc: Global, names: u32, at: &[u32]) -> Result<Vec<Term>, NoMemory>
    ensures { IfOk result (λ terms. map tree_of terms.items ≡ registers names at.now) }
{
    let mut terms = Vec::new(alloc);
    for register in at {
        let atom = variable(names, *register)?;
        terms.push(Term::Atom(atom))?;
    }
    Ok(terms)
}

/// Appends so many registers from one on.
fn put_next(terms: &mut Vec<Term>, names: u32, first: u32, count: u16) -> Result<(), NoMemory>
    ensures { OnOk result (map tree_of terms.new.items
        ≡ map tree_of terms.old.items ++ registers names (range_with_len first count)) }
{
    for part in 0..count {
        let register = behind(first, part)?;
        let atom = variable(names, register)?;
        terms.push(Term::Atom(atom))?;
    }
    Ok(())
}
