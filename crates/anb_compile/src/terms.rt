//! The terms of a code's registers.
ghost use Rattle.std.specs.Prelude.{◌≡◌, ◌+◌, ◌<◌, ◌≤◌, ◌++◌, ◌∷◌, [], ℕ, List, length, map, drop, slice_get, IfOk, OnOk, Some, All};
ghost use Rattle.std.specs.List.{AllByRecursion};
ghost use Rattle.anb_base.specs.declared.content.Suite.{Suite};
ghost use Rattle.anb_format.specs.Formats.{FormatValue, field_count, pieces_at};
ghost use Rattle.anb_term.specs.declared.term.Op.TheVariants as op;
ghost use Rattle.anb_term.specs.Operator.{arity, keys as keys_of};
ghost use Rattle.anb_term.specs.Tree.{Tree};
ghost use Rattle.anb_term.specs.Value.{values, recipe_trees};
ghost use Rattle.anb_term.specs.FreeAlgebra.{terms_over};
ghost use Rattle.anb_term.specs.View.{tree_of};
ghost use Rattle.anb_algebra.specs.ByteMeaning.{byte_meaning, has_operator};
ghost use Rattle.anb_plays.specs.Plans as plays;
ghost use Rattle.anb_plays.specs.Codes.{Act, make, undo};
ghost use Rattle.anb_plays.specs.Fits.{Follows, Along, AnySend, AnyBorder, IsSound, start};
ghost use Rattle.anb_code.specs.Meaning.{act_of, acts_of};
ghost use Rattle.anb_code.specs.Verified.{HasItsFormat};
ghost use Rattle.anb_protocol.specs.declared.plans.Event as code;
ghost use Rattle.anb_protocol.specs.Plays.{event_of};
ghost use Rattle.anb_protocol.specs.Views.{plan_event};
ghost use Rattle.anb_protocol.specs.Plans.{term_in};
ghost use Rattle.anb_compile.specs.Registers.{register_recipes, all_labels};
ghost use Rattle.anb_compile.specs.Valued.{HasWalked, Writes};

use anb_base::NoMemory;
use anb_code::{Instr, RoleCode, verified_is_runnable};
use anb_format::Format;
use anb_protocol::{Event, Plan};
use anb_term::{Algebra, Op, Term, TermAlgebra};
use std::alloc::Global;

/// The term of each register of a code, in the order of writing.
pub fn terms_of(alloc: Global, code: &RoleCode, plan: &Plan) -> Result<Vec<Term>, NoMemory>
    requires order { Follows (acts_of code.now) (map event_of plan.now) }
    requires sound { let events = map event_of plan.now in
        Along AnySend (IsSound (byte_meaning code.now.formats code.now.suite)) AnyBorder
        (acts_of code.now) events (start events) }
    ensures { IfOk result (λ terms.
        values (terms_over (has_operator code.now.formats))
        (all_labels (map event_of plan.now))
        (recipe_trees (register_recipes (acts_of code.now)))
        ≡ Some (map tree_of terms.items)) }
{
    verified_is_runnable();
    let formats = code.formats();
    let events = plan.events();
    let mut terms = Vec::new(alloc);
    let mut next = 0;
    for instr in code.instrs() {
        write(alloc, formats, events, instr, &mut next, &mut terms)?;
    }
    Ok(terms)
}

/// Appends the terms of the registers that an instruction writes. The event that it does, if any, is
/// the next one.
fn write(
    alloc: Global,
    formats: &[Format],
    events: &[Event],
    instr: &Instr,
    next: &mut usize,
    terms: &mut Vec<Term>,
) -> Result<(), NoMemory>
    requires fields { AllByRecursion (λ format. field_count format.pieces ≤ 32) formats.now }
    requires format { HasItsFormat formats.now instr.now }
    requires walked { (suite : Suite) × (plan : List plays.Event) × (all later : List Act)
        × HasWalked formats.now suite plan all (act_of formats.now instr.now ∷ later)
        (drop next.old events.now) terms.old.items }
    ensures { OnOk result ((suite : Suite) (plan : List plays.Event) (all later : List Act)
        → HasWalked formats.now suite plan all (act_of formats.now instr.now ∷ later)
        (drop next.old events.now) terms.old.items
        → HasWalked formats.now suite plan all later (drop next.new events.now) terms.new.items) }
{
    match instr {
        Instr::Take(_) => hear(alloc, events, next, terms),
        Instr::Fresh => hear(alloc, events, next, terms),
        Instr::Recv => hear(alloc, events, next, terms),
        Instr::Send(_) => {
            *next += 1;
            Ok(())
        }
        Instr::Equal(_, _) => Ok(()),
        Instr::Hash(m) => put_made(alloc, terms, Op::Hash, &[*m]),
        Instr::Mac(k, m) => put_made(alloc, terms, Op::Mac, &[*k, *m]),
        Instr::Seal(k, m) => put_made(alloc, terms, Op::Seal, &[*k, *m]),
        Instr::Unseal(k, c) => put_parts(alloc, terms, Op::Seal, &[*k], *c),
        Instr::Wrap(k, d, m) => put_made(alloc, terms, Op::Wrap, &[*k, *d, *m]),
        Instr::Unwrap(k, d, c) => put_parts(alloc, terms, Op::Wrap, &[*k, *d], *c),
        Instr::Build(f, operands) => {
            let op = format_op(formats, *f);
            put_made(alloc, terms, op, operands.as_slice())
        }
        Instr::Parse(f, r) => {
            let op = format_op(formats, *f);
            put_parts(alloc, terms, op, &[], *r)
        }
    }
}

/// The operator of the format at a place.
fn format_op(formats: &[Format], f: u16) -> Op
    requires fields { AllByRecursion (λ format. field_count format.pieces ≤ 32) formats.now }
    requires there { (format : FormatValue) × (slice_get formats.now f ≡ Some format) }
    ensures { result ≡ op.Format f (field_count (pieces_at formats.now f)) }
{
    Op::Format {
        index: f,
        arity: formats[f as usize].arity(),
    }
}

/// Appends the term of the next event, which brings a label.
fn hear(
    alloc: Global,
    events: &[Event],
    next: &mut usize,
    terms: &mut Vec<Term>,
) -> Result<(), NoMemory>
    requires { next.old < length events.now }
    ensures next { OnOk result (next.new ≡ next.old + 1) }
    ensures term { OnOk result ((e : code.Event) × (slice_get events.now next.old ≡ Some e)
        × (map tree_of terms.new.items
        ≡ map tree_of terms.old.items ++ term_in (plan_event e) ∷ [])) }
{
    let term = events[*next].term().copy(alloc)?;
    terms.push(term)?;
    *next += 1;
    Ok(())
}

/// Appends what an operator makes of registers.
fn put_made(alloc: Global, terms: &mut Vec<Term>, op: Op, at: &[u32]) -> Result<(), NoMemory>
    requires count { length at.now ≡ arity op }
    requires within { All (λ r. r < length terms.old.items) at.now }
    ensures { OnOk result ((formats : List FormatValue) → (ts : List Tree)
        × Writes formats (make op at.now) terms.old.items ts
        × (map tree_of terms.new.items ≡ map tree_of terms.old.items ++ ts)) }
{
    let term = TermAlgebra.build(alloc, op, terms, at)?;
    terms.push(term)?;
    Ok(())
}

/// Appends the parts of a register that is undone with keys, which it has.
fn put_parts(
    alloc: Global,
    terms: &mut Vec<Term>,
    op: Op,
    keys: &[u32],
    of: u32,
) -> Result<(), NoMemory>
    requires count { length keys.now ≡ keys_of op }
    requires within { All (λ r. r < length terms.old.items) keys.now }
    requires of { of < length terms.old.items }
    requires parts { (formats : List FormatValue) × (ts : List Tree)
        × Writes formats (undo op keys.now of) terms.old.items ts }
    ensures { OnOk result ((formats : List FormatValue) (ts : List Tree)
        → Writes formats (undo op keys.now of) terms.old.items ts
        → map tree_of terms.new.items ≡ map tree_of terms.old.items ++ ts) }
{
    match TermAlgebra.undo(alloc, op, terms, keys, of)? {
        Some(mut parts) => {
            terms.append(&mut parts)?;
            Ok(())
        }
        None => unreachable!(),
    }
}
