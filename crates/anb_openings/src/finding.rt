//! What is found of an opening, by a run over terms.
ghost use Rattle.std.specs.Prelude.{◌≡◌, ◌↔◌, ◌+◌, ◌-◌, ◌<◌, List, length, map, take, drop, slice_get, IsTrue, Some, IfOk};
ghost use Rattle.std.specs.List.{AllByRecursion};
ghost use Rattle.anb_term.specs.declared.term.Term.{Term};
ghost use Rattle.anb_term.specs.Tree.{leaf};
ghost use Rattle.anb_term.specs.View.{tree_of};
ghost use Rattle.anb_code.specs.Meaning.{acts_of};
ghost use Rattle.anb_compile.specs.Fitting.{FitsRole};
ghost use Rattle.anb_machine.specs.Works.{HasFewFields};
ghost use Rattle.anb_openings.specs.Steps.{begun};
ghost use Rattle.anb_openings.specs.Openings.{exchanges_before, HasOpening, IsOpeningFinding};
ghost use Rattle.anb_openings.specs.Walks.{events_in, progress, AreReady, HasCome, HasGoneOn, IsFoundOn, IsStage, WritesAsMany};

use crate::cases::{NoCase, Obstacle, OpeningCase, OpeningFinding};
use crate::sparing::spared_arrivals;
use crate::undoing::{count_exchanges, opening_at, operands_behind};
use crate::walking::{Walk, known_in, made_in, walk_over};
use anb_base::NoMemory;
use anb_code::{Instr, RoleCode, verified_is_runnable};
use anb_explain::explanation_of;
use anb_protocol::{Event, Protocol};
use anb_term::Term;
use std::alloc::Global;

/// A case of an opening of a role's code, with the spare name in place of what is opened wherever it
/// stands in what arrives; or what is in its way. The spare name has the number of names.
pub fn opening_finding(
    alloc: Global,
    p: &Protocol,
    role: u32,
    code: &RoleCode,
    instruction: u32,
) -> Result<OpeningFinding, NoMemory>
    requires role { role < length p.now.roles }
    requires fits { FitsRole p.now role code.now }
    requires opening { HasOpening code.now instruction }
    ensures { IfOk result (IsOpeningFinding p.now role code.now instruction) }
{
    verified_is_runnable();
    let _ = code.formats();
    let explanation = explanation_of(alloc, p, role, code)?;
    let spare = count_names(p)?;
    let (op, of) = opening_at(code, instruction);
    let opened = nth(explanation.terms(), of as usize);
    let parts = operands_behind(alloc, op.keys(), opened)?;
    let stage = stage_of(alloc, spare, opened, explanation.events())?;
    finding_on(alloc, code, instruction, of, parts, stage)
}

/// How many names there are, where there is a number for one more.
fn count_names(p: &Protocol) -> Result<u32, NoMemory>
    ensures { IfOk result (λ n. n ≡ length p.now.atoms) }
{
    match u32::try_from(p.declared().len()) {
        Ok(names) => Ok(names),
        Err(_) => Err(NoMemory),
    }
}

/// The one at a place.
fn nth(terms: &[Term], at: usize) -> &Term
    requires { at < length terms.now }
    ensures { Some result.now ≡ slice_get terms.now at }
{
    &terms[at]
}

/// What a run over terms begins with.
#[derive(Drop)]
struct Stage {
    /// The spare name.
    spare: u32,
    /// The term that it stands for.
    opened: Term,
    known: Vec<Term>,
    made: Vec<Term>,
    arrivals: Vec<Term>,
}

/// A plan's, with the spare name in place of a term wherever that stands in what arrives.
fn stage_of(alloc: Global, spare: u32, opened: &Term, events: &[Event]) -> Result<Stage, NoMemory>
    ensures { IfOk result (IsStage spare (tree_of opened.now) (events_in events.now)) }
{
    let known = known_in(alloc, events)?;
    let made = made_in(alloc, events)?;
    let arrivals = spared_arrivals(alloc, spare, opened, events)?;
    Ok(Stage {
        spare,
        opened: opened.copy(alloc)?,
        known,
        made,
        arrivals,
    })
}

/// What is found of an opening of this register on a stage, where these are the narrated parts.
fn finding_on(
    alloc: Global,
    code: &RoleCode,
    instruction: u32,
    of: u32,
    parts: Vec<Term>,
    stage: Stage,
) -> Result<OpeningFinding, NoMemory>
    requires opening { HasOpening code.now instruction }
    requires ready { AreReady (acts_of code.now) (length stage.known.items) }
    requires parts { WritesAsMany code.now instruction (length parts.items) }
    ensures { IfOk result (IsFoundOn code.now instruction of (map tree_of parts.items) stage) }
{
    let Stage {
        spare,
        opened,
        known,
        made,
        arrivals,
    } = stage;
    let mut walk = begin(alloc, known);
    if let Some(number) = come(alloc, code, instruction, &made, &arrivals, &mut walk)? {
        let lack = no_case(
            code,
            instruction,
            arrivals,
            opened,
            Obstacle::Earlier(number),
        );
        return Ok(OpeningFinding::NoCase(lack));
    }
    if !has_name(&walk.table, of, spare) {
        let lack = no_case(code, instruction, arrivals, opened, Obstacle::OwnTerm);
        return Ok(OpeningFinding::NoCase(lack));
    }
    let event = walk.event;
    if let Some(number) = go_on(alloc, code, instruction, &made, &arrivals, parts, &mut walk)? {
        let lack = no_case(code, instruction, arrivals, opened, Obstacle::Later(number));
        return Ok(OpeningFinding::NoCase(lack));
    }
    Ok(OpeningFinding::Case(OpeningCase {
        instruction,
        event,
        arrivals,
        messages: walk.sent,
        opened,
    }))
}

/// An opening that has no case.
fn no_case(
    code: &RoleCode,
    instruction: u32,
    arrivals: Vec<Term>,
    opened: Term,
    why: Obstacle,
) -> NoCase
    requires { HasOpening code.now instruction }
    ensures instruction { result.instruction ≡ instruction }
    ensures event { result.event ≡ exchanges_before code.now instruction }
    ensures arrivals { result.arrivals ≡ arrivals }
    ensures opened { result.opened ≡ opened }
    ensures why { result.why ≡ why }
{
    let event = count_exchanges(instrs_before(code, instruction)) as u32;
    NoCase {
        instruction,
        event,
        arrivals,
        opened,
        why,
    }
}

/// Before the first instruction: the first registers hold what is known.
fn begin(alloc: Global, known: Vec<Term>) -> Walk
    ensures begun { (arrivals : List Term) → progress arrivals result
        ≡ begun (map tree_of known.items) (map tree_of arrivals) }
    ensures long { length result.table.items ≡ length known.items }
{
    Walk {
        table: known,
        sent: Vec::new(alloc),
        event: 0,
        drawn: 0,
        heard: 0,
    }
}

/// Comes to an opening; or to an instruction before it that doesn't go on: then its number.
fn come(
    alloc: Global,
    code: &RoleCode,
    instruction: u32,
    made: &[Term],
    arrivals: &[Term],
    walk: &mut Walk,
) -> Result<Option<u32>, NoMemory>
    requires opening { HasOpening code.now instruction }
    requires ready { AreReady (acts_of code.now) (length walk.old.table.items) }
    ensures { IfOk result (HasCome made.now arrivals.now (acts_of code.now) instruction
        walk.old walk.new) }
{
    let before = instrs_before(code, instruction);
    match walk_over(alloc, code.formats(), made, arrivals, before, walk)? {
        None => Ok(None),
        Some(place) => Ok(Some(place as u32 + 1)),
    }
}

/// The instructions before an opening.
fn instrs_before(code: &RoleCode, instruction: u32) -> &[Instr]
    requires { HasOpening code.now instruction }
    ensures instrs { result.now ≡ take (instruction - 1) code.now.instrs }
    ensures few { AllByRecursion (HasFewFields code.now.formats) result.now }
    ensures long { length result.now < instruction }
{
    let _ = code.formats();
    &code.instrs()[..instruction as usize - 1]
}

/// Writes parts in place of an opening, and goes on behind it to the end; or to an instruction that
/// doesn't go on: then its number.
fn go_on(
    alloc: Global,
    code: &RoleCode,
    instruction: u32,
    made: &[Term],
    arrivals: &[Term],
    parts: Vec<Term>,
    walk: &mut Walk,
) -> Result<Option<u32>, NoMemory>
    requires opening { HasOpening code.now instruction }
    requires ready { AreReady (drop (instruction - 1) (acts_of code.now))
        (length walk.old.table.items) }
    requires parts { WritesAsMany code.now instruction (length parts.items) }
    ensures { IfOk result (HasGoneOn made.now arrivals.now (acts_of code.now) instruction
        (map tree_of parts.items) walk.old walk.new) }
{
    let mut parts = parts;
    walk.table.append(&mut parts)?;
    let behind = instrs_behind(code, instruction);
    match walk_over(alloc, code.formats(), made, arrivals, behind, walk)? {
        None => Ok(None),
        Some(place) => Ok(Some(instruction + place as u32 + 1)),
    }
}

/// The instructions behind an opening.
fn instrs_behind(code: &RoleCode, instruction: u32) -> &[Instr]
    requires { HasOpening code.now instruction }
    ensures instrs { result.now ≡ drop instruction code.now.instrs }
    ensures few { AllByRecursion (HasFewFields code.now.formats) result.now }
    ensures long { instruction + length result.now < 4294967296 }
{
    let _ = code.formats();
    &code.instrs()[instruction as usize..]
}

/// Whether a register holds this name.
fn has_name(table: &[Term], register: u32, name: u32) -> bool
    ensures { IsTrue result ↔ (slice_get (map tree_of table.now) register ≡ Some (leaf name)) }
{
    match table.get(register as usize) {
        Some(term) => is_name(term, name),
        None => false,
    }
}

/// Whether a term is this name.
fn is_name(term: &Term, name: u32) -> bool
    ensures { IsTrue result ↔ (tree_of term.now ≡ leaf name) }
{
    match term {
        Term::Atom(n) => *n == name,
        Term::Node(_op, _operands) => false,
    }
}
