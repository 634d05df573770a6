//! Certifying a role's code.
ghost use Rattle.std.specs.Prelude.{◌≡◌, ◌≢◌, ◌<◌, ◌^◌, ◌+◌, ◌++◌, ◌∷◌, [], ℕ, List, Some, false, length, map, slice_get, IfErr, OnOk};
ghost use Rattle.anb_code.specs.CodeValue.{CodeValue};
ghost use Rattle.anb_code.specs.Meaning.{act_of};
ghost use Rattle.anb_compile.specs.Fitting.{FitsRole};
ghost use Rattle.anb_protocol.specs.Plans.{plan_of};
ghost use Rattle.anb_protocol.specs.Views.{plan_event};
ghost use Rattle.anb_plays.specs.Plans as plays;
ghost use Rattle.anb_plays.specs.Codes.{Act, works};
ghost use Rattle.anb_protocol.specs.Plays.{event_of};
ghost use Rattle.anb_protocol.specs.Protocols.{ProtocolValue};
ghost use Rattle.anb_term.specs.View.{tree_of};
ghost use Rattle.anb_certify.specs.Certified.{is_work, IsCertified, Refuses, HasFrame};
ghost use Rattle.anb_outcomes.specs.declared.certificates.CertifyNo.TheVariants as refusal;
ghost use Rattle.anb_certify.specs.Numbered.{did_in, terms_in, value_of, IsLoose};
ghost use Rattle.anb_certify.specs.Progress.{IsTable};
ghost use Rattle.anb_certify.specs.Tied.{AreEnough};
ghost use Rattle.anb_certify.specs.Walking.{IsAt, Stands};
ghost use Rattle.anb_certify.specs.Works.{work_of, AreTold};

use crate::frames::{has_names, stray};
use crate::laws::certified_fits;
use crate::table::Table;
use crate::works::{Job, job_of};
use anb_algebra::ByteAlgebra;
use anb_code::{Instr, RoleCode, verified_is_runnable};
use anb_outcomes::CertifyNo;
use anb_protocol::{Event, Protocol, terms_of_plans};
use anb_term::Term;
use std::alloc::Global;

/// Certifies a role's code, however it was made: what it compares ties its registers so that it fits
/// the role's plan. Not every code that fits is certified. At each send, each receive and the end it
/// looks at what came since the last one; where some registers' terms were neither built nor undone,
/// at each term so far; and where comparisons, one after another, don't tie each register to the first
/// of its term, at each instruction so far, in rounds.
pub fn certify(alloc: Global, p: &Protocol, role: u32, code: &RoleCode) -> Result<(), CertifyNo>
    requires { role < length p.now.roles }
    ensures certified { OnOk result (IsCertified p.now role code.now) }
    ensures fits { OnOk result (FitsRole p.now role code.now) }
    ensures refused { IfErr result (Refuses p.now role code.now) }
{
    verified_is_runnable();
    terms_of_plans();
    certified_fits(&ByteAlgebra::new(p.formats(), p.suite()));
    if !has_names(p, role, code) {
        return Err(CertifyNo::Frame(0));
    }
    let plan = p.plan(alloc, role)?;
    let events = plan.events();
    if let Some(n) = stray(alloc, p, code.instrs(), events)? {
        return Err(CertifyNo::Frame(n));
    }
    walk(alloc, p, role, code, events)
}

/// Walks along a code whose names and order are the plan's.
fn walk(
    alloc: Global,
    p: &Protocol,
    role: u32,
    code: &RoleCode,
    events: &[Event],
) -> Result<(), CertifyNo>
    requires plan { map plan_event events.now ≡ plan_of p.now role }
    requires framed { HasFrame p.now role code.now }
    ensures certified { OnOk result (IsCertified p.now role code.now) }
    ensures refused { IfErr result (Refuses p.now role code.now) }
{
    verified_is_runnable();
    let mut table = Table::new(alloc);
    let mut next = 0;
    let count = code.instrs().len();
    for i in 0..count {
        step(alloc, p, role, code, events, i, &mut next, &mut table)?;
    }
    border(alloc, &mut table, count as u32 + 1)
}

/// One instruction.
fn step(
    alloc: Global,
    p: &Protocol,
    role: u32,
    code: &RoleCode,
    events: &[Event],
    i: usize,
    next: &mut usize,
    table: &mut Table,
) -> Result<(), CertifyNo>
    requires within { i < length code.now.instrs }
    requires plan { map plan_event events.now ≡ plan_of p.now role }
    requires table { IsTable table.old }
    requires at { IsAt p.now role code.now i next.old (value_of table.old) }
    ensures table { OnOk result (IsTable table.new) }
    ensures at { OnOk result (IsAt p.now role code.now (i + 1) next.new
        (value_of table.new)) }
    ensures refused { IfErr result (Refuses p.now role code.now) }
{
    let _ = p;
    let _ = role;
    let instr = &code.instrs()[i];
    match job_of(alloc, code.formats(), instr)? {
        Some(job) => work(alloc, job, i as u32 + 1, table),
        None => meet(alloc, instr, next_event(events, next), i as u32 + 1, table),
    }
}

/// The next event, behind which `next` then stands.
fn next_event<'a>(events: &'a [Event], next: &mut usize) -> &'a Event
    requires { next.old < length events.now }
    ensures next { next.new ≡ next.old + 1 }
    ensures event { slice_get events.now next.old ≡ Some result.now }
{
    let at = *next;
    *next = at + 1;
    &events[at]
}

/// A job, where its demand is true.
fn work(alloc: Global, job: Job, at: u32, table: &mut Table) -> Result<(), CertifyNo>
    requires table { IsTable table.old }
    requires stands { (p : ProtocolValue) × (role : ℕ) × (code : CodeValue) × (acts : List Act)
        × (es : List plays.Event)
        × Stands p role code (works (work_of job) ∷ acts) es at (value_of table.old) }
    ensures table { OnOk result (IsTable table.new) }
    ensures stands { OnOk result ((p : ProtocolValue) (role : ℕ) (code : CodeValue)
        (acts : List Act) (es : List plays.Event)
        → Stands p role code (works (work_of job) ∷ acts) es at (value_of table.old)
        → Stands p role code acts es (at + 1) (value_of table.new)) }
    ensures refused { IfErr result (λ no. (p : ProtocolValue) (role : ℕ) (code : CodeValue)
        (acts : List Act) (es : List plays.Event)
        → Stands p role code (works (work_of job) ∷ acts) es at (value_of table.old)
        → Refuses p role code no) }
{
    if table.work(alloc, job)? {
        return Ok(());
    }
    Err(CertifyNo::Untrue(at))
}

/// An instruction that does an event.
fn meet(
    alloc: Global,
    instr: &Instr,
    event: &Event,
    at: u32,
    table: &mut Table,
) -> Result<(), CertifyNo>
    requires table { IsTable table.old }
    requires event { is_work instr.now ≡ false }
    requires stands { (p : ProtocolValue) × (role : ℕ) × (code : CodeValue) × (acts : List Act)
        × (es : List plays.Event) × Stands p role code (act_of code.formats instr.now ∷ acts)
        (event_of (plan_event event.now) ∷ es) at (value_of table.old) }
    ensures table { OnOk result (IsTable table.new) }
    ensures stands { OnOk result ((p : ProtocolValue) (role : ℕ) (code : CodeValue)
        (acts : List Act) (es : List plays.Event)
        → Stands p role code (act_of code.formats instr.now ∷ acts)
        (event_of (plan_event event.now) ∷ es) at (value_of table.old)
        → Stands p role code acts es (at + 1) (value_of table.new)) }
    ensures refused { IfErr result (λ no. (p : ProtocolValue) (role : ℕ) (code : CodeValue)
        (acts : List Act) (es : List plays.Event)
        → Stands p role code (act_of code.formats instr.now ∷ acts)
        (event_of (plan_event event.now) ∷ es) at (value_of table.old)
        → Refuses p role code no) }
{
    match event {
        Event::Know(term) => hear(alloc, term, table),
        Event::Fresh(term) => hear(alloc, term, table),
        Event::Recv { term, .. } => match border(alloc, table, at) {
            Ok(()) => hear(alloc, term, table),
            Err(no) => Err(no),
        },
        Event::Send { term, .. } => {
            let Instr::Send(r) = instr else {
                unreachable!()
            };
            if !table.holds(alloc, *r, term)? {
                return Err(CertifyNo::Sent(at));
            }
            border(alloc, table, at)
        }
    }
}

fn hear(alloc: Global, term: &Term, table: &mut Table) -> Result<(), CertifyNo>
    requires { IsTable table.old }
    ensures table { OnOk result (IsTable table.new) }
    ensures terms { OnOk result (terms_in table.new
        ≡ terms_in table.old ++ tree_of term.now ∷ []) }
    ensures did { OnOk result (did_in table.new ≡ did_in table.old) }
    ensures refused { IfErr result (λ no. no ≡ refusal.NoMemory) }
{
    table.hear(alloc, term)?;
    Ok(())
}

/// The code is enough before an instruction.
fn border(alloc: Global, table: &mut Table, at: u32) -> Result<(), CertifyNo>
    requires table { IsTable table.old }
    requires few { length (terms_in table.old) < 2 ^ 32 }
    requires told { AreTold (terms_in table.old) (did_in table.old) }
    ensures table { OnOk result (IsTable table.new) }
    ensures same { OnOk result (value_of table.new ≡ value_of table.old) }
    ensures enough { OnOk result (AreEnough (did_in table.old) (terms_in table.old)) }
    ensures loose { IfErr result (λ no. no ≢ refusal.NoMemory → (i : ℕ)
        × (no ≡ refusal.Loose at i) × IsLoose (did_in table.old) (terms_in table.old) i) }
{
    match table.first_loose(alloc)? {
        None => Ok(()),
        Some(register) => Err(CertifyNo::Loose { at, register }),
    }
}
