//! A plan and a code for it, explained.
ghost use Rattle.std.specs.Prelude.{◌≡◌, ◌<◌, ◌++◌, codes, length, map, IfOk, Some};
ghost use Rattle.std.specs.List.{AllByRecursion};
ghost use Rattle.anb_term.specs.View.{tree_of};
ghost use Rattle.anb_protocol.specs.Plans.{plan_of, term_in};
ghost use Rattle.anb_protocol.specs.Texts.{IsTermOf};
ghost use Rattle.anb_protocol.specs.Views.{plan_event};
ghost use Rattle.anb_code.specs.Verified.{count_registers};
ghost use Rattle.anb_compile.specs.Fitting.{FitsRole};
ghost use Rattle.anb_text.specs.Writing.{IsWritten};
ghost use Rattle.anb_explain.specs.Explained.{IsExplained, explained_by, line, register_terms};
ghost use Rattle.anb_explain.specs.Explanations.{AreOurs};

use crate::code::write_code;
use crate::plan::write_plan;
use anb_base::{Bytes, NoMemory, Sink};
use anb_code::RoleCode;
use anb_compile::terms_of;
use anb_protocol::{Event, Plan, Protocol, terms_of_plans};
use anb_term::Term;
use anb_text::{Page, WriteNo, write_bytes, write_part};
use std::alloc::Global;
use std::marker::Model;

/// What is told of a role beside its code: its plan, and the terms of the code's registers.
#[derive(Drop)]
pub struct Explanation {
    plan: Plan,
    terms: Vec<Term>,
}

impl Model for Explanation {
    ghost use Rattle.std.specs.Prelude.{map};
    ghost use Rattle.anb_term.specs.View.{tree_of};
    ghost use Rattle.anb_explain.specs.Explanations.{ExplanationValue, coded_explanation};

    ghost Value = { ExplanationValue };

    ghost coded = { coded_explanation };

    ghost view = { λ e. record { plan = e.plan; terms = map tree_of e.terms.items } };
}

impl Explanation {
    ghost use Rattle.std.specs.Prelude.{◌≡◌, map};
    ghost use Rattle.anb_term.specs.View.{tree_of};

    /// The events of the plan.
    pub fn events(&self) -> &[Event]
        ensures { map plan_event result.now ≡ self.now.plan }
    {
        self.plan.events()
    }

    /// The terms of the code's registers, in the order of writing.
    pub fn terms(&self) -> &[Term]
        ensures { map tree_of result.now ≡ self.now.terms }
    {
        self.terms.as_slice()
    }
}

/// What a role does, by its plan and by a code for it, as a text.
pub fn explain(
    alloc: Global,
    protocol: &Protocol,
    role: u32,
    code: &RoleCode,
) -> Result<Bytes, NoMemory>
    requires role { role < length protocol.now.roles }
    requires fits { FitsRole protocol.now role code.now }
    ensures { IfOk result (IsExplained protocol.now role code.now) }
{
    let explanation = explanation_of(alloc, protocol, role, code)?;
    let mut page = Page::new(alloc);
    match write_explanation(alloc, &mut page, protocol, code, &explanation) {
        Ok(()) => Ok(page.into_bytes()),
        Err(_) => Err(NoMemory),
    }
}

/// The plan of a role, and the terms of the registers of a code for it.
pub fn explanation_of(
    alloc: Global,
    protocol: &Protocol,
    role: u32,
    code: &RoleCode,
) -> Result<Explanation, NoMemory>
    requires role { role < length protocol.now.roles }
    requires fits { FitsRole protocol.now role code.now }
    ensures is { IfOk result (λ e. IsExplained protocol.now role code.now
        (explained_by protocol.now e.plan code.now e.terms)) }
    ensures ours { IfOk result (λ e. AreOurs protocol.now code.now e) }
    ensures plan { IfOk result (λ e. e.plan ≡ plan_of protocol.now role) }
    ensures terms { IfOk result (λ e. register_terms protocol.now role code.now ≡ Some e.terms) }
{
    terms_of_plans();
    let plan = protocol.plan(alloc, role)?;
    let terms = terms_of(alloc, code, &plan)?;
    Ok(Explanation { plan, terms })
}

/// Writes what a role does, a line at a time.
pub fn write_explanation<K: Sink>(
    alloc: Global,
    snk: &mut K,
    protocol: &Protocol,
    code: &RoleCode,
    explanation: &Explanation,
) -> Result<(), WriteNo>
    requires { AreOurs protocol.now code.now explanation.now }
    ensures written { IsWritten
        (explained_by protocol.now explanation.now.plan code.now explanation.now.terms) result
        (K.written snk.old) (K.written snk.new) (K.faults snk.old) (K.faults snk.new) }
    ensures kept { K.kept snk.new ≡ K.kept snk.old }
{
    write_parts(
        alloc,
        snk,
        protocol,
        explanation.plan.events(),
        code,
        &explanation.terms,
    )
}

/// Writes a plan, and a code with the terms of its registers.
fn write_parts<K: Sink>(
    alloc: Global,
    snk: &mut K,
    protocol: &Protocol,
    events: &[Event],
    code: &RoleCode,
    terms: &[Term],
) -> Result<(), WriteNo>
    requires plan { AllByRecursion (λ e. IsTermOf protocol.now (term_in e))
        (map plan_event events.now) }
    requires terms { AllByRecursion (IsTermOf protocol.now) (map tree_of terms.now) }
    requires count { length terms.now ≡ count_registers code.now.formats code.now.instrs }
    ensures written { IsWritten (explained_by protocol.now (map plan_event events.now) code.now
        (map tree_of terms.now)) result
        (K.written snk.old) (K.written snk.new) (K.faults snk.old) (K.faults snk.new) }
    ensures kept { K.kept snk.new ≡ K.kept snk.old }
{
    match write_part(snk, head_text(alloc, code)) {
        Ok(()) => {}
        Err(no) => return Err(no),
    }
    match write_plan(alloc, snk, protocol, events) {
        Ok(()) => {}
        Err(no) => return Err(no),
    }
    match write_bytes(snk, b"code\n") {
        Ok(()) => {}
        Err(no) => return Err(no),
    }
    write_code(alloc, snk, protocol, code, terms)
}

/// The line above the plan.
fn head_text(alloc: Global, code: &RoleCode) -> Result<Vec<u8>, NoMemory>
    ensures { IfOk result (λ bytes. bytes.items ≡ line (codes "role " ++ code.now.role)) }
{
    let mut out = Vec::from_slice(alloc, b"role ")?;
    out.extend_from_slice(code.role().as_str().as_bytes())?;
    out.push(b'\n')?;
    Ok(out)
}
