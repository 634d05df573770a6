//! The codes of roles, or the first action that can't be sent.
ghost use Rattle.std.specs.Prelude.{◌≡◌, ◌<◌, ◌≤◌, length, IfOk, OnOk, IfErr};
ghost use Rattle.anb_term.specs.Tree.{nodes};
ghost use Rattle.anb_plays.specs.Plans.{Sendable};
ghost use Rattle.anb_algebra.specs.ByteMeaning.{has_operator};
ghost use Rattle.anb_protocol.specs.Laws.{HoldsOf};
ghost use Rattle.anb_protocol.specs.Plans.{plan_of};
ghost use Rattle.anb_protocol.specs.Plays.{events_of, IsSendable};
ghost use Rattle.anb_compile.specs.Fitting.{FitsRole, FitRoles};
ghost use Rattle.anb_compile.specs.Unsent.{SendsAll, AllSendAll, RefusesRole, RefusesRoles, labels_of};
ghost use Rattle.anb_compile.specs.Counted.{count_demands, count_builds, count_subterms};
ghost use Rattle.anb_code.specs.Taking.{take_texts};
ghost use Rattle.anb_protocol.specs.Texts.{known_by, known_texts};
ghost use Rattle.anb_compile.specs.Emitting.{Emits, IsAdmitted, IsPlan, RefusesPlan, context_of, known_in};
ghost use Rattle.anb_compile.specs.Refusing.{IsSooner};
ghost use Rattle.anb_compile.specs.RoleCodes.{role_code};

use crate::CompileNo;
use crate::emission::emit;
use anb_base::NoMemory;
use anb_code::{Instr, RoleCode};
use anb_format::Format;
use anb_protocol::{Plan, Protocol, known_texts_differ, protocols_hold};
use std::alloc::Global;

/// The code of a role.
pub fn compile(alloc: Global, p: &Protocol, role: u32) -> Result<RoleCode, CompileNo>
    requires { role < length p.now.roles }
    ensures fits { IfOk result (FitsRole p.now role) }
    ensures sendable { OnOk result (Sendable (has_operator p.now.formats) (events_of p.now role)) }
    ensures sent { OnOk result (SendsAll p.now role) }
    ensures refused { IfErr result (RefusesRole p.now role) }
    ensures few { IfOk result (λ code.
        count_demands code ≤ nodes (labels_of (plan_of p.now role))) }
    ensures once { IfOk result (λ code. count_builds code ≤ count_subterms (plan_of p.now role)) }
{
    protocols_hold();
    let plan = p.plan(alloc, role)?;
    let code = match compile_plan(alloc, p, role, &plan) {
        Ok(code) => code,
        Err(no) => return Err(no),
    };
    Ok(code)
}

/// The code of a plan over what a role knows. The plan need not be the role's own: it may be that of
/// somebody else who knows the same.
pub fn compile_plan(
    alloc: Global,
    p: &Protocol,
    role: u32,
    plan: &Plan,
) -> Result<RoleCode, CompileNo>
    requires role { role < length p.now.roles }
    requires plan { IsPlan (context_of p.now plan.now) plan.now }
    requires known { known_in plan.now ≡ known_by p.now role }
    ensures names { IfOk result (λ code. code ≡ role_code p.now role code.instrs) }
    ensures texts { IfOk result (λ code. take_texts code.instrs ≡ known_texts p.now role) }
    ensures emits { IfOk result (λ code. Emits (context_of p.now plan.now) plan.now code.instrs) }
    ensures refused { IfErr result (RefusesPlan plan.now role) }
{
    protocols_hold();
    known_texts_differ();
    let _ = p.name();
    let texts = p.known(alloc, role)?;
    let instrs = match emit(alloc, role, texts, plan) {
        Ok(instrs) => instrs,
        Err(no) => return Err(no),
    };
    let code = role_code(alloc, p, role, instrs)?;
    Ok(code)
}

/// The code of a role that has these instructions.
fn role_code(
    alloc: Global,
    p: &Protocol,
    role: u32,
    instrs: Vec<Instr>,
) -> Result<RoleCode, NoMemory>
    requires role { role < length p.now.roles }
    requires holds { HoldsOf p.now }
    requires admitted { IsAdmitted p.now.formats instrs.items }
    ensures { IfOk result (λ code. code ≡ role_code p.now role instrs.items) }
{
    let protocol = p.name().copy(alloc)?;
    let name = p.roles()[role as usize].copy(alloc)?;
    let formats = copied_formats(alloc, p.formats())?;
    let suite = p.suite();
    let code = RoleCode::new(alloc, protocol, name, suite, formats, instrs)?;
    Ok(code)
}

fn copied_formats(alloc: Global, formats: &[Format]) -> Result<Vec<Format>, NoMemory>
    ensures { IfOk result (λ copies. copies.items ≡ formats.now) }
{
    let mut copies = Vec::new(alloc);
    for format in formats {
        copies.push(format.copy(alloc)?)?;
    }
    Ok(copies)
}

/// The codes of all roles, in order.
pub fn compile_all(alloc: Global, p: &Protocol) -> Result<Vec<RoleCode>, CompileNo>
    ensures fit { IfOk result (λ codes. FitRoles p.now codes.items) }
    ensures sendable { OnOk result (IsSendable p.now) }
    ensures sent { OnOk result (AllSendAll p.now) }
    ensures refused { IfErr result (RefusesRoles p.now) }
{
    let mut codes = Vec::new(alloc);
    let mut first = None;
    for role in 0..count_roles(p) {
        match compile(alloc, p, role) {
            Ok(code) => codes.push(code)?,
            Err(CompileNo::NoMemory) => return Err(CompileNo::NoMemory),
            Err(CompileNo::CannotSend { action, role }) => {
                first = Some(sooner(first, Unsent { action, role }));
            }
        }
    }
    match first {
        None => Ok(codes),
        Some(Unsent { action, role }) => Err(CompileNo::CannotSend { action, role }),
    }
}

/// How many roles there are, of which a protocol has few.
fn count_roles(p: &Protocol) -> u32
    ensures { result ≡ length p.now.roles }
{
    protocols_hold();
    let _ = p.name();
    p.roles().len() as u32
}

/// An action whose message its role can't compose.
#[derive(Clone, Copy)]
pub(crate) struct Unsent {
    pub(crate) action: u32,
    pub(crate) role: u32,
}

/// What comes first of the actions that can't be sent, where `next` is the next role's first one.
fn sooner(first: Option<Unsent>, next: Unsent) -> Unsent
    ensures { IsSooner first next result }
{
    match first {
        None => next,
        Some(unsent) => {
            if unsent.action <= next.action {
                unsent
            } else {
                next
            }
        }
    }
}
