//! The frame of a code: its names, and the order of its takes, draws, receives and sends.
ghost use Rattle.std.specs.Prelude.{◌≡◌, ◌↔◌, ◌+◌, ◌<◌, ◌≤◌, ◌∷◌, ℕ, List, Some, drop, length, map, IsTrue, IfOk, MatchOption};
ghost use Rattle.std.specs.List.{AllByRecursion};
ghost use Rattle.anb_protocol.specs.Plans.{term_in};
ghost use Rattle.anb_protocol.specs.Texts.{IsTermOf};
ghost use Rattle.anb_protocol.specs.Views.{plan_event};
ghost use Rattle.anb_certify.specs.Certified.{does_event, is_work, stray, HasNames};

use anb_base::{NoMemory, Text};
use anb_code::{Instr, RoleCode};
use anb_format::{Format, Piece};
use anb_protocol::{Event, Protocol};
use std::alloc::Global;

/// Whether suite, formats and names are the protocol's and the role's.
pub(crate) fn has_names(p: &Protocol, role: u32, code: &RoleCode) -> bool
    requires { role < length p.now.roles }
    ensures { IsTrue result ↔ HasNames p.now role code.now }
{
    code.suite() == p.suite()
        && same_formats(code.formats(), p.formats())
        && same_text(code.protocol(), p.name())
        && same_text(code.role(), &p.roles()[role as usize])
}

fn same_text(a: &Text, b: &Text) -> bool
    ensures { IsTrue result ↔ (a.now ≡ b.now) }
{
    a.as_str() == b.as_str()
}

fn same_formats(a: &[Format], b: &[Format]) -> bool
    ensures { IsTrue result ↔ (a.now ≡ b.now) }
{
    if a.len() != b.len() {
        return false;
    }
    for i in 0..a.len() {
        if !same_format(&a[i], &b[i]) {
            return false;
        }
    }
    true
}

fn same_format(a: &Format, b: &Format) -> bool
    ensures { IsTrue result ↔ (a.now ≡ b.now) }
{
    same_text(a.name(), b.name()) && same_pieces(a.pieces(), b.pieces())
}

fn same_pieces(a: &[Piece], b: &[Piece]) -> bool
    ensures { IsTrue result ↔ (a.now ≡ b.now) }
{
    if a.len() != b.len() {
        return false;
    }
    for i in 0..a.len() {
        if !same_piece(&a[i], &b[i]) {
            return false;
        }
    }
    true
}

fn same_piece(a: &Piece, b: &Piece) -> bool
    ensures { IsTrue result ↔ (a.now ≡ b.now) }
{
    match (a, b) {
        (Piece::Lit(text), Piece::Lit(other)) => text.as_slice() == other.as_slice(),
        (Piece::Field(kind), Piece::Field(other)) => kind == other,
        _ => false,
    }
}

/// The number of the first take, draw, receive or send that isn't the plan's next, or one more than
/// the last instruction's, where events are left.
pub(crate) fn stray(
    alloc: Global,
    p: &Protocol,
    instrs: &[Instr],
    events: &[Event],
) -> Result<Option<u32>, NoMemory>
    requires few { length instrs.now + 1 < 4294967296 }
    requires terms { AllByRecursion (λ e. IsTermOf p.now (term_in e)) (map plan_event events.now) }
    ensures { IfOk result (λ n. n ≡ stray p.now instrs.now (map plan_event events.now) 1) }
{
    let mut next = 0;
    for i in 0..instrs.len() {
        match after(alloc, p, &instrs[i], events, next)? {
            Some(further) => next = further,
            None => return Ok(Some(i as u32 + 1)),
        }
    }
    if next < events.len() {
        return Ok(Some(instrs.len() as u32 + 1));
    }
    Ok(None)
}

/// How many events are done behind an instruction, or None where it isn't the plan's next.
fn after(
    alloc: Global,
    p: &Protocol,
    instr: &Instr,
    events: &[Event],
    next: usize,
) -> Result<Option<usize>, NoMemory>
    requires within { next ≤ length events.now }
    requires terms { AllByRecursion (λ e. IsTermOf p.now (term_in e)) (map plan_event events.now) }
    ensures { IfOk result (λ after. MatchOption after
        ((is : List Instr) (n : ℕ) → stray p.now (instr.now ∷ is)
        (drop next (map plan_event events.now)) n ≡ Some n)
        (λ k. (k ≤ length events.now) × ((is : List Instr) (n : ℕ) → stray p.now (instr.now ∷ is)
        (drop next (map plan_event events.now)) n
        ≡ stray p.now is (drop k (map plan_event events.now)) (n + 1)))) }
{
    if is_work(instr) {
        return Ok(Some(next));
    }
    if next == events.len() {
        return Ok(None);
    }
    let event = &events[next];
    if does_event(alloc, p, instr, event)? {
        return Ok(Some(next + 1));
    }
    Ok(None)
}

/// Whether an instruction works on registers alone.
fn is_work(instr: &Instr) -> bool
    ensures { result ≡ is_work instr.now }
{
    !matches!(
        instr,
        Instr::Take(_) | Instr::Fresh | Instr::Recv | Instr::Send(_)
    )
}

/// Whether an instruction does an event; a take has the text of what is known.
fn does_event(alloc: Global, p: &Protocol, instr: &Instr, event: &Event) -> Result<bool, NoMemory>
    requires { IsTermOf p.now (term_in (plan_event event.now)) }
    ensures { IfOk result (λ does. does ≡ does_event p.now instr.now (plan_event event.now)) }
{
    match (instr, event) {
        (Instr::Take(text), Event::Know(term)) => {
            let known = p.text_of_term(alloc, term)?;
            Ok(text.as_str() == known.as_str())
        }
        (Instr::Fresh, Event::Fresh(_)) => Ok(true),
        (Instr::Recv, Event::Recv { .. }) => Ok(true),
        (Instr::Send(_), Event::Send { .. }) => Ok(true),
        _ => Ok(false),
    }
}
