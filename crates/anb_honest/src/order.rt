//! Whether a code keeps the order of a role's plan.
ghost use Rattle.std.specs.Prelude.{◌≡◌, ◌≢◌, ◌<◌, ◌≤◌, ◌↔◌, ◌++◌, List, [], ◌∷◌, length, map, take, filter_map, slice_get, Some, IfOk, IfSome, IfNone, IsTrue};
ghost use Rattle.anb_format.specs.Formats.{FormatValue};
ghost use Rattle.anb_code.specs.Meaning.{act_of};
ghost use Rattle.anb_code.specs.Taking.{take_texts};
ghost use Rattle.anb_protocol.specs.Plays.{event_of};
ghost use Rattle.anb_protocol.specs.Views.{plan_event};
ghost use Rattle.anb_honest.specs.declared.kind.Kind.{Kind};
ghost use Rattle.anb_honest.specs.Kinds.{kind_of, kinds_of, event_kind};
ghost use Rattle.anb_compile.specs.Fitting.{FollowsRole};

use crate::kind::Kind;
use anb_base::{NoMemory, Suite, Text};
use anb_code::{Instr, RoleCode};
use anb_format::{Format, Piece};
use anb_protocol::{Event, Protocol};
use std::alloc::Global;

/// Whether a code has the suite, the formats and the names of a role of a protocol, and its takes,
/// nonces, arrivals and sends are in order those of the role's plan, with the canonical texts of what
/// the role knows. Nothing is said of what it sends and checks.
pub fn follows(alloc: Global, p: &Protocol, role: u32, code: &RoleCode) -> Result<bool, NoMemory>
    requires { role < length p.now.roles }
    ensures { IfOk result (λ follows. IsTrue follows ↔ FollowsRole p.now role code.now) }
{
    if !same_suite(code.suite(), p.suite()) || !same_formats(code.formats(), p.formats()) {
        return Ok(false);
    }
    if !same_text(code.protocol(), p.name()) || !same_text(code.role(), &p.roles()[role as usize]) {
        return Ok(false);
    }
    let texts = p.known(alloc, role)?;
    let plan = p.plan(alloc, role)?;
    Ok(takes_these(code, &texts) && keeps_order(code.instrs(), plan.events()))
}

fn same_suite(one: Suite, other: Suite) -> bool
    ensures { IsTrue result ↔ (one ≡ other) }
{
    one == other
}

fn same_text(one: &Text, other: &Text) -> bool
    ensures { IsTrue result ↔ (one.now ≡ other.now) }
{
    one.as_str() == other.as_str()
}

fn same_formats(ones: &[Format], others: &[Format]) -> bool
    ensures { IsTrue result ↔ (ones.now ≡ others.now) }
{
    if ones.len() != others.len() {
        return false;
    }
    for (i, one) in ones.iter().enumerate() {
        if !same_format(one, &others[i]) {
            return false;
        }
    }
    true
}

fn same_format(one: &Format, other: &Format) -> bool
    ensures { IsTrue result ↔ (one.now ≡ other.now) }
{
    same_text(one.name(), other.name()) && same_pieces(one.pieces(), other.pieces())
}

fn same_pieces(ones: &[Piece], others: &[Piece]) -> bool
    ensures { IsTrue result ↔ (ones.now ≡ others.now) }
{
    if ones.len() != others.len() {
        return false;
    }
    for (i, one) in ones.iter().enumerate() {
        if !same_piece(one, &others[i]) {
            return false;
        }
    }
    true
}

fn same_piece(one: &Piece, other: &Piece) -> bool
    ensures { IsTrue result ↔ (one.now ≡ other.now) }
{
    match (one, other) {
        (Piece::Lit(one), Piece::Lit(other)) => one.as_slice() == other.as_slice(),
        (Piece::Field(one), Piece::Field(other)) => one == other,
        _ => false,
    }
}

/// Whether the takes of a code have these texts, in order.
fn takes_these(code: &RoleCode, texts: &[Text]) -> bool
    ensures { IsTrue result ↔ (take_texts code.now.instrs ≡ texts.now) }
{
    if code.takes() as usize != texts.len() {
        return false;
    }
    for (i, text) in texts.iter().enumerate() {
        if !same_text(code.take_text(i as u32), text) {
            return false;
        }
    }
    true
}

/// Whether the instructions that meet the outside are of the events' kinds, in order.
fn keeps_order(instrs: &[Instr], events: &[Event]) -> bool
    ensures { (formats : List FormatValue) → IsTrue result
        ↔ (filter_map kind_of (map (act_of formats) instrs.now)
        ≡ kinds_of events.now) }
{
    let mut next = 0;
    for instr in instrs {
        match behind(instr, events, next) {
            Some(later) => next = later,
            None => return false,
        }
    }
    next == events.len()
}

/// How many events are done with an instruction, where so many are done before it. There are none
/// such where the instruction meets the outside and the next event is of another kind.
fn behind(instr: &Instr, events: &[Event], next: usize) -> Option<usize>
    requires { next ≤ length events.now }
    ensures within { IfSome result (λ later. later ≤ length events.now) }
    ensures some { IfSome result (λ later. (formats : List FormatValue)
        → take later (kinds_of events.now) ≡ take next (kinds_of events.now)
        ++ filter_map kind_of (act_of formats instr.now ∷ [])) }
    ensures none { IfNone result ((formats : List FormatValue) → (kind : Kind)
        × (kind_of (act_of formats instr.now) ≡ Some kind)
        × (slice_get (kinds_of events.now) next ≢ Some kind)) }
{
    let Some(kind) = kind_of(instr) else {
        return Some(next);
    };
    if next == events.len() {
        return None;
    }
    if !same_kind(event_kind(&events[next]), kind) {
        return None;
    }
    Some(next + 1)
}

fn same_kind(one: Kind, other: Kind) -> bool
    ensures { IsTrue result ↔ (one ≡ other) }
{
    one == other
}

/// The kind of an instruction that meets the outside.
fn kind_of(instr: &Instr) -> Option<Kind>
    ensures { (formats : List FormatValue) → result ≡ kind_of (act_of formats instr.now) }
{
    match instr {
        Instr::Take(_) => Some(Kind::Know),
        Instr::Fresh => Some(Kind::Make),
        Instr::Recv => Some(Kind::Receive),
        Instr::Send(_) => Some(Kind::Send),
        Instr::Hash(_)
        | Instr::Mac(_, _)
        | Instr::Seal(_, _)
        | Instr::Unseal(_, _)
        | Instr::Wrap(_, _, _)
        | Instr::Unwrap(_, _, _)
        | Instr::Build(_, _)
        | Instr::Parse(_, _)
        | Instr::Equal(_, _) => None,
    }
}

fn event_kind(event: &Event) -> Kind
    ensures { result ≡ event_kind (event_of (plan_event event.now)) }
{
    match event {
        Event::Know(_) => Kind::Know,
        Event::Fresh(_) => Kind::Make,
        Event::Send { .. } => Kind::Send,
        Event::Recv { .. } => Kind::Receive,
    }
}
