//! Which roles can't see what was chosen.
ghost use Rattle.std.specs.Prelude.{◌≡◌, ◌≤◌, ◌<◌, ◌^◌, length, map, true, Some, None, IfOk};
ghost use Rattle.std.specs.List.{AllByRecursion, list_any};
ghost use Rattle.std.specs.Option.{option_map};
ghost use Rattle.anb_index.specs.Places.{among};
ghost use Rattle.anb_term.specs.View.{tree_of};
ghost use Rattle.anb_protocol.specs.Protocols.{ProtocolValue};
ghost use Rattle.anb_protocol.specs.Views.{plan_event};
ghost use Rattle.anb_choice.specs.Lawful.{are_same_names, arm_part, blind, blind_in, is_format, is_free, plan_named, received_format, root_format, roles_in, stem_len, tells, told_by, unseen_in};
ghost use Rattle.anb_choice.specs.Views.{branched_of};

use crate::branched::{Branched, roles_in};
use crate::plans::{behind, plan_named, stem_len};
use anb_base::{NoMemory, Text};
use anb_protocol::{Event, Protocol};
use anb_term::{Op, Term};
use std::alloc::Global;

/// The format at the root of a term.
fn root_format(t: &Term) -> Option<u16>
    ensures { result ≡ root_format (tree_of t.now) }
{
    match t {
        Term::Node(Op::Format { index, .. }, _) => Some(*index),
        _ => None,
    }
}

/// The format of the message, where the events begin with a receive.
fn received_format(events: &[Event]) -> Option<u16>
    ensures { result ≡ received_format (map plan_event events.now) }
{
    match events {
        [Event::Recv { term, .. }, ..] => root_format(term),
        _ => None,
    }
}

/// Whether the role has an action of its own in the arm.
fn is_free(alloc: Global, stem: u32, p: &Protocol, role: &Text) -> Result<bool, NoMemory>
    requires { among p.now.roles role.now ≡ true }
    ensures { IfOk result (λ free. free ≡ is_free stem role.now p.now) }
{
    let plan = plan_named(alloc, p, role)?;
    let events = plan.events();
    Ok(stem_len(stem, events) < events.len())
}

/// The format of the message that the role receives first in the arm.
fn told_by(alloc: Global, stem: u32, p: &Protocol, role: &Text) -> Result<Option<u16>, NoMemory>
    requires { among p.now.roles role.now ≡ true }
    ensures { IfOk result (λ told. told ≡ told_by stem role.now p.now) }
{
    let plan = plan_named(alloc, p, role)?;
    let events = plan.events();
    Ok(received_format(behind(events, stem_len(stem, events))))
}

/// Whether the role has an action of its own in some arm.
fn is_free_somewhere(
    alloc: Global,
    stem: u32,
    arms: &[Protocol],
    role: &Text,
) -> Result<bool, NoMemory>
    requires { AllByRecursion (λ (p : ProtocolValue). among p.roles role.now ≡ true) arms.now }
    ensures { IfOk result (λ free. free ≡ list_any (is_free stem role.now) arms.now) }
{
    for p in arms {
        if is_free(alloc, stem, p, role)? {
            return Ok(true);
        }
    }
    Ok(false)
}

/// For each arm the format of the message that the role receives first there.
fn told_in_each(
    alloc: Global,
    stem: u32,
    arms: &[Protocol],
    role: &Text,
) -> Result<Vec<Option<u16>>, NoMemory>
    requires { AllByRecursion (λ (p : ProtocolValue). among p.roles role.now ≡ true) arms.now }
    ensures { IfOk result (λ told. told.items ≡ map (told_by stem role.now) arms.now) }
{
    let mut told = Vec::new(alloc);
    for p in arms {
        told.push(told_by(alloc, stem, p, role)?)?;
    }
    Ok(told)
}

fn is_format(format: u16, other: &Option<u16>) -> bool
    ensures { result ≡ is_format format other.now }
{
    match other {
        None => false,
        Some(other) => format == *other,
    }
}

/// Whether one of these is the format.
fn has_format(told: &[Option<u16>], format: u16) -> bool
    ensures { result ≡ list_any (is_format format) told.now }
{
    told.iter().any(|other| is_format(format, other))
}

/// Whether the format tells an arm behind these.
fn tells(before: &[Option<u16>], told: Option<u16>) -> bool
    ensures { result ≡ tells before.now told }
{
    match told {
        None => false,
        Some(format) => !has_format(before, format),
    }
}

/// The first arm, from 1, that a role with these formats doesn't see to be taken.
fn unseen_in(told: &[Option<u16>]) -> Option<u32>
    requires { length told.now < 2 ^ 32 }
    ensures { result ≡ unseen_in told.now }
{
    for (i, format) in told.iter().enumerate() {
        if !tells(&told[..i], *format) {
            return Some(i as u32 + 1);
        }
    }
    None
}

/// The first arm that the role is blind in.
fn blind_in(alloc: Global, b: &Branched, role: &Text) -> Result<Option<u32>, NoMemory>
    requires few { length b.now.arms.items < 2 ^ 32 }
    requires role { AllByRecursion (λ (p : ProtocolValue).
        among p.roles role.now ≡ true) b.now.arms.items }
    ensures { IfOk result (λ arm. arm ≡ blind_in (branched_of b.now) role.now) }
{
    if role.as_str() == b.chooser.as_str() {
        return Ok(None);
    }
    if !is_free_somewhere(alloc, b.stem, &b.arms, role)? {
        return Ok(None);
    }
    let told = told_in_each(alloc, b.stem, &b.arms, role)?;
    Ok(unseen_in(&told))
}

/// The first role that is blind in some arm, and its first such arm.
pub(crate) fn blind(alloc: Global, b: &Branched) -> Result<Option<(Text, u32)>, NoMemory>
    requires few { length b.now.arms.items < 2 ^ 32 }
    requires roles { AllByRecursion (λ (p : ProtocolValue).
        are_same_names (roles_in (branched_of b.now)) p.roles ≡ true) b.now.arms.items }
    ensures { IfOk result (λ r. r ≡ blind (branched_of b.now)) }
{
    for role in roles_in(b) {
        if let Some(arm) = blind_in(alloc, b, role)? {
            return Ok(Some((role.copy(alloc)?, arm)));
        }
    }
    Ok(None)
}
