//! What a role that can't see the choice does first in an arm.
ghost use Rattle.std.specs.Prelude.{◌≡◌, ◌++◌, decimal, map, IfOk, OnOk};
ghost use Rattle.anb_term.specs.View.{tree_of};
ghost use Rattle.anb_protocol.specs.Views.{plan_event};
ghost use Rattle.anb_choice.specs.Lawful.{root_format};
ghost use Rattle.anb_choice.specs.Views.{branched_of};
ghost use Rattle.anb_check_commands.specs.ChoiceLines.{action_at, blind_line, first_action, first_at, first_behind, first_in, heard, numbered, own_first, why_blind};

use anb_base::{NoMemory, Text};
use anb_choice::Branched;
use anb_protocol::{Event, Protocol, protocols_hold};
use anb_term::{Op, Term};
use itoa::Buffer;
use std::alloc::Global;

/// What a role does first in an arm: nothing; or it sends an action, or receives one whose message has
/// no format at its root, or one that has.
#[derive(Clone, Copy, Debug, Drop)]
pub(crate) enum First {
    Nothing,
    Sends(u32),
    Opaque(u32),
    Hears(u32),
}

/// The format at the root of a message.
fn root_format(message: &Term) -> Option<u16>
    ensures { result ≡ root_format (tree_of message.now) }
{
    match message {
        Term::Node(Op::Format { index, .. }, _) => Some(*index),
        _ => None,
    }
}

fn heard(action: u32, format: Option<u16>) -> First
    ensures { result ≡ heard action format }
{
    match format {
        Some(_) => First::Hears(action),
        None => First::Opaque(action),
    }
}

/// What an event is, where it is of an action behind the first ones, so many.
fn own_first(stem: u32, event: &Event) -> Option<First>
    ensures { result ≡ own_first stem (plan_event event.now) }
{
    match event {
        Event::Know(_) => None,
        Event::Fresh(_) => None,
        Event::Send { action, .. } => {
            if *action <= stem {
                None
            } else {
                Some(First::Sends(*action))
            }
        }
        Event::Recv { action, term } => {
            if *action <= stem {
                None
            } else {
                Some(heard(*action, root_format(term)))
            }
        }
    }
}

fn first_behind(stem: u32, events: &[Event]) -> First
    ensures { result ≡ first_behind stem (map plan_event events.now) }
{
    for i in 0..events.len() {
        if let Some(first) = own_first(stem, &events[i]) {
            return first;
        }
    }
    First::Nothing
}

/// What the role of this name does first behind the stem.
fn first_in(alloc: Global, stem: u32, p: &Protocol, role: &Text) -> Result<First, NoMemory>
    ensures { IfOk result (λ first. first ≡ first_in stem p.now role.now) }
{
    match p.role_of(role.as_str().as_bytes()) {
        Some(number) => {
            let plan = p.plan(alloc, number)?;
            Ok(first_behind(stem, plan.events()))
        }
        None => Ok(First::Nothing),
    }
}

/// What the role does first in the arm with this number.
pub(crate) fn first_at(
    alloc: Global,
    b: &Branched,
    role: &Text,
    arm: u32,
) -> Result<First, NoMemory>
    ensures { IfOk result (λ first. first ≡ first_at (branched_of b.now) role.now arm) }
{
    match b.arms.get(arm.saturating_sub(1) as usize) {
        Some(p) => first_in(alloc, b.stem, p, role),
        None => Ok(First::Nothing),
    }
}

/// The first action of an arm, where it has one.
fn first_action(stem: u32, p: &Protocol) -> Option<u32>
    ensures { result ≡ first_action stem p.now }
{
    protocols_hold();
    let count = p.messages().len();
    if (stem as usize) < count {
        Some(stem + 1)
    } else {
        None
    }
}

fn first_action_at(b: &Branched, arm: u32) -> Option<u32>
    ensures { result ≡ action_at (branched_of b.now) arm First.Nothing }
{
    match b.arms.get(arm.saturating_sub(1) as usize) {
        Some(p) => first_action(b.stem, p),
        None => None,
    }
}

/// The action that is pointed at.
pub(crate) fn action_at(b: &Branched, arm: u32, first: First) -> Option<u32>
    ensures { result ≡ action_at (branched_of b.now) arm first }
{
    match first {
        First::Nothing => first_action_at(b, arm),
        First::Sends(action) => Some(action),
        First::Opaque(action) => Some(action),
        First::Hears(action) => Some(action),
    }
}

/// That a role is blind in an arm, and why.
pub(crate) fn blind_line(
    alloc: Global,
    role: &Text,
    arm: u32,
    first: First,
) -> Result<Vec<u8>, NoMemory>
    ensures { IfOk result (λ v. v.items ≡ blind_line role.now arm first) }
{
    let mut rest = Vec::from_slice(alloc, b": ")?;
    put_why(&mut rest, first)?;
    let mut out = Vec::from_slice(alloc, role.as_str().as_bytes())?;
    out.extend_from_slice(b" is blind in ")?;
    put_arm(&mut out, arm as usize, &rest)?;
    Ok(out)
}

/// Appends why a role is blind.
fn put_why(out: &mut Vec<u8>, first: First) -> Result<(), NoMemory>
    ensures { OnOk result (out.new.items ≡ out.old.items ++ why_blind first) }
{
    match first {
        First::Nothing => {
            out.extend_from_slice(b"it does nothing there")?;
            Ok(())
        }
        First::Sends(action) => {
            put_action(out, b"it sends action ", action, b" before it receives")
        }
        First::Opaque(action) => {
            put_action(
                out,
                b"the message of action ",
                action,
                b" is no format at its root",
            )
        }
        First::Hears(action) => {
            put_action(
                out,
                b"the message of action ",
                action,
                b" has the format of an earlier arm",
            )
        }
    }
}

fn put_action(out: &mut Vec<u8>, before: &[u8], action: u32, behind: &[u8]) -> Result<(), NoMemory>
    ensures { OnOk result (out.new.items
        ≡ out.old.items ++ (before.now ++ (decimal action ++ behind.now))) }
{
    let mut digits = Buffer::new();
    out.extend_from_slice(before)?;
    out.extend_from_slice(digits.format(action).as_bytes())?;
    out.extend_from_slice(behind)?;
    Ok(())
}

/// Appends the number of an arm, and what follows it.
pub(crate) fn put_arm(out: &mut Vec<u8>, arm: usize, rest: &[u8]) -> Result<(), NoMemory>
    ensures { OnOk result (out.new.items ≡ out.old.items ++ numbered arm rest.now) }
{
    let mut digits = Buffer::new();
    out.extend_from_slice(b"arm ")?;
    out.extend_from_slice(digits.format(arm).as_bytes())?;
    out.extend_from_slice(rest)?;
    Ok(())
}
