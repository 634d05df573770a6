//! Notes on a protocol as a whole.
ghost use Rattle.std.specs.Prelude.{◌≡◌, ◌<◌, ◌++◌, map, length, IfOk, OnOk};
ghost use Rattle.std.specs.List.{flat_map, list_any, range_with_len};
ghost use Rattle.anb_code.specs.Spelling.{name_at};
ghost use Rattle.anb_report.specs.Looking.{is_among};
ghost use Rattle.anb_term.specs.Tree.{trees_of};
ghost use Rattle.anb_term.specs.View.{tree_of};
ghost use Rattle.anb_protocol.specs.Plans.{term_in};
ghost use Rattle.anb_protocol.specs.Views.{action_value, plan_event};
ghost use Rattle.anb_protocol.specs.Protocols.{role_name};
ghost use Rattle.anb_report.specs.Remarks.{format_of, formats_in, formats_in_all, is_from, is_repeated, is_to, never, plan_formats, remarks, repeated, repeats, silent_role, silent_roles, unused, unused_format, unused_formats, used_formats};

use crate::lists::is_same;
use crate::names::put_unused_names;
use crate::reporting::{put_number, put_role_name};
use anb_base::NoMemory;
use anb_format::Format;
use anb_protocol::{Action, Event, Protocol, protocols_hold};
use anb_term::{Op, Term};
use std::alloc::Global;

/// Appends the notes on a protocol.
pub(crate) fn put_remarks(
    alloc: Global,
    out: &mut Vec<u8>,
    protocol: &Protocol,
) -> Result<(), NoMemory>
    ensures { OnOk result (out.new.items ≡ out.old.items ++ remarks protocol.now) }
{
    put_unused_names(alloc, out, protocol)?;
    let used = used_formats(alloc, protocol)?;
    put_unused_formats(out, protocol.formats(), &used)?;
    put_silent_roles(out, protocol)?;
    put_repeats(out, protocol.messages())?;
    Ok(())
}

pub(crate) fn count_roles(protocol: &Protocol) -> u32
    ensures { result ≡ length protocol.now.roles }
{
    protocols_hold();
    let _actions = protocol.messages();
    protocol.roles().len() as u32
}

/// The formats in what each role knows, sends and receives.
fn used_formats(alloc: Global, protocol: &Protocol) -> Result<Vec<usize>, NoMemory>
    ensures { IfOk result (λ used. used.items ≡ used_formats protocol.now) }
{
    let mut out = Vec::new(alloc);
    for role in 0..count_roles(protocol) {
        put_plan_formats(alloc, &mut out, protocol, role)?;
    }
    Ok(out)
}

fn put_plan_formats(
    alloc: Global,
    out: &mut Vec<usize>,
    protocol: &Protocol,
    role: u32,
) -> Result<(), NoMemory>
    requires { role < length protocol.now.roles }
    ensures { OnOk result (out.new.items ≡ out.old.items ++ plan_formats protocol.now role) }
{
    let plan = protocol.plan(alloc, role)?;
    put_event_formats(out, plan.events())?;
    Ok(())
}

fn put_event_formats(out: &mut Vec<usize>, events: &[Event]) -> Result<(), NoMemory>
    ensures { OnOk result (out.new.items
        ≡ out.old.items ++ flat_map (λ e. formats_in (term_in e)) (map plan_event events.now)) }
{
    for event in events {
        put_formats(out, event.term())?;
    }
    Ok(())
}

/// Appends the formats in a term.
#[cycle(formats)]
fn put_formats(out: &mut Vec<usize>, term: &Term) -> Result<(), NoMemory>
    ensures { OnOk result (out.new.items ≡ out.old.items ++ formats_in (tree_of term.now)) }
{
    match term {
        Term::Atom(_) => Ok(()),
        Term::Node(op, operands) => {
            put_format_of(out, *op)?;
            put_all_formats(out, operands.as_slice())
        }
    }
}

/// Appends those in each of these terms.
#[cycle(formats)]
fn put_all_formats(out: &mut Vec<usize>, terms: &[Term]) -> Result<(), NoMemory>
    ensures { OnOk result (out.new.items
        ≡ out.old.items ++ formats_in_all (trees_of (map tree_of terms.now))) }
{
    for term in terms {
        put_formats(out, term)?;
    }
    Ok(())
}

fn put_format_of(out: &mut Vec<usize>, op: Op) -> Result<(), NoMemory>
    ensures { OnOk result (out.new.items ≡ out.old.items ++ format_of op) }
{
    if let Op::Format { index, .. } = op {
        out.push(index as usize)?;
    }
    Ok(())
}

fn put_unused_formats(out: &mut Vec<u8>, formats: &[Format], used: &[usize]) -> Result<(), NoMemory>
    ensures { OnOk result (out.new.items ≡ out.old.items
        ++ flat_map (unused_format formats.now used.now) (range_with_len 0 (length formats.now))) }
{
    for i in 0..formats.len() {
        put_unused_format(out, formats, used, i)?;
    }
    Ok(())
}

fn put_unused_format(
    out: &mut Vec<u8>,
    formats: &[Format],
    used: &[usize],
    i: usize,
) -> Result<(), NoMemory>
    ensures { OnOk result (out.new.items
        ≡ out.old.items ++ unused_format formats.now used.now i) }
{
    put_unused(
        out,
        is_used(used, i),
        b"the format ",
        format_name(formats, i),
    )
}

fn is_used(used: &[usize], i: usize) -> bool
    ensures { result ≡ is_among used.now i }
{
    used.contains(&i)
}

/// Appends that nothing uses what has this name, where that is so.
pub(crate) fn put_unused(
    out: &mut Vec<u8>,
    there: bool,
    kind: &[u8],
    name: &[u8],
) -> Result<(), NoMemory>
    ensures { OnOk result (out.new.items ≡ out.old.items ++ unused there kind.now name.now) }
{
    if there {
        return Ok(());
    }
    out.extend_from_slice(b"note: nothing uses ")?;
    out.extend_from_slice(kind)?;
    out.extend_from_slice(name)?;
    out.push(b'\n')?;
    Ok(())
}

fn format_name(formats: &[Format], i: usize) -> &[u8]
    ensures { result.now ≡ name_at formats.now i }
{
    match formats.get(i) {
        Some(format) => format.name().as_str().as_bytes(),
        None => b"",
    }
}

fn put_silent_roles(out: &mut Vec<u8>, protocol: &Protocol) -> Result<(), NoMemory>
    ensures { OnOk result (out.new.items ≡ out.old.items ++ silent_roles protocol.now) }
{
    for role in 0..count_roles(protocol) {
        put_silent_role(out, protocol, role)?;
    }
    Ok(())
}

fn put_silent_role(out: &mut Vec<u8>, protocol: &Protocol, role: u32) -> Result<(), NoMemory>
    ensures { OnOk result (out.new.items ≡ out.old.items ++ silent_role protocol.now role) }
{
    let receives = receives(protocol.messages(), role);
    put_never(out, protocol, role, receives, b" never receives")?;
    let sends = sends(protocol.messages(), role);
    put_never(out, protocol, role, sends, b" never sends")?;
    Ok(())
}

fn put_never(
    out: &mut Vec<u8>,
    protocol: &Protocol,
    role: u32,
    there: bool,
    what: &[u8],
) -> Result<(), NoMemory>
    ensures { OnOk result (out.new.items
        ≡ out.old.items ++ never there (role_name protocol.now role) what.now) }
{
    if there {
        return Ok(());
    }
    out.extend_from_slice(b"note: role ")?;
    put_role_name(out, protocol, role)?;
    out.extend_from_slice(what)?;
    out.push(b'\n')?;
    Ok(())
}

fn receives(actions: &[Action], role: u32) -> bool
    ensures { result ≡ list_any (is_to role) (map action_value actions.now) }
{
    for action in actions {
        if action.to == role {
            return true;
        }
    }
    false
}

fn sends(actions: &[Action], role: u32) -> bool
    ensures { result ≡ list_any (is_from role) (map action_value actions.now) }
{
    for action in actions {
        if action.from == role {
            return true;
        }
    }
    false
}

fn put_repeats(out: &mut Vec<u8>, actions: &[Action]) -> Result<(), NoMemory>
    ensures { OnOk result (out.new.items ≡ out.old.items
        ++ flat_map (repeated (map action_value actions.now)) (range_with_len 0 (length actions.now))) }
{
    for i in 0..actions.len() {
        put_repeated(out, actions, i)?;
    }
    Ok(())
}

fn put_repeated(out: &mut Vec<u8>, actions: &[Action], i: usize) -> Result<(), NoMemory>
    requires { i < length actions.now }
    ensures { OnOk result (out.new.items
        ≡ out.old.items ++ repeated (map action_value actions.now) i) }
{
    if !is_repeated(actions, i) {
        return Ok(());
    }
    out.extend_from_slice(b"note: actions ")?;
    put_number(out, i + 1)?;
    out.extend_from_slice(b" and ")?;
    put_number(out, i + 2)?;
    out.extend_from_slice(b" have the same message")?;
    out.push(b'\n')?;
    Ok(())
}

/// Whether an action has the message of the next one.
fn is_repeated(actions: &[Action], i: usize) -> bool
    requires { i < length actions.now }
    ensures { result ≡ is_repeated (map action_value actions.now) i }
{
    if i + 1 < actions.len() {
        is_same(&actions[i].message, &actions[i + 1].message)
    } else {
        false
    }
}
