//! The report of all roles.
ghost use Rattle.std.specs.Prelude.{◌≡◌, ◌<◌, ◌++◌, [], map, length, count_by, decimal, IfOk, OnOk};
ghost use Rattle.anb_term.specs.View.{tree_of};
ghost use Rattle.anb_compile.specs.Fitting.{FitsRole, FitRoles};
ghost use Rattle.anb_protocol.specs.Laws.{HoldsOf};
ghost use Rattle.anb_protocol.specs.Plans.{names_made};
ghost use Rattle.anb_protocol.specs.Texts.{IsTermOf};
ghost use Rattle.anb_protocol.specs.Views.{action_value};
ghost use Rattle.anb_protocol.specs.Choices.{each_after};
ghost use Rattle.anb_protocol.specs.Protocols.{role_name};
ghost use Rattle.anb_report.specs.Reporting.{action_lines, counted, event_line, events_text, head_line, is_own, joined, new_for, notes_at_event, notes_line, peer, report, role_after, role_report, start_lines, with_new};

use crate::notes::notes_of;
use crate::remarks::put_remarks;
use anb_base::{Bytes, NoMemory, Text};
use anb_code::RoleCode;
use anb_explain::explanation_of;
use anb_pattern::{Notes, Taken};
use anb_protocol::{Action, Names, Protocol, protocols_hold};
use itoa::Buffer;
use std::alloc::Global;

/// The report on all roles of a protocol, by a code for each and by what each takes.
pub fn report(
    alloc: Global,
    protocol: &Protocol,
    codes: &[RoleCode],
    taken: &[Taken],
) -> Result<Bytes, NoMemory>
    requires fit { FitRoles protocol.now codes.now }
    requires taken { length taken.now ≡ length protocol.now.roles }
    ensures { IfOk result (λ text. text ≡ report protocol.now codes.now taken.now) }
{
    let mut out = Vec::new(alloc);
    put_roles(alloc, &mut out, protocol, codes, taken)?;
    put_remarks(alloc, &mut out, protocol)?;
    Ok(Bytes::new(out))
}

/// Appends the report on each role.
fn put_roles(
    alloc: Global,
    out: &mut Vec<u8>,
    protocol: &Protocol,
    codes: &[RoleCode],
    taken: &[Taken],
) -> Result<(), NoMemory>
    requires fit { FitRoles protocol.now codes.now }
    requires taken { length taken.now ≡ length protocol.now.roles }
    ensures { OnOk result (out.new.items
        ≡ out.old.items ++ each_after (role_after protocol.now taken.now) [] codes.now) }
{
    protocols_hold();
    let _actions = protocol.messages();
    let made = protocol.made(alloc)?;
    for (role, code) in codes.iter().enumerate() {
        put_role(alloc, out, protocol, role as u32, &made, code, &taken[role])?;
    }
    Ok(())
}

/// Appends the report on one role.
fn put_role(
    alloc: Global,
    out: &mut Vec<u8>,
    protocol: &Protocol,
    role: u32,
    made: &[Names],
    code: &RoleCode,
    taken: &Taken,
) -> Result<(), NoMemory>
    requires role { role < length protocol.now.roles }
    requires fits { FitsRole protocol.now role code.now }
    requires made { made.now ≡ names_made protocol.now }
    ensures { OnOk result (out.new.items ≡ out.old.items
        ++ role_report protocol.now role code.now taken.now) }
{
    protocols_hold();
    let explanation = explanation_of(alloc, protocol, role, code)?;
    let terms = explanation.terms();
    let own = notes_of(alloc, protocol, code, terms, taken.unchecked())?;
    let notes = joined(alloc, &own, taken.notes())?;
    put_head(out, protocol, role)?;
    put_start(out, notes_at(&notes, 0))?;
    put_events(
        alloc,
        out,
        protocol,
        role,
        protocol.messages(),
        made,
        &notes,
    )?;
    out.extend_from_slice(taken.lines())?;
    Ok(())
}

/// The notes of each event, and behind them further ones of it.
pub(crate) fn joined(
    alloc: Global,
    notes: &[Notes],
    further: &[Notes],
) -> Result<Vec<Notes>, NoMemory>
    ensures { IfOk result (λ all. all.items ≡ joined 0 notes.now further.now) }
{
    let mut out = Vec::new(alloc);
    for (event, own) in notes.iter().enumerate() {
        let both = both(alloc, own.as_slice(), notes_at(further, event))?;
        out.push(both)?;
    }
    Ok(out)
}

fn both(alloc: Global, one: &[Bytes], other: &[Bytes]) -> Result<Notes, NoMemory>
    ensures { IfOk result (λ notes. notes ≡ one.now ++ other.now) }
{
    let mut items = Vec::new(alloc);
    put_copies(alloc, &mut items, one)?;
    put_copies(alloc, &mut items, other)?;
    Ok(Notes::new(items))
}

fn put_copies(alloc: Global, out: &mut Vec<Bytes>, notes: &[Bytes]) -> Result<(), NoMemory>
    ensures { OnOk result (out.new.items ≡ out.old.items ++ notes.now) }
{
    for note in notes {
        let copy = Vec::from_slice(alloc, note.as_slice())?;
        out.push(Bytes::new(copy))?;
    }
    Ok(())
}

/// The notes of an event.
pub(crate) fn notes_at(notes: &[Notes], event: usize) -> &[Bytes]
    ensures { result.now ≡ notes_at_event notes.now event }
{
    match notes.get(event) {
        Some(notes) => notes.as_slice(),
        None => &[],
    }
}

/// Appends the line above a role's events.
fn put_head(out: &mut Vec<u8>, protocol: &Protocol, role: u32) -> Result<(), NoMemory>
    ensures { OnOk result (out.new.items ≡ out.old.items ++ head_line protocol.now role) }
{
    out.extend_from_slice(b"role ")?;
    put_role_name(out, protocol, role)?;
    out.extend_from_slice(b": ")?;
    put_counted(out, count_own(protocol.messages(), role))?;
    out.push(b'\n')?;
    Ok(())
}

/// Appends the name of a role.
pub(crate) fn put_role_name(
    out: &mut Vec<u8>,
    protocol: &Protocol,
    role: u32,
) -> Result<(), NoMemory>
    ensures { OnOk result (out.new.items ≡ out.old.items ++ role_name protocol.now role) }
{
    if let Some(name) = protocol.roles().get(role as usize) {
        out.extend_from_slice(name.as_str().as_bytes())?;
    }
    Ok(())
}

/// How many actions are a role's.
fn count_own(actions: &[Action], role: u32) -> usize
    ensures { result ≡ count_by (is_own role) (map action_value actions.now) }
{
    let mut count = 0;
    for action in actions {
        if is_own(role, action) {
            count += 1;
        }
    }
    count
}

/// Whether a role sends or receives an action's message.
pub(crate) fn is_own(role: u32, action: &Action) -> bool
    ensures { result ≡ is_own role (action_value action.now) }
{
    action.from == role || action.to == role
}

fn put_counted(out: &mut Vec<u8>, count: usize) -> Result<(), NoMemory>
    ensures { OnOk result (out.new.items ≡ out.old.items ++ counted count) }
{
    if count == 1 {
        out.extend_from_slice(b"1 action")?;
        return Ok(());
    }
    put_number(out, count)?;
    out.extend_from_slice(b" actions")?;
    Ok(())
}

/// Appends a number.
pub(crate) fn put_number(out: &mut Vec<u8>, n: usize) -> Result<(), NoMemory>
    ensures { OnOk result (out.new.items ≡ out.old.items ++ decimal n) }
{
    let mut buffer = Buffer::new();
    out.extend_from_slice(buffer.format(n).as_bytes())?;
    Ok(())
}

/// Appends what is done before the first event, where there is anything.
fn put_start(out: &mut Vec<u8>, notes: &[Bytes]) -> Result<(), NoMemory>
    ensures { OnOk result (out.new.items ≡ out.old.items ++ start_lines notes.now) }
{
    if notes.is_empty() {
        return Ok(());
    }
    out.extend_from_slice(b"  event 0, at the beginning\n")?;
    put_notes(out, notes)?;
    Ok(())
}

/// Appends the line of an event's notes, where there are any.
fn put_notes(out: &mut Vec<u8>, notes: &[Bytes]) -> Result<(), NoMemory>
    ensures { OnOk result (out.new.items ≡ out.old.items ++ notes_line notes.now) }
{
    let [first, rest @ ..] = notes else {
        return Ok(());
    };
    out.extend_from_slice(b"    ")?;
    out.extend_from_slice(first.as_slice())?;
    for note in rest {
        out.extend_from_slice(b"; ")?;
        out.extend_from_slice(note.as_slice())?;
    }
    out.push(b'\n')?;
    Ok(())
}

/// Appends a role's events, with their notes.
fn put_events(
    alloc: Global,
    out: &mut Vec<u8>,
    protocol: &Protocol,
    role: u32,
    actions: &[Action],
    made: &[Names],
    notes: &[Notes],
) -> Result<(), NoMemory>
    requires actions { map action_value actions.now ≡ protocol.now.actions }
    requires made { made.now ≡ names_made protocol.now }
    requires holds { HoldsOf protocol.now }
    ensures { OnOk result (out.new.items ≡ out.old.items
        ++ events_text protocol.now role notes.now) }
{
    let mut event = 0;
    for (i, action) in actions.iter().enumerate() {
        put_action(
            alloc,
            out,
            protocol,
            role,
            notes,
            event + 1,
            i + 1,
            action,
            made[i].as_slice(),
        )?;
        if is_own(role, action) {
            event += 1;
        }
    }
    Ok(())
}

/// Appends the lines of an action, where it is the role's.
fn put_action(
    alloc: Global,
    out: &mut Vec<u8>,
    protocol: &Protocol,
    role: u32,
    notes: &[Notes],
    event: usize,
    number: usize,
    action: &Action,
    names: &[Text],
) -> Result<(), NoMemory>
    requires { IsTermOf protocol.now (tree_of action.now.message) }
    ensures { OnOk result (out.new.items ≡ out.old.items
        ++ action_lines protocol.now role notes.now event number (action_value action.now) names.now) }
{
    if is_own(role, action) {
        put_event(alloc, out, protocol, role, event, number, action, names)?;
        put_notes(out, notes_at(notes, event))?;
    }
    Ok(())
}

/// Appends the line of an event.
fn put_event(
    alloc: Global,
    out: &mut Vec<u8>,
    protocol: &Protocol,
    role: u32,
    event: usize,
    number: usize,
    action: &Action,
    names: &[Text],
) -> Result<(), NoMemory>
    requires { IsTermOf protocol.now (tree_of action.now.message) }
    ensures { OnOk result (out.new.items ≡ out.old.items
        ++ event_line protocol.now role event number (action_value action.now) names.now) }
{
    out.extend_from_slice(b"  event ")?;
    put_number(out, event)?;
    out.extend_from_slice(b", action ")?;
    put_number(out, number)?;
    out.extend_from_slice(b", ")?;
    put_peer(out, protocol, role, action)?;
    out.extend_from_slice(b": ")?;
    let text = protocol.text_of_term(alloc, &action.message)?;
    out.extend_from_slice(text.as_str().as_bytes())?;
    put_new_for(out, role, action, names)?;
    out.push(b'\n')?;
    Ok(())
}

fn put_peer(
    out: &mut Vec<u8>,
    protocol: &Protocol,
    role: u32,
    action: &Action,
) -> Result<(), NoMemory>
    ensures { OnOk result (out.new.items
        ≡ out.old.items ++ peer protocol.now role (action_value action.now)) }
{
    if action.from == role {
        out.extend_from_slice(b"to ")?;
        put_role_name(out, protocol, action.to)
    } else {
        out.extend_from_slice(b"from ")?;
        put_role_name(out, protocol, action.from)
    }
}

/// Appends the names that a role makes for a message.
fn put_new_for(
    out: &mut Vec<u8>,
    role: u32,
    action: &Action,
    names: &[Text],
) -> Result<(), NoMemory>
    ensures { OnOk result (out.new.items
        ≡ out.old.items ++ new_for role (action_value action.now) names.now) }
{
    if action.from == role {
        put_new(out, names)?;
    }
    Ok(())
}

fn put_new(out: &mut Vec<u8>, names: &[Text]) -> Result<(), NoMemory>
    ensures { OnOk result (out.new.items ≡ out.old.items ++ with_new names.now) }
{
    let [first, rest @ ..] = names else {
        return Ok(());
    };
    out.extend_from_slice(b", with new ")?;
    out.extend_from_slice(first.as_str().as_bytes())?;
    for name in rest {
        out.extend_from_slice(b", ")?;
        out.extend_from_slice(name.as_str().as_bytes())?;
    }
    Ok(())
}
