//! The chart of a protocol, with what one role checks and learns.
ghost use Rattle.std.specs.Prelude.{◌≡◌, ◌<◌, ◌++◌, [], map, length, IfOk, OnOk};
ghost use Rattle.std.specs.List.{flat_map};
ghost use Rattle.anb_term.specs.View.{tree_of};
ghost use Rattle.anb_chart.specs.Charts.{participant_line};
ghost use Rattle.anb_compile.specs.Fitting.{FitsRole};
ghost use Rattle.anb_protocol.specs.Choices.{each_after};
ghost use Rattle.anb_protocol.specs.Laws.{HoldsOf};
ghost use Rattle.anb_protocol.specs.Texts.{IsTermOf};
ghost use Rattle.anb_protocol.specs.Views.{action_value};
ghost use Rattle.anb_report.specs.RoleCharts.{event_notes, note_over, noted_lines, noted_text, role_chart};

use crate::notes::notes_of;
use crate::reporting::{is_own, joined, notes_at};
use anb_base::{Bytes, NoMemory, Text};
use anb_chart::{participant_text, put_arrow, put_participant};
use anb_code::RoleCode;
use anb_explain::explanation_of;
use anb_pattern::{Notes, Taken};
use anb_protocol::{Action, Protocol, protocols_hold};
use std::alloc::Global;

/// The chart of a protocol, with the notes of a role by a code for it and by what it takes.
pub fn role_chart(
    alloc: Global,
    protocol: &Protocol,
    role: u32,
    code: &RoleCode,
    taken: &Taken,
) -> Result<Bytes, NoMemory>
    requires role { role < length protocol.now.roles }
    requires fits { FitsRole protocol.now role code.now }
    ensures { IfOk result (λ text. text
        ≡ role_chart protocol.now role code.now taken.now) }
{
    protocols_hold();
    let explanation = explanation_of(alloc, protocol, role, code)?;
    let terms = explanation.terms();
    let own = notes_of(alloc, protocol, code, terms, taken.unchecked())?;
    let notes = joined(alloc, &own, taken.notes())?;
    let mut out = Vec::from_slice(alloc, b"sequenceDiagram\n")?;
    put_participants(alloc, &mut out, protocol.roles())?;
    put_event_notes(&mut out, protocol, role, &notes, 0)?;
    put_actions(alloc, &mut out, protocol, role, protocol.messages(), &notes)?;
    Ok(Bytes::new(out))
}

fn put_participants(alloc: Global, out: &mut Vec<u8>, roles: &[Text]) -> Result<(), NoMemory>
    ensures { OnOk result (out.new.items
        ≡ out.old.items ++ flat_map participant_line roles.now) }
{
    for role in roles {
        let line = participant_text(alloc, role)?;
        out.extend_from_slice(&line)?;
    }
    Ok(())
}

/// Appends the notes of an event of a role.
fn put_event_notes(
    out: &mut Vec<u8>,
    protocol: &Protocol,
    role: u32,
    notes: &[Notes],
    event: usize,
) -> Result<(), NoMemory>
    requires { role < length protocol.now.roles }
    ensures { OnOk result (out.new.items
        ≡ out.old.items ++ event_notes protocol.now role notes.now event) }
{
    put_notes_over(out, protocol, role, notes_at(notes, event))
}

fn put_notes_over(
    out: &mut Vec<u8>,
    protocol: &Protocol,
    role: u32,
    notes: &[Bytes],
) -> Result<(), NoMemory>
    requires { role < length protocol.now.roles }
    ensures { OnOk result (out.new.items
        ≡ out.old.items ++ flat_map (note_over protocol.now role) notes.now) }
{
    for note in notes {
        put_note_over(out, protocol, role, note.as_slice())?;
    }
    Ok(())
}

fn put_note_over(
    out: &mut Vec<u8>,
    protocol: &Protocol,
    role: u32,
    note: &[u8],
) -> Result<(), NoMemory>
    requires { role < length protocol.now.roles }
    ensures { OnOk result (out.new.items ≡ out.old.items ++ note_over protocol.now role note.now) }
{
    out.extend_from_slice(b"    Note over ")?;
    put_participant(out, protocol, role)?;
    out.extend_from_slice(b": ")?;
    out.extend_from_slice(note)?;
    out.push(b'\n')?;
    Ok(())
}

/// Appends the arrows, each with the notes of the role's event below it.
fn put_actions(
    alloc: Global,
    out: &mut Vec<u8>,
    protocol: &Protocol,
    role: u32,
    actions: &[Action],
    notes: &[Notes],
) -> Result<(), NoMemory>
    requires role { role < length protocol.now.roles }
    requires actions { map action_value actions.now ≡ protocol.now.actions }
    requires holds { HoldsOf protocol.now }
    ensures { OnOk result (out.new.items ≡ out.old.items
        ++ each_after (noted_text protocol.now role notes.now) [] protocol.now.actions) }
{
    let mut event = 0;
    for (i, action) in actions.iter().enumerate() {
        put_noted(
            alloc,
            out,
            protocol,
            role,
            notes,
            event + 1,
            i as u32 + 1,
            action,
        )?;
        if is_own(role, action) {
            event += 1;
        }
    }
    Ok(())
}

fn put_noted(
    alloc: Global,
    out: &mut Vec<u8>,
    protocol: &Protocol,
    role: u32,
    notes: &[Notes],
    event: usize,
    number: u32,
    action: &Action,
) -> Result<(), NoMemory>
    requires role { role < length protocol.now.roles }
    requires from { action.now.from < length protocol.now.roles }
    requires to { action.now.to < length protocol.now.roles }
    requires term { IsTermOf protocol.now (tree_of action.now.message) }
    ensures { OnOk result (out.new.items ≡ out.old.items
        ++ noted_lines protocol.now role notes.now event number (action_value action.now)) }
{
    put_arrow(alloc, out, protocol, number, action)?;
    if is_own(role, action) {
        put_event_notes(out, protocol, role, notes, event)?;
    }
    Ok(())
}
