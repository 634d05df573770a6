//! The chart of a protocol.
ghost use Rattle.std.specs.Prelude.{◌≡◌, ◌<◌, ◌++◌, [], length, map, IfOk, OnOk};
ghost use Rattle.std.specs.List.{flat_map};
ghost use Rattle.anb_term.specs.View.{tree_of};
ghost use Rattle.anb_protocol.specs.Choices.{each_after};
ghost use Rattle.anb_protocol.specs.Laws.{HoldsOf};
ghost use Rattle.anb_protocol.specs.Plans.{names_made};
ghost use Rattle.anb_protocol.specs.Texts.{IsTermOf};
ghost use Rattle.anb_protocol.specs.Views.{action_value};
ghost use Rattle.anb_text.specs.Writing.{IsWritten};
ghost use Rattle.anb_chart.specs.Charts.{action_lines, action_text, arrow_line, chart, note_line, participant, participant_line};

use crate::participants::put_escaped;
use anb_base::{NoMemory, Sink, Text};
use anb_protocol::{Action, Names, Protocol, protocols_hold};
use anb_text::{WriteNo, write_bytes, write_part};
use itoa::Buffer;
use std::alloc::Global;

/// Writes the chart of a protocol. In memory are the names that senders make, and the lines of one
/// action at a time.
pub fn write_chart<K: Sink>(alloc: Global, snk: &mut K, protocol: &Protocol) -> Result<(), WriteNo>
    ensures written { IsWritten (chart protocol.now) result
        (K.written snk.old) (K.written snk.new) (K.faults snk.old) (K.faults snk.new) }
    ensures kept { K.kept snk.new ≡ K.kept snk.old }
{
    let made = match protocol.made(alloc) {
        Ok(made) => made,
        Err(NoMemory) => return Err(WriteNo::NoMemory),
    };
    match write_bytes(snk, b"sequenceDiagram\n") {
        Ok(()) => {}
        Err(no) => return Err(no),
    }
    match write_participants(alloc, snk, protocol.roles()) {
        Ok(()) => {}
        Err(no) => return Err(no),
    }
    protocols_hold();
    write_actions(alloc, snk, protocol, protocol.messages(), &made)
}

/// Writes a line for each role.
fn write_participants<K: Sink>(alloc: Global, snk: &mut K, roles: &[Text]) -> Result<(), WriteNo>
    ensures written { IsWritten (flat_map participant_line roles.now) result
        (K.written snk.old) (K.written snk.new) (K.faults snk.old) (K.faults snk.new) }
    ensures kept { K.kept snk.new ≡ K.kept snk.old }
{
    for role in roles {
        match write_part(snk, participant_text(alloc, role)) {
            Ok(()) => {}
            Err(no) => return Err(no),
        }
    }
    Ok(())
}

/// The line of a role.
pub fn participant_text(alloc: Global, role: &Text) -> Result<Vec<u8>, NoMemory>
    ensures { IfOk result (λ bytes. bytes.items ≡ participant_line role.now) }
{
    let mut out = Vec::from_slice(alloc, b"    participant ")?;
    put_escaped(&mut out, role.as_str().as_bytes())?;
    out.push(b'\n')?;
    Ok(out)
}

/// Writes the lines of each action, whose senders make these names.
fn write_actions<K: Sink>(
    alloc: Global,
    snk: &mut K,
    protocol: &Protocol,
    actions: &[Action],
    made: &[Names],
) -> Result<(), WriteNo>
    requires actions { map action_value actions.now ≡ protocol.now.actions }
    requires made { made.now ≡ names_made protocol.now }
    requires holds { HoldsOf protocol.now }
    ensures written { IsWritten (each_after (action_text protocol.now) [] protocol.now.actions)
        result (K.written snk.old) (K.written snk.new) (K.faults snk.old) (K.faults snk.new) }
    ensures kept { K.kept snk.new ≡ K.kept snk.old }
{
    for (i, action) in actions.iter().enumerate() {
        let lines = action_text(alloc, protocol, i as u32 + 1, action, made[i].as_slice());
        match write_part(snk, lines) {
            Ok(()) => {}
            Err(no) => return Err(no),
        }
    }
    Ok(())
}

/// The lines of an action with this number, whose sender makes these names.
fn action_text(
    alloc: Global,
    protocol: &Protocol,
    number: u32,
    action: &Action,
    names: &[Text],
) -> Result<Vec<u8>, NoMemory>
    requires from { action.now.from < length protocol.now.roles }
    requires to { action.now.to < length protocol.now.roles }
    requires term { IsTermOf protocol.now (tree_of action.now.message) }
    ensures { IfOk result (λ bytes. bytes.items
        ≡ action_lines protocol.now number (action_value action.now) names.now) }
{
    let mut out = Vec::new(alloc);
    put_note(&mut out, protocol, action, names)?;
    put_arrow(alloc, &mut out, protocol, number, action)?;
    Ok(out)
}

/// Appends the note of the names that an action's sender makes.
fn put_note(
    out: &mut Vec<u8>,
    protocol: &Protocol,
    action: &Action,
    names: &[Text],
) -> Result<(), NoMemory>
    requires { action.now.from < length protocol.now.roles }
    ensures { OnOk result (out.new.items
        ≡ out.old.items ++ note_line protocol.now (action_value action.now) names.now) }
{
    let [first, rest @ ..] = names else {
        return Ok(());
    };
    out.extend_from_slice(b"    Note over ")?;
    put_participant(out, protocol, action.from)?;
    out.extend_from_slice(b": new ")?;
    out.extend_from_slice(first.as_str().as_bytes())?;
    for name in rest {
        out.extend_from_slice(b", ")?;
        out.extend_from_slice(name.as_str().as_bytes())?;
    }
    out.push(b'\n')?;
    Ok(())
}

/// Appends the arrow of an action.
pub fn put_arrow(
    alloc: Global,
    out: &mut Vec<u8>,
    protocol: &Protocol,
    number: u32,
    action: &Action,
) -> Result<(), NoMemory>
    requires from { action.now.from < length protocol.now.roles }
    requires to { action.now.to < length protocol.now.roles }
    requires term { IsTermOf protocol.now (tree_of action.now.message) }
    ensures { OnOk result (out.new.items
        ≡ out.old.items ++ arrow_line protocol.now number (action_value action.now)) }
{
    let Action { from, to, message } = action;
    let text = protocol.text_of_term(alloc, message)?;
    let mut buffer = Buffer::new();
    out.extend_from_slice(b"    ")?;
    put_participant(out, protocol, *from)?;
    out.extend_from_slice(b"->>")?;
    put_participant(out, protocol, *to)?;
    out.extend_from_slice(b": ")?;
    out.extend_from_slice(buffer.format(number).as_bytes())?;
    out.push(b' ')?;
    out.extend_from_slice(text.as_str().as_bytes())?;
    out.push(b'\n')?;
    Ok(())
}

/// Appends a role by its number.
pub fn put_participant(out: &mut Vec<u8>, protocol: &Protocol, role: u32) -> Result<(), NoMemory>
    requires { role < length protocol.now.roles }
    ensures { OnOk result (out.new.items ≡ out.old.items ++ participant protocol.now role) }
{
    put_escaped(out, protocol.roles()[role as usize].as_str().as_bytes())
}
