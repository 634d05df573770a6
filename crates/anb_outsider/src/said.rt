//! What is said of a role at its end.
ghost use Rattle.std.specs.Prelude.{◌≡◌, ◌++◌, ◌<◌, length, map, decimal, IfOk, OnOk};
ghost use Rattle.std.specs.List.{list_any};
ghost use Rattle.anb_pattern.specs.Taken.{is_received};
ghost use Rattle.anb_protocol.specs.Texts.{atom_name};
ghost use Rattle.anb_protocol.specs.Views.{action_value};
ghost use Rattle.anb_outsider.specs.Texts.{IsSaidOf, outcome, recording_line, recording_lines, stop};

use crate::recording::{Recording, recording_of};
use anb_accept::taken_by;
use anb_base::NoMemory;
use anb_pattern::Taken;
use anb_protocol::{Action, Protocol};
use itoa::Buffer;
use std::alloc::Global;

/// What is said of a role: what it takes, and what comes of a recording of another run.
pub fn said_of(alloc: Global, protocol: &Protocol, role: u32) -> Result<Taken, NoMemory>
    requires { role < length protocol.now.roles }
    ensures { IfOk result (λ said. IsSaidOf protocol.now role said) }
{
    let taken = taken_by(alloc, protocol, role)?;
    let rerun = recording_of(alloc, protocol, role)?;
    let mut lines = Vec::new(alloc);
    put_recording(&mut lines, protocol, role, &rerun)?;
    taken.with_lines(&lines)
}

/// Appends the line of a recording, where the role receives something.
fn put_recording(
    out: &mut Vec<u8>,
    protocol: &Protocol,
    role: u32,
    recording: &Recording,
) -> Result<(), NoMemory>
    ensures { OnOk result (out.new.items ≡ out.old.items
        ++ recording_lines protocol.now role recording.now) }
{
    if !receives(protocol.messages(), role) {
        return Ok(());
    }
    put_line(out, protocol, recording)
}

fn put_line(out: &mut Vec<u8>, protocol: &Protocol, recording: &Recording) -> Result<(), NoMemory>
    ensures { OnOk result (out.new.items ≡ out.old.items
        ++ recording_line protocol.now recording.now) }
{
    out.extend_from_slice(b"  a recording of another run: ")?;
    put_outcome(out, protocol, recording)?;
    out.push(b'\n')?;
    Ok(())
}

/// Whether a role receives something.
pub fn receives(actions: &[Action], role: u32) -> bool
    ensures { result ≡ list_any (is_received role) (map action_value actions.now) }
{
    for action in actions {
        if action.to == role {
            return true;
        }
    }
    false
}

/// Appends what comes of a recording.
fn put_outcome(
    out: &mut Vec<u8>,
    protocol: &Protocol,
    recording: &Recording,
) -> Result<(), NoMemory>
    ensures { OnOk result (out.new.items ≡ out.old.items
        ++ outcome protocol.now recording.now) }
{
    match recording {
        Recording::Taken => {
            out.extend_from_slice(b"is taken to the end")?;
            Ok(())
        }
        Recording::Stops { event, name } => put_stop(out, protocol, *event, *name),
    }
}

fn put_stop(out: &mut Vec<u8>, protocol: &Protocol, event: usize, name: u32) -> Result<(), NoMemory>
    ensures { OnOk result (out.new.items ≡ out.old.items ++ stop protocol.now event name) }
{
    out.extend_from_slice(b"stops at event ")?;
    put_number(out, event)?;
    out.extend_from_slice(b", since ")?;
    put_name(out, protocol, name)?;
    out.extend_from_slice(b" is new")?;
    Ok(())
}

/// Appends a number in decimal digits.
pub fn put_number(out: &mut Vec<u8>, n: usize) -> Result<(), NoMemory>
    ensures { OnOk result (out.new.items ≡ out.old.items ++ decimal n) }
{
    let mut buffer = Buffer::new();
    out.extend_from_slice(buffer.format(n).as_bytes())?;
    Ok(())
}

/// Appends a name by its number.
pub fn put_name(out: &mut Vec<u8>, protocol: &Protocol, name: u32) -> Result<(), NoMemory>
    ensures { OnOk result (out.new.items ≡ out.old.items ++ atom_name protocol.now name) }
{
    if let Some(atom) = protocol.declared().get(name as usize) {
        out.extend_from_slice(atom.name.as_str().as_bytes())?;
    }
    Ok(())
}
