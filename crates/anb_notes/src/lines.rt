//! Lines of notes.
ghost use Rattle.std.specs.Prelude.{◌≡◌, ◌++◌, codes, decimal, OnOk};
ghost use Rattle.anb_protocol.specs.Protocols.{role_name};
ghost use Rattle.anb_notes.specs.Notes.{action_text, agent_line, agent_note, bare_line, clear_line, clear_note, made_head, made_line, made_note, made_of, names_agent, names_key, note, receiver, told_line, unbrought, used_tail};

use anb_base::NoMemory;
use anb_outsider::{put_name, put_number};
use anb_protocol::Protocol;
use anb_syntax::Sort;

fn names_agent(protocol: &Protocol, x: u32) -> bool
    ensures { result ≡ names_agent protocol.now x }
{
    match protocol.declared().get(x as usize) {
        Some(atom) => match atom.sort {
            Sort::Agent => true,
            Sort::Number => false,
            Sort::Key => false,
        },
        None => false,
    }
}

fn names_key(protocol: &Protocol, x: u32) -> bool
    ensures { result ≡ names_key protocol.now x }
{
    match protocol.declared().get(x as usize) {
        Some(atom) => match atom.sort {
            Sort::Agent => false,
            Sort::Number => false,
            Sort::Key => true,
        },
        None => false,
    }
}

/// Appends an action by its number from 0, as it is counted from 1.
fn put_action(out: &mut Vec<u8>, action: u32) -> Result<(), NoMemory>
    ensures { OnOk result (out.new.items ≡ out.old.items ++ action_text action) }
{
    out.extend_from_slice(b"action ")?;
    put_number(out, action as usize + 1)
}

/// Appends the name of a role.
fn put_role(out: &mut Vec<u8>, protocol: &Protocol, role: u32) -> Result<(), NoMemory>
    ensures { OnOk result (out.new.items ≡ out.old.items ++ role_name protocol.now role) }
{
    if let Some(name) = protocol.roles().get(role as usize) {
        out.extend_from_slice(name.as_str().as_bytes())?;
    }
    Ok(())
}

/// Appends the name of the role that receives an action.
fn put_receiver(out: &mut Vec<u8>, protocol: &Protocol, action: u32) -> Result<(), NoMemory>
    ensures { OnOk result (out.new.items ≡ out.old.items ++ receiver protocol.now action) }
{
    match protocol.messages().get(action as usize) {
        Some(action) => put_role(out, protocol, action.to),
        None => Ok(()),
    }
}

/// Appends the note on an agent's name that is a key, by the first action where it is.
pub(crate) fn put_agent_note(
    out: &mut Vec<u8>,
    protocol: &Protocol,
    x: u32,
    key: Option<u32>,
) -> Result<(), NoMemory>
    ensures { OnOk result (out.new.items ≡ out.old.items ++ agent_note protocol.now x key) }
{
    match key {
        None => Ok(()),
        Some(key) => {
            if names_agent(protocol, x) {
                put_agent_line(out, protocol, x, key)
            } else {
                Ok(())
            }
        }
    }
}

fn put_agent_line(out: &mut Vec<u8>, protocol: &Protocol, x: u32, key: u32) -> Result<(), NoMemory>
    ensures { OnOk result (out.new.items ≡ out.old.items ++ agent_line protocol.now x key) }
{
    out.extend_from_slice(b"note: ")?;
    put_name(out, protocol, x)?;
    out.extend_from_slice(b" is an agent's name, and a key in ")?;
    put_action(out, key)?;
    out.push(b'\n')?;
    Ok(())
}

/// Appends the note on a key that stands in clear, by the first action where it does and the first one
/// from there on where it is a key.
pub(crate) fn put_clear_note(
    out: &mut Vec<u8>,
    protocol: &Protocol,
    x: u32,
    clear: Option<u32>,
    key: Option<u32>,
) -> Result<(), NoMemory>
    ensures { OnOk result (out.new.items ≡ out.old.items ++ clear_note protocol.now x clear key) }
{
    match clear {
        None => Ok(()),
        Some(clear) => {
            if names_agent(protocol, x) {
                Ok(())
            } else {
                put_clear_line(out, protocol, x, clear, key)
            }
        }
    }
}

fn put_clear_line(
    out: &mut Vec<u8>,
    protocol: &Protocol,
    x: u32,
    clear: u32,
    key: Option<u32>,
) -> Result<(), NoMemory>
    ensures { OnOk result (out.new.items ≡ out.old.items ++ clear_line protocol.now x clear key) }
{
    match key {
        None => {
            if names_key(protocol, x) {
                put_told_line(out, protocol, x, clear)
            } else {
                Ok(())
            }
        }
        Some(key) => put_bare_line(out, protocol, x, clear, key),
    }
}

fn put_told_line(out: &mut Vec<u8>, protocol: &Protocol, x: u32, clear: u32) -> Result<(), NoMemory>
    ensures { OnOk result (out.new.items ≡ out.old.items ++ told_line protocol.now x clear) }
{
    out.extend_from_slice(b"note: ")?;
    put_name(out, protocol, x)?;
    out.extend_from_slice(b" is of type Key, and stands in clear in ")?;
    put_action(out, clear)?;
    out.push(b'\n')?;
    Ok(())
}

fn put_bare_line(
    out: &mut Vec<u8>,
    protocol: &Protocol,
    x: u32,
    clear: u32,
    key: u32,
) -> Result<(), NoMemory>
    ensures { OnOk result (out.new.items ≡ out.old.items ++ bare_line protocol.now x clear key) }
{
    out.extend_from_slice(b"note: ")?;
    put_name(out, protocol, x)?;
    out.extend_from_slice(b" stands in clear in ")?;
    put_action(out, clear)?;
    out.extend_from_slice(b", and is a key in ")?;
    put_action(out, key)?;
    out.push(b'\n')?;
    Ok(())
}

/// Appends the note on a key that a role makes, by the first action where it is a key and that another
/// role receives, and the first where it could be taken out.
pub(crate) fn put_made_note(
    out: &mut Vec<u8>,
    protocol: &Protocol,
    x: u32,
    role: Option<u32>,
    key: Option<u32>,
    inside: Option<u32>,
) -> Result<(), NoMemory>
    ensures { OnOk result (out.new.items
        ≡ out.old.items ++ made_note protocol.now x role key inside) }
{
    match role {
        None => Ok(()),
        Some(role) => put_made_of(out, protocol, x, role, key, inside),
    }
}

fn put_made_of(
    out: &mut Vec<u8>,
    protocol: &Protocol,
    x: u32,
    role: u32,
    key: Option<u32>,
    inside: Option<u32>,
) -> Result<(), NoMemory>
    ensures { OnOk result (out.new.items
        ≡ out.old.items ++ made_of protocol.now x role key inside) }
{
    match key {
        None => Ok(()),
        Some(key) => {
            if names_key(protocol, x) {
                put_made_line(out, protocol, x, role, key, inside)
            } else {
                Ok(())
            }
        }
    }
}

fn put_made_line(
    out: &mut Vec<u8>,
    protocol: &Protocol,
    x: u32,
    role: u32,
    key: u32,
    inside: Option<u32>,
) -> Result<(), NoMemory>
    ensures { OnOk result (out.new.items
        ≡ out.old.items ++ made_line protocol.now x role key inside) }
{
    put_made_head(out, protocol, x, role)?;
    put_used_tail(out, protocol, key, inside)
}

fn put_made_head(out: &mut Vec<u8>, protocol: &Protocol, x: u32, role: u32) -> Result<(), NoMemory>
    ensures { OnOk result (out.new.items ≡ out.old.items ++ made_head protocol.now x role) }
{
    out.extend_from_slice(b"note: nobody knows ")?;
    put_name(out, protocol, x)?;
    out.extend_from_slice(b" from the start: ")?;
    put_role(out, protocol, role)?;
    out.extend_from_slice(b" draws it")?;
    Ok(())
}

fn put_used_tail(
    out: &mut Vec<u8>,
    protocol: &Protocol,
    key: u32,
    inside: Option<u32>,
) -> Result<(), NoMemory>
    ensures { OnOk result (out.new.items ≡ out.old.items ++ used_tail protocol.now key inside) }
{
    out.extend_from_slice(b", and it is a key in ")?;
    put_action(out, key)?;
    out.extend_from_slice(b", which ")?;
    put_receiver(out, protocol, key)?;
    out.extend_from_slice(b" receives")?;
    put_unbrought(out, inside)?;
    out.push(b'\n')?;
    Ok(())
}

fn put_unbrought(out: &mut Vec<u8>, inside: Option<u32>) -> Result<(), NoMemory>
    ensures { OnOk result (out.new.items ≡ out.old.items ++ unbrought inside) }
{
    match inside {
        None => {
            out.extend_from_slice(b", and no message brings it")?;
            Ok(())
        }
        Some(_) => Ok(()),
    }
}
