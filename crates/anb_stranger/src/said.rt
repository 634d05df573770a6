//! What is said of a role at its end.
ghost use Rattle.std.specs.Prelude.{◌≡◌, ◌++◌, ◌∷◌, [], ◌<◌, codes, decimal, length, map, IfOk, OnOk};
ghost use Rattle.anb_protocol.specs.Protocols.{role_name};
ghost use Rattle.anb_stranger.specs.Reaching.{agents};
ghost use Rattle.anb_stranger.specs.declared.reach.Reach.TheVariants as reached;
ghost use Rattle.anb_stranger.specs.Texts.{IsAllSaidOf, comma, names_text, stranger_line, stranger_lines};

use crate::beginning::agents;
use crate::reach::{Reach, reach_of};
use anb_base::NoMemory;
use anb_outsider::{put_name, put_number, receives, said_of};
use anb_pattern::Taken;
use anb_protocol::Protocol;
use std::alloc::Global;

/// What is said of a role: what it takes, what comes of a recording of another run, and what somebody
/// can send who knows only the agents' names.
pub fn all_said_of(alloc: Global, protocol: &Protocol, role: u32) -> Result<Taken, NoMemory>
    requires { role < length protocol.now.roles }
    ensures { IfOk result (λ said. IsAllSaidOf protocol.now role said) }
{
    let said = said_of(alloc, protocol, role)?;
    let reach = reach_of(alloc, protocol, role)?;
    let mut lines = Vec::new(alloc);
    put_stranger(alloc, &mut lines, protocol, role, &reach)?;
    said.with_lines(&lines)
}

/// Appends the line of a stranger, where there is something that he can send.
fn put_stranger(
    alloc: Global,
    out: &mut Vec<u8>,
    protocol: &Protocol,
    role: u32,
    reach: &Reach,
) -> Result<(), NoMemory>
    ensures { OnOk result (out.new.items ≡ out.old.items
        ++ stranger_lines protocol.now role reach.now) }
{
    match reach {
        Reach::All => put_all(alloc, out, protocol, role),
        Reach::Event(event) => put_event(alloc, out, protocol, role, *event),
    }
}

/// Appends the line of a stranger who can send all, where the role receives something.
fn put_all(alloc: Global, out: &mut Vec<u8>, protocol: &Protocol, role: u32) -> Result<(), NoMemory>
    ensures { OnOk result (out.new.items ≡ out.old.items
        ++ stranger_lines protocol.now role reached.All) }
{
    if !receives(protocol.messages(), role) {
        return Ok(());
    }
    put_line(alloc, out, protocol, role, b"")
}

/// Appends the line of a stranger who can send all up to an event, where that isn't event 0.
fn put_event(
    alloc: Global,
    out: &mut Vec<u8>,
    protocol: &Protocol,
    role: u32,
    event: usize,
) -> Result<(), NoMemory>
    ensures { OnOk result (out.new.items ≡ out.old.items
        ++ stranger_lines protocol.now role (reached.Event event)) }
{
    if event == 0 {
        return Ok(());
    }
    let mut end = Vec::from_slice(alloc, b" up to event ")?;
    put_number(&mut end, event)?;
    put_line(alloc, out, protocol, role, &end)
}

fn put_line(
    alloc: Global,
    out: &mut Vec<u8>,
    protocol: &Protocol,
    role: u32,
    end: &[u8],
) -> Result<(), NoMemory>
    ensures { OnOk result (out.new.items ≡ out.old.items
        ++ stranger_line protocol.now role end.now) }
{
    out.extend_from_slice(b"  whoever knows only ")?;
    put_agents(alloc, out, protocol)?;
    out.extend_from_slice(b" can send all that ")?;
    put_role(out, protocol, role)?;
    out.extend_from_slice(b" takes")?;
    out.extend_from_slice(end)?;
    out.push(b'\n')?;
    Ok(())
}

/// Appends the agents' names.
fn put_agents(alloc: Global, out: &mut Vec<u8>, protocol: &Protocol) -> Result<(), NoMemory>
    ensures { OnOk result (out.new.items ≡ out.old.items
        ++ names_text protocol.now 0 (agents protocol.now)) }
{
    let names = agents(alloc, protocol)?;
    put_names(out, protocol, &names)
}

/// Appends names with commas between them.
fn put_names(out: &mut Vec<u8>, protocol: &Protocol, names: &[u32]) -> Result<(), NoMemory>
    ensures { OnOk result (out.new.items ≡ out.old.items
        ++ names_text protocol.now 0 names.now) }
{
    for (i, name) in names.iter().enumerate() {
        put_comma(out, i)?;
        put_name(out, protocol, *name)?;
    }
    Ok(())
}

fn put_comma(out: &mut Vec<u8>, i: usize) -> Result<(), NoMemory>
    ensures { OnOk result (out.new.items ≡ out.old.items ++ comma i) }
{
    if i > 0 {
        out.extend_from_slice(b", ")?;
    }
    Ok(())
}

/// Appends the name of a role.
fn put_role(out: &mut Vec<u8>, protocol: &Protocol, role: u32) -> Result<(), NoMemory>
    ensures { OnOk result (out.new.items ≡ out.old.items ++ role_name protocol.now role) }
{
    if let Some(name) = protocol.roles().get(role as usize) {
        out.extend_from_slice(name.as_str().as_bytes())?;
    }
    Ok(())
}
