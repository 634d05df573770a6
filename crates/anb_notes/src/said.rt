//! What is said of a role at its end, and last its new names on which nothing depends.
ghost use Rattle.std.specs.Prelude.{◌≡◌, ◌<◌, ◌++◌, length, IfOk, OnOk};
ghost use Rattle.anb_stranger.specs.Texts.{comma, names_text};
ghost use Rattle.anb_notes.specs.Idle.{IsNotedOf, idle_line, idle_text};

use crate::idle::idle_names;
use anb_accept::patterns_of;
use anb_base::NoMemory;
use anb_outsider::put_name;
use anb_pattern::Taken;
use anb_protocol::{Protocol, terms_of_plans};
use anb_stranger::all_said_of;
use std::alloc::Global;

/// What is said of a role: what it takes, what others can play to it, and its new names on which
/// nothing depends that it takes afterwards.
pub fn noted_of(alloc: Global, protocol: &Protocol, role: u32) -> Result<Taken, NoMemory>
    requires { role < length protocol.now.roles }
    ensures { IfOk result (λ said. IsNotedOf protocol.now role said) }
{
    terms_of_plans();
    let said = all_said_of(alloc, protocol, role)?;
    let patterns = patterns_of(alloc, protocol, role)?;
    let plan = protocol.plan(alloc, role)?;
    let names = idle_names(alloc, protocol, plan.events(), &patterns)?;
    let mut lines = Vec::new(alloc);
    put_idle(&mut lines, protocol, &names)?;
    said.with_lines(&lines)
}

/// Appends a line with these names, where there are any.
fn put_idle(out: &mut Vec<u8>, protocol: &Protocol, names: &[u32]) -> Result<(), NoMemory>
    ensures { OnOk result (out.new.items ≡ out.old.items ++ idle_line protocol.now names.now) }
{
    if names.is_empty() {
        return Ok(());
    }
    put_idle_text(out, protocol, names)
}

fn put_idle_text(out: &mut Vec<u8>, protocol: &Protocol, names: &[u32]) -> Result<(), NoMemory>
    ensures { OnOk result (out.new.items ≡ out.old.items ++ idle_text protocol.now names.now) }
{
    out.extend_from_slice(b"  nothing that it takes afterwards depends on: ")?;
    put_names(out, protocol, names)?;
    out.push(b'\n')?;
    Ok(())
}

/// Appends names with commas between them.
fn put_names(out: &mut Vec<u8>, protocol: &Protocol, names: &[u32]) -> Result<(), NoMemory>
    ensures { OnOk result (out.new.items ≡ out.old.items
        ++ names_text protocol.now 0 names.now) }
{
    for (i, name) in names.iter().enumerate() {
        put_comma(out, i)?;
        put_name(out, protocol, *name)?;
    }
    Ok(())
}

fn put_comma(out: &mut Vec<u8>, i: usize) -> Result<(), NoMemory>
    ensures { OnOk result (out.new.items ≡ out.old.items ++ comma i) }
{
    if i > 0 {
        out.extend_from_slice(b", ")?;
    }
    Ok(())
}
