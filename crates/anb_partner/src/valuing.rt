//! What a role's partner begins with and is handed.
ghost use Rattle.std.specs.Prelude.{◌≡◌, ◌<◌, ◌≤◌, ◌++◌, length, map, count_by, IfOk, OnOk};
ghost use Rattle.std.specs.List.{AllByRecursion, range_with_len};
ghost use Rattle.anb_base.specs.Bytes.{IsBytes};
ghost use Rattle.anb_protocol.specs.Laws.{HoldsOf};
ghost use Rattle.anb_protocol.specs.Plans.{is_to_make};
ghost use Rattle.anb_protocol.specs.Views.{plan_event};
ghost use Rattle.anb_seal.specs.Streams.{draw_of};
ghost use Rattle.anb_partner.specs.Values.{handed_values, handed_values_by, initial_values};

use anb_base::{Bytes, NoMemory};
use anb_honest::known_values;
use anb_protocol::{Event, Protocol, protocols_hold};
use anb_seal::draw;
use std::alloc::Global;

/// What a role's partner begins with, which is what the role knows; and what it is handed then, which all
/// other roles know and make. It is the same in all cases.
#[derive(Drop)]
pub struct Values {
    pub initial: Vec<Bytes>,
    pub handed: Vec<Bytes>,
}

/// The values for a role's partner, from those of the names that occur in some role's knowledge. Other
/// roles draw under the seed, each in the session with its number.
pub fn values_for(
    alloc: Global,
    p: &Protocol,
    role: u32,
    atoms: &[Bytes],
    seed: &[u8; 32],
) -> Result<Values, NoMemory>
    requires { role < length p.now.roles }
    ensures initial { IfOk result (λ values.
        values.initial.items ≡ initial_values p.now atoms.now seed.now role) }
    ensures handed { IfOk result (λ values.
        values.handed.items ≡ handed_values p.now atoms.now seed.now role) }
    ensures initial_bytes { IfOk result (λ values. AllByRecursion IsBytes values.initial.items) }
    ensures handed_bytes { IfOk result (λ values. AllByRecursion IsBytes values.handed.items) }
{
    protocols_hold();
    let _ = p.name();
    let initial = known_values(alloc, p, role, atoms)?;
    let mut handed = Vec::new(alloc);
    for other in 0..p.roles().len() as u32 {
        put_handed(alloc, &mut handed, p, role, other, atoms, seed)?;
    }
    are_bytes_all(&initial);
    are_bytes_all(&handed);
    Ok(Values { initial, handed })
}

/// Appends what another role knows and makes.
fn put_handed(
    alloc: Global,
    out: &mut Vec<Bytes>,
    p: &Protocol,
    role: u32,
    other: u32,
    atoms: &[Bytes],
    seed: &[u8; 32],
) -> Result<(), NoMemory>
    requires other { other < length p.now.roles }
    requires holds { HoldsOf p.now }
    ensures { OnOk result (out.new.items
        ≡ out.old.items ++ handed_values_by p.now atoms.now seed.now role other) }
{
    if other == role {
        return Ok(());
    }
    for value in known_values(alloc, p, other, atoms)? {
        out.push(value)?;
    }
    let plan = p.plan(alloc, other)?;
    put_draws(alloc, out, count_made(plan.events()), other, seed)
}

/// Appends so many draws of a role.
fn put_draws(
    alloc: Global,
    out: &mut Vec<Bytes>,
    count: u32,
    role: u32,
    seed: &[u8; 32],
) -> Result<(), NoMemory>
    ensures { OnOk result (out.new.items
        ≡ out.old.items ++ map (draw_of seed.now role) (range_with_len 0 count)) }
{
    for i in 0..count {
        out.push(drawn(alloc, seed, role, i)?)?;
    }
    Ok(())
}

/// A draw of a role.
fn drawn(alloc: Global, seed: &[u8; 32], role: u32, i: u32) -> Result<Bytes, NoMemory>
    ensures { IfOk result (λ value. value ≡ draw_of seed.now role i) }
{
    Ok(Bytes::new(Vec::from_slice(alloc, &draw(seed, role, i))?))
}

/// How many names a role makes.
fn count_made(events: &[Event]) -> u32
    requires { length events.now ≤ 65792 }
    ensures { result ≡ count_by is_to_make (map plan_event events.now) }
{
    let mut count = 0;
    for event in events {
        if let Event::Fresh(_) = event {
            count += 1;
        }
    }
    count
}

/// A law: these are strings of bytes.
fn are_bytes_all(values: &[Bytes])
    ensures { AllByRecursion IsBytes values.now }
{
    for value in values {
        are_bytes(value.as_slice());
    }
}

/// A law: a slice of bytes is a string of bytes.
fn are_bytes(bytes: &[u8])
    ensures { IsBytes bytes.now }
{
    let _ = bytes;
}
