//! Notes on a protocol's keys.
ghost use Rattle.std.specs.Prelude.{◌≡◌, ◌<◌, ◌++◌, length, IfOk, OnOk};
ghost use Rattle.anb_notes.specs.Notes.{name_notes, notes};
ghost use Rattle.anb_notes.specs.Tables.{AreTables};

use crate::lines::{put_agent_note, put_clear_note, put_made_note};
use crate::places::{makers, places};
use crate::standing::Standing;
use crate::tables::{bare_firsts, first_at, firsts, others_firsts};
use anb_base::NoMemory;
use anb_protocol::Protocol;
use std::alloc::Global;

/// For each name, the first action from 0 where it stands so, and the role that makes it.
#[derive(Drop)]
pub(crate) struct Tables {
    keys: Vec<Option<u32>>,
    clear: Vec<Option<u32>>,
    inside: Vec<Option<u32>>,
    makers: Vec<Option<u32>>,
    /// Where it is a key that stood in clear by then.
    bare: Vec<Option<u32>>,
    /// Where it is a key, and another role than its maker receives the message.
    others: Vec<Option<u32>>,
}

/// What is noted of a protocol's keys, a line each: agents' names that are keys, keys that stand in
/// clear, and keys that nobody knows from the start.
pub fn notes_on(alloc: Global, protocol: &Protocol) -> Result<Vec<u8>, NoMemory>
    ensures { IfOk result (λ text. text.items ≡ notes protocol.now) }
{
    let tables = tables_of(alloc, protocol)?;
    let many = protocol.declared().len();
    if many > u32::MAX as usize {
        return Err(NoMemory);
    }
    let mut out = Vec::new(alloc);
    for x in 0..many as u32 {
        put_name_notes(&mut out, protocol, &tables, x)?;
    }
    Ok(out)
}

fn tables_of(alloc: Global, protocol: &Protocol) -> Result<Tables, NoMemory>
    ensures { IfOk result (λ tables. AreTables protocol.now tables) }
{
    let many = protocol.declared().len();
    let as_key = places(alloc, Standing::AsKey, protocol)?;
    let in_clear = places(alloc, Standing::InClear, protocol)?;
    let within = places(alloc, Standing::Inside, protocol)?;
    let made = makers(alloc, protocol)?;
    let keys = firsts(alloc, many, &as_key)?;
    let clear = firsts(alloc, many, &in_clear)?;
    let inside = firsts(alloc, many, &within)?;
    let makers = firsts(alloc, many, &made)?;
    let bare = bare_firsts(alloc, many, &clear, &as_key)?;
    let others = others_firsts(alloc, many, protocol.messages(), &makers, &as_key)?;
    Ok(Tables {
        keys,
        clear,
        inside,
        makers,
        bare,
        others,
    })
}

/// Appends the notes on a name.
fn put_name_notes(
    out: &mut Vec<u8>,
    protocol: &Protocol,
    tables: &Tables,
    x: u32,
) -> Result<(), NoMemory>
    requires tables { AreTables protocol.now tables.now }
    requires within { x < length protocol.now.atoms }
    ensures { OnOk result (out.new.items ≡ out.old.items ++ name_notes protocol.now x) }
{
    let key = first_at(&tables.keys, x);
    put_agent_note(out, protocol, x, key)?;
    let clear = first_at(&tables.clear, x);
    let bare = first_at(&tables.bare, x);
    put_clear_note(out, protocol, x, clear, bare)?;
    let role = first_at(&tables.makers, x);
    let other = first_at(&tables.others, x);
    let inside = first_at(&tables.inside, x);
    put_made_note(out, protocol, x, role, other, inside)
}
