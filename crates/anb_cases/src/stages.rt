//! The children of a stage in memory, one for each role.

ghost use Rattle.std.specs.Prelude.{◌≡◌, ◌≤◌, ℕ, length, IfOk};
ghost use Rattle.anb_stage.specs.Memory.{child_at};

use crate::case::{Case, No};
use crate::children::child;
use anb_base::NoMemory;
use anb_partner::ChildEnd;
use anb_stage::{MemSpawner, ROLES};
use std::alloc::Global;

/// For how many bytes a child has room.
const PLENTY: u32 = 65_536;

/// The children that the case says under `roles`: a row each, with the status with which it ends, and then
/// what it says, in hexadecimal digits. The calls whose numbers stand under `roles fail` are faults, and where
/// `roles silent` is set each is that the child was silent.
pub(crate) fn roles(alloc: Global, case: Case) -> Result<MemSpawner, No>
    ensures { IfOk result (λ spawner. (role : ℕ) → (child_at spawner role).phase ≡ 0) }
{
    let mut outputs = Vec::new(alloc);
    let mut statuses = Vec::new(alloc);
    if let Some(rows) = case.text(alloc, "roles")? {
        for row in rows.lines() {
            let (ChildEnd::Status(status), output) = child(alloc, row)? else {
                return Err(No::Value("roles"));
            };
            outputs.push(output)?;
            statuses.push(status)?;
        }
    }
    let fails = case.numbers(alloc, "roles fail")?;
    if statuses.len() != outputs.len() || outputs.len() > ROLES as usize {
        return Err(No::Value("roles"));
    }
    let mut spawner = MemSpawner::new(alloc, outputs, statuses, PLENTY, fails)?;
    if case.is_set("roles silent")? {
        spawner.fall_silent();
    }
    Ok(spawner)
}

/// What the children heard, one after another.
pub(crate) fn heard(alloc: Global, spawner: &MemSpawner) -> Result<Vec<u8>, NoMemory> {
    let mut heard = Vec::new(alloc);
    for role in 0..count(spawner) {
        heard.extend_from_slice(spawner.written(role))?;
    }
    Ok(heard)
}

/// What was asked of the children, a line each.
pub(crate) fn asked(alloc: Global, spawner: &MemSpawner) -> Result<Vec<u8>, NoMemory> {
    let mut asked = Vec::new(alloc);
    for role in 0..count(spawner) {
        asked.extend_from_slice(spawner.asked(role))?;
    }
    Ok(asked)
}

/// How many children there are.
fn count(spawner: &MemSpawner) -> u32
    ensures { result ≤ length spawner.now.children }
{
    u32::try_from(spawner.roles()).unwrap_or(0)
}
