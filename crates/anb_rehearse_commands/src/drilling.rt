//! Drills.
ghost use Rattle.std.specs.Prelude.{◌≡◌, ◌<◌, ◌^◌, IfOk, true, false};
ghost use Rattle.anb_base.specs.declared.place.Place.TheVariants as place;
ghost use Rattle.anb_command.specs.OverWire.{OverWire};
ghost use Rattle.anb_status.specs.Statuses.{is_fault};
ghost use Rattle.anb_status.specs.declared.status.Status.TheVariants as status;
ghost use Rattle.anb_rehearse_commands.specs.DrillCommand.{CompletesDrill, DoesDrill, drill_text};

use anb_base::{NoMemory, Wire};
use anb_command::{Status, write_text};
use std::alloc::Global;

/// Writes how many actions, turns and bytes a drill of `n` exchanges has.
pub fn drill<W: Wire>(alloc: Global, wire: &mut W, n: u32) -> Status
    ensures does { DoesDrill n (W.state wire.old) (W.state wire.new) result }
    ensures completes { (is_fault result ≡ true → result ≡ status.NoMemory)
        → CompletesDrill n result }
    ensures wire { OverWire place.Stdio false result (W.state wire.old) (W.state wire.new) }
{
    match drill_text(alloc, u64::from(n)) {
        Ok(text) => write_text(wire, &text),
        Err(NoMemory) => Status::NoMemory,
    }
}

/// The line of a drill of `n` exchanges.
fn drill_text(alloc: Global, n: u64) -> Result<Vec<u8>, NoMemory>
    requires { n < 2 ^ 32 }
    ensures { IfOk result (λ text. text.items ≡ drill_text n) }
{
    let actions = n + 2;
    let turns = 2 * actions;
    let passed: u64 = 0;
    let bytes = 96 + 99 * n;
    let line = format!(in alloc;
        "drill {n}: actions {actions}, turns {turns}, passed {passed}, bytes {bytes}\n"
    )?;
    Ok(line.into_bytes())
}
