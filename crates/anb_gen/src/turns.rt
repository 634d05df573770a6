//! The turns of a drill.
ghost use Rattle.std.specs.Prelude.{◌≡◌, ◌≤◌, IfOk};
ghost use Rattle.anb_gen.specs.Drill.{exchange, drill_narration};
ghost use Rattle.anb_gen.specs.Turns.{action_turns, turns_of};

use crate::drill::is_forth;
use anb_base::NoMemory;
use std::alloc::Global;

/// The turns of a message from `A` to `B`, by the roles' numbers.
const FORTH: [u32; 2] = [0, 1];

/// The turns of a message from `B` to `A`.
const BACK: [u32; 2] = [1, 0];

/// The turns of a drill of `n` exchanges, by the roles' numbers: `A` is 0 and `B` is 1.
pub fn drill_turns(alloc: Global, n: u32) -> Result<Vec<u32>, NoMemory>
    requires least { 1 ≤ n }
    requires most { n ≤ 200 }
    ensures { IfOk result (λ turns. turns.items ≡ turns_of (drill_narration n)) }
{
    let mut turns = Vec::from_slice(alloc, &FORTH)?;
    for i in 1..=n {
        turns.extend_from_slice(&exchange_turns(i))?;
    }
    turns.extend_from_slice(&FORTH)?;
    Ok(turns)
}

fn exchange_turns(i: u32) -> [u32; 2]
    ensures { result ≡ action_turns (exchange i) }
{
    if is_forth(i) { FORTH } else { BACK }
}
