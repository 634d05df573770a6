//! Who sends each message of a protocol, and who receives it.

ghost use Rattle.std.specs.Prelude.{◌≡◌, map, IfOk};
ghost use Rattle.anb_protocol.specs.Views.{action_value};
ghost use Rattle.anb_stage.specs.Relays.{ends_in};
ghost use Rattle.anb_stage.specs.Relays.{ends_of};

use anb_base::NoMemory;
use anb_protocol::{Action, Protocol};
use std::alloc::Global;

/// The sender and the receiver of an action, by their numbers.
#[derive(Clone, Copy, Debug, Drop)]
pub(crate) struct Ends {
    pub(crate) from: u32,
    pub(crate) to: u32,
}

/// The sender and the receiver of each action.
pub(crate) fn ends_of(alloc: Global, p: &Protocol) -> Result<Vec<Ends>, NoMemory>
    ensures { IfOk result (λ ends. ends.items ≡ ends_in p.now) }
{
    ends_of_all(alloc, p.messages())
}

fn ends_of_all(alloc: Global, actions: &[Action]) -> Result<Vec<Ends>, NoMemory>
    ensures { IfOk result (λ ends. ends.items ≡ map ends_of (map action_value actions.now)) }
{
    let mut all = Vec::new(alloc);
    for action in actions {
        all.push(Ends {
            from: action.from,
            to: action.to,
        })?;
    }
    Ok(all)
}
