//! What a session keeps beside its code, while it stands apart from that.
ghost use Rattle.std.specs.Prelude.{◌≡◌};
ghost use Rattle.anb_park.specs.Resting.{IsRestOf, session_of};

use crate::live::Live;
use anb_code::RoleCode;
use anb_machine::Rest;

/// A session without its code, so that an owner of the code can keep both. Taking a session apart
/// and putting it together moves a few words.
#[derive(Drop)]
pub struct LiveRest {
    machine: Rest,
    body: Vec<u8>,
    failed: bool,
}

impl LiveRest {
    /// What this session keeps.
    pub fn of(live: Live<'_>) -> Self
        ensures rest { IsRestOf live.entry.machine.code result }
        ensures same { session_of live.entry.machine.code result ≡ live.entry }
    {
        let Live {
            machine,
            body,
            failed,
        } = live;
        LiveRest {
            machine: Rest::of(machine),
            body,
            failed,
        }
    }

    /// The session again, over the same code.
    pub fn over(self, code: &RoleCode) -> Live<'_>
        requires rest { IsRestOf code.now self }
        ensures same { result ≡ session_of code.now self }
    {
        Live {
            machine: self.machine.over(code),
            body: self.body,
            failed: self.failed,
        }
    }
}
