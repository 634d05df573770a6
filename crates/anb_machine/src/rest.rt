//! What a machine keeps beside its code, while it stands apart from that.
ghost use Rattle.std.specs.Prelude.{◌≡◌};
ghost use Rattle.anb_machine.specs.Resting.{IsRestOf, machine_of};

use crate::machine::Machine;
use crate::state::RunState;
use crate::turn::Last;
use anb_algebra::ByteAlgebra;
use anb_base::Bytes;
use anb_code::RoleCode;
use std::alloc::Global;

/// A machine without its code, so that an owner of the code can keep both. Taking a machine apart
/// and putting it together moves a few words.
#[derive(Drop)]
pub struct Rest {
    alloc: Global,
    seed: [u8; 32],
    session: u32,
    next: usize,
    event: u32,
    drawn: u32,
    registers: Vec<Bytes>,
    last: Last,
}

impl Rest {
    /// What this machine keeps.
    pub fn of(machine: Machine<'_>) -> Self
        ensures rest { IsRestOf machine.entry.code result }
        ensures same { machine_of machine.entry.code result ≡ machine.entry }
    {
        let Machine { state, last } = machine;
        let seed = state.seed;
        Rest {
            alloc: state.alloc,
            seed,
            session: state.session,
            next: state.next,
            event: state.event,
            drawn: state.drawn,
            registers: state.registers,
            last,
        }
    }

    /// The machine again, over the same code.
    pub fn over(self, code: &RoleCode) -> Machine<'_>
        requires rest { IsRestOf code.now self }
        ensures same { result ≡ machine_of code.now self }
    {
        let seed = self.seed;
        let state = RunState {
            alloc: self.alloc,
            code,
            algebra: ByteAlgebra::new(code.formats(), code.suite()),
            seed,
            session: self.session,
            next: self.next,
            event: self.event,
            drawn: self.drawn,
            registers: self.registers,
        };
        Machine {
            state,
            last: self.last,
        }
    }
}
