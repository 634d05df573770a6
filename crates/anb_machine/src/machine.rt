//! Machines: a code's run, one turn at a time.
ghost use Rattle.std.specs.Prelude.{◌≡◌, ◌≢◌, ℕ, List, [], ◌∷◌, ◌<◌, ◌≤◌, length, All, IsTrue, IfOk, IfSome, false, None};
ghost use Rattle.anb_plays.specs.Plays.{Played};
ghost use Rattle.anb_code.specs.Registers.{register_widths};
ghost use Rattle.anb_code.specs.Taking.{take_texts};
ghost use Rattle.anb_machine.specs.ByteRuns.{run_bytes};
ghost use Rattle.anb_machine.specs.Machines.{gives, left, waits, answer, answer_after, last_after, turn_of, KeepsLive, Turned};

use crate::registers::initial_registers;
use crate::state::RunState;
use crate::turn::{Last, Turn};
use anb_algebra::ByteAlgebra;
use anb_base::{ARRIVAL, Bytes, NoMemory, WIDE};
use anb_code::RoleCode;
use std::alloc::Global;
use std::marker::Model;

/// A code on its way.
#[derive(Drop)]
pub struct Machine<'c> {
    pub(crate) state: RunState<'c>,
    pub(crate) last: Last,
}

impl<'c> Model for Machine<'c> {
    ghost use Rattle.anb_machine.specs.Machines.{MachineValue};

    ghost Value = { MachineValue };

    ghost use Rattle.anb_machine.specs.Inside.{value_of, IsWhole};

    ghost view = { λ s. value_of s.state s.last };

    ghost invariant = { λ s. IsWhole s.state s.last };
}

impl<'c> Machine<'c> {
    /// A machine before its first instruction, with a value for each take in order. Its nonces are
    /// the draws of this session under the seed.
    pub fn start(
        alloc: Global,
        code: &'c RoleCode,
        init: &[Bytes],
        seed: &[u8; 32],
        session: u32,
    ) -> Result<Self, NoMemory>
        requires count { length init.now ≡ length (take_texts code.now.instrs) }
        requires short { All (λ value. length value ≤ ARRIVAL) init.now }
        ensures run { IfOk result (λ machine. (arrivals : List (List ℕ))
            → gives machine arrivals ≡ run_bytes code.now init.now seed.now session arrivals) }
        ensures open { IfOk result (λ machine. answer machine ≡ None) }
        ensures code { IfOk result (λ machine. machine.code ≡ code.now) }
        ensures widths { IfOk result (λ machine.
            machine.widths ≡ register_widths ARRIVAL code.now.formats code.now.instrs) }
        ensures keeps { IfOk result KeepsLive }
    {
        let registers = initial_registers(alloc, code.last_uses(), init)?;
        let state = RunState {
            alloc,
            code,
            algebra: ByteAlgebra::new(code.formats(), code.suite()),
            seed: *seed,
            session,
            next: 0,
            event: 0,
            drawn: 0,
            registers,
        };
        Ok(Machine {
            state,
            last: Last::Open,
        })
    }

    /// What comes next. After `Done`, `Stopped` and `NoMemory` the same comes again.
    pub fn advance(&mut self, alloc: Global) -> Turn
        ensures turned { Turned self.old self.new result }
        ensures first { result ≢ Turn.NoMemory → result ≡ turn_of (gives self.old []) }
        ensures narrow { (b : List ℕ) → result ≡ Turn.Message b → length b ≤ WIDE }
        ensures code { self.new.code ≡ self.old.code }
        ensures widths { self.new.widths ≡ self.old.widths }
        ensures keeps { KeepsLive self.new }
        ensures again { IfSome (answer self.old) (λ turn. (result ≡ turn) × (self.new ≡ self.old)) }
    {
        if let Some(turn) = again(self.last) {
            return turn;
        }
        let turn = self.state.advance(alloc);
        self.last = last_of(&turn);
        turn
    }

    /// Takes the arrival that it wants.
    pub fn arrive(&mut self, bytes: Bytes)
        requires waits { IsTrue (waits self.old) }
        requires short { length bytes ≤ ARRIVAL }
        ensures gives { (arrivals : List (List ℕ))
            → gives self.old (bytes ∷ arrivals) ≡ gives self.new arrivals }
        ensures further { left self.new < left self.old }
        ensures waits { waits self.new ≡ false }
        ensures open { answer self.new ≡ None }
        ensures code { self.new.code ≡ self.old.code }
        ensures widths { self.new.widths ≡ self.old.widths }
        ensures keeps { KeepsLive self.new }
    {
        self.state.arrive(bytes);
        self.last = Last::Open;
    }
}

/// What a turn leaves.
fn last_of(turn: &Turn) -> Last
    ensures { result ≡ last_after turn.now }
{
    match turn {
        Turn::Message(_) => Last::Open,
        Turn::Wants(_) => Last::Wants,
        Turn::Done => Last::Done,
        Turn::Stopped(halt) => Last::Stopped(*halt),
        Turn::NoMemory => Last::NoMemory,
    }
}

/// The turn that comes again.
fn again(last: Last) -> Option<Turn>
    ensures { result ≡ answer_after last }
{
    match last {
        Last::Open | Last::Wants => None,
        Last::Done => Some(Turn::Done),
        Last::Stopped(halt) => Some(Turn::Stopped(halt)),
        Last::NoMemory => Some(Turn::NoMemory),
    }
}
