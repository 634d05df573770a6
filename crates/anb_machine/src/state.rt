//! The state of a run, from one instruction to the next.
ghost use Rattle.std.specs.Prelude.{◌≡◌, ℕ, ◌+◌, ◌<◌, ◌≤◌, ◌^◌, List, ◌∷◌, length, slice_get, IfOk, Some, None};
ghost use Rattle.anb_plays.specs.Codes.{draws, sends};
ghost use Rattle.anb_code.specs.Meaning.{act_of};
ghost use Rattle.anb_machine.specs.Standing.{IsKept, IsSameRun, IsNext, IsWork, AtReceive, ComesSame, IsNarrowTurn, StepsTo, TurnsTo, acts_left, coming};
ghost use Rattle.anb_machine.specs.Keeping.{HasGone, HasMoved, IsLean, IsThinned, thinned_by};
ghost use Rattle.anb_machine.specs.Works.{HasFewFields};

use crate::registers::drop_unread;
use crate::turn::{Halt, Turn};
use crate::work::work;
use anb_algebra::ByteAlgebra;
use anb_base::{ARRIVAL, Bytes, NoMemory, WIDE};
use anb_code::{Instr, RoleCode};
use anb_seal::draw;
use anb_term::Algebra;
use std::alloc::Global;

/// A code, what its draws come from, the next instruction's place, and the registers' values. An
/// instruction costs what its operator costs, and a look at each register that it reads or writes.
#[derive(Drop)]
pub(crate) struct RunState<'c> {
    pub(crate) alloc: Global,
    pub(crate) code: &'c RoleCode,
    pub(crate) algebra: ByteAlgebra<'c>,
    pub(crate) seed: [u8; 32],
    pub(crate) session: u32,
    pub(crate) next: usize,
    pub(crate) event: u32,
    pub(crate) drawn: u32,
    pub(crate) registers: Vec<Bytes>,
}

impl<'c> RunState<'c> {
    /// Does instructions up to the next turn.
    pub(crate) fn advance(&mut self, alloc: Global) -> Turn
        requires kept { IsKept self.old }
        requires lean { IsLean self.old }
        ensures kept { IsKept self.new }
        ensures lean { IsLean self.new }
        ensures same { IsSameRun self.old self.new }
        ensures turned { TurnsTo self.old self.new result }
        ensures narrow { (b : List ℕ) → result ≡ Turn.Message b → length b ≤ WIDE }
    {
        loop {
            match self.step(alloc) {
                Ok(None) => {}
                Ok(Some(turn)) => return turn,
                Err(NoMemory) => return Turn::NoMemory,
            }
        }
    }

    /// Does one instruction, drops what no other one reads, and tells the turn that it makes.
    fn step(&mut self, alloc: Global) -> Result<Option<Turn>, NoMemory>
        requires kept { IsKept self.old }
        requires lean { IsLean self.old }
        ensures kept { IsKept self.new }
        ensures lean { IsLean self.new }
        ensures same { IsSameRun self.old self.new }
        ensures stepped { IfOk result (λ turn. StepsTo self.old self.new turn) }
        ensures narrow { IfOk result (λ turn. IsNarrowTurn turn) }
    {
        let code: &RoleCode = self.code;
        let Some(instr) = code.instrs().get(self.next) else {
            return Ok(Some(Turn::Done));
        };
        let from = self.registers.len();
        let turn = self.act(alloc, instr);
        self.drop_unread(instr, from);
        turn
    }

    /// Does this instruction, which is the next.
    fn act(&mut self, alloc: Global, instr: &Instr) -> Result<Option<Turn>, NoMemory>
        requires kept { IsKept self.old }
        requires lean { IsLean self.old }
        requires at { slice_get self.old.code.now.instrs self.old.next ≡ Some instr.now }
        requires few { HasFewFields self.old.algebra.formats instr.now }
        ensures kept { IsKept self.new }
        ensures same { IsSameRun self.old self.new }
        ensures stepped { IfOk result (λ turn. StepsTo self.old self.new turn) }
        ensures gone { HasGone self.old self.new }
        ensures narrow { IfOk result (λ turn. IsNarrowTurn turn) }
    {
        match instr {
            Instr::Take(_) => {
                self.next += 1;
                Ok(None)
            }
            Instr::Fresh => self.draw(alloc),
            Instr::Recv => Ok(Some(Turn::Wants(self.event + 1))),
            Instr::Send(register) => self.send(alloc, *register),
            _ => self.work(alloc, instr),
        }
    }

    /// Drops what no instruction to come reads of the last one's operands and of the registers from
    /// one on.
    fn drop_unread(&mut self, instr: &Instr, from: usize)
        requires { IsKept self.old }
        ensures kept { IsKept self.new }
        ensures same { IsSameRun self.old self.new }
        ensures thinned { IsThinned (thinned_by instr.now from) self.old self.new }
        ensures comes { ComesSame self.old self.new }
    {
        let uses = self.code.last_uses();
        drop_unread(
            self.alloc,
            &mut self.registers,
            uses,
            self.next,
            instr,
            from,
        );
    }

    /// Writes the next nonce into the next register.
    fn draw(&mut self, alloc: Global) -> Result<Option<Turn>, NoMemory>
        requires kept { IsKept self.old }
        requires next { IsNext self.old draws }
        requires at { slice_get self.old.code.now.instrs self.old.next ≡ Some Instr.Fresh }
        ensures kept { IsKept self.new }
        ensures same { IsSameRun self.old self.new }
        ensures stepped { IfOk result (λ turn. StepsTo self.old self.new turn) }
        ensures gone { HasGone self.old self.new }
        ensures narrow { IfOk result (λ turn. turn ≡ None) }
    {
        let Ok(nonce) = Vec::from_slice(alloc, &draw(&self.seed, self.session, self.drawn)) else {
            return Err(NoMemory);
        };
        if self.registers.push(Bytes::new(nonce)).is_err() {
            return Err(NoMemory);
        }
        self.drawn += 1;
        self.next += 1;
        Ok(None)
    }

    /// Hands out a register.
    fn send(&mut self, alloc: Global, register: u32) -> Result<Option<Turn>, NoMemory>
        requires kept { IsKept self.old }
        requires lean { IsLean self.old }
        requires next { IsNext self.old (sends register) }
        requires at { slice_get self.old.code.now.instrs self.old.next
            ≡ Some (Instr.Send register) }
        ensures kept { IsKept self.new }
        ensures same { IsSameRun self.old self.new }
        ensures stepped { IfOk result (λ turn. StepsTo self.old self.new turn) }
        ensures gone { HasGone self.old self.new }
        ensures narrow { IfOk result (λ turn. IsNarrowTurn turn) }
    {
        let Ok(message) = self.algebra.copy(alloc, &self.registers, register) else {
            return Err(NoMemory);
        };
        self.event += 1;
        self.next += 1;
        Ok(Some(Turn::Message(message)))
    }

    /// Works on registers, and stops where the demand fails.
    fn work(&mut self, alloc: Global, instr: &Instr) -> Result<Option<Turn>, NoMemory>
        requires kept { IsKept self.old }
        requires next { IsNext self.old (act_of self.old.algebra.formats instr.now) }
        requires works { IsWork (act_of self.old.algebra.formats instr.now) }
        requires at { slice_get self.old.code.now.instrs self.old.next ≡ Some instr.now }
        requires few { HasFewFields self.old.algebra.formats instr.now }
        ensures kept { IsKept self.new }
        ensures same { IsSameRun self.old self.new }
        ensures stepped { IfOk result (λ turn. StepsTo self.old self.new turn) }
        ensures gone { HasGone self.old self.new }
        ensures narrow { IfOk result (λ turn. IsNarrowTurn turn) }
    {
        let formats = self.code.formats();
        match work(&self.algebra, alloc, formats, &mut self.registers, instr) {
            Err(NoMemory) => Err(NoMemory),
            Ok(false) => Ok(Some(Turn::Stopped(self.halt()))),
            Ok(true) => {
                self.next += 1;
                Ok(None)
            }
        }
    }

    /// Where it stops, if the next instruction's demand fails.
    fn halt(&self) -> Halt
        requires within { self.now.next < length self.now.code.now.instrs }
        requires few { length self.now.code.now.instrs + 1 < 2 ^ 32 }
        ensures { result ≡ record { event = self.now.event; at = self.now.next + 1 } }
    {
        Halt {
            event: self.event,
            at: self.next as u32 + 1,
        }
    }

    /// Writes an arrival into the next register. There is room, which was taken at the start.
    pub(crate) fn arrive(&mut self, bytes: Bytes)
        requires kept { IsKept self.old }
        requires lean { IsLean self.old }
        requires receives { AtReceive (acts_left self.old) }
        requires short { length bytes ≤ ARRIVAL }
        ensures kept { IsKept self.new }
        ensures lean { IsLean self.new }
        ensures same { IsSameRun self.old self.new }
        ensures further { self.new.next ≡ self.old.next + 1 }
        ensures comes { (arrivals : List (List ℕ))
            → coming self.old (bytes ∷ arrivals) ≡ coming self.new arrivals }
    {
        let from = self.registers.len();
        self.receive(bytes);
        self.drop_unread(&Instr::Recv, from);
    }

    fn receive(&mut self, bytes: Bytes)
        requires kept { IsKept self.old }
        requires receives { AtReceive (acts_left self.old) }
        requires short { length bytes ≤ ARRIVAL }
        ensures kept { IsKept self.new }
        ensures same { IsSameRun self.old self.new }
        ensures moved { HasMoved self.old self.new }
        ensures comes { (arrivals : List (List ℕ))
            → coming self.old (bytes ∷ arrivals) ≡ coming self.new arrivals }
    {
        let _ = self.registers.push(bytes);
        self.event += 1;
        self.next += 1;
    }
}
