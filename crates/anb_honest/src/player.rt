//! A role of a rehearsal.
use anb_base::{ARRIVAL, Bytes, NoMemory};
use anb_machine::{Halt, Machine, Turn};
use std::alloc::Global;

/// What a role does at an action, whose number is from 1.
#[derive(Clone, Copy, Debug, Drop)]
pub(crate) struct Part {
    pub(crate) action: u32,
    pub(crate) sends: bool,
}

/// A role's machine, all that the role is to do, and how much of it is done.
#[derive(Drop)]
pub(crate) struct Player<'c> {
    pub(crate) machine: Machine<'c>,
    pub(crate) parts: Vec<Part>,
    pub(crate) done: usize,
}

/// Why a role does no more.
#[derive(Clone, Copy, Drop)]
pub(crate) enum Stop {
    Stuck(Halt),
    NoMemory,
}

impl<'c> Player<'c> {
    ghost use Rattle.std.specs.Prelude.{◌≡◌, ◌+◌, ◌<◌, ◌≤◌, ℕ, List, [], ◌∷◌, length, slice_get, IfOk, IfErr, OnOk};
    ghost use Rattle.anb_plays.specs.Plays.{waiting, ends, says};
    ghost use Rattle.anb_machine.specs.Machines.{gives};
    ghost use Rattle.anb_honest.specs.Acting.{AnyComing, HearsNow, Stops, TellsNow, halt_of, is_done};

    /// What the role does next.
    pub(crate) fn next(&self) -> Option<Part>
        ensures { result ≡ slice_get self.now.parts.items self.now.done }
    {
        self.parts.get(self.done).copied()
    }

    pub(crate) fn is_done(&self) -> bool
        ensures { result ≡ is_done self.now }
    {
        self.done == self.parts.len()
    }

    /// The message of a send, which is what the role does next.
    pub(crate) fn tell(&mut self, alloc: Global) -> Result<Bytes, Stop>
        requires tells { TellsNow (gives self.old.machine) }
        requires room { self.old.done < length self.old.parts.items }
        ensures told { IfOk result (λ message. (arrivals : List (List ℕ))
            → gives self.old.machine arrivals ≡ says message (gives self.new.machine arrivals)) }
        ensures done { OnOk result (self.new.done ≡ self.old.done + 1) }
        ensures parts { OnOk result (self.new.parts.items ≡ self.old.parts.items) }
        ensures stops { IfErr result (Stops (gives self.old.machine)) }
    {
        match self.machine.advance(alloc) {
            Turn::Message(message) => {
                self.done += 1;
                Ok(message)
            }
            Turn::Stopped(halt) => Err(Stop::Stuck(halt)),
            Turn::NoMemory => Err(Stop::NoMemory),
            Turn::Wants(_) | Turn::Done => unreachable!(),
        }
    }

    /// Hands the role the message of a receive, which is what the role does next.
    pub(crate) fn hear(&mut self, alloc: Global, message: &Bytes) -> Result<(), Stop>
        requires hears { HearsNow (gives self.old.machine) }
        requires short { length message.now ≤ ARRIVAL }
        requires room { self.old.done < length self.old.parts.items }
        ensures waited { OnOk result ((e : ℕ) × (gives self.old.machine [] ≡ ends (waiting e) [])) }
        ensures heard { OnOk result ((arrivals : List (List ℕ))
            → gives self.old.machine (message.now ∷ arrivals) ≡ gives self.new.machine arrivals) }
        ensures done { OnOk result (self.new.done ≡ self.old.done + 1) }
        ensures parts { OnOk result (self.new.parts.items ≡ self.old.parts.items) }
        ensures stops { IfErr result (Stops (gives self.old.machine)) }
    {
        match self.machine.advance(alloc) {
            Turn::Wants(_) => {
                let Ok(message) = message.copy(alloc) else {
                    return Err(Stop::NoMemory);
                };
                self.machine.arrive(message);
                self.done += 1;
                Ok(())
            }
            Turn::Stopped(halt) => Err(Stop::Stuck(halt)),
            Turn::NoMemory => Err(Stop::NoMemory),
            Turn::Message(_) | Turn::Done => unreachable!(),
        }
    }

    /// How the role's run stopped, where it did and all its messages were reported.
    pub(crate) fn stuck(mut self, alloc: Global) -> Result<Option<Halt>, NoMemory>
        ensures { IfOk result (λ halt. halt ≡ halt_of self.entry) }
    {
        match self.machine.advance(alloc) {
            Turn::Stopped(halt) => Ok(Some(halt)),
            Turn::Message(_) | Turn::Wants(_) | Turn::Done => Ok(None),
            Turn::NoMemory => Err(NoMemory),
        }
    }
}
