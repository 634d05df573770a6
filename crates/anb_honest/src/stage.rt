//! A rehearsal on its way.
use crate::RehearseEnd;
use crate::player::{Part, Player, Stop};
use anb_base::{ARRIVAL, Bytes, NoMemory};
use std::alloc::Global;

/// The roles, the reported message of each action, and how many turns were taken and passed over.
#[derive(Drop)]
pub(crate) struct Stage<'c> {
    pub(crate) players: Vec<Player<'c>>,
    pub(crate) told: Vec<Option<Bytes>>,
    pub(crate) taken: u32,
    pub(crate) passed: u32,
}

impl<'c> Stage<'c> {
    ghost use Rattle.std.specs.Prelude.{◌≡◌, ◌+◌, ◌^◌, ◌<◌, length, option_map, true, false, Some, IfOk};
    ghost use Rattle.anb_protocol.specs.Schedules.{turn_of};
    ghost use Rattle.anb_honest.specs.Joint.{Cast, Course, turns_of};
    ghost use Rattle.anb_honest.specs.Inside.{IsAtTurn, IsStage, Stands, Takes, turn_at, turn_value};

    /// Takes a role's turn or passes it over, and tells the end that it makes.
    pub(crate) fn turn(&mut self, alloc: Global, role: u32) -> Result<Option<RehearseEnd>, NoMemory>
        requires stage { IsStage self.old }
        requires role { role < length self.old.players.items }
        requires few { self.old.taken + self.old.passed + 1 < 2 ^ 32 }
        ensures { IfOk result (λ end. (c : Cast) (s : Course) → Stands c s self.old
            → Takes c s (turn_of c.protocol (turns_of s.moves) role) self.new end) }
    {
        match self.due(role) {
            None => {
                self.passed += 1;
                Ok(None)
            }
            Some(part) => {
                if part.sends {
                    self.tell(alloc, role, part.action)
                } else {
                    self.hear(alloc, role, part.action)
                }
            }
        }
    }

    /// What a role does next, where it is a send, or a receive of an action that was sent.
    fn due(&self, role: u32) -> Option<Part>
        requires stage { IsStage self.now }
        requires role { role < length self.now.players.items }
        ensures { (c : Cast) (s : Course) → Stands c s self.now
            → option_map (turn_value role) result ≡ turn_of c.protocol (turns_of s.moves) role }
    {
        let part = self.players[role as usize].next()?;
        if part.sends || self.told[part.action as usize - 1].is_some() {
            Some(part)
        } else {
            None
        }
    }

    /// The role reports the message of an action.
    fn tell(
        &mut self,
        alloc: Global,
        role: u32,
        action: u32,
    ) -> Result<Option<RehearseEnd>, NoMemory>
        requires turn { IsAtTurn self.old (turn_at role action true) }
        requires role { role < length self.old.players.items }
        requires few { self.old.taken + 1 < 2 ^ 32 }
        ensures { IfOk result (λ end. (c : Cast) (s : Course) → Stands c s self.old
            → turn_of c.protocol (turns_of s.moves) role ≡ Some (turn_at role action true)
            → Takes c s (Some (turn_at role action true)) self.new end) }
    {
        let player = &mut self.players[role as usize];
        match player.tell(alloc) {
            Ok(message) => {
                let len = message.as_slice().len();
                if len > ARRIVAL as usize {
                    return Ok(Some(RehearseEnd::LongMessage {
                        action,
                        len: len as u64,
                    }));
                }
                self.told[action as usize - 1] = Some(message);
                self.taken += 1;
                Ok(None)
            }
            Err(Stop::Stuck(halt)) => Ok(Some(RehearseEnd::Stopped { role, halt })),
            Err(Stop::NoMemory) => Err(NoMemory),
        }
    }

    /// The role is handed the reported message of an action.
    fn hear(
        &mut self,
        alloc: Global,
        role: u32,
        action: u32,
    ) -> Result<Option<RehearseEnd>, NoMemory>
        requires turn { IsAtTurn self.old (turn_at role action false) }
        requires role { role < length self.old.players.items }
        requires few { self.old.taken + 1 < 2 ^ 32 }
        ensures { IfOk result (λ end. (c : Cast) (s : Course) → Stands c s self.old
            → turn_of c.protocol (turns_of s.moves) role ≡ Some (turn_at role action false)
            → Takes c s (Some (turn_at role action false)) self.new end) }
    {
        let Some(message) = &self.told[action as usize - 1] else {
            unreachable!()
        };
        let player = &mut self.players[role as usize];
        match player.hear(alloc, message) {
            Ok(()) => {
                self.taken += 1;
                Ok(None)
            }
            Err(Stop::Stuck(halt)) => Ok(Some(RehearseEnd::Stopped { role, halt })),
            Err(Stop::NoMemory) => Err(NoMemory),
        }
    }
}
