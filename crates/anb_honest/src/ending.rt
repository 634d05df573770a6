//! The end of a rehearsal after its last turn.
ghost use Rattle.std.specs.Prelude.{◌≡◌, ◌+◌, ◌^◌, ◌<◌, ◌≤◌, length, IfOk};
ghost use Rattle.std.specs.List.{list_all};
ghost use Rattle.anb_honest.specs.Acting.{is_done};
ghost use Rattle.anb_honest.specs.Joint.{Cast, Course, end_behind};
ghost use Rattle.anb_honest.specs.Inside.{Stands, first_stopped, sent_from};

use crate::player::Player;
use crate::stage::Stage;
use crate::{Messages, RehearseEnd, Report};
use anb_base::{Bytes, NoMemory, Sent};
use std::alloc::Global;

/// The end after the last turn.
pub(crate) fn end_of(alloc: Global, stage: Stage<'_>) -> Result<RehearseEnd, NoMemory>
    requires few { stage.taken + stage.passed < 2 ^ 32 }
    requires players { length stage.players.items ≤ 32 }
    requires told { length stage.told.items ≤ 256 }
    ensures { IfOk result (λ end. (c : Cast) (s : Course) → Stands c s stage.entry
        → end ≡ end_behind c s) }
{
    let Stage {
        players,
        told,
        taken,
        passed,
    } = stage;
    let is_complete = are_done(&players);
    if let Some(end) = first_stuck(alloc, players)? {
        return Ok(end);
    }
    let report = Report {
        turns: taken + passed,
        taken,
        passed,
        sent: Messages::new(all_sent(alloc, told)?),
    };
    if is_complete {
        Ok(RehearseEnd::AllDone(report))
    } else {
        Ok(RehearseEnd::Part(report))
    }
}

/// Whether no role has an action left.
fn are_done(players: &[Player<'_>]) -> bool
    ensures { result ≡ list_all is_done players.now }
{
    players.iter().all(|player| player.is_done())
}

/// The end that the first role makes that is stuck.
fn first_stuck(alloc: Global, players: Vec<Player<'_>>) -> Result<Option<RehearseEnd>, NoMemory>
    requires { length players.items ≤ 32 }
    ensures { IfOk result (λ end. end ≡ first_stopped 0 players.entry.items) }
{
    let mut role = 0;
    for player in players {
        if let Some(halt) = player.stuck(alloc)? {
            return Ok(Some(RehearseEnd::Stopped { role, halt }));
        }
        role += 1;
    }
    Ok(None)
}

/// The messages that are there, with the numbers of their actions.
fn all_sent(alloc: Global, told: Vec<Option<Bytes>>) -> Result<Vec<Sent>, NoMemory>
    requires { length told.items ≤ 256 }
    ensures { IfOk result (λ sent. sent.items ≡ sent_from 1 told.items) }
{
    let mut sent = Vec::new(alloc);
    let mut action = 1;
    for slot in told {
        if let Some(bytes) = slot {
            sent.push(Sent { action, bytes })?;
        }
        action += 1;
    }
    Ok(sent)
}
