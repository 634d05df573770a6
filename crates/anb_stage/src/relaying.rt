//! All messages of a list of actions.

ghost use Rattle.std.specs.Prelude.{◌≡◌, ◌<◌, ◌≤◌, ◌+◌, ◌^◌, ℕ, List, length, IfErr, IfOk, OnOk};
ghost use Rattle.anb_base.specs.declared.TheConstants.{ARRIVAL};
ghost use Rattle.anb_frame.specs.Cuts.{Tail};
ghost use Rattle.anb_stage.specs.Words.{asked_lists};
ghost use Rattle.anb_stage.specs.Notes.{IsTold, Note, notes_of};
ghost use Rattle.anb_stage.specs.Relays.{AreCut, report, IsRelayed, IsRefused};
ghost use Rattle.anb_stage.specs.Steps.{AreWithin};
ghost use Rattle.anb_stage.specs.declared.TheConstants.{ROLES};

use crate::carrying::carry_all;
use crate::ends::Ends;
use crate::finishing::finish_all;
use crate::starting::start_all;
use crate::{ChildWords, Log, RelayNo, Spawner};
use anb_base::Sent;
use std::alloc::Global;

/// Starts all children, carries the messages of all actions, and finishes all children.
pub(crate) fn relay_all<P: Spawner, L: Log>(
    alloc: Global,
    words: &[ChildWords],
    limit: Option<u32>,
    actions: &[Ends],
    spawner: &mut P,
    log: &mut L,
    buffer: &mut [u8],
) -> Result<Vec<Sent>, RelayNo>
    requires roles { length words.now ≤ ROLES }
    requires unstarted { (role : ℕ) → role < length words.now
        → (P.child spawner.old role).phase ≡ 0 }
    requires within { AreWithin (length words.now) actions.now }
    requires few { length actions.now + 1 < 2 ^ 32 }
    requires buffer { length buffer.old ≡ ARRIVAL }
    ensures report { (outputs : ℕ → List (List ℕ)) (tails : ℕ → Tail)
        → AreCut (length words.now) (P.child spawner.old) outputs tails
        → IfOk result (λ sent. sent.items ≡ report outputs actions.now) }
    ensures relayed { OnOk result (IsRelayed (length words.now) (P.child spawner.old)
        (P.child spawner.new) (asked_lists limit words.now) actions.now) }
    ensures refused { IfErr result (IsRefused (length words.now) (P.child spawner.old)
        (P.child spawner.new) (asked_lists limit words.now) actions.now) }
    ensures told { IfOk result (λ sent.
        L.After log.old (notes_of actions.now sent.items) log.new) }
    ensures count { IfOk result (λ sent. length sent.items ≡ length actions.now) }
    ensures told_so_far { IfErr result (λ no. (told : List Note)
        × IsTold actions.now (length words.now) (P.child spawner.old) no told
        × L.After log.old told log.new) }
{
    match start_all(spawner, limit, words) {
        Ok(()) => {}
        Err(no) => return Err(no),
    }
    let sent = match carry_all(alloc, spawner, log, actions, buffer) {
        Ok(sent) => sent,
        Err(no) => return Err(no),
    };
    match finish_all(spawner, words.len() as u32) {
        Ok(()) => Ok(sent),
        Err(no) => Err(no),
    }
}
