//! The relay of a whole protocol.

ghost use Rattle.std.specs.Prelude.{◌≡◌, ◌<◌, ℕ, List, length, IfErr, IfOk, OnOk};
ghost use Rattle.anb_frame.specs.Cuts.{Tail};
ghost use Rattle.anb_stage.specs.Words.{asked_lists};
ghost use Rattle.anb_stage.specs.Notes.{IsTold, Note, notes_of};
ghost use Rattle.anb_stage.specs.Relays.{AreCut, ends_in, report, IsRelayed, IsRefused};

use crate::ends::ends_of;
use crate::log::NoLog;
use crate::relaying::relay_all;
use crate::{ChildWords, Log, RelayNo, Spawner};
use anb_base::{ARRIVAL, Sent};
use anb_protocol::{Protocol, protocols_hold};
use std::alloc::Global;

/// Starts a child for each role of the protocol with the role's words, each of which may be silent for so
/// many seconds where there is a limit, carries each message from its sender to its receiver, in the
/// order of the actions, and finishes all children. The first refusal
/// in the order of the work ends it: then children may be left that were started and aren't finished.
/// Roles are started and finished in their order. The messages are answered in the order of actions.
pub fn relay<P: Spawner>(
    alloc: Global,
    p: &Protocol,
    words: &[ChildWords],
    limit: Option<u32>,
    spawner: &mut P,
) -> Result<Vec<Sent>, RelayNo>
    requires words { length words.now ≡ length p.now.roles }
    requires unstarted { (role : ℕ) → role < length words.now
        → (P.child spawner.old role).phase ≡ 0 }

    // The report of children whose outputs are told, and all else that comes of it.
    ensures report { (outputs : ℕ → List (List ℕ)) (tails : ℕ → Tail)
        → AreCut (length words.now) (P.child spawner.old) outputs tails
        → IfOk result (λ sent. sent.items ≡ report outputs (ends_in p.now)) }
    ensures relayed { OnOk result (IsRelayed (length words.now) (P.child spawner.old)
        (P.child spawner.new) (asked_lists limit words.now) (ends_in p.now)) }
    ensures refused { IfErr result (IsRefused (length words.now) (P.child spawner.old)
        (P.child spawner.new) (asked_lists limit words.now) (ends_in p.now)) }
{
    relay_telling(alloc, p, words, limit, spawner, &mut NoLog)
}

/// Relays as [`relay`] does, and tells a log of each message: once its sender said it, and once its
/// receiver was handed all of it.
pub fn relay_telling<P: Spawner, L: Log>(
    alloc: Global,
    p: &Protocol,
    words: &[ChildWords],
    limit: Option<u32>,
    spawner: &mut P,
    log: &mut L,
) -> Result<Vec<Sent>, RelayNo>
    requires words { length words.now ≡ length p.now.roles }
    requires unstarted { (role : ℕ) → role < length words.now
        → (P.child spawner.old role).phase ≡ 0 }

    // The report of children whose outputs are told, and all else that comes of it.
    ensures report { (outputs : ℕ → List (List ℕ)) (tails : ℕ → Tail)
        → AreCut (length words.now) (P.child spawner.old) outputs tails
        → IfOk result (λ sent. sent.items ≡ report outputs (ends_in p.now)) }
    ensures relayed { OnOk result (IsRelayed (length words.now) (P.child spawner.old)
        (P.child spawner.new) (asked_lists limit words.now) (ends_in p.now)) }
    ensures refused { IfErr result (IsRefused (length words.now) (P.child spawner.old)
        (P.child spawner.new) (asked_lists limit words.now) (ends_in p.now)) }

    // What the log is told, in both cases.
    ensures told { IfOk result (λ sent.
        L.After log.old (notes_of (ends_in p.now) sent.items) log.new) }
    ensures count { IfOk result (λ sent. length sent.items ≡ length (ends_in p.now)) }
    ensures told_so_far { IfErr result (λ no. (told : List Note)
        × IsTold (ends_in p.now) (length words.now) (P.child spawner.old) no told
        × L.After log.old told log.new) }
{
    protocols_hold();
    let _ = p.name();
    let Ok(actions) = ends_of(alloc, p) else {
        return Err(RelayNo::NoMemory);
    };
    let Ok(mut buffer) = vec![in alloc; 0u8; ARRIVAL as usize] else {
        return Err(RelayNo::NoMemory);
    };
    relay_all(alloc, words, limit, &actions, spawner, log, &mut buffer)
}
