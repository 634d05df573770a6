//! A session under way that owns its code.
ghost use Rattle.std.specs.Prelude.{◌≡◌, ◌≢◌, ◌≤◌, ℕ, List, [], ◌∷◌, length, All, IsTrue, IfOk, IfErr, IfSome, OnOk, OnErr, Some};
ghost use Rattle.anb_base.specs.declared.TheConstants.{ARRIVAL};
ghost use Rattle.anb_code.specs.CodeValue.{CodeValue};
ghost use Rattle.anb_code.specs.Taking.{take_texts};
ghost use Rattle.anb_machine.specs.Machines.{answer, waits, Turned};
ghost use Rattle.anb_park.specs.Records.{Parked, after, count_takes, record_of, Accepts, IsWaiting, Refuses};
ghost use Rattle.anb_park.specs.Lives.{IsParked, Stands, started, sent_after};

use anb_base::{ARRIVAL, Bytes, NoMemory};
use anb_code::RoleCode;
use anb_machine::Turn;
use anb_park::{Live, LiveRest, ParkNo, resume};
use std::alloc::Global;
use std::marker::Model;

/// A session beside its code.
#[derive(Drop)]
pub struct Owned {
    code: RoleCode,
    rest: LiveRest,
}

impl Model for Owned {
    ghost use Rattle.anb_park.specs.Lives.{LiveValue};

    ghost Value = { LiveValue };

    ghost use Rattle.anb_park.specs.Resting.{IsRestOf, session_of};

    ghost view = { λ s. session_of s.code s.rest };

    ghost invariant = { λ s. IsRestOf s.code s.rest };
}

impl Owned {
    /// A session before its first instruction, as `Live::start` gives it.
    pub(crate) fn start(
        alloc: Global,
        code: RoleCode,
        id: [u8; 32],
        init: &[Bytes],
        seed: &[u8; 32],
    ) -> Result<Self, NoMemory>
        requires count { length init.now ≡ length (take_texts code.instrs) }
        requires short { All (λ value. length value ≤ ARRIVAL) init.now }
        ensures { IfOk result (λ live. Stands code (started id init.now seed.now 0) [] live) }
    {
        match Live::start(alloc, &code, id, init, seed, 0) {
            Ok(live) => {
                let rest = LiveRest::of(live);
                Ok(Owned { code, rest })
            }
            Err(no) => Err(no),
        }
    }

    /// What comes next, as `Live::advance` tells it.
    pub(crate) fn advance(self, alloc: Global) -> (Turn, Self)
        ensures turned { Turned self.machine result.1.machine result.0 }
        ensures stands { (code : CodeValue) (p : Parked) (sent : List (List ℕ)) →
            result.0 ≢ Turn.NoMemory → Stands code p sent self
            → Stands code p (sent_after sent result.0) result.1 }
        ensures again { IfSome (answer self.machine) (λ turn.
            (result.0 ≡ turn) × (result.1 ≡ self)) }
    {
        let Owned { code, rest } = self;
        let mut live = rest.over(&code);
        let turn = live.advance(alloc);
        let rest = LiveRest::of(live);
        (turn, Owned { code, rest })
    }

    /// Takes the arrival that it wants, as `Live::arrive` does.
    pub(crate) fn arrive(self, bytes: Bytes) -> (Result<(), NoMemory>, Self)
        requires waits { IsTrue (waits self.machine) }
        requires short { length bytes ≤ ARRIVAL }
        ensures stands { OnOk result.0 ((code : CodeValue) (p : Parked) (sent : List (List ℕ)) →
            Stands code p sent self → Stands code (after p (bytes ∷ [])) sent result.1) }
        ensures failed { OnErr result.0 (answer result.1.machine ≡ Some Turn.NoMemory) }
    {
        let Owned { code, rest } = self;
        let mut live = rest.over(&code);
        let taken = live.arrive(bytes);
        let rest = LiveRest::of(live);
        (taken, Owned { code, rest })
    }

    /// The record of a session that waits, as `Live::park` makes it.
    pub(crate) fn park(self, alloc: Global, key: &[u8]) -> (Result<Bytes, NoMemory>, Self)
        requires waits { IsTrue (waits self.machine) }
        ensures same { result.1 ≡ self }
        ensures record { IfOk result.0 (λ parked.
            (code : CodeValue) (p : Parked) (sent : List (List ℕ))
            → Stands code p sent self → parked ≡ record_of key.now p) }
        ensures accepted { IfOk result.0 (λ parked. (code : CodeValue) (p : Parked)
            → IsParked code p self
            → Accepts (count_takes code) (IsWaiting code) p.id key.now parked p) }
    {
        let Owned { code, rest } = self;
        let live = rest.over(&code);
        let parked = live.park(alloc, key);
        let rest = LiveRest::of(live);
        (parked, Owned { code, rest })
    }

    /// Goes on from a record, as `anb_park::resume` does.
    pub(crate) fn resume(
        alloc: Global,
        code: RoleCode,
        id: [u8; 32],
        key: &[u8],
        parked: &[u8],
    ) -> Result<Self, ParkNo>
        ensures resumed { IfOk result (λ live. (p : Parked)
            × Accepts (count_takes code) (IsWaiting code) id key.now parked.now p
            × IsParked code p live) }
        ensures refused { IfErr result
            (Refuses (count_takes code) (IsWaiting code) id key.now parked.now) }
    {
        match resume(alloc, &code, id, key, parked) {
            Ok(live) => {
                let rest = LiveRest::of(live);
                Ok(Owned { code, rest })
            }
            Err(no) => Err(no),
        }
    }
}
