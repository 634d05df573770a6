//! A session under way.

ghost use Rattle.std.specs.Prelude.{◌≡◌, ◌≢◌, ◌≤◌, ◌<◌, ℕ, List, [], ◌∷◌, ◌++◌, length, All, IsTrue, IfOk, OnOk, OnErr, IfSome, Some, None, false};
ghost use Rattle.anb_base.specs.declared.TheConstants.{ARRIVAL, WIDE};
ghost use Rattle.anb_frame.specs.Frames.{frame};
ghost use Rattle.anb_seal.specs.Primitives.{sealed};
ghost use Rattle.anb_code.specs.CodeValue.{CodeValue};
ghost use Rattle.anb_code.specs.Taking.{take_texts};
ghost use Rattle.anb_machine.specs.Machines.{gives, left, waits, answer, turn_of, Turned};
ghost use Rattle.anb_park.specs.Records.{Parked, after, count_takes, record_of, IsWaiting, Accepts};
ghost use Rattle.anb_park.specs.Lives.{Stands, IsParked, started, sent_after};

use crate::body::{append_frame, begin_body};
use anb_base::{ARRIVAL, Bytes, NoMemory, Suite, WIDE};
use anb_code::RoleCode;
use anb_machine::{Machine, Turn};
use anb_seal::seal;
use std::alloc::Global;
use std::marker::Model;

/// A machine, beside what the record of its session would hold. Each arrival is copied once, into
/// what the record would hold.
#[derive(Drop)]
pub struct Live<'c> {
    pub(crate) machine: Machine<'c>,
    pub(crate) body: Vec<u8>,
    pub(crate) failed: bool,
}

impl<'c> Model for Live<'c> {
    ghost use Rattle.anb_park.specs.Lives.{LiveValue};

    ghost Value = { LiveValue };

    ghost use Rattle.anb_park.specs.Inside.{live_of};

    ghost view = { λ live. live_of live };
}

impl<'c> Live<'c> {
    /// A session before its first instruction, with a value for each take in order. Its nonces are
    /// the draws of this session under the seed. The identity tells whose record it will be.
    pub fn start(
        alloc: Global,
        code: &'c RoleCode,
        id: [u8; 32],
        init: &[Bytes],
        seed: &[u8; 32],
        session: u32,
    ) -> Result<Self, NoMemory>
        requires count { length init.now ≡ length (take_texts code.now.instrs) }
        requires short { All (λ value. length value ≤ ARRIVAL) init.now }
        ensures stands { IfOk result (λ live.
            Stands code.now (started id init.now seed.now session) [] live) }
        ensures open { IfOk result (λ live. answer live.machine ≡ None) }
        ensures code { IfOk result (λ live. live.machine.code ≡ code.now) }
    {
        let body = begin_body(alloc, &id, seed, session, init)?;
        let machine = Machine::start(alloc, code, init, seed, session)?;
        Ok(Live {
            machine,
            body,
            failed: false,
        })
    }

    /// What comes next. After `Done`, `Stopped` and `NoMemory` the same comes again.
    pub fn advance(&mut self, alloc: Global) -> Turn
        ensures turned { Turned self.old.machine self.new.machine result }
        ensures first { result ≢ Turn.NoMemory → result ≡ turn_of (gives self.old.machine []) }
        ensures narrow { (b : List ℕ) → result ≡ Turn.Message b → length b ≤ WIDE }
        ensures again { IfSome (answer self.old.machine) (λ turn.
            (result ≡ turn) × (self.new ≡ self.old)) }
        ensures code { self.new.machine.code ≡ self.old.machine.code }
        ensures body { self.new.body ≡ self.old.body }
        ensures stands { (code : CodeValue) (p : Parked) (sent : List (List ℕ)) →
            result ≢ Turn.NoMemory → Stands code p sent self.old
            → Stands code p (sent_after sent result) self.new }
    {
        if self.failed {
            return Turn::NoMemory;
        }
        self.machine.advance(alloc)
    }

    /// Takes the arrival that it wants. After `NoMemory` each turn is `NoMemory`.
    pub fn arrive(&mut self, bytes: Bytes) -> Result<(), NoMemory>
        requires waits { IsTrue (waits self.old.machine) }
        requires short { length bytes ≤ ARRIVAL }
        ensures gives { OnOk result ((arrivals : List (List ℕ))
            → gives self.old.machine (bytes ∷ arrivals) ≡ gives self.new.machine arrivals) }
        ensures further { OnOk result (left self.new.machine < left self.old.machine) }
        ensures waits { waits self.new.machine ≡ false }
        ensures open { OnOk result (answer self.new.machine ≡ None) }
        ensures failed { OnErr result (answer self.new.machine ≡ Some Turn.NoMemory) }
        ensures code { self.new.machine.code ≡ self.old.machine.code }
        ensures body { OnOk result (self.new.body ≡ self.old.body ++ frame bytes) }
        ensures stands { OnOk result ((code : CodeValue) (p : Parked) (sent : List (List ℕ)) →
            Stands code p sent self.old → Stands code (after p (bytes ∷ [])) sent self.new) }
    {
        match append_frame(&mut self.body, bytes.as_slice()) {
            Ok(()) => {
                self.machine.arrive(bytes);
                Ok(())
            }
            Err(NoMemory) => {
                self.failed = true;
                Err(NoMemory)
            }
        }
    }

    /// The record of a session that waits: 32 bytes more than what it holds, which are 71 bytes
    /// and the frames of its initial values and its arrivals.
    pub fn park(&self, alloc: Global, key: &[u8]) -> Result<Bytes, NoMemory>
        requires waits { IsTrue (waits self.now.machine) }
        ensures sealed { IfOk result (λ parked.
            parked ≡ sealed Suite.One key.now self.now.body) }
        ensures record { IfOk result (λ parked.
            (code : CodeValue) (p : Parked) (sent : List (List ℕ))
            → Stands code p sent self.now → parked ≡ record_of key.now p) }

        // It is accepted under the same code, identity and key.
        ensures accepted { IfOk result (λ parked. (code : CodeValue) (p : Parked)
            → IsParked code p self.now
            → Accepts (count_takes code) (IsWaiting code) p.id key.now parked p) }
    {
        seal(alloc, key, &self.body)
    }
}
