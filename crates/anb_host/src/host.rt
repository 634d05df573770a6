//! Many sessions of one code.

ghost use Rattle.std.specs.Prelude.{◌≡◌, ◌≤◌, List, [], ◌∷◌, ◌++◌, length, true, IfOk, OnOk, OnErr, IsErr};
ghost use Rattle.std.specs.List.{All};
ghost use Rattle.anb_base.specs.declared.TheConstants.{ARRIVAL};
ghost use Rattle.anb_code.specs.Taking.{take_texts};
ghost use Rattle.anb_host.specs.Own.{answer};
ghost use Rattle.anb_host.specs.Hosts.{plays_of, StandsFor, IsNarrow, IsRefusal, Fits};

use crate::session::{Session, refusal, respond};
use crate::{Cause, HostEvent, Notice};
use anb_base::{Bytes, NoMemory};
use anb_code::RoleCode;
use std::alloc::Global;
use std::marker::Model;
use std::mem;

const SESSIONS: usize = 1024;

/// 1,024 sessions of one code, numbered from 0, each of them a machine from its start to its end.
/// An event costs what its own session's step costs; no session is copied.
#[derive(Drop)]
pub struct Host<'c> {
    code: &'c RoleCode,
    values: Vec<Bytes>,
    seed: [u8; 32],
    sessions: Vec<Session<'c>>,
    failed: bool,
}

impl<'c> Model for Host<'c> {
    ghost use Rattle.anb_host.specs.Hosts.{HostValue};

    ghost Value = { HostValue };

    ghost use Rattle.anb_host.specs.Inside.{host_of, IsWhole};

    ghost view = { λ h. host_of h };

    ghost invariant = { λ h. IsWhole h };
}

impl<'c> Host<'c> {
    /// A host of sessions that are not started. Each will run the code with these values for its
    /// takes, and with the draws that have the session's number under the seed.
    pub fn new(
        alloc: Global,
        code: &'c RoleCode,
        values: Vec<Bytes>,
        seed: [u8; 32],
    ) -> Result<Self, NoMemory>
        requires takes { length values.items ≡ length (take_texts code.now.instrs) }
        requires fit { All (λ value. length value ≤ ARRIVAL) values.items }
        ensures empty { IfOk result (λ host. StandsFor host []) }
        ensures code { IfOk result (λ host. host.code ≡ code.now) }
        ensures init { IfOk result (λ host. host.init ≡ values.items) }
        ensures seed { IfOk result (λ host. host.seed ≡ seed) }
    {
        let mut sessions = Vec::with_capacity(alloc, SESSIONS)?;
        for _ in 0..SESSIONS {
            sessions.push(Session::Unstarted)?;
        }
        Ok(Host {
            code,
            values,
            seed,
            sessions,
            failed: false,
        })
    }

    /// Answers an event. After `NoMemory` it answers so from then on.
    pub fn event(&mut self, alloc: Global, event: HostEvent) -> Result<Vec<Notice>, NoMemory>
        requires { Fits event }

        // Of a host that stands for some events, whatever these were.
        ensures own { IfOk result (λ told. (past : List HostEvent) → StandsFor self.old past
            → told.items ≡ answer (plays_of self.old) past event) }
        ensures stands { OnOk result ((past : List HostEvent) → StandsFor self.old past
            → StandsFor self.new (past ++ event ∷ [])) }
        ensures narrow { IfOk result (λ told. All IsNarrow told.items) }
        ensures refused { IfOk result (λ told. IsRefusal told.items → self.new ≡ self.old) }
        ensures code { self.new.code ≡ self.old.code }
        ensures init { self.new.init ≡ self.old.init }
        ensures seed { self.new.seed ≡ self.old.seed }

        ensures failed { OnErr result (self.new.failed ≡ true) }
        ensures stays { self.old.failed ≡ true → IsErr result }
    {
        if self.failed {
            return Err(NoMemory);
        }
        let told = self.answer(alloc, event);
        self.failed = told.is_err();
        told
    }

    /// Whether memory was wanting before.
    pub(crate) fn has_failed(&self) -> bool
        ensures { result ≡ self.now.failed }
    {
        self.failed
    }

    /// Memory was wanting: so the host answers from then on.
    pub(crate) fn fail(&mut self)
        ensures failed { self.new.failed ≡ true }
        ensures code { self.new.code ≡ self.old.code }
        ensures init { self.new.init ≡ self.old.init }
        ensures seed { self.new.seed ≡ self.old.seed }
    {
        self.failed = true;
    }

    /// Answers an event, where memory was never wanting.
    fn answer(&mut self, alloc: Global, event: HostEvent) -> Result<Vec<Notice>, NoMemory>
        requires { Fits event }
        ensures own { IfOk result (λ told. (past : List HostEvent) → StandsFor self.old past
            → told.items ≡ answer (plays_of self.old) past event) }
        ensures stands { OnOk result ((past : List HostEvent) → StandsFor self.old past
            → StandsFor self.new (past ++ event ∷ [])) }
        ensures narrow { IfOk result (λ told. All IsNarrow told.items) }
        ensures refused { IfOk result (λ told. IsRefusal told.items → self.new ≡ self.old) }
        ensures code { self.new.code ≡ self.old.code }
        ensures init { self.new.init ≡ self.old.init }
        ensures seed { self.new.seed ≡ self.old.seed }
        ensures failed { self.new.failed ≡ self.old.failed }
    {
        let s = event.session();
        if s as usize >= self.sessions.len() {
            return refusal(alloc, s, Cause::Range);
        }
        let session = mem::replace(&mut self.sessions[s as usize], Session::Over);
        let answer = respond(alloc, self.code, &self.values, &self.seed, session, event)?;
        self.sessions[s as usize] = answer.session;
        Ok(answer.told)
    }
}
