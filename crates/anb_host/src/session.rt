//! One session of a host, and what an event makes of it.

ghost use Rattle.std.specs.Prelude.{◌≡◌, ◌<◌, ◌≤◌, List, [], ◌∷◌, ◌++◌, length, IfOk};
ghost use Rattle.std.specs.List.{All};
ghost use Rattle.anb_base.specs.declared.TheConstants.{ARRIVAL};
ghost use Rattle.anb_code.specs.Taking.{take_texts};
ghost use Rattle.anb_machine.specs.ByteRuns.{run_bytes};
ghost use Rattle.anb_machine.specs.Machines.{gives};
ghost use Rattle.anb_host.specs.Own.{session_of, notices, own};
ghost use Rattle.anb_host.specs.Hosts.{Stands, Fits, IsNarrow, IsRefusal};
ghost use Rattle.anb_host.specs.Inside.{IsWaiting, Settled};

use crate::{Cause, HostEvent, Notice};
use anb_base::{Bytes, NoMemory};
use anb_code::RoleCode;
use anb_machine::{Machine, Turn};
use std::alloc::Global;

/// What is kept of a session: a machine that waits, from its start to its end, and nothing else.
#[derive(Drop)]
pub(crate) enum Session<'c> {
    Unstarted,
    Running(Machine<'c>),
    Over,
}

/// What is kept of a session after an event, and what it was told.
#[derive(Drop)]
pub(crate) struct Answer<'c> {
    pub session: Session<'c>,
    pub told: Vec<Notice>,
}

/// Answers an event of a session.
pub(crate) fn respond<'c>(
    alloc: Global,
    code: &'c RoleCode,
    values: &[Bytes],
    seed: &[u8; 32],
    session: Session<'c>,
    event: HostEvent,
) -> Result<Answer<'c>, NoMemory>
    requires takes { length values.now ≡ length (take_texts code.now.instrs) }
    requires fit { All (λ value. length value ≤ ARRIVAL) values.now }
    requires waiting { IsWaiting session }
    requires fits { Fits event }
    requires within { session_of event < 1024 }
    ensures waiting { IfOk result (λ answer. IsWaiting answer.session) }
    ensures own { IfOk result (λ answer. (past : List HostEvent)
        → let s = session_of event in let play = run_bytes code.now values.now seed.now s in
        Stands play past session.entry
        → (answer.told.items ≡ own play s past event)
        × Stands play (past ++ event ∷ []) answer.session) }
    ensures narrow { IfOk result (λ answer. All IsNarrow answer.told.items) }
    ensures refused { IfOk result (λ answer.
        IsRefusal answer.told.items → answer.session ≡ session.entry) }
{
    match event {
        HostEvent::Start(s) => match session {
            Session::Unstarted => settle(alloc, s, Machine::start(alloc, code, values, seed, s)?),
            session => refuse(alloc, s, session, Cause::Started),
        },
        HostEvent::Arrive(s, bytes) => match session {
            Session::Unstarted => refuse(alloc, s, session, Cause::NotStarted),
            Session::Running(mut machine) => {
                machine.arrive(bytes);
                settle(alloc, s, machine)
            }
            Session::Over => refuse(alloc, s, session, Cause::Ended),
        },
        HostEvent::Oversize(s, _) => match &session {
            Session::Unstarted => refuse(alloc, s, session, Cause::NotStarted),
            Session::Running(_) => refuse(alloc, s, session, Cause::Oversize),
            Session::Over => refuse(alloc, s, session, Cause::Ended),
        },
    }
}

/// Lets a machine go on to where it waits, or to its end.
fn settle<'c>(alloc: Global, s: u32, machine: Machine<'c>) -> Result<Answer<'c>, NoMemory>
    ensures waiting { IfOk result (λ answer. IsWaiting answer.session) }
    ensures told { IfOk result (λ answer. let now = gives machine.entry [] in
        answer.told.items ≡ notices s now.sent now.end) }
    ensures narrow { IfOk result (λ answer. All IsNarrow answer.told.items) }
    ensures settled { IfOk result (λ answer. Settled (gives machine.entry) answer.session) }
{
    let mut machine = machine;
    let mut told = Vec::new(alloc);
    'turns: loop {
        match machine.advance(alloc) {
            Turn::Message(message) => told.push(Notice::Message(s, message))?,
            Turn::Wants(_) => {
                return Ok(Answer {
                    session: Session::Running(machine),
                    told,
                });
            }
            Turn::Done => {
                told.push(Notice::Finished(s))?;
                return Ok(Answer {
                    session: Session::Over,
                    told,
                });
            }
            Turn::Stopped(halt) => {
                told.push(Notice::Stopped(s, halt.event))?;
                return Ok(Answer {
                    session: Session::Over,
                    told,
                });
            }
            Turn::NoMemory => return Err(NoMemory),
        }
    }
}

/// Leaves a session as it is.
fn refuse<'c>(
    alloc: Global,
    s: u32,
    session: Session<'c>,
    cause: Cause,
) -> Result<Answer<'c>, NoMemory>
    ensures session { IfOk result (λ answer. answer.session ≡ session.entry) }
    ensures told { IfOk result (λ answer. answer.told.items ≡ Notice.Refused s cause ∷ []) }
    ensures narrow { IfOk result (λ answer. All IsNarrow answer.told.items) }
{
    Ok(Answer {
        session,
        told: refusal(alloc, s, cause)?,
    })
}

pub(crate) fn refusal(alloc: Global, s: u32, cause: Cause) -> Result<Vec<Notice>, NoMemory>
    ensures told { IfOk result (λ told. told.items ≡ Notice.Refused s cause ∷ []) }
    ensures narrow { IfOk result (λ told. All IsNarrow told.items) }
{
    let mut told = Vec::new(alloc);
    told.push(Notice::Refused(s, cause))?;
    Ok(told)
}
