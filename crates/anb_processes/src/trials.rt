//! The children of the machine, one for each case.

ghost use Rattle.std.specs.Prelude.{◌≡◌, ◌<◌, ◌≤◌, ℕ, length, replicate, IfOk};
ghost use Rattle.anb_processes.specs.Trials.{fresh_case, trial_of};

use crate::RealChild;
use crate::case::Case;
use crate::dialled::Dialled;
use crate::folder::Folder;
use crate::notes::tell_left;
use crate::peer::Peer;
use crate::running::{Running, is_silence, silence};
use crate::watcher::Watcher;
use anb_base::{Failed, Text};
use anb_partner::{ChildEnd, Target, Trials};
use std::alloc::{AllocError, Global};
use std::io;
use std::io::ErrorKind;
use std::marker::Model;
use std::os::unix::prelude::ExitStatusExt;
use std::process::{ExitStatus, Stdio};
use std::time::Duration;

/// How many cases may have a child.
const CASES: usize = 4_096;

/// Starts a program for each case as a child of this one, over pipes: its words as they stand, with no
/// shell between; a name without a slash is looked for as a shell does. Its standard error is that of
/// this program, or goes to a file of a record. Or it dials a place for each case, over a connection of
/// its own. It tells nothing of the bytes, the words and the ends. Each case's count rises by one
/// with each fault, which is also the answer for a child that was silent for too long. Beyond 4,096
/// cases no child can be started.
#[derive(Drop)]
pub struct RealTrials {
    rt: HostRuntime,
    cases: Vec<Case>,
    /// The folder of the record, where there is one.
    record: Option<Folder>,
    /// What kills a child where a signal ends this program. There is none without a shell.
    watcher: Option<Watcher>,
}

impl Model for RealTrials {
    ghost use Rattle.std.specs.Prelude.{List};
    ghost use Rattle.anb_processes.specs.Trials as trials;

    ghost Value = { List trials.Case };

    ghost view = { λ s. s.cases.items };
}

impl RealTrials {
    /// Cases none of which has a child.
    pub fn new(rt: HostRuntime) -> Self
        ensures { (case : ℕ) → (trial_of result case).phase ≡ 0 }
    {
        RealTrials {
            rt,
            cases: fresh_cases(rt.alloc()),
            record: None,
            watcher: None,
        }
    }

    /// From now on the standard error of each child goes to a new file in the folder of a record.
    pub fn record_in(&mut self, folder: &Text)
        ensures { self.new ≡ self.old }
    {
        // Where there is no memory for its name it stays that of this program.
        if let Ok(path) = String::from_str(self.rt.alloc(), folder.as_str()) {
            self.record = Some(Folder::of_record(path));
        }
    }

    /// Ends what watches over the children, which have all been finished.
    pub fn end(self) {
        if let Some(watcher) = self.watcher {
            // One that fails has ended.
            let _ = watcher.end();
        }
    }
}

/// As many cases as there may be; none where there is no memory for them.
fn fresh_cases(alloc: Global) -> Vec<Case>
    ensures { (case : ℕ) → (trial_of result.items case).phase ≡ 0 }
{
    match some_cases(alloc, CASES) {
        Ok(cases) => cases,
        Err(_) => Vec::new(alloc),
    }
}

/// So many cases of which nothing was asked.
fn some_cases(alloc: Global, count: usize) -> Result<Vec<Case>, AllocError>
    ensures { IfOk result (λ cases. cases.items ≡ replicate count fresh_case) }
{
    let mut cases = Vec::with_capacity(alloc, count)?;
    for _ in 0..count {
        cases.push(Case::fresh())?;
    }
    Ok(cases)
}

/// Starts what is tried, with this limit; the standard error of a program goes where that of this case is
/// kept.
fn start(
    rt: &HostRuntime,
    limit: Option<u32>,
    target: Target,
    record: &Option<Folder>,
    case: u32,
) -> io::Result<Peer> {
    let limit = limit.map(|seconds| Duration::from_secs(u64::from(seconds)));
    match target {
        Target::Program(words) => {
            let errors = errors_for(rt, record, case);
            Ok(Peer::Program(start_program(rt, limit, words, errors)?))
        }
        Target::Dial(place) => Ok(Peer::Dialled(Dialled::dial(rt, place.as_str(), limit)?)),
    }
}

/// Starts a child with these words, the first of which names its program, and with this as its standard
/// error.
fn start_program(
    rt: &HostRuntime,
    limit: Option<Duration>,
    words: &[Text],
    errors: Stdio,
) -> io::Result<Running> {
    let [program, words @ ..] = words else {
        return Err(io::Error::from(ErrorKind::InvalidInput));
    };
    if program.as_str().is_empty() {
        return Err(io::Error::from(ErrorKind::InvalidInput));
    }
    let mut running = Running::start(rt, program.as_str(), limit, words, errors)?;
    running.keep(rt.alloc());
    Ok(running)
}

/// Where the child of a case tells its faults: in the record, or where this program does.
fn errors_for(rt: &HostRuntime, record: &Option<Folder>, case: u32) -> Stdio {
    match record {
        Some(record) => match record.make_errors(rt, case.saturating_add(1)) {
            Ok(errors) => errors,
            Err(_) => Stdio::from(rt.stderr()),
        },
        None => Stdio::from(rt.stderr()),
    }
}

/// Watches over a child too, where it is a process. The first one brings the watcher with it.
fn watch(rt: &HostRuntime, watcher: &mut Option<Watcher>, peer: &Peer) -> io::Result<()> {
    let Peer::Program(running) = peer else {
        return Ok(());
    };
    if watcher.is_none() {
        *watcher = Watcher::start(rt)?;
    }
    match watcher {
        Some(watcher) => watcher.add(rt, running.id()),
        None => Ok(()),
    }
}

/// No longer watches over a child, which has ended.
fn unwatch(rt: &HostRuntime, watcher: &mut Option<Watcher>, process: u32) -> io::Result<()> {
    match watcher {
        Some(watcher) => watcher.remove(rt, process),
        None => Ok(()),
    }
}

/// Ends a child's input, waits for its end, and answers it. A child that was silent before isn't waited
/// for.
fn end_of(rt: &HostRuntime, peer: &mut Peer, was_silent: bool) -> io::Result<ChildEnd> {
    match peer {
        Peer::Program(running) => end_of_program(rt, running, was_silent),
        Peer::Dialled(_) if was_silent => Err(silence()),
        Peer::Dialled(dialled) => {
            dialled.finish(rt)?;
            Ok(ChildEnd::Closed)
        }
    }
}

/// The same of a process, which is killed where it hasn't ended.
fn end_of_program(
    rt: &HostRuntime,
    running: &mut Running,
    was_silent: bool,
) -> io::Result<ChildEnd> {
    let ended = match was_silent {
        true => Err(silence()),
        false => running.finish(rt),
    };
    // Where it has ended, this does nothing.
    running.kill();
    match ended {
        Ok(status) => told_end(status),
        Err(error) => Err(error),
    }
}

/// How a child ended that has this status.
fn told_end(status: ExitStatus) -> io::Result<ChildEnd> {
    match (status.code(), status.signal()) {
        (Some(code), _) => match u8::try_from(code) {
            Ok(code) => Ok(ChildEnd::Status(code)),
            Err(_) => Err(io::Error::from(ErrorKind::InvalidData)),
        },
        (None, Some(signal)) => match u8::try_from(signal) {
            Ok(signal) => Ok(ChildEnd::Signal(signal)),
            Err(_) => Err(io::Error::from(ErrorKind::InvalidData)),
        },
        (None, None) => Err(io::Error::from(ErrorKind::InvalidData)),
    }
}

/// No longer watches over a process that has ended, or tells that it is left.
fn let_go(rt: &HostRuntime, watcher: &mut Option<Watcher>, peer: &Peer) {
    let Peer::Program(running) = peer else {
        return;
    };
    // What can't be told isn't.
    if running.is_left() {
        let _ = tell_left(rt, running.id());
    } else {
        let _ = unwatch(rt, watcher, running.id());
    }
}

impl Trials for RealTrials {
    type Child = RealChild;

    ghost trial = { trial_of };

    fn start(
        &mut self,
        case: u32,
        limit: Option<u32>,
        target: Target,
    ) -> Result<RealChild, Failed> {
        if case as usize >= self.cases.len() {
            return Err(Failed);
        }
        let started = start(&self.rt, limit, target, &self.record, case);
        let case = &mut self.cases[case as usize];
        match started {
            Ok(peer) => {
                // Without a watcher the child is as good.
                let _ = watch(&self.rt, &mut self.watcher, &peer);
                case.phase = 1;
                Ok(RealChild::new(self.rt, peer, case.reads, case.writes))
            }
            Err(_) => Err(case.fail(false)),
        }
    }

    fn close(&mut self, child: &mut RealChild) {
        child.close();
    }

    fn finish(&mut self, case: u32, child: RealChild) -> Result<ChildEnd, Failed> {
        let reads = child.read_faults();
        let writes = child.write_faults();
        let was_silent = child.is_silent();
        let mut peer = child.into_peer();
        let ended = end_of(&self.rt, &mut peer, was_silent);
        let_go(&self.rt, &mut self.watcher, &peer);
        let case = &mut self.cases[case as usize];
        case.reads = reads;
        case.writes = writes;
        case.phase = 2;
        match ended {
            Ok(end) => Ok(end),
            Err(error) => Err(case.fail(is_silence(&error))),
        }
    }

    fn was_silent(&self, case: u32) -> bool {
        if case as usize >= self.cases.len() {
            return false;
        }
        self.cases[case as usize].silent
    }
}
