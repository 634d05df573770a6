//! The spawner of the machine.

ghost use Rattle.std.specs.Prelude.{◌≡◌, ◌<◌, ◌≤◌, ℕ, get_or};
ghost use Rattle.anb_processes.specs.Children.{child_of};

use crate::counts::Counts;
use crate::folder::Folder;
use crate::notes::{tell_end, tell_left, tell_no_program, tell_record, tell_unstarted};
use crate::running::{Running, is_silence};
use crate::watcher::Watcher;
use anb_base::{Bytes, Failed, Text};
use anb_stage::{ChildWords, Spawner};
use std::alloc::{AllocError, Global};
use std::io::ErrorKind;
use std::marker::Model;
use std::process::{ExitStatus, Stdio};
use std::time::Duration;
use std::{fs, io};

/// Where this program itself is found, whatever its name is.
const OWN: &str = "/proc/self/exe";

/// The place of a role's name among the words of its child.
const NAME: usize = 2;

/// The program that each child runs.
#[derive(Drop)]
pub enum ChildProgram {
    /// This program itself.
    Own,
    /// The one with this name.
    Named(Text),
    /// One whose name can't be read, so that no child can be started.
    Unreadable,
}

impl ChildProgram {
    fn path(&self) -> io::Result<&str> {
        match self {
            ChildProgram::Own => Ok(OWN),
            ChildProgram::Named(name) if !name.as_str().is_empty() => Ok(name.as_str()),
            _ => Err(io::Error::from(ErrorKind::InvalidInput)),
        }
    }
}

/// A role's child, with the role's name.
#[derive(Drop)]
struct Named {
    role: u32,
    name: Text,
    running: Running,
}

/// Starts a program for each role as a child of this one, over pipes: the one that its words name, or one
/// and the same. It tells nothing of the bytes, the words and the statuses. Each role's count rises by one with each fault, which
/// is also the answer for a child that a signal ended. What a child no longer takes is dropped, and is
/// no fault. Dropping it closes all pipes and ends no child: `end` does.
#[derive(Drop)]
pub struct RealSpawner {
    rt: HostRuntime,
    program: ChildProgram,
    children: Vec<Named>,
    /// Where the files of children's values stand, once there is one.
    folder: Option<Folder>,
    /// That of the record, where there is one: their values and their standard error go there.
    record: Option<Folder>,
    /// What kills the children and removes the folder where a signal ends this program. There is none
    /// without a shell.
    watcher: Option<Watcher>,
    /// The role whose output was last found at its end.
    at_end: Option<u32>,
    /// The role whose child was last started, read, written or finished, and that of the child whose record
    /// is told in the end.
    last: Option<u32>,
    blamed: Option<u32>,
    counts: Counts,
}

impl Model for RealSpawner {
    ghost use Rattle.anb_processes.specs.Children.{Children};

    ghost Value = { Children };

    ghost view = { λ s. s.counts };
}

impl RealSpawner {
    /// A spawner that has started nothing.
    pub fn new(rt: HostRuntime, program: ChildProgram) -> Self
        ensures { (role : ℕ) → get_or result.phases role 0 ≡ 0 }
    {
        let alloc = rt.alloc();
        RealSpawner {
            rt,
            program,
            children: Vec::new(alloc),
            folder: None,
            record: None,
            watcher: None,
            at_end: None,
            last: None,
            blamed: None,
            counts: Counts::new(),
        }
    }

    /// From now on the files of children stand in the folder of a record, which is kept: their values, and
    /// their standard error, for which the files are there.
    pub fn record_in(&mut self, folder: &Text)
        ensures { self.new.phases ≡ self.old.phases }
    {
        // Where there is no memory for its name they stand where they stand without.
        if let Ok(path) = String::from_str(self.rt.alloc(), folder.as_str()) {
            self.record = Some(Folder::of_record(path));
        }
    }

    /// At the end standard error is told where the record of the child is that was looked after last.
    pub fn blame(&mut self)
        ensures { self.new.phases ≡ self.old.phases }
    {
        self.blamed = self.last;
    }

    /// Kills each child that wasn't finished, and waits for it, so that none is left behind. Then
    /// standard error is told what the child ended with whose output ended too early, which is waited
    /// for first, for two seconds at most; and each child that can't be killed, which is left. The files
    /// of their values are removed, and told where they can't be.
    pub fn end(self) {
        let RealSpawner {
            rt,
            program: _,
            mut children,
            folder,
            record,
            watcher,
            at_end,
            last: _,
            blamed,
            counts: _,
        } = self;
        let ended = match at_end {
            Some(role) => end_of(&rt, &mut children, role),
            None => None,
        };
        for child in children.iter_mut() {
            child.running.kill();
        }
        if let Some(record) = &record {
            put_all_left(&rt, record, &children);
        }
        if let Some(folder) = folder {
            folder.remove(&rt);
        }
        if let Some(watcher) = watcher {
            // One that fails has ended.
            let _ = watcher.end();
        }
        // What can't be told isn't.
        if let Some((name, status)) = ended {
            let _ = tell_end(&rt, &name, status);
        }
        if let (Some(record), Some(role)) = (&record, blamed) {
            tell_record_of(&rt, record, &children, role);
        }
        for child in children.iter() {
            if child.running.is_left() {
                let _ = tell_left(&rt, child.running.id());
            }
        }
    }
}

/// Writes down what each child said behind its last message, where it said something.
fn put_all_left(rt: &HostRuntime, record: &Folder, children: &[Named]) {
    for child in children {
        let left = child.running.left_over();
        if left.bytes > 0 {
            // What can't be written isn't.
            let _ = record.put_left(rt, child.name.as_str(), left);
        }
    }
}

/// Tells where the record of a role's child is, where it was started.
fn tell_record_of(rt: &HostRuntime, record: &Folder, children: &[Named], role: u32) {
    for child in children {
        if child.role == role {
            // What can't be told isn't.
            let _ = tell_record(rt, record.path(), &child.name);
        }
    }
}

/// The name of a role, and what its child ended with.
fn end_of(
    rt: &HostRuntime,
    children: &mut [Named],
    role: u32,
) -> Option<(Text, Option<ExitStatus>)> {
    let child = child_in(children, role)?;
    let status = child.running.wait_for_end(rt).ok()?;
    Some((child.name.copy(rt.alloc()).ok()?, status))
}

/// Starts the child of a role, which is killed again where there is no memory to keep it.
fn start(
    rt: &HostRuntime,
    program: &ChildProgram,
    record: &Option<Folder>,
    folder: &mut Option<Folder>,
    watcher: &mut Option<Watcher>,
    children: &mut Vec<Named>,
    role: u32,
    limit: Option<u32>,
    own: &ChildWords,
) -> io::Result<()> {
    let name = name_of(rt.alloc(), &own.words)?;
    let limit = limit.map(|seconds| Duration::from_secs(u64::from(seconds)));
    let (path, words) = match &*own.program {
        [] => (program.path()?, joined(rt.alloc(), &[], &own.words)?),
        [first, more @ ..] => (first.as_str(), joined(rt.alloc(), more, &own.words)?),
    };
    let words = match &own.values {
        Some(values) => with_file(rt, record, folder, watcher, &name, values, words)?,
        None => words,
    };
    let errors = errors_for(rt, record, &name);
    let running = match Running::start(rt, path, limit, &words, errors) {
        Ok(running) => running,
        Err(error) => {
            explain(rt, program, own);
            return Err(error);
        }
    };
    match children.push(Named {
        role,
        name,
        running,
    }) {
        Ok(()) => Ok(()),
        Err(failed) => {
            let mut child = failed.value;
            child.running.kill();
            Err(io::Error::from(ErrorKind::OutOfMemory))
        }
    }
}

/// The name of the role that a child has these words for.
fn name_of(alloc: Global, words: &[Text]) -> io::Result<Text> {
    let name = match words.get(NAME) {
        Some(name) => name.as_str(),
        None => "",
    };
    Ok(Text::new(String::from_str(alloc, name)?))
}

/// These words, and then those.
fn joined(alloc: Global, words: &[Text], more: &[Text]) -> Result<Vec<Text>, AllocError> {
    let mut all = Vec::with_capacity(alloc, words.len().saturating_add(more.len()))?;
    for word in words.iter().chain(more) {
        all.push(Text::new(String::from_str(alloc, word.as_str())?))?;
    }
    Ok(all)
}

/// Where a role's child tells its faults: in the record, or where this program does.
fn errors_for(rt: &HostRuntime, record: &Option<Folder>, role: &Text) -> Stdio {
    match record {
        Some(record) => match record.errors(rt, role.as_str()) {
            Ok(errors) => errors,
            Err(_) => Stdio::from(rt.stderr()),
        },
        None => Stdio::from(rt.stderr()),
    }
}

/// These words, and behind them the name of a new file with a role's values: in the record, or where that
/// can't be written, in a folder that is made for them.
fn with_file(
    rt: &HostRuntime,
    record: &Option<Folder>,
    folder: &mut Option<Folder>,
    watcher: &mut Option<Watcher>,
    role: &Text,
    values: &Bytes,
    mut words: Vec<Text>,
) -> io::Result<Vec<Text>> {
    if let Some(record) = record
        && let Ok(file) = record.put(rt, role.as_str(), values.as_slice())
    {
        words.push(Text::new(file))?;
        return Ok(words);
    }
    if folder.is_none() {
        // Without a watcher the folder is as good.
        let _ = start_watcher(rt, watcher);
        let made = Folder::make(rt)?;
        if let Some(watcher) = watcher {
            let _ = watcher.add_folder(rt, made.path());
        }
        *folder = Some(made);
    }
    if let Some(folder) = folder {
        let file = folder.put(rt, role.as_str(), values.as_slice())?;
        words.push(Text::new(file))?;
    }
    Ok(words)
}

/// Starts the watcher, where there is none.
fn start_watcher(rt: &HostRuntime, watcher: &mut Option<Watcher>) -> io::Result<()> {
    if watcher.is_none() {
        *watcher = Watcher::start(rt)?;
    }
    Ok(())
}

/// Watches over the child that was started last. The first one brings the watcher with it.
fn watch(rt: &HostRuntime, watcher: &mut Option<Watcher>, children: &[Named]) -> io::Result<()> {
    let Some(child) = children.last() else {
        return Ok(());
    };
    if children.len() == 1 {
        start_watcher(rt, watcher)?;
    }
    match watcher {
        Some(watcher) => watcher.add(rt, child.running.id()),
        None => Ok(()),
    }
}

/// No longer watches over the child of a role, which has ended.
fn unwatch(rt: &HostRuntime, watcher: &mut Option<Watcher>, child: &Named) -> io::Result<()> {
    match watcher {
        Some(watcher) => watcher.remove(rt, child.running.id()),
        None => Ok(()),
    }
}

/// Tells which program can't be started, where the words name one, or where this program itself can't be
/// found.
fn explain(rt: &HostRuntime, program: &ChildProgram, own: &ChildWords) {
    match (own.program.first(), program) {
        (Some(name), _) => {
            let _ = tell_unstarted(rt, name);
        }
        (None, ChildProgram::Own) if fs::symlink_metadata(rt, OWN).is_err() => {
            let _ = tell_no_program(rt, OWN);
        }
        _ => {}
    }
}

fn no_child() -> io::Error {
    io::Error::from(ErrorKind::NotFound)
}

/// The child of a role.
fn child_in(children: &mut [Named], role: u32) -> Option<&mut Named> {
    children.iter_mut().find(|child| child.role == role)
}

impl Spawner for RealSpawner {
    ghost child = { child_of };

    fn start(&mut self, role: u32, limit: Option<u32>, own: &ChildWords) -> Result<(), Failed> {
        self.last = Some(role);
        match start(
            &self.rt,
            &self.program,
            &self.record,
            &mut self.folder,
            &mut self.watcher,
            &mut self.children,
            role,
            limit,
            own,
        ) {
            Ok(()) => {
                // Without a watcher the children are as good.
                let _ = watch(&self.rt, &mut self.watcher, &self.children);
                self.counts.enter(role, 1);
                Ok(())
            }
            Err(_) => Err(self.counts.fail(role, false)),
        }
    }

    fn read(&mut self, role: u32, buf: &mut [u8]) -> Result<usize, Failed> {
        self.last = Some(role);
        let got = match child_in(&mut self.children, role) {
            Some(child) => child.running.read(&self.rt, buf),
            None => Err(no_child()),
        };
        match got {
            Ok(n) => {
                if n == 0 && !buf.is_empty() {
                    self.at_end = Some(role);
                }
                Ok(n)
            }
            Err(error) => Err(self.counts.fail(role, is_silence(&error))),
        }
    }

    fn write(&mut self, role: u32, piece: &[u8]) -> Result<usize, Failed> {
        self.last = Some(role);
        let put = match child_in(&mut self.children, role) {
            Some(child) => child.running.write(&self.rt, piece),
            None => Err(no_child()),
        };
        match put {
            Ok(n) if n > 0 || piece.is_empty() => Ok(n),
            Ok(_) => Err(self.counts.fail(role, false)),
            Err(error) => Err(self.counts.fail(role, is_silence(&error))),
        }
    }

    fn finish(&mut self, role: u32) -> Result<u8, Failed> {
        self.last = Some(role);
        let status = match child_in(&mut self.children, role) {
            Some(child) => {
                let status = child.running.finish_with_status(&self.rt);
                // One that was silent still runs.
                if !matches!(&status, Err(error) if is_silence(error)) {
                    let _ = unwatch(&self.rt, &mut self.watcher, child);
                }
                status
            }
            None => Err(no_child()),
        };
        match status {
            Ok(status) => {
                self.counts.enter(role, 2);
                Ok(status)
            }
            Err(error) => Err(self.counts.fail(role, is_silence(&error))),
        }
    }

    fn was_silent(&self, role: u32) -> bool {
        self.counts.was_silent(role)
    }
}
