//! A folder with a file of values for each child.

use crate::left_over::LeftOver;
use crate::notes::{tell_unremoved, tell_unwritten};
use std::fs::{DirBuilder, File, OpenOptions};
use std::io::{ErrorKind, Write};
use std::os::unix::fs::{DirBuilderExt, OpenOptionsExt};
use std::process::Stdio;
use std::{env, fs, io, process};

/// Values are secrets: only the owner sees what is in the folder, and in its files.
const FOLDER_MODE: u32 = 0o700;

const FILE_MODE: u32 = 0o600;

/// Where it is made where an empty name is given.
const UNNAMED: &str = "/tmp";

/// How many names are tried.
const NAMES: u32 = 1_000;

/// A folder: one that was made, in the one for files that are there for a while, or that of a record.
#[derive(Drop)]
pub(crate) struct Folder {
    path: String,
}

impl Folder {
    /// Makes one with a name that nothing has. One that can't be made is told.
    pub(crate) fn make(rt: &HostRuntime) -> io::Result<Self> {
        let named = env::temp_dir(rt)?;
        let above = match named.as_str() {
            "" => UNNAMED,
            path => path,
        };
        let id = process::id(rt.process());
        for number in 0..NAMES {
            let path = format!(in rt.alloc(); "{above}/anb-{id}-{number}")?;
            let mut builder = DirBuilder::new();
            match builder.mode(FOLDER_MODE).create(rt, path.as_str()) {
                Ok(()) => return Ok(Folder { path }),
                Err(error) if error.kind() == ErrorKind::AlreadyExists => {}
                Err(error) => {
                    let _ = tell_unwritten(rt, path.as_str());
                    return Err(error);
                }
            }
        }
        let _ = tell_unwritten(rt, above);
        Err(io::Error::from(ErrorKind::AlreadyExists))
    }

    /// That of a record.
    pub(crate) fn of_record(path: String) -> Self {
        Folder { path }
    }

    /// Opens the file for a role's standard error, which is there.
    pub(crate) fn errors(&self, rt: &HostRuntime, role: &str) -> io::Result<Stdio> {
        let name = format!(in rt.alloc(); "{}/{role}.errors", self.path.as_str())?;
        Ok(Stdio::from(open_there(rt, name.as_str())?))
    }

    /// Makes the file for the standard error of the child of a case, by the number of this, from 1.
    pub(crate) fn make_errors(&self, rt: &HostRuntime, number: u32) -> io::Result<Stdio> {
        let name = format!(in rt.alloc(); "{}/{number}.errors", self.path.as_str())?;
        Ok(Stdio::from(open_new(rt, name.as_str())?))
    }

    /// Writes down what a role's child said behind its last message, in the file for that, which is there.
    pub(crate) fn put_left(&self, rt: &HostRuntime, role: &str, left: LeftOver) -> io::Result<()> {
        let name = format!(in rt.alloc(); "{}/left", self.path.as_str())?;
        let line = format!(in rt.alloc(); "{role} {} {}\n", left.frames, left.bytes)?;
        open_there(rt, name.as_str())?.write_all(line.as_bytes())
    }

    /// Makes the file of a role's values, and answers its name. One that can't be written is told.
    pub(crate) fn put(&self, rt: &HostRuntime, role: &str, values: &[u8]) -> io::Result<String> {
        let name = format!(in rt.alloc(); "{}/{role}.values", self.path.as_str())?;
        match write_new(rt, name.as_str(), values) {
            Ok(()) => Ok(name),
            Err(error) => {
                let _ = tell_unwritten(rt, name.as_str());
                Err(error)
            }
        }
    }

    pub(crate) fn path(&self) -> &str {
        self.path.as_str()
    }

    /// Removes it with its files. One that can't be removed is told, and left.
    pub(crate) fn remove(self, rt: &HostRuntime) {
        if fs::remove_dir_all(rt, self.path.as_str()).is_err() {
            let _ = tell_unremoved(rt, self.path.as_str());
        }
    }
}

/// Opens a file that is there, to append to it.
fn open_there(rt: &HostRuntime, name: &str) -> io::Result<File> {
    let mut options = OpenOptions::new();
    options.append(true).open(rt, name)
}

/// Opens a file that isn't there yet.
fn open_new(rt: &HostRuntime, name: &str) -> io::Result<File> {
    let mut options = OpenOptions::new();
    let options = options.write(true).create_new(true);
    options.mode(FILE_MODE).open(rt, name)
}

/// Writes a file that isn't there yet.
fn write_new(rt: &HostRuntime, name: &str, bytes: &[u8]) -> io::Result<()> {
    open_new(rt, name)?.write_all(bytes)
}
