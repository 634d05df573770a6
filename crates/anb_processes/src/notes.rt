//! Lines on standard error, beside the line of the status.

use anb_base::Text;
use std::io;
use std::io::Write;
use std::os::unix::prelude::ExitStatusExt;
use std::process::ExitStatus;

/// Tells what a child ended with whose output ended too early, where it ended.
pub(crate) fn tell_end(
    rt: &HostRuntime,
    name: &Text,
    status: Option<ExitStatus>,
) -> io::Result<()> {
    let name = name.as_str();
    let line = match status {
        None => format!(in rt.alloc(); "anb: child {name} ended its output and ran on\n")?,
        Some(status) => match (status.code(), status.signal()) {
            (Some(code), _) => format!(in rt.alloc(); "anb: child {name} ended with {code}\n")?,
            (None, Some(signal)) => {
                format!(in rt.alloc(); "anb: child {name} ended by signal {signal}\n")?
            }
            (None, None) => return Ok(()),
        },
    };
    tell(rt, line.as_str())
}

/// Tells that a child is left.
pub(crate) fn tell_left(rt: &HostRuntime, process: u32) -> io::Result<()> {
    let line = format!(in rt.alloc(); "anb: process {process} can't be killed\n")?;
    tell(rt, line.as_str())
}

/// Tells that the program itself isn't found.
pub(crate) fn tell_no_program(rt: &HostRuntime, path: &str) -> io::Result<()> {
    let line = format!(in rt.alloc(); "anb: no {path}, so ANB_CHILD must name a program\n")?;
    tell(rt, line.as_str())
}

/// Tells that a program can't be started.
pub(crate) fn tell_unstarted(rt: &HostRuntime, name: &Text) -> io::Result<()> {
    let line = format!(in rt.alloc(); "anb: can't start {}\n", name.as_str())?;
    tell(rt, line.as_str())
}

/// Tells that a folder or a file can't be written.
pub(crate) fn tell_unwritten(rt: &HostRuntime, path: &str) -> io::Result<()> {
    let line = format!(in rt.alloc(); "anb: can't write {path}\n")?;
    tell(rt, line.as_str())
}

/// Tells where the record of a role's child is.
pub(crate) fn tell_record(rt: &HostRuntime, folder: &str, role: &Text) -> io::Result<()> {
    let role = role.as_str();
    let files = format!(in rt.alloc(); "{folder}/{role}.transcript and {folder}/{role}.errors")?;
    let line = format!(in rt.alloc(); "anb: see {}\n", files.as_str())?;
    tell(rt, line.as_str())
}

/// Tells that a folder is left.
pub(crate) fn tell_unremoved(rt: &HostRuntime, path: &str) -> io::Result<()> {
    let line = format!(in rt.alloc(); "anb: can't remove {path}\n")?;
    tell(rt, line.as_str())
}

fn tell(rt: &HostRuntime, line: &str) -> io::Result<()> {
    rt.stderr().write_all(line.as_bytes())
}
