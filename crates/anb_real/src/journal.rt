//! Recordings in folders of the machine.

use crate::faults::one_more;
use crate::store::{RealStore, create};
use anb_recording::{BeginNo, Journal};
use anb_store::StoreNo;
use std::alloc::Global;
use std::fs::{DirBuilder, OpenOptions};
use std::io::Write;
use std::os::unix::fs::DirBuilderExt;
use std::{fs, io};

/// Only the owner sees what is in a folder that was made.
const FOLDER_MODE: u32 = 0o700;

/// Whether something of this name is there.
fn is_there(rt: &HostRuntime, name: &str) -> bool {
    fs::symlink_metadata(rt, name).is_ok()
}

/// Makes both files, and the folder of the first where it isn't there.
fn make_both(rt: &HostRuntime, first: &str, bytes: &[u8], second: &str) -> io::Result<()> {
    if let Some((folder, _)) = first.rsplit_once('/') {
        make_folder(rt, folder)?;
    }
    let mut file = create(rt, first)?;
    file.write_all(bytes)?;
    let _ = create(rt, second)?;
    Ok(())
}

/// Makes the file, and its folder where it isn't there.
fn make_one(rt: &HostRuntime, name: &str, bytes: &[u8]) -> io::Result<()> {
    if let Some((folder, _)) = name.rsplit_once('/') {
        make_folder(rt, folder)?;
    }
    let mut file = create(rt, name)?;
    file.write_all(bytes)
}

/// Makes the folder, where nothing of this name is there.
fn make_folder(rt: &HostRuntime, folder: &str) -> io::Result<()> {
    if fs::metadata(rt, folder).is_ok() {
        return Ok(());
    }
    let mut builder = DirBuilder::new();
    builder.mode(FOLDER_MODE).create(rt, folder)
}

/// Appends to the file that is there, with one write where the system takes the whole at once.
fn append_to(rt: &HostRuntime, name: &str, bytes: &[u8]) -> io::Result<()> {
    let mut options = OpenOptions::new();
    let mut file = options.append(true).open(rt, name)?;
    file.write_all(bytes)
}

impl Journal for RealStore {
    fn begin(
        &mut self,
        _alloc: Global,
        first: &str,
        bytes: &[u8],
        second: &str,
    ) -> Result<(), BeginNo> {
        if is_there(&self.rt, first) {
            return Err(BeginNo::First);
        }
        if is_there(&self.rt, second) {
            return Err(BeginNo::Second);
        }
        match make_both(&self.rt, first, bytes, second) {
            Ok(()) => Ok(()),
            Err(_) => {
                self.faults = one_more(self.faults);
                Err(BeginNo::Failed)
            }
        }
    }

    fn has(&self, name: &str) -> bool {
        is_there(&self.rt, name)
    }

    fn make(&mut self, _alloc: Global, name: &str, bytes: &[u8]) -> Result<(), StoreNo> {
        match make_one(&self.rt, name, bytes) {
            Ok(()) => Ok(()),
            Err(_) => {
                self.faults = one_more(self.faults);
                Err(StoreNo::Failed)
            }
        }
    }

    /// The bytes are the system's when this returns, so whatever ends the program later leaves them.
    /// A file that isn't there any more is a fault: it isn't begun anew.
    fn append(&mut self, _alloc: Global, name: &str, bytes: &[u8]) -> Result<(), StoreNo> {
        match append_to(&self.rt, name, bytes) {
            Ok(()) => Ok(()),
            Err(_) => {
                self.faults = one_more(self.faults);
                Err(StoreNo::Failed)
            }
        }
    }
}
