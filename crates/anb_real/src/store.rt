//! Files that the program keeps on the machine.

ghost use Rattle.std.specs.Prelude.{◌≡◌, ℕ, None};

use crate::faults::one_more;
use anb_store::{Store, StoreNo};
use std::alloc::Global;
use std::fs::{File, OpenOptions};
use std::io::Write;
use std::marker::Model;
use std::os::unix::fs::OpenOptionsExt;
use std::random::RandomSource;
use std::{fs, io};

/// Only the owner reads and writes what is kept.
pub(crate) const MODE: u32 = 0o600;

/// Files of the machine. A file is written whole under a name of its own beside the one that it
/// replaces, flushed to the disk, and renamed over that one. All names share one count of faults.
#[derive(Drop)]
pub struct RealStore {
    pub(crate) rt: HostRuntime,
    pub(crate) faults: u64,
}

impl Model for RealStore {
    ghost Value = { ℕ };

    ghost view = { λ store. store.faults };
}

impl RealStore {
    pub fn new(rt: HostRuntime) -> Self
        ensures { result ≡ 0 }
    {
        RealStore { rt, faults: 0 }
    }
}

/// Writes a file beside the one of this name, and renames it over that. Where this fails the new file
/// is removed. What is no file, as a device or a folder, isn't replaced.
fn write_over(rt: &HostRuntime, alloc: Global, name: &str, bytes: &[u8]) -> io::Result<()> {
    if let Ok(found) = fs::metadata(rt, name)
        && !found.is_file()
    {
        return Err(io::Error::from(io::ErrorKind::InvalidInput));
    }
    let beside = name_beside(rt, alloc, name)?;
    let file = create(rt, beside.as_str())?;
    match write_down(file, bytes).and_then(|()| fs::rename(rt, beside.as_str(), name)) {
        Ok(()) => {
            flush_folder(rt, name);
            Ok(())
        }
        Err(error) => {
            let _ = fs::remove_file(rt, beside.as_str());
            Err(error)
        }
    }
}

/// A name beside this one that no other file has.
fn name_beside(rt: &HostRuntime, alloc: Global, name: &str) -> io::Result<String> {
    let mut random = [0u8; 8];
    rt.fill_bytes(&mut random)?;
    let number = u64::from_be_bytes(random);
    Ok(format!(in alloc; "{name}.{number:016x}.new")?)
}

/// A new file of this name.
pub(crate) fn create(rt: &HostRuntime, name: &str) -> io::Result<File> {
    let mut options = OpenOptions::new();
    let options = options.write(true).create_new(true);
    options.mode(MODE).open(rt, name)
}

/// Writes the bytes, down to the disk.
fn write_down(mut file: File, bytes: &[u8]) -> io::Result<()> {
    file.write_all(bytes)?;
    file.sync_all()
}

/// Brings the names in the file's folder to the disk. Where the system can't, the old file or the new
/// one is there after a crash all the same.
fn flush_folder(rt: &HostRuntime, name: &str) {
    let folder = match name.rsplit_once('/') {
        Some(("", _)) => "/",
        Some((folder, _)) => folder,
        None => ".",
    };
    if let Ok(folder) = File::open(rt, folder) {
        let _ = folder.sync_all();
    }
}

impl Store for RealStore {
    ghost use Rattle.anb_store.specs.Stores.{StoreState};

    ghost state = { λ faults. record { files = None; faults = faults } };

    fn replace(&mut self, alloc: Global, name: &str, bytes: &[u8]) -> Result<(), StoreNo> {
        match write_over(&self.rt, alloc, name, bytes) {
            Ok(()) => Ok(()),
            Err(error) if error.kind() == io::ErrorKind::OutOfMemory => Err(StoreNo::NoMemory),
            Err(_) => {
                self.faults = one_more(self.faults);
                Err(StoreNo::Failed)
            }
        }
    }
}
