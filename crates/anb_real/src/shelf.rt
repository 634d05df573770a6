//! The files of the machine.

ghost use Rattle.std.specs.Prelude.{◌≡◌, ◌≤◌, ◌<◌, ℕ, List, None};

use crate::faults::one_more;
use anb_base::{Bytes, Shelf, ShelfNo};
use std::alloc::Global;
use std::fs::File;
use std::io;
use std::io::Read;
use std::marker::Model;

/// The files of the machine. A file that isn't there is a fault, and all names share one count.
#[derive(Drop)]
pub struct RealShelf {
    rt: HostRuntime,
    faults: u64,
}

impl Model for RealShelf {
    ghost Value = { ℕ };

    ghost view = { λ shelf. shelf.faults };
}

impl RealShelf {
    pub fn new(rt: HostRuntime) -> Self
        ensures { result ≡ 0 }
    {
        RealShelf { rt, faults: 0 }
    }
}

/// Puts the start of the file, up to so many bytes, at the end of the buffer.
fn read_start(rt: &HostRuntime, name: &str, most: u64, buf: &mut Vec<u8>) -> io::Result<()> {
    File::open(rt, name)?.take(most).read_to_end(buf)?;
    Ok(())
}

impl Shelf for RealShelf {
    ghost files = { λ _. None };

    ghost faults = { λ faults _. faults };

    fn fetch(&mut self, alloc: Global, name: &str, limit: u32) -> Result<Bytes, ShelfNo> {
        let mut bytes = Vec::new(alloc);
        match read_start(&self.rt, name, u64::from(limit) + 1, &mut bytes) {
            Ok(()) if bytes.len() <= limit as usize => Ok(Bytes::new(bytes)),
            Ok(()) => Err(ShelfNo::Long),
            Err(error) if error.kind() == io::ErrorKind::OutOfMemory => Err(ShelfNo::NoMemory),
            Err(_) => {
                self.faults = one_more(self.faults);
                Err(ShelfNo::Failed)
            }
        }
    }
}
