//! A text in memory as a sink.
ghost use Rattle.std.specs.Prelude.{◌≡◌, ◌≤◌, ◌<◌, ℕ, List, [], Some};
ghost use Rattle.anb_base.specs.Moves.{last_count};

use anb_base::{Bytes, Failed, Sink};
use std::alloc::Global;
use std::marker::Model;

/// A text in memory as a sink. Want of memory is a fault; the count of faults stands at its last
/// value.
#[derive(Debug, Drop)]
pub struct Page {
    text: Vec<u8>,
}

impl Model for Page {
    ghost Value = { List ℕ };

    ghost view = { λ page. page.text.items };
}

impl Page {
    pub fn new(alloc: Global) -> Self
        ensures { result ≡ [] }
    {
        Page {
            text: Vec::new(alloc),
        }
    }

    pub fn into_bytes(self) -> Bytes
        ensures { result ≡ self }
    {
        Bytes::new(self.text)
    }
}

impl Sink for Page {
    ghost written = { λ page. Some page };

    ghost faults = { λ _. last_count };

    ghost kept = { λ _. [] };

    fn write(&mut self, piece: &[u8]) -> Result<usize, Failed> {
        match self.text.extend_from_slice(piece) {
            Ok(()) => Ok(piece.len()),
            Err(_) => Err(Failed),
        }
    }
}
