//! Output of a child that was read before anybody asked for it.

ghost use Rattle.std.specs.Prelude.{◌≡◌, ◌≤◌, length};

use std::alloc::{AllocError, Global};

/// How many bytes are kept at most.
const KEPT_BYTES: usize = 4 * 1024 * 1024;

/// Bytes in order, of which so many were handed on.
#[derive(Drop)]
pub(crate) struct Kept {
    bytes: Vec<u8>,
    handed: usize,
}

impl Kept {
    pub(crate) fn new(alloc: Global) -> Self {
        Kept {
            bytes: Vec::new(alloc),
            handed: 0,
        }
    }

    /// Whether more may be kept.
    pub(crate) fn has_room(&self) -> bool {
        self.bytes.len() < KEPT_BYTES
    }

    /// Appends these bytes.
    pub(crate) fn put(&mut self, piece: &[u8]) -> Result<(), AllocError> {
        Ok(self.bytes.extend_from_slice(piece)?)
    }

    /// Hands on the first bytes, as many as there are and the buffer has room for.
    pub(crate) fn take(&mut self, buf: &mut [u8]) -> usize
        ensures { result ≤ length buf.new }
    {
        let (_, left) = self.bytes.split_at(self.handed.min(self.bytes.len()));
        let n = left.len().min(buf.len());
        buf[..n].copy_from_slice(&left[..n]);
        self.handed = self.handed.saturating_add(n);
        n
    }
}
