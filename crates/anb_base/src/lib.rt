//! What every crate of anb stands on: bytes and texts, and the traits through which a role meets
//! the outside, with their forms in memory.
//!
//! A fault of the outside is answered by `Failed`, and only where a count of faults rose. So the
//! cause of each fault can be told from the object that was handed in.
#![tactic(auto)]

mod content;
mod memory;
mod never;
mod place;
mod shelf;
mod wire;

pub use content::{Bytes, Failed, NoMemory, Sent, Suite, Text};
pub use memory::{MemShelf, MemWire};
pub use never::NeverFails;
pub use place::Place;
pub use shelf::{Shelf, ShelfNo};
pub use wire::{Sink, Source, Wire, read_full, write_whole};

/// The most bytes that an arrival or an initial value has.
pub const ARRIVAL: u32 = 262_144;

/// The most bytes that a term's width allows.
pub const WIDE: u32 = 67_108_864;

/// The most bytes of a file that people write: a narration, or values.
pub const SMALL_FILE: u32 = 1_048_576;

/// The most bytes of a file that programs write: a role file, or a transcript.
pub const LARGE_FILE: u32 = 16_777_216;
