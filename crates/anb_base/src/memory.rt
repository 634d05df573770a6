//! The wire and the shelf in memory, which tell all that they hold.

pub(crate) mod calls;
mod shelf;
mod wire;

pub(crate) use calls::one_more;
pub use shelf::MemShelf;
pub use wire::MemWire;
