//! The wire, the files, the store and standard error of the machine, which tell nothing of the bytes
//! and count their faults; and its words and random bytes.
#![tactic(auto)]

mod again;
mod arguments;
mod connecting;
mod connection;
mod descriptors;
mod faults;
mod frames;
mod journal;
mod shelf;
mod standard_error;
mod store;
mod wire;

pub use arguments::{seed, words};
pub use connecting::dial;
pub use descriptors::fill_standard_descriptors;
pub use shelf::RealShelf;
pub use standard_error::StandardError;
pub use store::RealStore;
pub use wire::RealWire;
