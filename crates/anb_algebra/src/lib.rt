//! The algebra of byte strings: what hashes, macs, seals, wraps and formats do to bytes.
#![tactic(auto)]

mod bytes;
mod suites;

pub use bytes::ByteAlgebra;
