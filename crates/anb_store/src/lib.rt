//! Files that a program keeps: the trait through which it writes them, and a form of it in memory.
//!
//! A file is replaced whole or not at all, and a fault of the outside is answered only where the
//! store's count of faults rose.
#![tactic(auto)]

mod memory;
mod store;

pub use memory::MemStore;
pub use store::{Store, StoreNo};
