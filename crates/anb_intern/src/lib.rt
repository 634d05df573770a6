//! Terms by number.
//!
//! A pool keeps each term once, as a node whose operands are the numbers of terms that came before.
//! So two terms are equal exactly where their numbers are, and a term of many equal parts takes one
//! node for each different part.
//!
//! A node is found by its hash, with a fixed seed. A node costs one hash of its operands, to put it
//! and to find it, and a comparison with each node of the same hash. Who writes a narration can choose
//! nodes of one hash, at most about 16,000 within the limits, whose comparisons then take about a
//! second together.
#![tactic(auto)]

pub mod node;
pub mod pool;

pub use node::{Node, NodeId};
pub use pool::Pool;
