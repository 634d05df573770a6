//! Nodes: terms whose operands are given by number.

use anb_term::Op;

/// The number of a term in a pool.
#[derive(Clone, Copy, Debug, PartialEq, Eq, Hash)]
pub struct NodeId(pub u32);

/// An atom by its number among the atoms, or an operator on operands by their numbers in the pool.
#[derive(Debug, PartialEq, Eq, Hash, Drop)]
pub enum Node {
    Atom(u32),
    Apply(Op, Vec<NodeId>),
}
