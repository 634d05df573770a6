//! Places in what arrives.

/// A place in what a role hears at an event: the numbers of operands on the way from the outside, each
/// from 0.
#[derive(Debug, Drop)]
pub struct Place {
    pub event: usize,
    pub path: Vec<usize>,
}
