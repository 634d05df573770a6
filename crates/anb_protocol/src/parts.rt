//! What a protocol is made of.
use anb_base::{Suite, Text};
use anb_format::Format;
use anb_syntax::Sort;
use anb_term::{Term, Terms};

/// A name that terms may have as an atom, and its sort.
#[derive(Debug, Drop)]
pub struct Atom {
    pub name: Text,
    pub sort: Sort,
}

/// A message from one role to another, by their numbers.
#[derive(Drop)]
pub struct Action {
    pub from: u32,
    pub to: u32,
    pub message: Term,
}

/// What a protocol is made of. An atom's number is its place, and so is a role's. What a role knows
/// stands at its place.
#[derive(Drop)]
pub struct Parts {
    pub name: Text,
    pub suite: Suite,
    pub formats: Vec<Format>,
    pub roles: Vec<Text>,
    pub atoms: Vec<Atom>,
    pub knows: Vec<Terms>,
    pub actions: Vec<Action>,
}
