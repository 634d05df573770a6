// Entries: terms that a role has, each made from earlier ones.

use crate::made::Compositions;
use anb_term::{Op, Term};

/// Where an entry comes from: a label by its number, or part `part`, from 0, of the earlier entry
/// `of`, undone with keys that are composed over earlier entries.
#[derive(Drop)]
pub enum Origin {
    Label(u32),
    Part {
        op: Op,
        part: u16,
        keys: Compositions,
        of: u32,
    },
}

/// A term that the role has.
#[derive(Drop)]
pub struct Entry {
    pub origin: Origin,
    pub term: Term,
}

/// Entry `of` is undone with the keys, and its parts are the entries from `first` on.
#[derive(Drop)]
pub struct Opening {
    pub op: Op,
    pub keys: Compositions,
    pub of: u32,
    pub first: u32,
}
