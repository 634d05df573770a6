//! Narrations as trees.
use anb_base::{Suite, Text};
use anb_format::Piece;

/// What a name stands for: a role, or an atom of 32 bytes that is no role.
#[derive(Clone, Copy, Debug, PartialEq, Eq, Drop)]
pub enum Sort {
    Agent,
    Number,
    Key,
}

/// A term as it is written: a name, a format with its arguments, `h`, `mac`, `scrypt` or `wrap`.
#[derive(Debug, Drop)]
pub enum Tree {
    Name(Text),
    Apply(Text, Vec<Tree>),
    Hash(Box<Tree>),
    Mac(Box<Tree>, Box<Tree>),
    Seal(Box<Tree>, Box<Tree>),
    Wrap(Box<Tree>, Box<Tree>, Box<Tree>),
}

/// Names of one sort.
#[derive(Debug, Drop)]
pub struct TypeItem {
    pub sort: Sort,
    pub names: Vec<Text>,
}

/// A format: its name, and its pieces in order.
#[derive(Debug, Drop)]
pub struct FormatItem {
    pub name: Text,
    pub pieces: Vec<Piece>,
}

/// What a role knows from the start.
#[derive(Debug, Drop)]
pub struct KnowItem {
    pub role: Text,
    pub terms: Vec<Tree>,
}

/// A message from one role to another.
#[derive(Debug, Drop)]
pub struct ActionItem {
    pub from: Text,
    pub to: Text,
    pub message: Tree,
}

/// A narration. It is spellable where its names are names of the grammar and not reserved, each type
/// item has a name or more, and its terms have 64 levels at most.
#[derive(Debug, Drop)]
pub struct Narration {
    pub name: Text,
    pub suite: Suite,
    pub types: Vec<TypeItem>,
    pub formats: Vec<FormatItem>,
    pub knows: Vec<KnowItem>,
    pub actions: Vec<ActionItem>,
}
