//! What a child is started with.

use anb_base::{Bytes, Text};

/// The words of a child's program, which are none where it is the spawner's own, and the words that it
/// gets behind them. The first word of a program names it. Where there are values, they stand in a file of
/// the child's own, whose name is the last of its words.
#[derive(Drop)]
pub struct ChildWords {
    pub program: Vec<Text>,
    pub words: Vec<Text>,
    pub values: Option<Bytes>,
}
