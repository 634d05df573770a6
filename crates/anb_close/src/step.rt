// What a further label brings.

ghost use Rattle.std.specs.Prelude.{◌≡◌, ◌↔◌, [], length, IsTrue};

use crate::entry::Opening;
use std::marker::Model;

/// Openings in order.
#[derive(Drop)]
pub struct Openings {
    items: Vec<Opening>,
}

impl Model for Openings {
    ghost use Rattle.std.specs.Prelude.{List};
    ghost use Rattle.std.specs.Coded.{coded_list};
    ghost use Rattle.anb_close.specs.declared.entry.Opening.{Opening};
    ghost use Rattle.anb_close.specs.contracts.entry.Opening as opening;

    ghost Value = { List Opening };

    ghost coded = { coded_list opening.the_row.coded };

    ghost view = { λ a. a.items.items };
}

impl Openings {
    /// The openings of a vector, which keeps its memory.
    pub fn new(items: Vec<Opening>) -> Openings
        ensures { result ≡ items.items }
    {
        Openings { items }
    }

    /// The vector, with its memory.
    pub fn into_vec(self) -> Vec<Opening>
        ensures { result.items ≡ self }
    {
        self.items
    }

    pub fn as_slice(&self) -> &[Opening]
        ensures { result.now ≡ self.now }
    {
        &self.items
    }

    pub fn len(&self) -> usize
        ensures { result ≡ length self.now }
    {
        self.items.len()
    }

    pub fn is_empty(&self) -> bool
        ensures { IsTrue result ↔ (self.now ≡ []) }
    {
        self.items.is_empty()
    }
}

/// The number of the label's entry, the openings that came after it, and the entries that came or of
/// which an operand has come to compose; some may stand there more than once.
#[derive(Drop)]
pub struct Step {
    pub label: u32,
    pub opened: Openings,
    pub touched: Vec<u32>,
}
