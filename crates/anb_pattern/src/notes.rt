//! Texts that belong to an event.
use anb_base::Bytes;
use std::marker::Model;

/// What is noted of one event, in order.
#[derive(Drop)]
pub struct Notes {
    items: Vec<Bytes>,
}

impl Model for Notes {
    ghost use Rattle.std.specs.Prelude.{ℕ, List};

    ghost Value = { List (List ℕ) };

    ghost view = { λ notes. notes.items.items };
}

impl Notes {
    ghost use Rattle.std.specs.Prelude.{◌≡◌};

    /// These notes, which keep their memory.
    pub fn new(items: Vec<Bytes>) -> Notes
        ensures { result ≡ items.items }
    {
        Notes { items }
    }

    pub fn as_slice(&self) -> &[Bytes]
        ensures { result.now ≡ self.now }
    {
        self.items.as_slice()
    }
}
