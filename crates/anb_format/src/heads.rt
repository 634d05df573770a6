//! The head of a format: the bytes of its first literals.
ghost use Rattle.std.specs.Prelude.{◌≡◌, ◌++◌, ◌∷◌, [], ℕ, List, MatchOption};
ghost use Rattle.anb_format.specs.Formats.{head};

use crate::Piece;
use std::marker::Model;

/// The bytes of a head that are left: those of one literal, and those of the literals after it.
#[derive(Drop)]
pub(crate) struct Head<'a> {
    text: &'a [u8],
    pieces: &'a [Piece],
}

impl<'a> Model for Head<'a> {
    ghost use Rattle.std.specs.Prelude.{◌++◌, ℕ, List};
    ghost use Rattle.anb_format.specs.Formats.{head};

    ghost Value = { List ℕ };

    ghost view = { λ h. h.text.now ++ head h.pieces.now };
}

impl<'a> Head<'a> {
    pub(crate) fn new(pieces: &'a [Piece]) -> Self
        ensures { result ≡ head pieces.now }
    {
        Head { text: &[], pieces }
    }

    /// Takes the next byte.
    pub(crate) fn next(&mut self) -> Option<u8>
        ensures { MatchOption result (self.old ≡ []) (λ byte. self.old ≡ byte ∷ self.new) }
    {
        while self.text.is_empty() {
            let (Piece::Lit(text), pieces) = self.pieces.split_first()? else {
                return None;
            };
            self.text = text.as_slice();
            self.pieces = pieces;
        }
        let (first, rest) = self.text.split_first()?;
        self.text = rest;
        Some(*first)
    }
}
