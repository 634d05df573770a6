//! The pieces of a format, and why a list of pieces is none.
ghost use Rattle.std.specs.Prelude.{◌≡◌, IfOk};

use anb_base::{Bytes, NoMemory};
use std::alloc::Global;

/// How a field writes its argument.
#[derive(Clone, Copy, Debug, PartialEq, Eq, Drop)]
pub enum FieldKind {
    /// The length in minimal unsigned LEB128 (as DWARF specifies it), then the bytes.
    Len,
    /// A netstring: the decimal length, `:`, the bytes, `,`.
    Net,
    /// Lower-case hexadecimal, then `;`.
    Hex,
    /// The bytes up to the end. It stands only as the last piece.
    Rest,
}

/// One piece of a format: bytes that stand as they are, or a field.
#[derive(Debug, Drop)]
pub enum Piece {
    Lit(Bytes),
    Field(FieldKind),
}

impl Piece {
    pub fn copy(&self, alloc: Global) -> Result<Self, NoMemory>
        ensures { IfOk result (λ copy. copy ≡ self.now) }
    {
        match self {
            Piece::Lit(text) => Ok(Piece::Lit(text.copy(alloc)?)),
            Piece::Field(kind) => Ok(Piece::Field(*kind)),
        }
    }
}

/// These pieces in memory of their own.
pub fn copy_pieces(alloc: Global, pieces: &[Piece]) -> Result<Vec<Piece>, NoMemory>
    ensures { IfOk result (λ copies. copies.items ≡ pieces.now) }
{
    let mut copies = Vec::new(alloc);
    for piece in pieces {
        copies.push(piece.copy(alloc)?)?;
    }
    Ok(copies)
}

/// Why a list of pieces is no format: its head is empty, or a piece follows the `rest` at this
/// place, counted from 0.
#[derive(Clone, Copy, Debug, PartialEq, Eq, Drop)]
pub enum FormatNo {
    NoHead,
    RestNotLast(u32),
}
