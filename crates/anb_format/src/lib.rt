//! Wire formats: how the arguments of a message become bytes, and how the bytes give the arguments
//! back. And literals: how a text writes a string of bytes.
//!
//! A format builds bytes from arguments, and it has parts for exactly the bytes that it builds. So
//! reading accepts one form alone: lengths are minimal, digits are lower-case, nothing is left over.
#![tactic(auto)]

mod fields;
mod formats;
mod heads;
mod laws;
mod literals;
mod pieces;

pub use formats::{Format, apart};
pub use laws::{
    apart_shares_nothing, built_is_bytes, canonical_is_literal, literals_are_unique,
    parts_are_exact, parts_are_unique, widths_bound_bytes,
};
pub use literals::{Literal, literal_text, read_literal};
pub use pieces::{FieldKind, FormatNo, Piece, copy_pieces};
