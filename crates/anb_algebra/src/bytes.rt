//! The algebra of byte strings: each operator by the primitives of a suite.
ghost use Rattle.std.specs.Prelude.{◌≡◌, ◌↔◌, ◌<◌, ℕ, List, ◌∷◌, [], length, IsTrue, IfOk, Some, slice_get};
ghost use Rattle.std.specs.Option.{option_map};
ghost use Rattle.std.specs.List.{All};
ghost use Rattle.anb_format.specs.Formats.{field_count, format_bytes};
ghost use Rattle.anb_format.specs.Reading.{parts_of};
ghost use Rattle.anb_term.specs.Lawful.{picked};
ghost use Rattle.anb_algebra.specs.ByteMeaning.{StandsAt, byte_meaning, has_operator};
ghost use Rattle.anb_algebra.specs.ByteLawful.{bytes_are_lawful};

use crate::suites::{hash_in, mac_in, seal_in, unseal_in, unwrap_in, wrap_in};
use anb_base::{Bytes, NoMemory, Suite};
use anb_format::Format;
use anb_term::{Algebra, Op};
use std::alloc::Global;
use std::marker::Model;

/// The algebra whose values are byte strings, by the operations of a suite. Beside hash, mac, seal
/// and wrap it has an operator for each of its formats.
#[derive(Drop)]
pub struct ByteAlgebra<'a> {
    formats: &'a [Format],
    suite: Suite,
}

impl<'a> Model for ByteAlgebra<'a> {
    ghost use Rattle.anb_algebra.specs.AlgebraValue.{AlgebraValue};

    ghost Value = { AlgebraValue };

    ghost view = { λ a. record { formats = a.formats.now; suite = a.suite } };
}

impl<'a> ByteAlgebra<'a> {
    /// The algebra over these formats, which it borrows, in a suite.
    pub fn new(formats: &'a [Format], suite: Suite) -> Self
        ensures formats { result.formats ≡ formats.now }
        ensures suite { result.suite ≡ suite }
        ensures operators { (i arity : ℕ) → IsTrue (has_operator formats.now (Op.Format i arity))
            ↔ StandsAt formats.now i arity }
    {
        // Each format is sound, as a look at its pieces tells.
        for format in formats {
            let _ = format.pieces();
        }
        ByteAlgebra { formats, suite }
    }
}

impl Algebra for ByteAlgebra<'_> {
    type Value = Bytes;

    ghost meaning = { λ a. byte_meaning a.formats a.suite };

    ghost lawful = { λ a. bytes_are_lawful a.formats a.suite };

    fn build(&self, alloc: Global, op: Op, table: &[Bytes], at: &[u32]) -> Result<Bytes, NoMemory> {
        match op {
            Op::Hash => hash_in(alloc, self.suite, operand(table, at, 0)),
            Op::Mac => mac_in(
                alloc,
                self.suite,
                operand(table, at, 0),
                operand(table, at, 1),
            ),
            Op::Seal => seal_in(
                alloc,
                self.suite,
                operand(table, at, 0),
                operand(table, at, 1),
            ),
            Op::Wrap => wrap_in(
                alloc,
                self.suite,
                operand(table, at, 0),
                operand(table, at, 1),
                operand(table, at, 2),
            ),
            Op::Format { index, .. } => {
                build_format(alloc, &self.formats[index as usize], table, at)
            }
        }
    }

    fn undo(
        &self,
        alloc: Global,
        op: Op,
        table: &[Bytes],
        keys: &[u32],
        of: u32,
    ) -> Result<Option<Vec<Bytes>>, NoMemory> {
        let bytes = table[of as usize].as_slice();
        match op {
            Op::Hash | Op::Mac => Ok(None),
            Op::Seal => {
                let opened = unseal_in(alloc, self.suite, operand(table, keys, 0), bytes)?;
                one_part(alloc, opened)
            }
            Op::Wrap => {
                let opened = unwrap_in(
                    alloc,
                    self.suite,
                    operand(table, keys, 0),
                    operand(table, keys, 1),
                    bytes,
                )?;
                one_part(alloc, opened)
            }
            Op::Format { index, .. } => { undo_format(alloc, &self.formats[index as usize], bytes) }
        }
    }

    fn same(&self, table: &[Bytes], a: u32, b: u32) -> bool {
        table[a as usize].as_slice() == table[b as usize].as_slice()
    }

    fn copy(&self, alloc: Global, table: &[Bytes], at: u32) -> Result<Bytes, NoMemory> {
        table[at as usize].copy(alloc)
    }
}

/// The bytes at place `i` of the places.
fn operand<'t>(table: &'t [Bytes], at: &[u32], i: usize) -> &'t [u8]
    requires within { All (λ place. place < length table.now) at.now }
    requires there { i < length at.now }
    ensures { slice_get (picked table.now at.now) i ≡ Some result.now }
{
    table[at[i] as usize].as_slice()
}

fn build_format(
    alloc: Global,
    format: &Format,
    table: &[Bytes],
    at: &[u32],
) -> Result<Bytes, NoMemory>
    requires within { All (λ i. i < length table.now) at.now }
    requires count { length at.now ≡ field_count format.now.pieces }
    ensures { IfOk result (λ bytes.
        bytes ≡ format_bytes format.now.pieces (picked table.now at.now)) }
{
    format.build(alloc, table, at)
}

fn undo_format(alloc: Global, format: &Format, bytes: &[u8]) -> Result<Option<Vec<Bytes>>, NoMemory>
    ensures { IfOk result (λ r.
        option_map (λ parts. parts.items) r ≡ parts_of format.now.pieces bytes.now) }
{
    format.parts(alloc, bytes)
}

/// An opened message as the one part that it is.
fn one_part(alloc: Global, opened: Option<Bytes>) -> Result<Option<Vec<Bytes>>, NoMemory>
    ensures { IfOk result (λ r.
        option_map (λ parts. parts.items) r ≡ option_map (λ m. m ∷ []) opened) }
{
    match opened {
        None => Ok(None),
        Some(message) => {
            let mut parts = Vec::new(alloc);
            match parts.push(message) {
                Ok(()) => Ok(Some(parts)),
                Err(_) => Err(NoMemory),
            }
        }
    }
}
