// Algebras: what the operators do to values.

ghost use Rattle.std.specs.Prelude.{◌≡◌, ◌↔◌, ◌<◌, length, IsTrue, IfOk, option_map, slice_get, Some};
ghost use Rattle.std.specs.List.{All};
ghost use Rattle.anb_term.specs.Operator.{arity, keys as keys_of};
ghost use Rattle.anb_term.specs.Value.{Meaning};
ghost use Rattle.anb_term.specs.Lawful.{Lawful, picked};

use crate::term::Op;
use anb_base::NoMemory;
use std::alloc::Global;

/// What the operators do to values of one type. Values stand in a table and are named by their
/// places in it.
///
/// Its laws: building is a total function of the operator and the operands; undoing gives the parts
/// exactly where building from the keys and then the parts gives the value; a hash and a keyed hash
/// can't be undone; two values that are the same are equal.
pub trait Algebra {
    type Value: Drop;

    /// What the operators mean.
    ghost meaning: { Self → Meaning Self.Value };

    /// The value that an operator gives for the operands at these places.
    fn build(
        &self,
        alloc: Global,
        op: Op,
        table: &[Self::Value],
        at: &[u32],
    ) -> Result<Self::Value, NoMemory>
        requires within { All (λ i. i < length table.now) at.now }
        requires count { length at.now ≡ arity op }
        requires has { IsTrue ((meaning self.now).has op) }
        ensures { IfOk result (λ v. v ≡ (meaning self.now).built op (picked table.now at.now)) };

    /// The parts of the value at a place, where the operator builds it from the keys at these places
    /// and then those parts.
    fn undo(
        &self,
        alloc: Global,
        op: Op,
        table: &[Self::Value],
        keys: &[u32],
        of: u32,
    ) -> Result<Option<Vec<Self::Value>>, NoMemory>
        requires within { All (λ i. i < length table.now) keys.now }
        requires of_within { of < length table.now }
        requires count { length keys.now ≡ keys_of op }
        requires has { IsTrue ((meaning self.now).has op) }
        ensures { (v : Self.Value) → slice_get table.now of ≡ Some v →
            IfOk result (λ r. option_map (λ ps. ps.items) r
            ≡ (meaning self.now).undone op (picked table.now keys.now) v) };

    /// Whether the values at two places are equal.
    fn same(&self, table: &[Self::Value], a: u32, b: u32) -> bool
        requires a_within { a < length table.now }
        requires b_within { b < length table.now }
        ensures { IsTrue result ↔ (slice_get table.now a ≡ slice_get table.now b) };

    /// The value at a place, in memory of its own.
    fn copy(&self, alloc: Global, table: &[Self::Value], at: u32) -> Result<Self::Value, NoMemory>
        requires { at < length table.now }
        ensures { IfOk result (λ v. Some v ≡ slice_get table.now at) };

    ghost lawful: { (a : Self) → Lawful (meaning a) };
}
