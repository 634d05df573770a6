// The algebra of trees.

ghost use Rattle.std.specs.Prelude.{◌≡◌, ◌<◌, length, IfOk, option_map};
ghost use Rattle.std.specs.List.{All};
ghost use Rattle.anb_term.specs.Operator.{keys};
ghost use Rattle.anb_term.specs.Lawful.{picked};
ghost use Rattle.anb_term.specs.FreeAlgebra.{term_meaning};
ghost use Rattle.anb_term.specs.FreeLawful.{term_lawful};

use crate::algebra::Algebra;
use crate::term::{Op, Term, Terms};
use anb_base::NoMemory;
use std::alloc::Global;

/// The algebra whose values are terms, with all operators.
#[derive(Clone, Copy, Debug)]
pub struct TermAlgebra;

impl Algebra for TermAlgebra {
    type Value = Term;

    ghost meaning = { λ a. term_meaning };

    ghost lawful = { λ a. term_lawful };

    fn build(&self, alloc: Global, op: Op, table: &[Term], at: &[u32]) -> Result<Term, NoMemory> {
        let mut operands = Vec::new(alloc);
        for i in at {
            operands.push(table[*i as usize].copy(alloc)?)?;
        }
        Ok(Term::Node(op, Terms::new(operands)))
    }

    fn undo(
        &self,
        alloc: Global,
        op: Op,
        table: &[Term],
        keys: &[u32],
        of: u32,
    ) -> Result<Option<Vec<Term>>, NoMemory> {
        undo_term(alloc, op, table, keys, &table[of as usize])
    }

    fn same(&self, table: &[Term], a: u32, b: u32) -> bool {
        table[a as usize].same(&table[b as usize])
    }

    fn copy(&self, alloc: Global, table: &[Term], at: u32) -> Result<Term, NoMemory> {
        table[at as usize].copy(alloc)
    }
}

/// The parts of a term with this operator at its root and these keys.
fn undo_term(
    alloc: Global,
    op: Op,
    table: &[Term],
    by: &[u32],
    of: &Term,
) -> Result<Option<Vec<Term>>, NoMemory>
    requires within { All (λ i. i < length table.now) by.now }
    requires count { length by.now ≡ keys op }
    ensures { IfOk result (λ r.
        option_map (λ ps. ps.items) r ≡ term_meaning.undone op (picked table.now by.now) of.now) }
{
    match of {
        Term::Atom(_) => Ok(None),
        Term::Node(root, operands) => {
            if !op.undoes() {
                return Ok(None);
            }
            if op != *root {
                return Ok(None);
            }
            if operands.len() != op.arity() as usize {
                return Ok(None);
            }
            if !operands.begin_with(table, by) {
                return Ok(None);
            }
            Ok(Some(operands.copy_from(alloc, op.keys() as usize)?))
        }
    }
}
