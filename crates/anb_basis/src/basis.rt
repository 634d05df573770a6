//! The checks that a role makes, label by label.

ghost use Rattle.std.specs.Prelude.{◌≡◌, ◌+◌, ◌<◌, ◌≤◌, List, [], length, map, true, OnErr, IfOk};
ghost use Rattle.anb_term.specs.View.{tree_of};
ghost use Rattle.anb_term.specs.Tree.{tree_size, trees_of, nodes, IsFormed, AreFormed};
ghost use Rattle.anb_close.specs.Entries.{labels_of, HasAdded, IsKnown};
ghost use Rattle.anb_basis.specs.Checks.{AreAll, After, InOrder, IsOnce, AllFit};

use crate::adding::{add_all, mark_again};
use crate::check::Check;
use anb_base::NoMemory;
use anb_close::Closure;
use anb_term::Term;
use std::alloc::Global;
use std::marker::Model;

/// The entries of a role, the checks that were given, and which entries have one.
#[derive(Drop)]
pub struct Basis {
    closure: Closure,
    given: Vec<Check>,
    marks: Vec<bool>,
}

impl Model for Basis {
    ghost use Rattle.std.specs.Prelude.{List};
    ghost use Rattle.anb_close.specs.declared.entry.Entry.{Entry};
    ghost use Rattle.anb_close.specs.contracts.entry.Entry as entry;
    ghost use Rattle.anb_basis.specs.declared.check.Check.{Check};
    ghost use Rattle.anb_basis.specs.contracts.check.Check as check;
    ghost use Rattle.std.specs.Coded.{coded_list, coded×};

    ghost Value = { List Entry × List Check };

    ghost coded = { coded× (coded_list entry.the_row.coded) (coded_list check.the_row.coded) };

    ghost view = { λ a. (a.closure, a.given.items) };

    ghost use Rattle.anb_basis.specs.Checks.{IsBasis};

    ghost invariant = { λ a. IsBasis a.closure a.given.items a.marks.items };
}

impl Basis {
    pub fn new(alloc: Global) -> Basis
        ensures { result ≡ ([], []) }
    {
        Basis {
            closure: Closure::new(alloc),
            given: Vec::new(alloc),
            marks: Vec::new(alloc),
        }
    }

    pub fn closure(&self) -> &Closure
        ensures { result.now ≡ self.now.0 }
    {
        &self.closure
    }

    /// All checks that were given.
    pub fn given(&self) -> &[Check]
        ensures same { result.now ≡ self.now.1 }
        ensures known { IsKnown self.now.0 }
        ensures all { AreAll self.now.0 self.now.1 }
        ensures fit { AllFit self.now.0 self.now.1 }
        ensures once { IsOnce self.now.1 }
        ensures few { length self.now.1 ≤ nodes (labels_of self.now.0) }
    {
        let _ = self.closure.entries();
        &self.given
    }

    /// Takes the next label's term, and gives the checks to make now, from a place of the list on:
    /// those of the openings in order, and then the comparisons.
    pub fn next(&mut self, alloc: Global, t: &Term) -> Result<u64, NoMemory>
        requires formed { IsFormed (λ o. true) (tree_of t.now) }
        requires few { nodes (labels_of self.old.0) + tree_size (tree_of t.now) < 4294967295 }
        ensures added { IfOk result (λ first. HasAdded self.old.0 t.now self.new.0) }
        ensures after { IfOk result (λ first. After self.old.1 self.new.1) }
        ensures order { IfOk result (λ first. InOrder (length self.old.0) self.new.0
            self.old.1 self.new.1) }
        ensures first { IfOk result (λ first. first ≡ length self.old.1) }
        ensures err { OnErr result (self.new ≡ self.old) }
    {
        let first = self.given.len();
        let known = self.marks.len();
        let step = self.closure.add(alloc, t)?;
        let given = add_all(
            alloc,
            &self.closure,
            &mut self.given,
            &mut self.marks,
            &step.touched,
        );
        match given {
            Ok(()) => Ok(first as u64),
            Err(e) => {
                self.given.truncate(first);
                mark_again(&self.given, &mut self.marks, known);
                self.closure.take_back();
                Err(e)
            }
        }
    }
}

/// The basis after all labels: its checks are those of all labels, and its closure has their
/// entries.
pub fn all_checks(alloc: Global, frame: &[Term]) -> Result<Basis, NoMemory>
    requires formed { AreFormed (λ o. true) (trees_of (map tree_of frame.now)) }
    requires few { nodes (map tree_of frame.now) < 4294967295 }
    ensures { IfOk result (λ b. labels_of b.0 ≡ map tree_of frame.now) }
{
    let mut basis = Basis::new(alloc);
    for t in frame {
        let _ = basis.next(alloc, t)?;
    }
    Ok(basis)
}
