//! The terms of registers, by number, and what was done on them.
//!
//! A term is a number of a pool, so one that is far larger than its code takes a node for each
//! instruction. Registers of equal terms have equal numbers.
ghost use Rattle.std.specs.Prelude.{◌≡◌, ◌↔◌, ◌<◌, ◌^◌, ◌++◌, ◌∷◌, [], Bool, ℕ, List, length, map, true, false, None, Some, option_map, slice_get, All, IsTrue, IfOk, IfSome, OnOk, MatchOption};
ghost use Rattle.anb_term.specs.declared.term.Op.{Op as operator};
ghost use Rattle.anb_term.specs.Lawful.{picked};
ghost use Rattle.anb_term.specs.Operator.{keys as keys_of};
ghost use Rattle.anb_term.specs.Tree.{Tree};
ghost use Rattle.anb_term.specs.FreeAlgebra.{parts_of, terms};
ghost use Rattle.anb_term.specs.View.{tree_of};
ghost use Rattle.anb_intern.specs.Nodes.{operands_at, tree_at, AreDistinct, AreUnder, IsOver};
ghost use Rattle.anb_plays.specs.Codes.{make, undo};
ghost use Rattle.anb_plays.specs.Exec.{worked, IsReady};
ghost use Rattle.anb_certify.specs.Works.{work_of, AreTold};
ghost use Rattle.anb_certify.specs.Numbered.{terms_in, did_in, value_of, HasWorked, IsLoose, IsWritten, Opens};
ghost use Rattle.anb_certify.specs.Progress.{IsTable};
ghost use Rattle.anb_certify.specs.Tied.{AreEnough};

use crate::progress::Progress;
use crate::rules::first_loose;
use crate::works::{Done, Job};
use anb_base::NoMemory;
use anb_intern::{Node, NodeId, Pool};
use anb_reason::{back, front};
use anb_term::{Op, Term};
use std::alloc::Global;

/// The terms of registers in the order of writing, the jobs that were done, and what the last border
/// found of them.
#[derive(Drop)]
pub(crate) struct Table {
    pub(crate) pool: Pool,
    pub(crate) ids: Vec<NodeId>,
    pub(crate) done: Vec<Done>,
    pub(crate) progress: Progress,
}

impl Table {
    pub(crate) fn new(alloc: Global) -> Table
        ensures table { IsTable result }
        ensures terms { terms_in result ≡ [] }
        ensures did { did_in result ≡ [] }
    {
        Table {
            pool: Pool::new(alloc),
            ids: Vec::new(alloc),
            done: Vec::new(alloc),
            progress: Progress::new(alloc),
        }
    }

    /// Writes a term into the next register.
    pub(crate) fn hear(&mut self, alloc: Global, term: &Term) -> Result<(), NoMemory>
        requires { IsTable self.old }
        ensures table { OnOk result (IsTable self.new) }
        ensures terms { OnOk result (terms_in self.new ≡ terms_in self.old ++ tree_of term.now ∷ []) }
        ensures did { OnOk result (did_in self.new ≡ did_in self.old) }
    {
        let id = self.pool.put_term(alloc, term)?;
        self.ids.push(id)?;
        Ok(())
    }

    /// Whether a register has a term.
    pub(crate) fn holds(&self, alloc: Global, r: u32, term: &Term) -> Result<bool, NoMemory>
        requires table { IsTable self.now }
        requires there { r < length (terms_in self.now) }
        ensures { IfOk result (λ holds. IsTrue holds
            ↔ (slice_get (terms_in self.now) r ≡ Some (tree_of term.now))) }
    {
        let _ = self.pool.len();
        match self.pool.find_term(alloc, term)? {
            Some(id) => Ok(id.0 == self.ids[r as usize].0),
            None => Ok(false),
        }
    }

    /// Does a job, where its demand is true in terms, and says whether it is.
    pub(crate) fn work(&mut self, alloc: Global, job: Job) -> Result<bool, NoMemory>
        requires table { IsTable self.old }
        requires few { length (terms_in self.old) < 2 ^ 32 }
        requires ready { (has : operator → Bool)
            × IsReady has (length (terms_in self.old)) (work_of job) }
        ensures table { OnOk result (IsTable self.new) }
        ensures untrue { IfOk result (λ works. works ≡ false
            → worked terms (terms_in self.old) (work_of job) ≡ None) }
        ensures works { IfOk result (λ works. works ≡ true
            → HasWorked (value_of self.old) (work_of job) (value_of self.new)) }
    {
        let at = self.ids.len() as u32;
        let works = self.write(alloc, &job)?;
        self.done.push(Done { at, job })?;
        Ok(works)
    }

    /// Writes what a job writes, where its demand is true, and says whether it is.
    fn write(&mut self, alloc: Global, job: &Job) -> Result<bool, NoMemory>
        requires table { IsTable self.old }
        requires ready { (has : operator → Bool)
            × IsReady has (length (terms_in self.old)) (work_of job.now) }
        ensures table { OnOk result (IsTable self.new) }
        ensures written { IfOk result (λ works.
            IsWritten (value_of self.old) (work_of job.now) works (value_of self.new)) }
    {
        match job {
            Job::Make(op, operands) => self.make(alloc, *op, operands),
            Job::Undo(op, keys, of) => self.undo(alloc, *op, keys, *of),
            Job::Equal(a, b) => {
                let _ = self.pool.len();
                if self.ids[*a as usize].0 == self.ids[*b as usize].0 {
                    return Ok(true);
                }
                Ok(false)
            }
        }
    }

    /// Writes what an operator makes of registers, which is always defined.
    fn make(&mut self, alloc: Global, op: Op, operands: &[u32]) -> Result<bool, NoMemory>
        requires table { IsTable self.old }
        requires ready { (has : operator → Bool)
            × IsReady has (length (terms_in self.old)) (make op operands.now) }
        ensures table { OnOk result (IsTable self.new) }
        ensures written { IfOk result (λ works.
            IsWritten (value_of self.old) (make op operands.now) works (value_of self.new)) }
    {
        let operands = numbers_at(alloc, &self.ids, operands)?;
        if self.pool.len() == u32::MAX {
            return Err(NoMemory);
        }
        let id = self.pool.put(Node::Apply(op, operands))?;
        self.ids.push(id)?;
        Ok(true)
    }

    /// Writes the parts of a register that is undone with keys, where it is defined, and says whether
    /// it is.
    fn undo(&mut self, alloc: Global, op: Op, keys: &[u32], of: u32) -> Result<bool, NoMemory>
        requires table { IsTable self.old }
        requires ready { (has : operator → Bool)
            × IsReady has (length (terms_in self.old)) (undo op keys.now of) }
        ensures table { OnOk result (IsTable self.new) }
        ensures written { IfOk result (λ works.
            IsWritten (value_of self.old) (undo op keys.now of) works (value_of self.new)) }
    {
        let _ = self.pool.len();
        let keys = numbers_at(alloc, &self.ids, keys)?;
        match parts(alloc, self.pool.get(self.ids[of as usize]), op, &keys)? {
            Some(ids) => {
                self.ids.extend_from_slice(&ids)?;
                Ok(true)
            }
            None => Ok(false),
        }
    }

    /// The first register that is loose, if any.
    pub(crate) fn first_loose(&mut self, alloc: Global) -> Result<Option<u32>, NoMemory>
        requires table { IsTable self.old }
        requires few { length (terms_in self.old) < 2 ^ 32 }
        requires told { AreTold (terms_in self.old) (did_in self.old) }
        ensures same { OnOk result (value_of self.new ≡ value_of self.old) }
        ensures loose { IfOk result (λ r. MatchOption r
            (IsTable self.new × AreEnough (did_in self.old) (terms_in self.old))
            (λ i. IsLoose (did_in self.old) (terms_in self.old) i)) }
    {
        if self
            .progress
            .look(alloc, &self.pool, &self.ids, &self.done)?
        {
            return Ok(None);
        }
        let firsts = &self.progress.firsts;
        let flags = &self.progress.flags;
        match first_loose(alloc, &self.pool, &self.ids, &self.done, firsts, flags)? {
            Some(r) => Ok(Some(r)),
            None => {
                self.progress.settle_all(alloc)?;
                Ok(None)
            }
        }
    }
}

/// The numbers of these registers' terms.
pub(crate) fn numbers_at(alloc: Global, ids: &[NodeId], at: &[u32]) -> Result<Vec<NodeId>, NoMemory>
    requires { All (λ r. r < length ids.now) at.now }
    ensures { IfOk result (λ numbers. numbers.items ≡ picked ids.now at.now) }
{
    let mut numbers = Vec::new(alloc);
    for r in at {
        numbers.push(ids[*r as usize])?;
    }
    Ok(numbers)
}

/// The parts of a term that this operator built with these keys, or None where it isn't one.
fn parts(
    alloc: Global,
    node: &Node,
    op: Op,
    keys: &[NodeId],
) -> Result<Option<Vec<NodeId>>, NoMemory>
    requires { length keys.now ≡ keys_of op }
    ensures under { IfOk result (λ parts. IfSome parts (λ ids. (n : ℕ) → IsOver n node.now
        → AreUnder n ids.items)) }
    ensures parts { IfOk result (λ parts. (ts : List Tree) → AreDistinct ts → IsOver (length ts) node.now
        → AreUnder (length ts) keys.now
        → parts_of op (operands_at ts keys.now) (tree_at ts node.now)
        ≡ option_map (λ ids. operands_at ts ids.items) parts) }
{
    let Node::Apply(built, operands) = node else {
        return Ok(None);
    };
    if !opens(op, keys, *built, operands) {
        return Ok(None);
    }
    let mut parts = Vec::new(alloc);
    parts.extend_from_slice(back(operands, keys.len()))?;
    Ok(Some(parts))
}

/// Whether an operator with keys undoes what an operator built from operands.
fn opens(op: Op, keys: &[NodeId], built: Op, operands: &[NodeId]) -> bool
    ensures { IsTrue result ↔ Opens op keys.now built operands.now }
{
    if !op.undoes() || op != built {
        return false;
    }
    operands.len() == op.arity() as usize && same_ids(front(operands, keys.len()), keys)
}

fn same_ids(a: &[NodeId], b: &[NodeId]) -> bool
    ensures { IsTrue result ↔ (a.now ≡ b.now) }
{
    if a.len() != b.len() {
        return false;
    }
    for i in 0..a.len() {
        if a[i].0 != b[i].0 {
            return false;
        }
    }
    true
}
