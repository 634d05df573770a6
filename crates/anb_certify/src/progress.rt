//! What a border found, on which the next one builds.
//!
//! Where a border lets a code pass, registers of one term are tied, so that a class is named by the
//! first register of its term. What was tied, built or undone stays so. So a border looks at the
//! registers and jobs since the last one, and beyond them at terms that were neither built nor undone.
ghost use Rattle.std.specs.Prelude.{◌≡◌, ◌≤◌, ◌<◌, ◌++◌, ◌∷◌, [], ◌⊎◌, ℕ, List, None, Some, true, false, if◌then◌else◌, length, map, slice_get, set, IsTrue, IfOk, OnOk};
ghost use Rattle.anb_basis.specs.Checks.{MarksStay};
ghost use Rattle.anb_intern.specs.Nodes.{operands_at, tree_at, AreUnder};
ghost use Rattle.anb_intern.specs.declared.node.NodeId.{NodeId as number};
ghost use Rattle.anb_plays.specs.Codes.{Work};
ghost use Rattle.anb_term.specs.Tree.{leaf, Tree};
ghost use Rattle.anb_certify.specs.Numbered.{AreBelow, AreGrouped, AreSettled};
ghost use Rattle.anb_certify.specs.Progress.{found_in, AreCovered, AreQuiet, AreSet, HasFound, HasRoom, HaveKnown, IsProgress};
ghost use Rattle.anb_certify.specs.Tied.{AreEnough, Did};
ghost use Rattle.anb_certify.specs.Works.{did_of, work_of, AreTold, TellsTerms};

use crate::classes::all_set;
use crate::firsts::settle;
use crate::rules::{is_wanted, learn};
use crate::works::Done;
use anb_base::NoMemory;
use anb_intern::{Node, NodeId, Pool};
use anb_reason::{composing, marks, same_flags};
use std::alloc::Global;

/// What was found of the registers and the jobs so far.
#[derive(Drop)]
pub(crate) struct Progress {
    /// For each number, the first register with it, if any.
    pub(crate) seen: Vec<Option<u32>>,
    /// For each register, the first with its number.
    pub(crate) firsts: Vec<u32>,
    /// For each register, whether comparisons were seen to tie it to the first with its number.
    pub(crate) flags: Vec<bool>,
    /// For each register, whether one of which it is the first was built or undone.
    pub(crate) known: Vec<bool>,
    /// First registers with their number that weren't built or undone.
    pub(crate) pending: Vec<u32>,
    /// How many jobs were looked at.
    pub(crate) jobs: usize,
}

impl Progress {
    pub(crate) fn new(alloc: Global) -> Progress
        ensures { (ids : List number) (ts : List Tree) (did : List (ℕ × Work))
            → IsProgress ids ts did (found_in result) }
    {
        Progress {
            seen: Vec::new(alloc),
            firsts: Vec::new(alloc),
            flags: Vec::new(alloc),
            known: Vec::new(alloc),
            pending: Vec::new(alloc),
            jobs: 0,
        }
    }

    /// Looks at what came since the last border, and says whether that shows that the code is enough.
    /// Where it doesn't, the code may be enough all the same.
    pub(crate) fn look(
        &mut self,
        alloc: Global,
        pool: &Pool,
        ids: &[NodeId],
        done: &[Done],
    ) -> Result<bool, NoMemory>
        requires few { length ids.now < 4294967296 }
        requires under { AreUnder (length pool.now) ids.now }
        requires told { AreTold (operands_at pool.now ids.now) (map did_of done.now) }
        requires before { IsProgress ids.now (operands_at pool.now ids.now)
            (map did_of done.now) (found_in self.old) }
        ensures found { OnOk result (HasFound ids.now (operands_at pool.now ids.now)
            (map did_of done.now) (found_in self.new)) }
        ensures grouped { OnOk result (AreGrouped (operands_at pool.now ids.now)
            (map did_of done.now) self.new.firsts.items) }
        ensures enough { IfOk result (λ enough. enough ≡ true → AreSet self.new.flags.items
            × AreEnough (map did_of done.now) (operands_at pool.now ids.now)) }
    {
        let before = self.flags.len();
        self.take_in(alloc, pool, ids, done)?;
        if !all_set(&self.flags, before) {
            return Ok(false);
        }
        are_quiet(alloc, pool, ids, &self.pending)
    }

    /// Takes in the registers and the jobs that are new.
    fn take_in(
        &mut self,
        alloc: Global,
        pool: &Pool,
        ids: &[NodeId],
        done: &[Done],
    ) -> Result<(), NoMemory>
        requires few { length ids.now < 4294967296 }
        requires under { AreUnder (length pool.now) ids.now }
        requires told { AreTold (operands_at pool.now ids.now) (map did_of done.now) }
        requires before { HasFound ids.now (operands_at pool.now ids.now)
            (map did_of done.now) (found_in self.old) }
        ensures found { OnOk result (HasFound ids.now (operands_at pool.now ids.now)
            (map did_of done.now) (found_in self.new)) }
        ensures grouped { OnOk result (AreGrouped (operands_at pool.now ids.now)
            (map did_of done.now) self.new.firsts.items) }
        ensures kept { OnOk result (MarksStay self.old.flags.items self.new.flags.items) }
    {
        self.enter(pool.len(), ids)?;
        learn_all(
            &self.firsts,
            done,
            self.jobs,
            &mut self.known,
            &mut self.flags,
        );
        self.jobs = done.len();
        self.pending = still_pending(alloc, pool, ids, &self.known, &self.pending)?;
        Ok(())
    }

    /// Takes it that the code is enough.
    pub(crate) fn settle_all(&mut self, alloc: Global) -> Result<(), NoMemory>
        ensures { OnOk result ((ids : List number) (ts : List Tree) (did : List (ℕ × Work))
            → AreGrouped ts did self.old.firsts.items → AreEnough did ts
            → HasFound ids ts did (found_in self.old)
            → IsProgress ids ts did (found_in self.new)) }
    {
        self.flags = same_flags(alloc, self.flags.len(), true)?;
        Ok(())
    }

    /// Takes in the registers that are new. One that isn't the first with its number is still to be
    /// compared.
    fn enter(&mut self, numbers: u32, ids: &[NodeId]) -> Result<(), NoMemory>
        requires under { AreUnder numbers ids.now }
        requires few { length ids.now < 4294967296 }
        requires before { (ts : List Tree) × (did : List (ℕ × Work))
            × HasFound ids.now ts did (found_in self.old) }
        ensures all { OnOk result (length self.new.firsts.items ≡ length ids.now) }
        ensures found { OnOk result ((ts : List Tree) (did : List (ℕ × Work))
            → HasFound ids.now ts did (found_in self.old)
            → HasFound ids.now ts did (found_in self.new)) }
        ensures kept { OnOk result (MarksStay self.old.flags.items self.new.flags.items) }
    {
        make_room(&mut self.seen, numbers as usize)?;
        for i in self.firsts.len()..ids.len() {
            let first = first_of(&mut self.seen, ids[i].0 as usize, i as u32);
            self.add(first, first as usize == i)?;
        }
        Ok(())
    }

    /// Adds a register, of whose term this is the first.
    fn add(&mut self, first: u32, is_itself: bool) -> Result<(), NoMemory>
        ensures seen { self.new.seen.items ≡ self.old.seen.items }
        ensures firsts { OnOk result
            (self.new.firsts.items ≡ self.old.firsts.items ++ first ∷ []) }
        ensures flags { OnOk result
            (self.new.flags.items ≡ self.old.flags.items ++ is_itself ∷ []) }
        ensures known { OnOk result
            (self.new.known.items ≡ self.old.known.items ++ false ∷ []) }
        ensures pending { OnOk result (self.new.pending.items
            ≡ (if is_itself then self.old.pending.items ++ first ∷ []
            else self.old.pending.items)) }
    {
        self.firsts.push(first)?;
        self.flags.push(is_itself)?;
        self.known.push(false)?;
        if is_itself {
            self.pending.push(first)?;
        }
        Ok(())
    }
}

/// A place for each of so many numbers at least.
fn make_room(seen: &mut Vec<Option<u32>>, numbers: usize) -> Result<(), NoMemory>
    ensures room { OnOk result (numbers ≤ length seen.new.items) }
    ensures more { OnOk result (HasRoom seen.old.items seen.new.items) }
{
    for k in seen.len()..numbers {
        let _ = k;
        seen.push(None)?;
    }
    Ok(())
}

/// The first register with a number, which is this one where there was none.
fn first_of(seen: &mut Vec<Option<u32>>, n: usize, i: u32) -> u32
    requires { n < length seen.old.items }
    ensures was { (slice_get seen.old.items n ≡ Some (Some result))
        ⊎ ((slice_get seen.old.items n ≡ Some None) × (result ≡ i)) }
    ensures is { seen.new.items ≡ set seen.old.items n (Some result) }
{
    let first = match seen[n] {
        Some(first) => first,
        None => i,
    };
    seen[n] = Some(first);
    first
}

/// Looks at the jobs from one on.
fn learn_all(
    firsts: &[u32],
    done: &[Done],
    from: usize,
    known: &mut Vec<bool>,
    flags: &mut Vec<bool>,
)
    requires told { (ts : List Tree) × AreGrouped ts (map did_of done.now) firsts.now }
    requires known { length known.old.items ≡ length firsts.now }
    requires flags { length flags.old.items ≡ length firsts.now }
    ensures known { (length known.new.items ≡ length firsts.now)
        × MarksStay known.old.items known.new.items }
    ensures flags { (length flags.new.items ≡ length firsts.now)
        × MarksStay flags.old.items flags.new.items }
    ensures are_known { HaveKnown (map did_of done.now) firsts.now known.old.items
        → HaveKnown (map did_of done.now) firsts.now known.new.items }
    ensures settled { (ts : List Tree) → AreGrouped ts (map did_of done.now) firsts.now
        → AreSettled (map did_of done.now) firsts.now flags.old.items
        → AreSettled (map did_of done.now) firsts.now flags.new.items }
{
    for k in from..done.len() {
        let d = &done[k];
        learn(firsts, d, known);
        settle(&d.job, flags);
    }
}

/// Those of these registers that still weren't built or undone and have no atom.
fn still_pending(
    alloc: Global,
    pool: &Pool,
    ids: &[NodeId],
    known: &[bool],
    pending: &[u32],
) -> Result<Vec<u32>, NoMemory>
    requires under { AreUnder (length pool.now) ids.now }
    requires below { AreBelow (length ids.now) pending.now }
    requires long { length known.now ≡ length ids.now }
    ensures below { IfOk result (λ left. AreBelow (length ids.now) left.items) }
    ensures covered { IfOk result (λ left. (firsts : List ℕ)
        → AreCovered (operands_at pool.now ids.now) firsts known.now pending.now
        → AreCovered (operands_at pool.now ids.now) firsts known.now left.items) }
{
    let mut left = Vec::new(alloc);
    for r in pending {
        if is_left(known[*r as usize], pool.get(ids[*r as usize])) {
            left.push(*r)?;
        }
    }
    Ok(left)
}

/// Whether a register is left, of which it is known whether it was built or undone.
fn is_left(known: bool, node: &Node) -> bool
    ensures { (ts : List Tree) → result ≡ false
        → (known ≡ true) ⊎ ((m : ℕ) × (tree_at ts node.now ≡ leaf m)) }
{
    !known && !matches!(node, Node::Atom(_))
}

/// Whether none of these registers' terms is to be built or undone. It looks at each of them, and
/// where there are some, at each term of the pool.
fn are_quiet(alloc: Global, pool: &Pool, ids: &[NodeId], pending: &[u32]) -> Result<bool, NoMemory>
    requires under { AreUnder (length pool.now) ids.now }
    requires below { AreBelow (length ids.now) pending.now }
    ensures { IfOk result (λ quiet. quiet ≡ true
        → AreQuiet (operands_at pool.now ids.now) pending.now) }
{
    if pending.is_empty() {
        return Ok(true);
    }
    let marks = marks(alloc, pool, ids)?;
    let composing = composing(alloc, pool, &marks)?;
    for r in pending {
        if is_wanted(&composing, pool.get(ids[*r as usize])) {
            return Ok(false);
        }
    }
    Ok(true)
}
