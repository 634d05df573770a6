//! The rules, over classes of registers and terms by number.
ghost use Rattle.std.specs.Prelude.{◌≡◌, ◌↔◌, ◌<◌, ◌++◌, ◌∷◌, [], ℕ, List, length, map, IsTrue, IfOk, MatchOption};
ghost use Rattle.anb_basis.specs.Checks.{MarksStay};
ghost use Rattle.anb_intern.specs.Nodes.{operands_at, AreUnder, IsOver};
ghost use Rattle.anb_term.specs.Tree.{Tree};
ghost use Rattle.anb_reason.specs.Flags.{is_wanted};
ghost use Rattle.anb_certify.specs.Numbered.{AreBelow, AreGrouped, AreKnown, AreSettled, IsLoose, Passes};
ghost use Rattle.anb_plays.specs.Codes.{Work};
ghost use Rattle.anb_certify.specs.Progress.{HaveKnown};
ghost use Rattle.anb_certify.specs.Tied.{AreEnough, Did};
ghost use Rattle.anb_certify.specs.Works.{did_of, work_of, AreTold, TellsTerms};

use crate::classes::classes;
use crate::works::{Done, Job};
use anb_base::NoMemory;
use anb_intern::{Node, NodeId, Pool};
use anb_reason::{all_flagged, composing, front, marks};
use std::alloc::Global;

/// The first register that breaks a rule, if any, where the flagged ones are tied to the first of
/// their term. It looks at each register, each job and each term of the pool a few times, and further
/// rounds as `classes` says.
pub(crate) fn first_loose(
    alloc: Global,
    pool: &Pool,
    ids: &[NodeId],
    done: &[Done],
    firsts: &[u32],
    flags: &[bool],
) -> Result<Option<u32>, NoMemory>
    requires few { length ids.now < 4294967296 }
    requires under { AreUnder (length pool.now) ids.now }
    requires grouped { AreGrouped (operands_at pool.now ids.now)
        (map did_of done.now) firsts.now }
    requires long { length flags.now ≡ length firsts.now }
    requires settled { AreSettled (map did_of done.now) firsts.now flags.now }
    ensures { IfOk result (λ r. MatchOption r
        (AreEnough (map did_of done.now) (operands_at pool.now ids.now))
        (λ i. IsLoose (map did_of done.now) (operands_at pool.now ids.now) i)) }
{
    let names = classes(alloc, firsts, flags, done)?;
    let known = known(alloc, &names, done)?;
    let marks = marks(alloc, pool, ids)?;
    let composing = composing(alloc, pool, &marks)?;
    for i in 0..ids.len() {
        let wanted = is_wanted(&composing, pool.get(ids[i]));
        if !keeps(firsts, &names, &known, wanted, i) {
            return Ok(Some(i as u32));
        }
    }
    Ok(None)
}

/// Flags of classes, by the register that names each, in which some register was built or undone.
fn known(alloc: Global, names: &[u32], done: &[Done]) -> Result<Vec<bool>, NoMemory>
    requires below { AreBelow (length names.now) names.now }
    requires told { (ts : List Tree) × (length ts ≡ length names.now)
        × AreTold ts (map did_of done.now) }
    ensures long { IfOk result (λ flags. length flags.items ≡ length names.now) }
    ensures known { IfOk result (λ flags. AreKnown (map did_of done.now) names.now flags.items) }
{
    let mut flags = vec![in alloc; false; names.len()]?;
    for d in done {
        learn(names, d, &mut flags);
    }
    Ok(flags)
}

/// Flags the class in which a job built or undid a register, if it did.
pub(crate) fn learn(names: &[u32], d: &Done, flags: &mut Vec<bool>)
    requires told { (ts : List Tree) × (length ts ≡ length names.now)
        × TellsTerms ts d.now.at (work_of d.now.job) }
    requires below { AreBelow (length names.now) names.now }
    requires long { length flags.old.items ≡ length names.now }
    ensures long { length flags.new.items ≡ length flags.old.items }
    ensures kept { MarksStay flags.old.items flags.new.items }
    ensures have { (did : List (ℕ × Work)) → Did did d.now.at (work_of d.now.job)
        → HaveKnown did names.now flags.old.items → HaveKnown did names.now flags.new.items }
    ensures known { (did : List (ℕ × Work)) → AreKnown did names.now flags.old.items
        → AreKnown (did ++ did_of d.now ∷ []) names.now flags.new.items }
{
    match &d.job {
        Job::Make(_, _) => flags[names[d.at as usize] as usize] = true,
        Job::Undo(_, _, of) => flags[names[*of as usize] as usize] = true,
        Job::Equal(_, _) => {}
    }
}

/// Whether a node's term must be built or undone: the operands of a hash or mac compose, or the keys
/// of another.
pub(crate) fn is_wanted(composing: &[bool], node: &Node) -> bool
    requires { IsOver (length composing.now) node.now }
    ensures { result ≡ is_wanted composing.now node.now }
{
    match node {
        Node::Atom(_) => false,
        Node::Apply(op, ids) => {
            if op.undoes() {
                all_flagged(composing, front(ids, op.keys() as usize))
            } else {
                all_flagged(composing, ids)
            }
        }
    }
}

/// Whether a register keeps the rules, where those before it do.
fn keeps(firsts: &[u32], names: &[u32], known: &[bool], wanted: bool, i: usize) -> bool
    requires within { i < length firsts.now }
    requires firsts { AreBelow (length names.now) firsts.now }
    requires names { AreBelow (length names.now) names.now }
    requires long { length names.now ≡ length firsts.now }
    requires known { length known.now ≡ length names.now }
    ensures { IsTrue result ↔ Passes firsts.now names.now known.now wanted i }
{
    let first = firsts[i] as usize;
    names[first] == names[i] && (!wanted || known[names[i] as usize])
}
