//! What comes out of terms, and what stands in them behind keys that are missing, by numbers of a pool.
ghost use Rattle.std.specs.Prelude.{◌≡◌, ◌<◌, ◌++◌, ◌&&◌, List, Bool, ℕ, Some, true, false, drop, length, map, slice_get, IfOk, OnOk, IsTrue};
ghost use Rattle.std.specs.List.{flat_map};
ghost use Rattle.anb_term.specs.Operator.{undoable};
ghost use Rattle.anb_term.specs.Tree.{Tree, trees_of};
ghost use Rattle.anb_intern.specs.Nodes.{operands_at, AreUnder};
ghost use Rattle.anb_reason.specs.Decided.{composes};
ghost use Rattle.anb_lack.specs.Opened.{are_had, comes_out, inside, first_lacking, is_locked, missing_key};

use anb_base::NoMemory;
use anb_intern::{Node, NodeId, Pool};
use anb_reason::{all_flagged, back, front, same_flags};
use anb_term::Op;
use std::alloc::Global;

/// Appends the numbers of what comes out of a term for who has the keys with the flag, outside first.
#[cycle(out)]
pub(crate) fn put_out(
    out: &mut Vec<NodeId>,
    pool: &Pool,
    flags: &[bool],
    id: NodeId,
) -> Result<(), NoMemory>
    requires within { id.0 < length pool.now }
    requires long { length flags.now ≡ length pool.now }
    requires under { AreUnder (length pool.now) out.old.items }
    ensures under { OnOk result (AreUnder (length pool.now) out.new.items) }
    ensures out { OnOk result ((has : Tree → Bool) (t : Tree) → flags.now ≡ map has pool.now
        → slice_get pool.now id.0 ≡ Some t
        → operands_at pool.now out.new.items
        ≡ operands_at pool.now out.old.items ++ comes_out has t) }
{
    out.push(id)?;
    match pool.get(id) {
        Node::Atom(_) => Ok(()),
        Node::Apply(op, ids) => {
            if !opens(pool, flags, *op, ids) {
                return Ok(());
            }
            put_all_out(out, pool, flags, back(ids, op.keys() as usize), id)?;
            Ok(())
        }
    }
}

/// Appends those of each of these terms, whose numbers are below another.
#[cycle(out)]
fn put_all_out(
    out: &mut Vec<NodeId>,
    pool: &Pool,
    flags: &[bool],
    ids: &[NodeId],
    end: NodeId,
) -> Result<(), NoMemory>
    requires below { AreUnder end.0 ids.now }
    requires within { end.0 < length pool.now }
    requires long { length flags.now ≡ length pool.now }
    requires under { AreUnder (length pool.now) out.old.items }
    ensures under { OnOk result (AreUnder (length pool.now) out.new.items) }
    ensures out { OnOk result ((has : Tree → Bool) → flags.now ≡ map has pool.now
        → operands_at pool.now out.new.items ≡ operands_at pool.now out.old.items
        ++ flat_map (comes_out has) (operands_at pool.now ids.now)) }
{
    for id in ids {
        put_out(out, pool, flags, *id)?;
    }
    Ok(())
}

/// Whether an operator on these can be undone with the keys that have the flag.
fn opens(pool: &Pool, flags: &[bool], op: Op, ids: &[NodeId]) -> bool
    requires under { AreUnder (length pool.now) ids.now }
    requires long { length flags.now ≡ length pool.now }
    ensures { (has : Tree → Bool) → flags.now ≡ map has pool.now
        → result ≡ (undoable op && are_had has op (trees_of (operands_at pool.now ids.now))) }
{
    let _ = pool.len();
    op.undoes() && all_flagged(flags, front(ids, op.keys() as usize))
}

/// Whether a term can be undone, and not all its keys have the flag.
pub(crate) fn is_locked(pool: &Pool, flags: &[bool], id: NodeId) -> bool
    requires within { id.0 < length pool.now }
    requires long { length flags.now ≡ length pool.now }
    ensures { (S : List Tree) (t : Tree) → flags.now ≡ map (composes S) pool.now
        → slice_get pool.now id.0 ≡ Some t → result ≡ is_locked S t }
{
    match pool.get(id) {
        Node::Atom(_) => false,
        Node::Apply(op, ids) => {
            op.undoes() && !all_flagged(flags, front(ids, op.keys() as usize))
        }
    }
}

/// The first key of a term that hasn't the flag; of a name itself.
pub(crate) fn missing_key(pool: &Pool, flags: &[bool], id: NodeId) -> NodeId
    requires within { id.0 < length pool.now }
    requires long { length flags.now ≡ length pool.now }
    ensures within { result.0 < length pool.now }
    ensures key { (S : List Tree) (t : Tree) → flags.now ≡ map (composes S) pool.now
        → slice_get pool.now id.0 ≡ Some t
        → slice_get pool.now result.0 ≡ Some (missing_key S t) }
{
    match pool.get(id) {
        Node::Atom(_) => id,
        Node::Apply(op, ids) => first_without(pool, flags, front(ids, op.keys() as usize), id),
    }
}

/// The first of these that hasn't the flag, or the other one.
fn first_without(pool: &Pool, flags: &[bool], ids: &[NodeId], other: NodeId) -> NodeId
    requires within { other.0 < length pool.now }
    requires under { AreUnder (length pool.now) ids.now }
    requires long { length flags.now ≡ length pool.now }
    ensures within { result.0 < length pool.now }
    ensures key { (S : List Tree) (t : Tree) → flags.now ≡ map (composes S) pool.now
        → slice_get pool.now other.0 ≡ Some t
        → slice_get pool.now result.0
        ≡ Some (first_lacking S t (operands_at pool.now ids.now)) }
{
    let _ = pool.len();
    for id in ids {
        if !flags[id.0 as usize] {
            return *id;
        }
    }
    other
}

/// The numbers of what comes out of a term's parts for who has all keys.
pub(crate) fn inside(alloc: Global, pool: &Pool, id: NodeId) -> Result<Vec<NodeId>, NoMemory>
    requires { id.0 < length pool.now }
    ensures under { IfOk result (λ ids. AreUnder (length pool.now) ids.items) }
    ensures inside { IfOk result (λ ids. (t : Tree) → slice_get pool.now id.0 ≡ Some t
        → operands_at pool.now ids.items ≡ inside t) }
{
    let all = same_flags(alloc, pool.len() as usize, true)?;
    let mut out = Vec::new(alloc);
    put_inside(&mut out, pool, &all, id)?;
    Ok(out)
}

/// Appends them, where each has the flag.
fn put_inside(
    out: &mut Vec<NodeId>,
    pool: &Pool,
    flags: &[bool],
    id: NodeId,
) -> Result<(), NoMemory>
    requires within { id.0 < length pool.now }
    requires flags { flags.now ≡ map (λ t. true) pool.now }
    requires long { length flags.now ≡ length pool.now }
    requires under { AreUnder (length pool.now) out.old.items }
    ensures under { OnOk result (AreUnder (length pool.now) out.new.items) }
    ensures inside { OnOk result ((t : Tree) → slice_get pool.now id.0 ≡ Some t
        → operands_at pool.now out.new.items
        ≡ operands_at pool.now out.old.items ++ inside t) }
{
    match pool.get(id) {
        Node::Atom(_) => Ok(()),
        Node::Apply(op, ids) => {
            put_all_out(out, pool, flags, back(ids, op.keys() as usize), id)?;
            Ok(())
        }
    }
}

/// The numbers of what comes out of each of these terms for who has the keys with the flag.
pub(crate) fn opened(
    alloc: Global,
    pool: &Pool,
    flags: &[bool],
    ids: &[NodeId],
) -> Result<Vec<NodeId>, NoMemory>
    requires under { AreUnder (length pool.now) ids.now }
    requires long { length flags.now ≡ length pool.now }
    ensures under { IfOk result (λ out. AreUnder (length pool.now) out.items) }
    ensures out { IfOk result (λ out. (has : Tree → Bool) → flags.now ≡ map has pool.now
        → operands_at pool.now out.items
        ≡ flat_map (comes_out has) (operands_at pool.now ids.now)) }
{
    let mut out = Vec::new(alloc);
    for id in ids {
        put_out(&mut out, pool, flags, *id)?;
    }
    Ok(out)
}

/// The flags of these numbers.
pub(crate) fn flags_at(
    alloc: Global,
    pool: &Pool,
    flags: &[bool],
    ids: &[NodeId],
) -> Result<Vec<bool>, NoMemory>
    requires under { AreUnder (length pool.now) ids.now }
    requires long { length flags.now ≡ length pool.now }
    ensures { IfOk result (λ out. (P : Tree → Bool) → flags.now ≡ map P pool.now
        → out.items ≡ map P (operands_at pool.now ids.now)) }
{
    let _ = pool.len();
    let mut out = Vec::new(alloc);
    for id in ids {
        out.push(flags[id.0 as usize])?;
    }
    Ok(out)
}
