// The terms of a pool that each term is an operand of, by number.
//
// A term stands in the lists of its operands for as long as the pool has it. A list may hold more:
// numbers that were taken out again, or that another term has by now. So who goes over a list looks
// at each term anew, and no list is ever cut.

ghost use Rattle.std.specs.Prelude.{◌≡◌, ◌<◌, ◌≤◌, length, OnOk};
ghost use Rattle.anb_intern.specs.Nodes.{AreUnder, IsOver};
ghost use Rattle.anb_close.specs.Listed.{IsListed};
ghost use Rattle.anb_close.specs.Parents.{list_at as the_list, ListsStay, IsUnderAll, IsLinked, AreLinked};

use anb_base::NoMemory;
use anb_intern::{Node, NodeId, Pool};
use std::alloc::Global;

/// The numbers of the terms that one is an operand of.
pub fn list_at(parents: &[Vec<u32>], at: usize) -> &[u32]
    ensures { result.now ≡ the_list parents.now at }
{
    if at < parents.len() {
        return &parents[at];
    }
    &[]
}

/// Lists the new terms, from a number on, under their operands. It takes as many steps as they have
/// operands. After an error there may be more on the lists.
pub fn link(
    alloc: Global,
    pool: &Pool,
    parents: &mut Vec<Vec<u32>>,
    from: usize,
) -> Result<(), NoMemory>
    ensures stay { ListsStay parents.old.items parents.new.items }
    ensures longer { length parents.old.items ≤ length parents.new.items }
    ensures long { OnOk result (length pool.now ≤ length parents.new.items) }
    ensures linked { OnOk result (AreLinked pool.now parents.old.items from
        → AreLinked pool.now parents.new.items (length pool.now)) }
{
    let count = pool.len() as usize;
    pad(alloc, parents, count)?;
    for n in from..count {
        link_node(pool.get(NodeId(n as u32)), n as u32, parents)?;
    }
    Ok(())
}

/// Makes so many lists.
fn pad(alloc: Global, parents: &mut Vec<Vec<u32>>, count: usize) -> Result<(), NoMemory>
    ensures stay { ListsStay parents.old.items parents.new.items }
    ensures longer { length parents.old.items ≤ length parents.new.items }
    ensures long { OnOk result (count ≤ length parents.new.items) }
{
    for k in parents.len()..count {
        let _ = k;
        parents.push(Vec::new(alloc))?;
    }
    Ok(())
}

/// Lists a node under its operands.
fn link_node(node: &Node, n: u32, parents: &mut Vec<Vec<u32>>) -> Result<(), NoMemory>
    requires over { IsOver (length parents.old.items) node.now }
    ensures long { length parents.new.items ≡ length parents.old.items }
    ensures stay { ListsStay parents.old.items parents.new.items }
    ensures linked { OnOk result (IsLinked parents.new.items node.now n) }
{
    match node {
        Node::Atom(_) => Ok(()),
        Node::Apply(_, ids) => link_all(ids, n, parents),
    }
}

/// Lists a number under all of these.
fn link_all(ids: &[NodeId], n: u32, parents: &mut Vec<Vec<u32>>) -> Result<(), NoMemory>
    requires under { AreUnder (length parents.old.items) ids.now }
    ensures long { length parents.new.items ≡ length parents.old.items }
    ensures stay { ListsStay parents.old.items parents.new.items }
    ensures linked { OnOk result (IsUnderAll parents.new.items ids.now n) }
{
    for id in ids {
        link_one(parents, id.0 as usize, n)?;
    }
    Ok(())
}

/// Lists a number under another.
fn link_one(parents: &mut Vec<Vec<u32>>, at: usize, n: u32) -> Result<(), NoMemory>
    requires within { at < length parents.old.items }
    ensures long { length parents.new.items ≡ length parents.old.items }
    ensures stay { ListsStay parents.old.items parents.new.items }
    ensures listed { OnOk result (IsListed (the_list parents.new.items at) n) }
{
    parents[at].push(n)?;
    Ok(())
}
