//! The parts of a term that don't compose from other terms.
ghost use Rattle.std.specs.Prelude.{◌≡◌, ◌<◌, ◌++◌, ◌∷◌, [], List, Some, filter, length, map, slice_get, IfOk, OnOk};
ghost use Rattle.anb_term.specs.Tree.{Tree, tree_eqb, trees_of};
ghost use Rattle.anb_term.specs.View.{tree_of};
ghost use Rattle.anb_intern.specs.Nodes.{operands_at, AreUnder};
ghost use Rattle.anb_protocol.specs.Names.{distinct};
ghost use Rattle.anb_reason.specs.Decided.{composes};
ghost use Rattle.anb_lack.specs.Listing.{IsListing};
ghost use Rattle.anb_lack.specs.Parts.{lacking, lacks, parts, parts_of_all};

use anb_base::NoMemory;
use anb_intern::{Node, NodeId, Pool};
use anb_reason::{composing, marks, put_all};
use anb_term::Term;
use std::alloc::Global;

/// The parts of a term that don't compose from these terms, each once, in the order in which they first
/// stand in it, outside first. Each node of the terms takes one look-up by its hash.
pub(crate) fn lacking(
    alloc: Global,
    terms: &[Term],
    t: &Term,
) -> Result<Vec<Term>, anb_base::NoMemory>
    ensures { IfOk result (λ parts.
        map tree_of parts.items ≡ lacking (map tree_of terms.now) (tree_of t.now)) }
{
    match lacking_parts(alloc, terms, t) {
        Ok(parts) => Ok(parts),
        Err(NoMemory) => Err(anb_base::NoMemory),
    }
}

fn lacking_parts(alloc: Global, terms: &[Term], t: &Term) -> Result<Vec<Term>, NoMemory>
    ensures { IfOk result (λ parts.
        map tree_of parts.items ≡ lacking (map tree_of terms.now) (tree_of t.now)) }
{
    let mut pool = Pool::new(alloc);
    let held = put_all(alloc, &mut pool, terms)?;
    let whole = pool.put_term(alloc, t)?;
    let marks = marks(alloc, &pool, &held)?;
    let composing = composing(alloc, &pool, &marks)?;
    let mut ids = Vec::new(alloc);
    put_parts(&mut ids, &pool, whole)?;
    let parts = terms_without(alloc, &pool, &ids, composing)?;
    Ok(parts)
}

/// Appends the numbers of a term's parts, outside first.
#[cycle(parts)]
fn put_parts(out: &mut Vec<NodeId>, pool: &Pool, id: NodeId) -> Result<(), NoMemory>
    requires within { id.0 < length pool.now }
    requires under { AreUnder (length pool.now) out.old.items }
    ensures under { OnOk result (AreUnder (length pool.now) out.new.items) }
    ensures parts { OnOk result ((t : Tree) → slice_get pool.now id.0 ≡ Some t
        → operands_at pool.now out.new.items ≡ operands_at pool.now out.old.items ++ parts t) }
{
    out.push(id)?;
    match pool.get(id) {
        Node::Atom(_) => Ok(()),
        Node::Apply(_, ids) => {
            put_all_parts(out, pool, ids, id)?;
            Ok(())
        }
    }
}

/// Appends those of each of these terms, whose numbers are below another.
#[cycle(parts)]
fn put_all_parts(
    out: &mut Vec<NodeId>,
    pool: &Pool,
    ids: &[NodeId],
    end: NodeId,
) -> Result<(), NoMemory>
    requires below { AreUnder end.0 ids.now }
    requires within { end.0 < length pool.now }
    requires under { AreUnder (length pool.now) out.old.items }
    ensures under { OnOk result (AreUnder (length pool.now) out.new.items) }
    ensures parts { OnOk result (operands_at pool.now out.new.items
        ≡ operands_at pool.now out.old.items
        ++ parts_of_all (trees_of (operands_at pool.now ids.now))) }
{
    for id in ids {
        put_parts(out, pool, *id)?;
    }
    Ok(())
}

/// The terms with these numbers but those that have the flag, each once.
fn terms_without(
    alloc: Global,
    pool: &Pool,
    ids: &[NodeId],
    mut flags: Vec<bool>,
) -> Result<Vec<Term>, NoMemory>
    requires under { AreUnder (length pool.now) ids.now }
    requires long { length flags.items ≡ length pool.now }
    ensures { IfOk result (λ terms. (S : List Tree) → flags.items ≡ map (composes S) pool.now
        → map tree_of terms.items
        ≡ distinct tree_eqb (filter (lacks S) (operands_at pool.now ids.now))) }
{
    let mut terms = Vec::new(alloc);
    for id in ids {
        list(alloc, pool, *id, &mut flags, &mut terms)?;
    }
    Ok(terms)
}

/// Lists a term that hasn't the flag, which it has then.
fn list(
    alloc: Global,
    pool: &Pool,
    id: NodeId,
    flags: &mut Vec<bool>,
    terms: &mut Vec<Term>,
) -> Result<(), NoMemory>
    requires within { id.0 < length pool.now }
    requires long { length flags.old.items ≡ length pool.now }
    ensures long { OnOk result (length flags.new.items ≡ length pool.now) }
    ensures listing { OnOk result ((S seen : List Tree) (t : Tree)
        → slice_get pool.now id.0 ≡ Some t
        → IsListing S pool.now flags.old.items seen (map tree_of terms.old.items)
        → IsListing S pool.now flags.new.items (seen ++ t ∷ []) (map tree_of terms.new.items)) }
{
    let _ = pool.len();
    if flags[id.0 as usize] {
        return Ok(());
    }
    flags[id.0 as usize] = true;
    let term = pool.term(alloc, id)?;
    terms.push(term)?;
    Ok(())
}
