//! Whether a list shows that a term has no recipe.
ghost use Rattle.std.specs.Prelude.{◌≡◌, ◌↔◌, List, length, map, IsTrue, IfOk};
ghost use Rattle.anb_term.specs.Tree.{Tree};
ghost use Rattle.std.specs.List.{list_all};
ghost use Rattle.anb_term.specs.View.{tree_of};
ghost use Rattle.anb_intern.specs.Nodes.{operands_at, AreUnder};
ghost use Rattle.anb_reason.specs.Shut.{IsShut};
ghost use Rattle.anb_reason.specs.Decided.{is_among, composes, parts_in};

use crate::numbers::{all_flagged, composing, is_parted, marks, put_all};
use anb_base::NoMemory;
use anb_intern::{NodeId, Pool};
use anb_term::Term;
use std::alloc::Global;

/// Whether a list is shut for labels and a term: it holds the labels' terms, and the parts of each of
/// its terms whose keys compose from it, and the term doesn't compose from it. Then no recipe over
/// the labels has the term. It looks at each node of these terms a few times.
pub fn shut(
    alloc: Global,
    frame: &[Term],
    list: &[Term],
    t: &Term,
) -> Result<bool, anb_base::NoMemory>
    ensures { IfOk result (λ shut. IsTrue shut
        ↔ IsShut (map tree_of frame.now) (map tree_of list.now) (tree_of t.now)) }
{
    match is_shut(alloc, frame, list, t) {
        Ok(shut) => Ok(shut),
        Err(_) => Err(anb_base::NoMemory),
    }
}

fn is_shut(alloc: Global, frame: &[Term], list: &[Term], t: &Term) -> Result<bool, NoMemory>
    ensures { IfOk result (λ shut. IsTrue shut
        ↔ IsShut (map tree_of frame.now) (map tree_of list.now) (tree_of t.now)) }
{
    let mut pool = Pool::new(alloc);
    let held = put_all(alloc, &mut pool, list)?;
    let labels = put_all(alloc, &mut pool, frame)?;
    let target = pool.put_term(alloc, t)?;
    let marks = marks(alloc, &pool, &held)?;
    let composing = composing(alloc, &pool, &marks)?;
    if !all_flagged(&marks, &labels) {
        return Ok(false);
    }
    if !are_parted(&pool, &held, &marks, &composing) {
        return Ok(false);
    }
    Ok(!composing[target.0 as usize])
}

/// Whether each of these terms is parted.
fn are_parted(pool: &Pool, ids: &[NodeId], marks: &[bool], composing: &[bool]) -> bool
    requires under { AreUnder (length pool.now) ids.now }
    requires marks { length marks.now ≡ length pool.now }
    requires composing { length composing.now ≡ length pool.now }
    ensures { (S : List Tree) → marks.now ≡ map (is_among S) pool.now
        → composing.now ≡ map (composes S) pool.now
        → result ≡ list_all (parts_in S) (operands_at pool.now ids.now) }
{
    for id in ids {
        if !is_parted(marks, composing, pool.get(*id)) {
            return false;
        }
    }
    true
}
