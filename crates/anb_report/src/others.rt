//! Which terms of a list are none of some others.
ghost use Rattle.std.specs.Prelude.{map, IfOk};
ghost use Rattle.anb_term.specs.View.{tree_of};
ghost use Rattle.anb_report.specs.News.{AreMarked, AreOthers, IsOther};

use crate::marks::{is_marked, marks_of};
use crate::news::numbers_of;
use anb_base::NoMemory;
use anb_intern::Pool;
use anb_term::Term;
use std::alloc::Global;

/// For each term, whether it is none of some. Time and memory are linear in the terms' sizes, but for
/// the search among their numbers.
pub(crate) fn others(alloc: Global, terms: &[Term], some: &[Term]) -> Result<Vec<bool>, NoMemory>
    ensures { IfOk result (λ told.
        AreOthers (map tree_of terms.now) (map tree_of some.now) told.items) }
{
    let numbers = numbers_of(alloc, some)?;
    let marks = marks_of(alloc, numbers.pool.len(), &numbers.items)?;
    let mut told = Vec::new(alloc);
    for term in terms {
        told.push(is_other(alloc, &numbers.pool, &marks, term)?)?;
    }
    Ok(told)
}

/// Whether a term is none of those that are marked in the pool.
fn is_other(alloc: Global, pool: &Pool, marks: &[bool], term: &Term) -> Result<bool, NoMemory>
    ensures { IfOk result (IsOther pool.now marks.now (tree_of term.now)) }
{
    match pool.find_term(alloc, term)? {
        Some(id) => Ok(!is_marked(marks, id.0)),
        None => Ok(true),
    }
}
