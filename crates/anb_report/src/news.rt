//! Which terms of a list stand there for the first time.
ghost use Rattle.std.specs.Prelude.{◌≡◌, map, replicate, false, IfOk};
ghost use Rattle.anb_term.specs.View.{tree_of};
ghost use Rattle.anb_report.specs.News.{AreNew, Numbered, news};

use crate::marks::mark;
use anb_base::NoMemory;
use anb_intern::Pool;
use anb_term::Term;
use std::alloc::Global;

/// Numbers of terms in a pool of them, equal ones for equal terms.
#[derive(Drop)]
pub(crate) struct Numbers {
    pub(crate) items: Vec<u32>,
    pub(crate) pool: Pool,
}

/// For each term, whether no term before it is the same. Time and memory are linear in the terms'
/// sizes, but for the search among their numbers.
pub(crate) fn new_ones(alloc: Global, terms: &[Term]) -> Result<Vec<bool>, NoMemory>
    ensures { IfOk result (λ told. AreNew (map tree_of terms.now) told.items) }
{
    let numbers = numbers_of(alloc, terms)?;
    let count = numbers.pool.len() as usize;
    Ok(news_of(alloc, &numbers.items, count)?)
}

/// Numbers for terms.
pub(crate) fn numbers_of(alloc: Global, terms: &[Term]) -> Result<Numbers, NoMemory>
    ensures { IfOk result (λ numbers.
        Numbered numbers.pool (map tree_of terms.now) numbers.items.items) }
{
    let mut pool = Pool::new(alloc);
    let mut items = Vec::new(alloc);
    for term in terms {
        let id = match pool.put_term(alloc, term) {
            Ok(id) => id,
            Err(_) => return Err(NoMemory),
        };
        items.push(id.0)?;
    }
    Ok(Numbers { items, pool })
}

/// For each number, whether it isn't among those before it.
fn news_of(alloc: Global, numbers: &[u32], count: usize) -> Result<Vec<bool>, NoMemory>
    ensures { IfOk result (λ told. told.items ≡ news (replicate count false) numbers.now) }
{
    let mut marks = vec![in alloc; false; count]?;
    let mut out = Vec::new(alloc);
    for n in numbers {
        let seen = mark(&mut marks, *n);
        out.push(!seen)?;
    }
    Ok(out)
}
