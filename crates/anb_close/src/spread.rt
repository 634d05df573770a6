// What comes to compose when an entry comes.
//
// Each term that comes to be found is looked up once, and with it each term that it is an operand
// of, once for each place. So all entries together take as many steps as the pool's terms have
// operands, and as many looks at the operands of each.

ghost use Rattle.std.specs.Prelude.{◌≡◌, ◌+◌, ◌++◌, ◌<◌, ◌≤◌, ℕ, List, [], Option, Vec, length, OnOk};
ghost use Rattle.std.specs.Global.{Global as memory};
ghost use Rattle.anb_term.specs.Tree.{Tree};
ghost use Rattle.anb_close.specs.declared.index.Standing.{Standing};
ghost use Rattle.anb_close.specs.Parents.{AreLinked};
ghost use Rattle.anb_close.specs.Spreading.{HavePlaces, IsSpreading, HasVisited, IsLeft, nowheres};

use crate::index::{Standing, is_ready};
use crate::parents::list_at;
use anb_base::NoMemory;
use anb_intern::{NodeId, Pool};
use std::alloc::Global;

/// Finds what has come to compose since a number came to be found, and lists the entries of which
/// an operand has.
pub fn spread(
    alloc: Global,
    pool: &Pool,
    parents: &[Vec<u32>],
    standings: &mut Vec<Standing>,
    from: u32,
    told: &mut Vec<u32>,
) -> Result<(), NoMemory>
    requires long { length standings.old.items ≡ length pool.now }
    requires linked { AreLinked pool.now parents.now (length pool.now) }
    ensures places { (rs : List (Option Tree)) → HavePlaces rs pool.now standings.old.items
        → HavePlaces rs pool.now standings.new.items }
    ensures ok { OnOk result ((later : List ℕ) × (told.new.items ≡ told.old.items ++ later)
        × ((rs : List (Option Tree)) (old : List Standing)
        → IsSpreading rs pool.now old standings.old.items [] (λ w n. w ≡ from)
        → IsSpreading rs pool.now old standings.new.items later (λ w n. ⊥))) }
{
    let mut work = Vec::new(alloc);
    work.push(from)?;
    while let Some(x) = work.pop() {
        visit_all(
            pool,
            x,
            list_at(parents, x as usize),
            standings,
            &mut work,
            told,
        )?;
    }
    Ok(())
}

/// Looks at the terms of which one operand, x, has come to be found.
fn visit_all(
    pool: &Pool,
    x: u32,
    numbers: &[u32],
    standings: &mut Vec<Standing>,
    work: &mut Vec<u32>,
    told: &mut Vec<u32>,
) -> Result<(), NoMemory>
    requires long { length standings.old.items ≡ length pool.now }
    ensures places { (rs : List (Option Tree)) → HavePlaces rs pool.now standings.old.items
        → HavePlaces rs pool.now standings.new.items }
    ensures long { length standings.new.items ≡ length pool.now }
    ensures fewer { OnOk result (nowheres standings.new.items + length work.new.items
        ≡ nowheres standings.old.items + length work.old.items) }
    ensures ok { OnOk result ((later : List ℕ) × (told.new.items ≡ told.old.items ++ later)
        × ((rs : List (Option Tree)) (old : List Standing) (before : List ℕ)
        → IsSpreading rs pool.now old standings.old.items before
        (IsLeft work.old.items x numbers.now 0)
        → IsSpreading rs pool.now old standings.new.items (before ++ later)
        (IsLeft work.new.items x numbers.now (length numbers.now)))) }
{
    for n in numbers {
        visit(pool, *n, standings, work, told)?;
    }
    Ok(())
}

/// Looks at a term of which an operand has come to be found.
fn visit(
    pool: &Pool,
    n: u32,
    standings: &mut Vec<Standing>,
    work: &mut Vec<u32>,
    told: &mut Vec<u32>,
) -> Result<(), NoMemory>
    requires long { length standings.old.items ≡ length pool.now }
    ensures long { length standings.new.items ≡ length pool.now }
    ensures places { (rs : List (Option Tree)) → HavePlaces rs pool.now standings.old.items
        → HavePlaces rs pool.now standings.new.items }
    ensures ok { OnOk result (HasVisited pool.now n
        standings.old.items work.old.items told.old.items
        standings.new.items work.new.items told.new.items) }
{
    if n as usize >= standings.len() {
        return Ok(());
    }
    let _ = pool.len();
    match standings[n as usize] {
        Standing::At(i) => {
            told.push(i)?;
            Ok(())
        }
        Standing::Built => Ok(()),
        Standing::Nowhere => {
            if !is_ready(pool.get(NodeId(n)), standings) {
                return Ok(());
            }
            work.push(n)?;
            standings[n as usize] = Standing::Built;
            Ok(())
        }
    }
}
