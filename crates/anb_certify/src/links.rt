//! What the rules tie, over classes of registers.
ghost use Rattle.std.specs.Prelude.{◌≡◌, ◌+◌, ◌<◌, ◌++◌, ◌∷◌, [], ℕ, List, length, map, IfOk, OnOk};
ghost use Rattle.anb_term.specs.Tree.{Tree};
ghost use Rattle.anb_plays.specs.Codes.{Work};
ghost use Rattle.anb_certify.specs.Classes.{AreNamed, Saturated};
ghost use Rattle.anb_certify.specs.Falling.{LinkApart};
ghost use Rattle.anb_certify.specs.Links.{AreLinked, AreTiedLinks, HasLinked, IsToLink};
ghost use Rattle.anb_certify.specs.Signs.{classes_in, signs_in, IsSigns};
ghost use Rattle.anb_certify.specs.Works.{work_of, did_of, AreTold};

use crate::signs::Signs;
use crate::works::{Done, Job};
use anb_base::NoMemory;
use std::alloc::Global;

/// Two registers.
#[derive(Clone, Copy, Debug)]
pub(crate) struct Pair(pub(crate) u32, pub(crate) u32);

/// Pairs of registers of two classes that the rules tie. Where there are none, nothing is left to
/// tie. Each job is looked up once.
pub(crate) fn links(alloc: Global, names: &[u32], done: &[Done]) -> Result<Vec<Pair>, NoMemory>
    requires few { length names.now < 4294967296 }
    requires told { (ts : List Tree) × (length ts ≡ length names.now)
        × AreTold ts (map did_of done.now) }
    requires named { AreNamed (map did_of done.now) names.now }
    ensures tied { IfOk result (λ links. AreTiedLinks (length names.now)
        (map did_of done.now) links.items) }
    ensures apart { IfOk result (λ links. LinkApart names.now links.items) }
    ensures none { IfOk result (λ links. links.items ≡ []
        → Saturated (map did_of done.now) names.now) }
{
    let mut made = Signs::new(alloc, names)?;
    let mut undone = Signs::new(alloc, names)?;
    let mut links = Vec::new(alloc);
    for d in done {
        link(alloc, names, d, &mut made, &mut undone, &mut links)?;
    }
    Ok(links)
}

/// Links what a job wrote to what the first such job wrote.
fn link(
    alloc: Global,
    names: &[u32],
    d: &Done,
    made: &mut Signs,
    undone: &mut Signs,
    links: &mut Vec<Pair>,
) -> Result<(), NoMemory>
    requires few { length names.now < 4294967296 }
    requires made { IsSigns made.old × (length (classes_in made.old) ≡ length names.now) }
    requires undone { IsSigns undone.old × (length (classes_in undone.old) ≡ length names.now) }
    requires to_link { (did : List (ℕ × Work)) × (seen : List (ℕ × Work))
        × IsToLink did names.now d.now.at (work_of d.now.job)
        × AreLinked did seen names.now (signs_in made.old) (signs_in undone.old) links.old.items }
    ensures made { OnOk result (IsSigns made.new
        × (length (classes_in made.new) ≡ length names.now)) }
    ensures undone { OnOk result (IsSigns undone.new
        × (length (classes_in undone.new) ≡ length names.now)) }
    ensures apart { OnOk result (LinkApart names.now links.old.items
        → LinkApart names.now links.new.items) }
    ensures linked { OnOk result ((did seen : List (ℕ × Work))
        → IsToLink did names.now d.now.at (work_of d.now.job)
        → AreLinked did seen names.now (signs_in made.old) (signs_in undone.old) links.old.items
        → AreLinked did (seen ++ did_of d.now ∷ []) names.now (signs_in made.new)
        (signs_in undone.new) links.new.items) }
{
    match &d.job {
        Job::Equal(a, b) => link_all(names, *a, *b, 1, links),
        Job::Make(op, operands) => {
            let first = made.sign(alloc, *op, operands, d.at)?;
            link_all(names, first, d.at, 1, links)
        }
        Job::Undo(op, keys, of) => {
            let operands = with_last(alloc, keys, *of)?;
            let first = undone.sign(alloc, *op, &operands, d.at)?;
            link_all(names, first, d.at, op.arity() - op.keys(), links)
        }
    }
}

/// These, and one more.
fn with_last(alloc: Global, items: &[u32], last: u32) -> Result<Vec<u32>, NoMemory>
    ensures { IfOk result (λ all. all.items ≡ items.now ++ last ∷ []) }
{
    let mut all = Vec::new(alloc);
    all.extend_from_slice(items)?;
    all.push(last)?;
    Ok(all)
}

/// Links so many registers from one on to those from another on, where they are of two classes.
fn link_all(
    names: &[u32],
    a: u32,
    b: u32,
    count: u16,
    links: &mut Vec<Pair>,
) -> Result<(), NoMemory>
    requires first { (j : ℕ) → j < count → a + j < length names.now }
    requires second { (j : ℕ) → j < count → b + j < length names.now }
    requires few { length names.now < 4294967296 }
    ensures linked { OnOk result
        (HasLinked names.now a b count links.old.items links.new.items) }
    ensures apart { OnOk result (LinkApart names.now links.old.items
        → LinkApart names.now links.new.items) }
{
    for j in 0..count as u32 {
        if names[(a + j) as usize] != names[(b + j) as usize] {
            links.push(Pair(a + j, b + j))?;
        }
    }
    Ok(())
}
