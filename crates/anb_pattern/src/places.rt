//! What the variables of patterns stand for.
ghost use Rattle.std.specs.Prelude.{◌≡◌, ◌+◌, ◌++◌, ◌∷◌, [], ◌==◌, length, map, IfOk, OnOk, if◌then◌else◌};
ghost use Rattle.anb_term.specs.Tree.{trees_of};
ghost use Rattle.anb_term.specs.View.{tree_of};
ghost use Rattle.anb_pattern.specs.Variables.{places, places_all, places_each, stand_for};

use anb_base::NoMemory;
use anb_term::Term;
use std::alloc::Global;

/// What narrated terms have at the first place of each variable of their patterns.
pub(crate) fn stand_for(
    alloc: Global,
    names: usize,
    patterns: &[Term],
    narrated: &[Term],
) -> Result<Vec<Term>, NoMemory>
    ensures { IfOk result (λ terms. map tree_of terms.items ≡ stand_for names
        (places_each (map tree_of patterns.now) (map tree_of narrated.now))) }
{
    let mut out = Vec::new(alloc);
    put_all_first(alloc, &mut out, names, patterns, narrated)?;
    Ok(out)
}

/// Appends what a term has at the first place of each variable that wasn't met before.
#[cycle(first)]
fn put_first(
    alloc: Global,
    out: &mut Vec<Term>,
    names: usize,
    pattern: &Term,
    narrated: &Term,
) -> Result<(), NoMemory>
    ensures { OnOk result (map tree_of out.new.items ≡ map tree_of out.old.items
        ++ stand_for (names + length out.old.items)
        (places (tree_of pattern.now) (tree_of narrated.now))) }
{
    match pattern {
        Term::Atom(n) => put_if_next(alloc, out, names, *n, narrated),
        Term::Node(_, patterns) => match narrated {
            Term::Atom(_) => Ok(()),
            Term::Node(_, terms) => {
                put_all_first(alloc, out, names, patterns.as_slice(), terms.as_slice())
            }
        },
    }
}

/// The same of each two in order.
#[cycle(first)]
fn put_all_first(
    alloc: Global,
    out: &mut Vec<Term>,
    names: usize,
    patterns: &[Term],
    narrated: &[Term],
) -> Result<(), NoMemory>
    ensures { OnOk result (map tree_of out.new.items ≡ map tree_of out.old.items
        ++ stand_for (names + length out.old.items)
        (places_all (trees_of (map tree_of patterns.now)) (trees_of (map tree_of narrated.now)))) }
{
    for (i, pattern) in patterns.iter().enumerate() {
        if i >= narrated.len() {
            return Ok(());
        }
        put_first(alloc, out, names, pattern, &narrated[i])?;
    }
    Ok(())
}

/// Appends a term where it stands for the next variable.
fn put_if_next(
    alloc: Global,
    out: &mut Vec<Term>,
    names: usize,
    n: u32,
    narrated: &Term,
) -> Result<(), NoMemory>
    ensures { OnOk result (map tree_of out.new.items ≡ map tree_of out.old.items
        ++ (if n == names + length out.old.items then tree_of narrated.now ∷ [] else [])) }
{
    if is_next(names, out.len(), n) {
        let term = narrated.copy(alloc)?;
        out.push(term)?;
    }
    Ok(())
}

/// Whether an atom is the variable behind so many.
fn is_next(names: usize, count: usize, n: u32) -> bool
    ensures { result ≡ (n == names + count) }
{
    n as usize >= names && n as usize - names == count
}
