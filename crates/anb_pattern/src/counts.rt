//! How often variables stand in patterns.
ghost use Rattle.std.specs.Prelude.{◌≡◌, ◌++◌, ◌∷◌, [], ℕ, List, ◌==◌, length, map, not, replicate, IfOk, OnOk, if◌then◌else◌};
ghost use Rattle.anb_term.specs.Tree.{Tree, trees_of};
ghost use Rattle.anb_term.specs.View.{tree_of};
ghost use Rattle.anb_pattern.specs.Counts.{AreCounts, IsCounted, one_more, stands};
ghost use Rattle.anb_pattern.specs.Variables.{count_in, count_in_all, count_in_each, picked_from};

use anb_base::NoMemory;
use anb_term::Term;
use std::alloc::Global;

/// For each of so many atoms above the first ones, how often it stands in patterns, up to twice.
pub fn counts_of(
    alloc: Global,
    names: usize,
    many: usize,
    patterns: &[Term],
) -> Result<Vec<u8>, NoMemory>
    ensures counts { IfOk result (λ counts. AreCounts names
        (λ v. count_in_each v (map tree_of patterns.now)) counts.items) }
    ensures long { IfOk result (λ counts. length counts.items ≡ many) }
{
    let mut counts = zeros(alloc, many)?;
    count_all(names, &mut counts, patterns);
    Ok(counts)
}

fn zeros(alloc: Global, many: usize) -> Result<Vec<u8>, NoMemory>
    ensures { IfOk result (λ counts. counts.items ≡ replicate many 0) }
{
    Ok(vec![in alloc; 0u8; many]?)
}

/// Counts the variables of a pattern.
#[cycle(count)]
fn count(names: usize, counts: &mut Vec<u8>, t: &Term)
    ensures { IsCounted names (λ v. count_in v (tree_of t.now)) counts.old.items counts.new.items }
{
    match t {
        Term::Atom(n) => count_atom(names, counts, *n),
        Term::Node(_, terms) => count_all(names, counts, terms.as_slice()),
    }
}

/// Those of each of these.
#[cycle(count)]
fn count_all(names: usize, counts: &mut Vec<u8>, ts: &[Term])
    ensures { IsCounted names (λ v. count_in_all v (trees_of (map tree_of ts.now)))
        counts.old.items counts.new.items }
{
    for t in ts {
        count(names, counts, t);
    }
}

/// Counts an atom, where it is one of the variables.
fn count_atom(names: usize, counts: &mut Vec<u8>, n: u32)
    ensures { IsCounted names (λ v. if n == v then 1 else 0) counts.old.items counts.new.items }
{
    if (n as usize) < names {
        return;
    }
    let i = n as usize - names;
    if i >= counts.len() {
        return;
    }
    counts[i] = one_more(counts[i]);
}

/// One more, up to two.
fn one_more(count: u8) -> u8
    ensures { result ≡ one_more count }
{
    if count < 2 { count + 1 } else { count }
}

/// The terms whose variables stand once, or the others.
pub(crate) fn picked(
    alloc: Global,
    counts: &[u8],
    once: bool,
    terms: &[Term],
) -> Result<Vec<Term>, NoMemory>
    requires { length counts.now ≡ length terms.now }
    ensures { (names : ℕ) (patterns : List Tree)
        → AreCounts names (λ v. count_in_each v patterns) counts.now
        → IfOk result (λ picked. map tree_of picked.items
        ≡ picked_from (stands patterns once) names (map tree_of terms.now)) }
{
    let mut out = Vec::new(alloc);
    for (i, term) in terms.iter().enumerate() {
        put_if(alloc, &mut out, is_one(counts[i], once), term)?;
    }
    Ok(out)
}

/// Whether a count is one, or isn't.
fn is_one(count: u8, one: bool) -> bool
    ensures { result ≡ (if one then count == 1 else not (count == 1)) }
{
    if one { count == 1 } else { count != 1 }
}

/// Appends a term where a test says so.
fn put_if(alloc: Global, out: &mut Vec<Term>, so: bool, term: &Term) -> Result<(), NoMemory>
    ensures { OnOk result (map tree_of out.new.items ≡ map tree_of out.old.items
        ++ (if so then tree_of term.now ∷ [] else [])) }
{
    if so {
        let term = term.copy(alloc)?;
        out.push(term)?;
    }
    Ok(())
}
