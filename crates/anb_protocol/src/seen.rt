//! The atoms of terms, and flags for those that were seen.
ghost use Rattle.std.specs.Prelude.{◌≡◌, ◌++◌, not, map, OnOk, IfOk, slice_index_or, slice_set, true};
ghost use Rattle.anb_term.specs.Tree.{trees_of};
ghost use Rattle.anb_term.specs.View.{tree_of};
ghost use Rattle.anb_protocol.specs.Texts.{atoms_in, atoms_in_all};
ghost use Rattle.anb_protocol.specs.Seen.{marked, new_among};

use anb_base::NoMemory;
use anb_term::Term;
use std::alloc::Global;

/// Appends the atoms in a term, from left to right.
#[cycle(atoms)]
pub(crate) fn put_atoms(out: &mut Vec<u32>, t: &Term) -> Result<(), NoMemory>
    ensures { OnOk result (out.new.items ≡ out.old.items ++ atoms_in (tree_of t.now)) }
{
    match t {
        Term::Atom(a) => {
            out.push(*a)?;
            Ok(())
        }
        Term::Node(_, operands) => put_all_atoms(out, operands.as_slice()),
    }
}

/// Appends those in each of these terms.
#[cycle(atoms)]
pub(crate) fn put_all_atoms(out: &mut Vec<u32>, terms: &[Term]) -> Result<(), NoMemory>
    ensures { OnOk result (out.new.items
        ≡ out.old.items ++ atoms_in_all (trees_of (map tree_of terms.now))) }
{
    for t in terms {
        put_atoms(out, t)?;
    }
    Ok(())
}

/// Marks an atom, and says whether it wasn't marked. One that has no flag counts as marked.
fn mark(flags: &mut Vec<bool>, a: u32) -> bool
    ensures new { result ≡ not (slice_index_or flags.old.items a true) }
    ensures marks { flags.new.items ≡ slice_set flags.old.items a true }
{
    let Some(flag) = flags.get_mut(a as usize) else {
        return false;
    };
    let new = !*flag;
    *flag = true;
    new
}

/// Marks these atoms, and gives those that weren't marked, each where it stands first.
pub(crate) fn take_new(
    alloc: Global,
    flags: &mut Vec<bool>,
    atoms: &[u32],
) -> Result<Vec<u32>, NoMemory>
    ensures new { IfOk result (λ new. new.items ≡ new_among flags.old.items atoms.now) }
    ensures marks { OnOk result (flags.new.items ≡ marked flags.old.items atoms.now) }
{
    let mut new = Vec::new(alloc);
    for a in atoms {
        if mark(flags, *a) {
            new.push(*a)?;
        }
    }
    Ok(new)
}
