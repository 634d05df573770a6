//! The patterns of labels that are heard.
ghost use Rattle.std.specs.Prelude.{◌≡◌, ◌++◌, ◌∷◌, ◌<◌, ◌^◌, length, map, List, [], Bool, true, IfOk, OnOk};
ghost use Rattle.anb_term.specs.declared.term.Op.{Op};
ghost use Rattle.anb_term.specs.Tree.{trees_of, nodes, AreFormed};
ghost use Rattle.anb_term.specs.View.{tree_of};
ghost use Rattle.anb_plays.specs.Plans.{Event};
ghost use Rattle.anb_close.specs.Entries.{terms_of};
ghost use Rattle.anb_accept.specs.Taking.{labels};
ghost use Rattle.anb_accept.specs.Patterns.{ArePatterns};
ghost use Rattle.anb_accept.specs.Equations.{heard_labels, heard_entries, is_heard};
ghost use Rattle.anb_unify.specs.Substitutions.{AreNamed};

use crate::equation::equations;
use crate::frame::Frame;
use anb_base::NoMemory;
use anb_basis::all_checks;
use anb_close::{Entry, Origin};
use anb_term::Term;
use anb_unify::most_general;
use std::alloc::Global;

/// The patterns of the labels that are heard.
pub(crate) fn heard(alloc: Global, names: u32, frame: &Frame) -> Result<Vec<Term>, NoMemory>
    requires formed { AreFormed (λ o. true) (trees_of (map tree_of frame.now.terms.items)) }
    requires few { nodes (map tree_of frame.now.terms.items) < 4294967295 }
    requires named { AreNamed names (trees_of (map tree_of frame.now.terms.items)) }
    requires long { length frame.now.heard.items ≡ length frame.now.terms.items }
    ensures { (has : Op → Bool) (plan : List Event)
        → AreFormed has (trees_of (labels plan))
        → map tree_of frame.now.terms.items ≡ labels plan
        → frame.now.heard.items ≡ heard_labels plan
        → IfOk result (λ patterns. ArePatterns has names plan (map tree_of patterns.items)) }
{
    let basis = all_checks(alloc, &frame.terms)?;
    let checks = basis.given();
    let entries = basis.closure().entries();
    let equations = equations(alloc, names, &frame.heard, entries, checks)?;
    let narrated = terms_of(alloc, entries)?;
    let at = heard_entries(alloc, &frame.heard, entries)?;
    most_general(alloc, names, &narrated, &equations, &at)
}

/// The terms of entries.
fn terms_of(alloc: Global, entries: &[Entry]) -> Result<Vec<Term>, NoMemory>
    ensures { IfOk result (λ terms. map tree_of terms.items ≡ terms_of entries.now) }
{
    let mut terms = Vec::new(alloc);
    for entry in entries {
        let term = entry.term.copy(alloc)?;
        terms.push(term)?;
    }
    Ok(terms)
}

/// The entries of the labels that are heard, in order.
fn heard_entries(alloc: Global, heard: &[bool], entries: &[Entry]) -> Result<Vec<u32>, NoMemory>
    requires { length entries.now < 2 ^ 32 }
    ensures { IfOk result (λ at. at.items ≡ heard_entries heard.now 0 entries.now) }
{
    let mut out = Vec::new(alloc);
    for (i, entry) in entries.iter().enumerate() {
        put_if_heard(&mut out, heard, i as u32, entry)?;
    }
    Ok(out)
}

/// Appends the number of an entry where its label is heard.
fn put_if_heard(out: &mut Vec<u32>, heard: &[bool], at: u32, entry: &Entry) -> Result<(), NoMemory>
    ensures { OnOk result (out.new.items
        ≡ out.old.items ++ heard_entries heard.now at (entry.now ∷ [])) }
{
    if !is_heard(heard, &entry.origin) {
        return Ok(());
    }
    out.push(at)?;
    Ok(())
}

/// Whether an entry is of a label that is heard.
fn is_heard(heard: &[bool], origin: &Origin) -> bool
    ensures { result ≡ is_heard heard.now origin.now }
{
    match origin {
        Origin::Label(n) => match heard.get(*n as usize) {
            Some(heard) => *heard,
            None => false,
        },
        Origin::Part { .. } => false,
    }
}
