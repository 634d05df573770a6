//! A closure by example.

ghost use Rattle.std.specs.Prelude.{◌≡◌, ◌<◌, ◌+◌, true, IfOk, IfSome};
ghost use Rattle.anb_term.specs.Tree.{nodes, tree_size, IsFormed};
ghost use Rattle.anb_term.specs.View.{tree_of};
ghost use Rattle.anb_close.specs.Entries.{labels_of};

use anb_base::NoMemory;
use anb_close::closure::Closure;
use anb_close::entry::{Entry, Opening, Origin};
use anb_close::made::Made;
use anb_term::{Op, Term, Terms};
use std::alloc::Global;

/// X, atom 0, sealed under K, atom 1.
fn sealed(alloc: Global) -> Result<Term, NoMemory>
    ensures formed { IfOk result (λ t. IsFormed (λ o. true) (tree_of t)) }
    ensures size { IfOk result (λ t. tree_size (tree_of t) ≡ 3) }
{
    let operands = vec![in alloc; Term::Atom(1), Term::Atom(0)]?;
    Ok(Term::Node(Op::Seal, Terms::new(operands)))
}

/// Takes a term as the label of this number, and says whether it opened nothing.
fn opens_nothing(
    alloc: Global,
    closure: &mut Closure,
    term: &Term,
    label: u32,
) -> Result<bool, NoMemory>
    requires formed { IsFormed (λ o. true) (tree_of term.now) }
    requires few { nodes (labels_of closure.old) + tree_size (tree_of term.now) < 4294967295 }
    ensures grows { IfOk result (λ s. nodes (labels_of closure.new)
        ≡ nodes (labels_of closure.old) + tree_size (tree_of term.now)) }
{
    let step = closure.add(alloc, term)?;
    Ok(step.label == label && step.opened.is_empty())
}

/// X, and X sealed under K, where neither opened anything.
fn kept(alloc: Global) -> Result<Option<Closure>, NoMemory>
    ensures size { IfOk result (λ r. IfSome r (λ c. nodes (labels_of c) ≡ 4)) }
{
    let mut closure = Closure::new(alloc);
    let body = opens_nothing(alloc, &mut closure, &Term::Atom(0), 0)?;
    let seal = sealed(alloc)?;
    if opens_nothing(alloc, &mut closure, &seal, 1)? && body {
        Ok(Some(closure))
    } else {
        Ok(None)
    }
}

/// Whether entry 1, a seal, was opened into entry 3 by entry 2.
fn is_opening(openings: &[Opening]) -> bool {
    match openings {
        [opening] => {
            opening.op == Op::Seal
                && opening.of == 1
                && opening.first == 3
                && matches!(opening.keys.as_slice(), [Made::Entry(2)])
        }
        _ => false,
    }
}

/// Whether entry 3 is the first part of entry 1.
fn has_body(entries: &[Entry]) -> bool {
    match entries {
        [_, _, _, body] => matches!(body.origin, Origin::Part { part: 0, of: 1, .. }),
        _ => false,
    }
}

/// Whether K, atom 1, taken as label 2, opens the seal into X.
fn opens_late(alloc: Global, closure: &mut Closure) -> Result<bool, NoMemory>
    requires { nodes (labels_of closure.old) ≡ 4 }
    ensures { IfOk result (λ b. nodes (labels_of closure.new) ≡ 5) }
{
    let step = closure.add(alloc, &Term::Atom(1))?;
    Ok(step.label == 2 && is_opening(step.opened.as_slice()))
}

/// Whether an atom composes, by the entry of this number.
fn is_entry(alloc: Global, closure: &Closure, atom: u32, entry: u32) -> bool {
    match closure.compose(alloc, &Term::Atom(atom)) {
        Ok(Some(Made::Entry(found))) => found == entry,
        _ => false,
    }
}

/// Whether an atom doesn't compose.
fn is_refused(alloc: Global, closure: &Closure, atom: u32) -> bool {
    matches!(closure.compose(alloc, &Term::Atom(atom)), Ok(None))
}

/// X, and X sealed under K, and then K, which opens the seal, where all this is so.
fn opened(alloc: Global) -> Result<Option<Closure>, NoMemory>
    ensures size { IfOk result (λ r. IfSome r (λ c. nodes (labels_of c) ≡ 5)) }
{
    let Some(mut closure) = kept(alloc)? else {
        return Ok(None);
    };
    let was_refused = is_refused(alloc, &closure, 1);
    if opens_late(alloc, &mut closure)? && was_refused {
        Ok(Some(closure))
    } else {
        Ok(None)
    }
}

/// Whether the key's entries are taken back with it.
fn is_taken_back(alloc: Global, mut closure: Closure) -> bool
    requires { nodes (labels_of closure) ≡ 5 }
{
    closure.take_back();
    closure.entries().len() == 2 && is_refused(alloc, &closure, 1)
}

#[test]
fn a_late_key_opens_a_kept_entry(rt: HostRuntime) -> Result<(), NoMemory> {
    match opened(rt.alloc())? {
        None => assert!(rt; false, "it wasn't opened"),
        Some(closure) => {
            assert!(rt; has_body(closure.entries()));
            assert!(rt; is_entry(rt.alloc(), &closure, 0, 0));
            assert!(rt; is_taken_back(rt.alloc(), closure), "the last label");
        }
    }
    Ok(())
}
