//! The subterms that a role can have, in the order of their texts.
ghost use Rattle.std.specs.Prelude.{◌≡◌, ◌↔◌, ◌<◌, [], List, Bool, length, map, IsTrue, IfOk, OnOk, ◌⊎◌};
ghost use Rattle.anb_term.specs.Agree.{HasRecipe};
ghost use Rattle.anb_term.specs.Tree.{Tree, trees_of, AreFormed};
ghost use Rattle.anb_term.specs.View.{tree_of};
ghost use Rattle.anb_algebra.specs.ByteMeaning.{has_operator};
ghost use Rattle.anb_close.specs.Entries.{labels_of};
ghost use Rattle.anb_protocol.specs.Texts.{IsTermOf, AreTermsOf};
ghost use Rattle.anb_protocol.specs.WellFormed.{IsProtocol};
ghost use Rattle.anb_reason.specs.Shut.{Occurs, OccursIn};
ghost use Rattle.anb_reason.specs.Found.{trees_in, IsKeyed, Finds};
ghost use Rattle.anb_reason.specs.Reach.{IsBefore};

use anb_base::NoMemory;
use anb_close::Closure;
use anb_protocol::Protocol;
use anb_term::{Term, Terms};
use std::alloc::Global;
use std::collections::BTreeMap;

/// Terms by their canonical texts.
#[derive(Drop)]
pub(crate) struct Found {
    pub(crate) terms: BTreeMap<Vec<u8>, Term>,
}

impl Found {
    ghost use Rattle.std.specs.Prelude.{◌≡◌, [], List, IfOk};
    ghost use Rattle.anb_protocol.specs.Protocols.{ProtocolValue};
    ghost use Rattle.std.specs.List.{AllPairs};
    ghost use Rattle.anb_reason.specs.Found.{trees_in, IsKeyed};
    ghost use Rattle.anb_reason.specs.Reach.{IsBefore};

    pub(crate) fn new(alloc: Global) -> Found
        ensures empty { trees_in result ≡ [] }
        ensures keyed { (p : ProtocolValue) → IsKeyed p result }
    {
        Found {
            terms: BTreeMap::new(alloc),
        }
    }

    /// The terms, in the order of their texts.
    pub(crate) fn into_terms(mut self, alloc: Global) -> Result<Terms, NoMemory>
        ensures terms { IfOk result (λ terms. terms ≡ trees_in self) }
        ensures order { IfOk result (λ terms.
            (p : ProtocolValue) → IsKeyed p self → AllPairs (IsBefore p) terms) }
    {
        let mut terms = Vec::new(alloc);
        for k in 0..self.terms.len() {
            let _ = k;
            let Some((_, term)) = self.terms.pop_first() else {
                unreachable!()
            };
            terms.push(term)?;
        }
        Ok(Terms::new(terms))
    }
}

/// Whether some recipe over the closure's labels has the term.
pub(crate) fn has_recipe(
    alloc: Global,
    p: &Protocol,
    closure: &Closure,
    term: &Term,
) -> Result<bool, NoMemory>
    requires labels { AreFormed (has_operator p.now.formats) (trees_of (labels_of closure.now)) }
    requires term { IsTermOf p.now (tree_of term.now) }
    ensures { IfOk result (λ has. IsTrue has
        ↔ HasRecipe (has_operator p.now.formats) (labels_of closure.now) (tree_of term.now)) }
{
    let _ = p;
    match closure.compose(alloc, term) {
        Ok(Some(_)) => Ok(true),
        Ok(None) => Ok(false),
        Err(_) => Err(NoMemory),
    }
}

/// Puts a term in, where it has a recipe.
fn find(
    alloc: Global,
    p: &Protocol,
    closure: &Closure,
    term: &Term,
    found: &mut Found,
) -> Result<(), NoMemory>
    requires labels { AreFormed (has_operator p.now.formats) (trees_of (labels_of closure.now)) }
    requires term { IsTermOf p.now (tree_of term.now) }
    ensures { OnOk result (IsProtocol p.now → Finds p.now (labels_of closure.now)
        (λ u. u ≡ tree_of term.now) found.old found.new) }
{
    if !has_recipe(alloc, p, closure, term)? {
        return Ok(());
    }
    let text = p.text_of_term(alloc, term)?;
    match term.copy(alloc) {
        Ok(copy) => {
            let _ = found.terms.insert(text.into_string().into_bytes(), copy)?;
            Ok(())
        }
        Err(_) => Err(NoMemory),
    }
}

/// Puts in all that occurs in a term and has a recipe. Each subterm's text is written once for each
/// place where it stands.
#[cycle(subterms)]
pub(crate) fn find_subterms(
    alloc: Global,
    p: &Protocol,
    closure: &Closure,
    term: &Term,
    found: &mut Found,
) -> Result<(), NoMemory>
    requires labels { AreFormed (has_operator p.now.formats) (trees_of (labels_of closure.now)) }
    requires term { IsTermOf p.now (tree_of term.now) }
    ensures { OnOk result (IsProtocol p.now → Finds p.now (labels_of closure.now)
        (λ u. Occurs u (tree_of term.now)) found.old found.new) }
{
    find(alloc, p, closure, term, found)?;
    match term {
        Term::Atom(_) => Ok(()),
        Term::Node(_, operands) => find_in_all(alloc, p, closure, operands.as_slice(), found),
    }
}

/// Puts in all that occurs in these terms and has a recipe.
#[cycle(subterms)]
fn find_in_all(
    alloc: Global,
    p: &Protocol,
    closure: &Closure,
    terms: &[Term],
    found: &mut Found,
) -> Result<(), NoMemory>
    requires labels { AreFormed (has_operator p.now.formats) (trees_of (labels_of closure.now)) }
    requires terms { AreTermsOf p.now (trees_of (map tree_of terms.now)) }
    ensures { OnOk result (IsProtocol p.now → Finds p.now (labels_of closure.now)
        (λ u. OccursIn u (trees_of (map tree_of terms.now))) found.old found.new) }
{
    for term in terms {
        find_subterms(alloc, p, closure, term, found)?;
    }
    Ok(())
}
