// What a role can compose: entries that are closed under opening.

ghost use Rattle.std.specs.Prelude.{◌≡◌, ◌+◌, [], ◌<◌, ◌≤◌, ℕ, List, length, map, take, drop, Bool, true, IsTrue, IfOk, IfSome, is_some, MatchOption, OnErr, Some, option_map, slice_get};
ghost use Rattle.anb_term.specs.declared.term.Op.{Op};
ghost use Rattle.anb_term.specs.declared.term.Term.{Term};
ghost use Rattle.anb_term.specs.View.{tree_of};
ghost use Rattle.anb_term.specs.Tree.{Trees, node, tree_size, trees_of, nodes, IsFormed, AreFormed};
ghost use Rattle.anb_term.specs.Value.{value};
ghost use Rattle.anb_term.specs.FreeAlgebra.{terms_over};
ghost use Rattle.anb_term.specs.Agree.{HasRecipe};
ghost use Rattle.anb_close.specs.Rows.{made_for, mades_for, made_recipe};
ghost use Rattle.anb_close.specs.Recipes.{recipes};
ghost use Rattle.anb_close.specs.MadeView.{made_tree};
ghost use Rattle.anb_close.specs.Entries.{rows, terms_of, labels_of, is_label, openings_from, HasAdded, IsLastLabel, IsKnown};
ghost use Rattle.anb_close.specs.declared.entry.Entry.{Entry};
ghost use Rattle.anb_close.specs.Listed.{AreTouched};

use crate::entry::Entry;
use crate::growth::Growth;
use crate::index::Index;
use crate::made::{Compositions, Made};
use crate::step::Step;
use anb_base::NoMemory;
use anb_term::Term;
use std::alloc::Global;
use std::marker::Model;

/// The entries of a role, closed under every opening of an entry whose keys compose.
#[derive(Drop)]
pub struct Closure {
    growth: Growth,
}

impl Model for Closure {
    ghost use Rattle.std.specs.Prelude.{List};
    ghost use Rattle.anb_close.specs.declared.entry.Entry.{Entry};
    ghost use Rattle.anb_close.specs.contracts.entry.Entry as entry;
    ghost use Rattle.std.specs.Coded.{coded_list};

    ghost Value = { List Entry };

    ghost coded = { coded_list entry.the_row.coded };

    ghost view = { λ a. a.growth.entries.items };

    ghost use Rattle.std.specs.Prelude.{◌≡◌};
    ghost use Rattle.anb_close.specs.Entries.{IsKept, terms_of};

    ghost invariant = { λ a. IsKept a.growth.entries.items a.growth.doubles.items
        a.growth.firsts.items × (a.growth.index.0 ≡ terms_of a.growth.entries.items) };
}

impl Closure {
    pub fn new(alloc: Global) -> Closure
        ensures { result ≡ [] }
    {
        Closure {
            growth: Growth {
                entries: Vec::new(alloc),
                doubles: Vec::new(alloc),
                firsts: Vec::new(alloc),
                index: Index::new(alloc),
            },
        }
    }

    /// All entries. What is known of them is known of those before each label's entry, too.
    pub fn entries(&self) -> &[Entry]
        ensures same { result.now ≡ self.now }
        ensures known { IsKnown self.now }
        ensures before { (b : ℕ) (e : Entry) → slice_get self.now b ≡ Some e
            → IsTrue (is_label e.origin) → IsKnown (take b self.now) }
    {
        &self.growth.entries
    }

    /// Takes the next label's term, and opens what can be opened from then on. A term that composes
    /// from the entries before is a double, which is never opened.
    pub fn add(&mut self, alloc: Global, t: &Term) -> Result<Step, NoMemory>
        requires formed { IsFormed (λ o. true) (tree_of t.now) }
        requires few { nodes (labels_of self.old) + tree_size (tree_of t.now) < 4294967295 }
        ensures ok { IfOk result (λ s. HasAdded self.old t.now self.new) }
        ensures grows { IfOk result (λ s.
            nodes (labels_of self.new) ≡ nodes (labels_of self.old) + tree_size (tree_of t.now)) }
        ensures label { IfOk result (λ s. s.label ≡ length self.old) }
        ensures opened { IfOk result (λ s.
            s.opened ≡ openings_from (length self.old) (drop (length self.old) self.new)) }
        ensures touched { IfOk result (λ s. AreTouched (rows self.old) (rows self.new)
            s.touched.items) }
        ensures err { OnErr result (self.new ≡ self.old) }
    {
        let before = self.growth.entries.len();
        match self.growth.step(alloc, t) {
            Ok(step) => return Ok(step),
            Err(_) => {}
        }
        self.growth.cut(before);
        Err(NoMemory)
    }

    /// Takes the last label back.
    pub fn take_back(&mut self)
        requires { 0 < length (labels_of self.old) }
        ensures cut { (at : ℕ) × IsLastLabel self.old at × (self.new ≡ take at self.old) }
        ensures undoes { (before : List Entry) (t : Term) → HasAdded before t self.old
            → self.new ≡ before }
    {
        let at = self.growth.last_label();
        self.growth.cut(at);
    }

    /// A composition of the term over the entries. It takes the entry that is no double wherever the
    /// term, or an operand on the way, has one, and builds only where there is none.
    pub fn compose(&self, alloc: Global, t: &Term) -> Result<Option<Made>, NoMemory>
        requires { IsFormed (λ o. true) (tree_of t.now) }
        ensures chosen { IfOk result (λ r.
            option_map made_tree r ≡ made_for (rows self.now) (tree_of t.now)) }
        ensures refused { (has : Op → Bool)
            → IfOk result (λ r.
            MatchOption r (HasRecipe has (labels_of self.now) (tree_of t.now)
            → ⊥) (λ m. Unit {0})) }
        ensures given { (has : Op → Bool) → AreFormed has (trees_of (labels_of self.now))
            → IsFormed has (tree_of t.now)
            → IfOk result (λ r. IfSome r (λ m.
            value (terms_over has) (labels_of self.now)
            (made_recipe (recipes self.now) (made_tree m)) ≡ Some (tree_of t.now))) }
        ensures small { IfOk result (λ r.
            IfSome r (λ m. tree_size (made_tree m) ≤ tree_size (tree_of t.now))) }
    {
        match self.growth.made(alloc, t)? {
            None => Ok(None),
            Some(m) => Ok(Some(m)),
        }
    }

    /// The compositions of all of these, where each has one, as `compose` gives them.
    pub fn compose_all(&self, alloc: Global, ts: &[Term]) -> Result<Option<Compositions>, NoMemory>
        ensures { IfOk result (λ r.
            option_map trees_of r ≡ mades_for (rows self.now) (trees_of (map tree_of ts.now))) }
    {
        self.growth.mades(alloc, ts)
    }
}
