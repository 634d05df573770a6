//! What somebody has, and what he can make of it.
ghost use Rattle.std.specs.Prelude.{◌≡◌, ◌+◌, [], ◌∷◌, ◌++◌, Bool, true, false, IfOk, OnOk, map};
ghost use Rattle.anb_term.specs.declared.term.Op.{Op};
ghost use Rattle.anb_term.specs.Agree.{HasRecipe};
ghost use Rattle.anb_term.specs.Tree.{leaf, trees_of, AreFormed, IsFormed};
ghost use Rattle.anb_term.specs.View.{tree_of};

use anb_accept::left_after;
use anb_base::NoMemory;
use anb_close::Closure;
use anb_term::Term;
use std::alloc::Global;
use std::marker::Model;

/// Terms that somebody has, closed under all that he can open, and how many nodes they may still get.
#[derive(Drop)]
pub(crate) struct Knowledge {
    closure: Closure,
    left: u32,
}

impl Model for Knowledge {
    ghost use Rattle.std.specs.Prelude.{◌≡◌, ◌+◌, List};
    ghost use Rattle.std.specs.Coded.{coded_list};
    ghost use Rattle.anb_term.specs.Tree.{Tree, nodes};
    ghost use Rattle.anb_term.specs.TreeCode.{coded_tree};
    ghost use Rattle.anb_close.specs.Entries.{labels_of};

    ghost Value = { List Tree };

    ghost coded = { coded_list coded_tree };

    ghost view = { λ a. labels_of a.closure };

    ghost invariant = { λ a. a.left + nodes (labels_of a.closure) ≡ 4294967294 };
}

impl Knowledge {
    pub(crate) fn new(alloc: Global) -> Knowledge
        ensures { result ≡ [] }
    {
        Knowledge {
            closure: Closure::new(alloc),
            left: u32::MAX - 1,
        }
    }

    /// Takes one more term.
    pub(crate) fn learn(&mut self, alloc: Global, t: &Term) -> Result<(), NoMemory>
        requires { IsFormed (λ o. true) (tree_of t.now) }
        ensures { OnOk result (self.new ≡ self.old ++ tree_of t.now ∷ []) }
    {
        match left_after(self.left, t) {
            Some(left) => {
                let _ = self.closure.add(alloc, t)?;
                self.left = left;
                Ok(())
            }
            None => Err(NoMemory),
        }
    }

    /// Whether some recipe over the terms gives this one.
    pub(crate) fn makes(&self, alloc: Global, t: &Term) -> Result<bool, NoMemory>
        requires { IsFormed (λ o. true) (tree_of t.now) }
        ensures yes { (has : Op → Bool) → AreFormed has (trees_of self.now)
            → IsFormed has (tree_of t.now)
            → IfOk result (λ makes. makes ≡ true → HasRecipe has self.now (tree_of t.now)) }
        ensures no { (has : Op → Bool)
            → IfOk result (λ makes. makes ≡ false → HasRecipe has self.now (tree_of t.now) → ⊥) }
    {
        match self.closure.compose(alloc, t)? {
            Some(_) => Ok(true),
            None => Ok(false),
        }
    }
}

/// Takes names.
pub(crate) fn learn_names(
    alloc: Global,
    knowledge: &mut Knowledge,
    names: &[u32],
) -> Result<(), NoMemory>
    ensures { OnOk result (knowledge.new ≡ knowledge.old ++ map leaf names.now) }
{
    for name in names {
        let term = Term::Atom(*name);
        knowledge.learn(alloc, &term)?;
    }
    Ok(())
}
