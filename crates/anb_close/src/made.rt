// Compositions over entries.

ghost use Rattle.std.specs.Prelude.{◌≡◌, ◌↔◌, IsTrue, IfOk};

use anb_base::NoMemory;
use anb_term::Op;
use std::alloc::Global;
use std::marker::Model;

/// A composition over entries: an entry by its number, or an operator on compositions.
#[derive(Drop)]
#[cycle(made)]
pub enum Made {
    Entry(u32),
    Build(Op, Compositions),
}

/// Compositions in order.
#[derive(Drop)]
#[cycle(made)]
pub struct Compositions {
    items: Vec<Made>,
}

impl Model for Compositions {
    ghost use Rattle.std.specs.Prelude.{List, map};
    ghost use Rattle.std.specs.Coded.{coded_list};
    ghost use Rattle.anb_term.specs.Tree.{Tree, trees_of, trees_size};
    ghost use Rattle.anb_term.specs.TreeCode.{coded_tree};

    ghost Value = { List Tree };

    ghost coded = { coded_list coded_tree };

    ghost use Rattle.anb_close.specs.MadeView.{made_tree};

    ghost view = { λ a. map made_tree a.items.items };

    ghost size = { λ ts. trees_size (trees_of ts) };

    ghost use Rattle.std.proofs.Common.{arith};
    ghost use Rattle.anb_close.specs.MadeFalls.{most_le_size};

    ghost size_decreases = { λ a h. omega (arith, most_le_size a.items.items) };
}

impl Compositions {
    ghost use Rattle.anb_close.specs.MadeView.{made_tree};
    ghost use Rattle.std.specs.Prelude.{◌≡◌, ◌++◌, ◌∷◌, [], length, map, OnOk, OnErr};

    /// The compositions of a vector, which keeps its memory.
    pub fn new(items: Vec<Made>) -> Compositions
        ensures { result ≡ map made_tree items.items }
    {
        Compositions { items }
    }

    /// None yet.
    pub fn empty(alloc: Global) -> Compositions
        ensures { result ≡ [] }
    {
        Compositions::new(Vec::new(alloc))
    }

    /// The vector, with its memory.
    pub fn into_vec(self) -> Vec<Made>
        ensures { map made_tree result.items ≡ self }
    {
        self.items
    }

    pub fn as_slice(&self) -> &[Made]
        ensures { map made_tree result.now ≡ self.now }
    {
        &self.items
    }

    pub fn len(&self) -> usize
        ensures { result ≡ length self.now }
    {
        self.items.len()
    }

    pub fn is_empty(&self) -> bool
        ensures { IsTrue result ↔ (self.now ≡ []) }
    {
        self.items.is_empty()
    }

    pub fn push(&mut self, m: Made) -> Result<(), NoMemory>
        ensures ok { OnOk result (self.new ≡ self.old ++ made_tree m ∷ []) }
        ensures err { OnErr result (self.new ≡ self.old) }
    {
        self.items.push(m)?;
        Ok(())
    }
}

impl Made {
    /// The same composition in memory of its own.
    #[cycle(copy)]
    pub fn copy(&self, alloc: Global) -> Result<Made, NoMemory>
        ensures { IfOk result (λ c. c ≡ self.now) }
    {
        match self {
            Made::Entry(n) => Ok(Made::Entry(*n)),
            Made::Build(op, items) => Ok(Made::Build(*op, items.copy(alloc)?)),
        }
    }
}

impl Compositions {
    /// The same compositions in memory of their own.
    #[cycle(copy)]
    pub fn copy(&self, alloc: Global) -> Result<Compositions, NoMemory>
        ensures { IfOk result (λ c. c ≡ self.now) }
    {
        let mut copies = Compositions::empty(alloc);
        for m in &self.items {
            copies.push(m.copy(alloc)?)?;
        }
        Ok(copies)
    }
}
