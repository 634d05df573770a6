// Operators and terms.

ghost use Rattle.std.specs.Prelude.{◌≡◌, ◌↔◌, [], length, map, IsTrue, IfOk};

use anb_base::NoMemory;
use std::alloc::Global;
use std::marker::Model;

/// An operator: a hash, a keyed hash, sealing under a key, sealing under a key and a context, or a
/// message format by its place among the formats and the number of its fields.
#[derive(Clone, Copy, Debug, PartialEq, Eq, Hash)]
pub enum Op {
    Hash,
    Mac,
    Seal,
    Wrap,
    Format { index: u16, arity: u16 },
}

impl Op {
    ghost use Rattle.anb_term.specs.Operator.{arity, keys, undoable};

    /// How many operands it takes.
    pub fn arity(self) -> u16
        ensures { result ≡ arity self }
    {
        match self {
            Op::Hash => 1,
            Op::Mac => 2,
            Op::Seal => 2,
            Op::Wrap => 3,
            Op::Format { arity, .. } => arity,
        }
    }

    /// How many of its operands, the first ones, are keys. The others are its parts.
    pub fn keys(self) -> u16
        ensures { result ≡ keys self }
    {
        match self {
            Op::Hash => 0,
            Op::Mac => 0,
            Op::Seal => 1,
            Op::Wrap => 2,
            Op::Format { .. } => 0,
        }
    }

    /// Whether what it builds can be undone.
    pub fn undoes(self) -> bool
        ensures { result ≡ undoable self }
    {
        matches!(self, Op::Seal | Op::Wrap | Op::Format { .. })
    }
}

/// A term: an atom by its number, or an operator on operands.
#[derive(Drop)]
#[cycle(term)]
pub enum Term {
    Atom(u32),
    Node(Op, Terms),
}

/// Terms in order.
#[derive(Drop)]
#[cycle(term)]
pub struct Terms {
    items: Vec<Term>,
}

impl Model for Terms {
    ghost use Rattle.std.specs.Prelude.{List, map};
    ghost use Rattle.std.specs.Coded.{coded_list};
    ghost use Rattle.anb_term.specs.Tree.{Tree, trees_of, trees_size};
    ghost use Rattle.anb_term.specs.TreeCode.{coded_tree};

    ghost Value = { List Tree };

    ghost coded = { coded_list coded_tree };

    ghost use Rattle.anb_term.specs.View.{tree_of};

    ghost view = { λ a. map tree_of a.items.items };

    ghost size = { λ ts. trees_size (trees_of ts) };

    ghost use Rattle.std.proofs.Common.{arith};
    ghost use Rattle.anb_term.specs.Falls.{most_le_size};

    ghost size_decreases = { λ a h. omega (arith, most_le_size a.items.items) };
}

impl Terms {
    ghost use Rattle.anb_term.specs.View.{tree_of};
    ghost use Rattle.std.specs.Prelude.{◌≡◌, ◌↔◌, [], length, map, IsTrue};

    /// The terms of a vector, which keeps its memory.
    pub fn new(items: Vec<Term>) -> Terms
        ensures { result ≡ map tree_of items.items }
    {
        Terms { items }
    }

    /// The vector, with its memory.
    pub fn into_vec(self) -> Vec<Term>
        ensures { map tree_of result.items ≡ self }
    {
        self.items
    }

    pub fn as_slice(&self) -> &[Term]
        ensures { map tree_of result.now ≡ self.now }
    {
        &self.items
    }

    pub fn len(&self) -> usize
        ensures { result ≡ length self.now }
    {
        self.items.len()
    }

    pub fn is_empty(&self) -> bool
        ensures { IsTrue result ↔ (self.now ≡ []) }
    {
        self.items.is_empty()
    }
}

impl Term {
    /// The same tree in memory of its own.
    #[cycle(copy)]
    pub fn copy(&self, alloc: Global) -> Result<Term, NoMemory>
        ensures { IfOk result (λ c. c ≡ self.now) }
    {
        match self {
            Term::Atom(n) => Ok(Term::Atom(*n)),
            Term::Node(op, operands) => Ok(Term::Node(*op, operands.copy(alloc)?)),
        }
    }

    /// Whether both are the same tree.
    #[cycle(same)]
    pub fn same(&self, other: &Term) -> bool
        ensures { IsTrue result ↔ (self.now ≡ other.now) }
    {
        match (self, other) {
            (Term::Atom(m), Term::Atom(n)) => m == n,
            (Term::Node(o, xs), Term::Node(p, ys)) => o == p && xs.same(ys),
            _ => false,
        }
    }
}

impl Terms {
    /// The same trees in memory of their own.
    #[cycle(copy)]
    pub fn copy(&self, alloc: Global) -> Result<Terms, NoMemory>
        ensures { IfOk result (λ c. c ≡ self.now) }
    {
        let mut copies = Vec::new(alloc);
        for t in &self.items {
            copies.push(t.copy(alloc)?)?;
        }
        Ok(Terms::new(copies))
    }

    /// Whether both are the same trees in the same order.
    #[cycle(same)]
    pub fn same(&self, other: &Terms) -> bool
        ensures { IsTrue result ↔ (self.now ≡ other.now) }
    {
        if self.items.len() != other.items.len() {
            return false;
        }
        for i in 0..self.items.len() {
            if !self.items[i].same(&other.items[i]) {
                return false;
            }
        }
        true
    }
}

impl Terms {
    ghost use Rattle.std.specs.Prelude.{◌<◌, ◌≤◌, map, take, drop, length};
    ghost use Rattle.std.specs.List.{All};
    ghost use Rattle.anb_term.specs.Lawful.{picked};
    ghost use Rattle.anb_term.specs.View.{tree_of, term_of};

    /// Whether the first ones are the terms at these places of a table.
    pub fn begin_with(&self, table: &[Term], at: &[u32]) -> bool
        requires within { All (λ i. i < length table.now) at.now }
        requires count { length at.now ≤ length self.now }
        ensures { IsTrue result
            ↔ (map tree_of (picked table.now at.now) ≡ take (length at.now) self.now) }
    {
        for k in 0..at.len() {
            if !self.items[k].same(&table[at[k] as usize]) {
                return false;
            }
        }
        true
    }

    /// Copies of those from a place on.
    pub fn copy_from(&self, alloc: Global, start: usize) -> Result<Vec<Term>, NoMemory>
        ensures { IfOk result (λ v. v.items ≡ map term_of (drop start self.now)) }
    {
        let mut rest = Vec::new(alloc);
        for k in start..self.items.len() {
            rest.push(self.items[k].copy(alloc)?)?;
        }
        Ok(rest)
    }
}
