//! The pool: each term once, by number.
//!
//! A term costs one look-up for each of its nodes, to put it in and to find it, and a copy of each
//! to read it back.

ghost use Rattle.std.specs.Prelude.{◌≡◌, ◌+◌, ◌<◌, ◌≤◌, ℕ, List, Some, [], length, take, slice_get, IfOk, OnOk, OnErr, MatchOption, map};
ghost use Rattle.anb_term.specs.Tree.{Tree, tree_size, trees_size, trees_of};
ghost use Rattle.anb_term.specs.View.{tree_of};
ghost use Rattle.anb_intern.specs.declared.node.NodeId.{NodeId};
ghost use Rattle.anb_intern.specs.Nodes.{tree_at, operands_at, AreUnder, IsOver, AreDistinct, AreBefore, HasPut, HasMore};

use crate::node::{Node, NodeId};
use anb_base::NoMemory;
use anb_term::{Term, Terms};
use indexmap::IndexSet;
use std::alloc::Global;
use std::marker::Model;

/// Terms by number, from 0 in the order in which they came.
#[derive(Drop)]
pub struct Pool {
    nodes: IndexSet<Node>,
}

impl Model for Pool {
    ghost use Rattle.std.specs.Prelude.{List};
    ghost use Rattle.std.specs.Coded.{coded_list};
    ghost use Rattle.anb_term.specs.Tree.{Tree};
    ghost use Rattle.anb_term.specs.TreeCode.{coded_tree};

    ghost Value = { List Tree };

    ghost coded = { coded_list coded_tree };

    ghost use Rattle.anb_intern.specs.Pools.{trees_at};
    ghost use Rattle.anb_intern.specs.Pools.{IsPool};

    ghost view = { λ a. trees_at a.nodes.keys };

    ghost invariant = { λ a. IsPool a.nodes.keys };
}

impl Pool {
    pub fn new(alloc: Global) -> Pool
        ensures { result ≡ [] }
    {
        Pool {
            nodes: IndexSet::new(alloc),
        }
    }

    /// How many terms there are.
    pub fn len(&self) -> u32
        ensures count { result ≡ length self.now }
        ensures distinct { AreDistinct self.now }
        ensures before { AreBefore self.now }
    {
        self.nodes.len() as u32
    }

    /// The number of a node's term, which is put in where it isn't there yet.
    pub fn put(&mut self, node: Node) -> Result<NodeId, NoMemory>
        requires over { IsOver (length self.old) node }
        requires few { length self.old < 4294967295 }
        ensures stored { IfOk result (λ id.
            slice_get self.new id.0 ≡ Some (tree_at self.old node)) }
        ensures put { OnOk result (HasPut self.old (tree_at self.old node) self.new) }
        ensures err { OnErr result (self.new ≡ self.old) }
    {
        let put = self.nodes.insert_full(node)?;
        Ok(NodeId(put.0 as u32))
    }

    /// The number of a node's term, or None where it wasn't put in.
    pub fn find(&self, node: &Node) -> Option<NodeId>
        ensures { MatchOption result
            (IsOver (length self.now) node.now → (i : ℕ)
            → slice_get self.now i ≡ Some (tree_at self.now node.now) → ⊥)
            (λ id. IsOver (length self.now) node.now
            × (slice_get self.now id.0 ≡ Some (tree_at self.now node.now))) }
    {
        match self.nodes.get_index_of(node) {
            None => None,
            Some(at) => Some(NodeId(at as u32)),
        }
    }

    /// The node of a term.
    pub fn get(&self, id: NodeId) -> &Node
        requires { id.0 < length self.now }
        ensures stands { slice_get self.now id.0 ≡ Some (tree_at self.now result.now) }
        ensures before { IsOver id.0 result.now }
    {
        &self.nodes.as_slice()[id.0 as usize]
    }

    /// Keeps the first terms, with their numbers, and drops the others.
    pub fn cut(&mut self, len: u32)
        requires { len ≤ length self.old }
        ensures { self.new ≡ take len self.old }
    {
        self.nodes.truncate(len as usize);
    }
}

impl Pool {
    /// The number of a term, which is put in with all that it is made of, as far as it isn't there
    /// yet. Where no number is left there is no memory.
    pub fn put_term(&mut self, alloc: Global, t: &Term) -> Result<NodeId, NoMemory>
        ensures stored { IfOk result (λ id. slice_get self.new id.0 ≡ Some (tree_of t.now)) }
        ensures more { OnOk result (HasMore self.old (tree_size (tree_of t.now)) self.new) }
        ensures err { OnErr result (self.new ≡ self.old) }
    {
        let before = self.len();
        match self.put_nodes(alloc, t) {
            Ok(id) => return Ok(id),
            Err(_) => {}
        }
        self.cut(before);
        Err(NoMemory)
    }

    /// Puts a node in, where a number is left.
    fn try_put(&mut self, node: Node) -> Result<NodeId, NoMemory>
        requires over { IsOver (length self.old) node }
        ensures stored { IfOk result (λ id.
            slice_get self.new id.0 ≡ Some (tree_at self.old node)) }
        ensures put { OnOk result (HasPut self.old (tree_at self.old node) self.new) }
        ensures err { OnErr result (self.new ≡ self.old) }
    {
        if self.len() == u32::MAX {
            return Err(NoMemory);
        }
        self.put(node)
    }

    /// Puts a term in. After an error some of what it is made of may be there.
    #[cycle(put)]
    fn put_nodes(&mut self, alloc: Global, t: &Term) -> Result<NodeId, NoMemory>
        ensures stored { IfOk result (λ id. slice_get self.new id.0 ≡ Some (tree_of t.now)) }
        ensures more { HasMore self.old (tree_size (tree_of t.now)) self.new }
    {
        match t {
            Term::Atom(n) => self.try_put(Node::Atom(*n)),
            Term::Node(op, operands) => {
                let ids = self.put_all(alloc, operands.as_slice())?;
                self.try_put(Node::Apply(*op, ids))
            }
        }
    }

    /// Puts all of these in.
    #[cycle(put)]
    fn put_all(&mut self, alloc: Global, ts: &[Term]) -> Result<Vec<NodeId>, NoMemory>
        ensures under { IfOk result (λ v. AreUnder (length self.new) v.items) }
        ensures stored { IfOk result (λ v. operands_at self.new v.items ≡ map tree_of ts.now) }
        ensures more { HasMore self.old (trees_size (trees_of (map tree_of ts.now))) self.new }
    {
        let mut ids = Vec::new(alloc);
        for t in ts {
            let id = self.put_nodes(alloc, t)?;
            ids.push(id)?;
        }
        Ok(ids)
    }

    /// The number of a term, or None where it isn't there.
    #[cycle(find)]
    pub fn find_term(&self, alloc: Global, t: &Term) -> Result<Option<NodeId>, NoMemory>
        ensures { IfOk result (λ r. MatchOption r
            ((i : ℕ) → slice_get self.now i ≡ Some (tree_of t.now) → ⊥)
            (λ id. slice_get self.now id.0 ≡ Some (tree_of t.now))) }
    {
        let _ = self.len();
        match t {
            Term::Atom(n) => Ok(self.find(&Node::Atom(*n))),
            Term::Node(op, operands) => match self.find_all(alloc, operands.as_slice())? {
                None => Ok(None),
                Some(ids) => Ok(self.find(&Node::Apply(*op, ids))),
            },
        }
    }

    /// The numbers of all of these, where all are there.
    #[cycle(find)]
    fn find_all(&self, alloc: Global, ts: &[Term]) -> Result<Option<Vec<NodeId>>, NoMemory>
        ensures { IfOk result (λ r. MatchOption r
            ((ids : List NodeId) → AreUnder (length self.now) ids
            → operands_at self.now ids ≡ map tree_of ts.now → ⊥)
            (λ v. AreUnder (length self.now) v.items
            × (operands_at self.now v.items ≡ map tree_of ts.now))) }
    {
        let mut ids = Vec::new(alloc);
        for t in ts {
            match self.find_term(alloc, t)? {
                None => return Ok(None),
                Some(id) => ids.push(id)?,
            }
        }
        Ok(Some(ids))
    }

    /// The term with this number, in memory of its own.
    #[cycle(read)]
    pub fn term(&self, alloc: Global, id: NodeId) -> Result<Term, NoMemory>
        requires { id.0 < length self.now }
        ensures { IfOk result (λ t. slice_get self.now id.0 ≡ Some (tree_of t)) }
    {
        match self.get(id) {
            Node::Atom(n) => Ok(Term::Atom(*n)),
            Node::Apply(op, ids) => {
                let operands = self.terms(alloc, ids, id)?;
                Ok(Term::Node(*op, Terms::new(operands)))
            }
        }
    }

    /// The terms with these numbers, which are below another.
    #[cycle(read)]
    fn terms(&self, alloc: Global, ids: &[NodeId], end: NodeId) -> Result<Vec<Term>, NoMemory>
        requires under { AreUnder end.0 ids.now }
        requires within { end.0 < length self.now }
        ensures { IfOk result (λ v. map tree_of v.items ≡ operands_at self.now ids.now) }
    {
        let mut all = Vec::new(alloc);
        for id in ids {
            let t = self.term(alloc, *id)?;
            all.push(t)?;
        }
        Ok(all)
    }
}
