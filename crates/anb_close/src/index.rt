// Where terms stand, and which compose, by number.

ghost use Rattle.std.specs.Prelude.{◌≡◌, ◌++◌, ◌∷◌, [], ◌<◌, ◌≤◌, ℕ, List, length, map, take, Bool, Option, Some, None, is_some, IfOk, OnOk, OnErr, slice_get, replicate, ◌-◌};
ghost use Rattle.anb_term.specs.declared.term.Op.{Op};
ghost use Rattle.anb_term.specs.Tree.{Tree, Trees, node, trees_of, list_of};
ghost use Rattle.anb_term.specs.View.{tree_of};
ghost use Rattle.anb_intern.specs.Nodes.{AreUnder, IsOver};
ghost use Rattle.anb_close.specs.Rows.{place, made_for, mades_for, row_unless, rows_of};
ghost use Rattle.anb_close.specs.Entries.{is_double};
ghost use Rattle.anb_close.specs.declared.index.Standing.TheVariants.{Nowhere};
ghost use Rattle.anb_close.specs.Standings.{standing, place_in, is_found, all_stand, is_ready, standings_of, cleared, IsSettling};
ghost use Rattle.anb_close.specs.Listed.{AreTouched};
ghost use Rattle.anb_close.specs.Parents.{ListsStay, AreLinked};
ghost use Rattle.anb_close.specs.Spreading.{HavePlaces};

use crate::parents::link;
use crate::spread::spread;
use anb_base::NoMemory;
use anb_intern::{Node, NodeId, Pool};
use anb_term::Term;
use std::alloc::Global;
use std::marker::Model;

/// Where a term is found: nowhere, built from others, or at an entry's place.
#[derive(Clone, Copy, Drop)]
pub enum Standing {
    Nowhere,
    Built,
    At(u32),
}

impl Standing {
    /// Whether the term composes.
    fn is_found(self) -> bool
        ensures { result ≡ is_found self }
    {
        matches!(self, Standing::Built | Standing::At(_))
    }

    /// Whether an entry has the term.
    fn is_entry(self) -> bool
        ensures { result ≡ is_some (place_in self) }
    {
        matches!(self, Standing::At(_))
    }
}

/// The terms of entries in order, where each term that is part of them is found, and the terms that
/// each is an operand of.
#[derive(Drop)]
pub struct Index {
    pool: Pool,
    numbers: Vec<NodeId>,
    standings: Vec<Standing>,
    parents: Vec<Vec<u32>>,
}

impl Model for Index {
    ghost use Rattle.std.specs.Prelude.{List};
    ghost use Rattle.std.specs.Coded.{coded_list, coded×};
    ghost use Rattle.anb_term.specs.Tree.{Tree};
    ghost use Rattle.anb_term.specs.TreeCode.{coded_tree};
    ghost use Rattle.anb_intern.specs.Nodes.{operands_at};
    ghost use Rattle.std.specs.Prelude.{◌≤◌, length};
    ghost use Rattle.anb_close.specs.Standings.{IsIndexed};
    ghost use Rattle.anb_close.specs.Parents.{AreLinked};

    ghost Value = { List Tree × List Tree };

    ghost coded = { coded× (coded_list coded_tree) (coded_list coded_tree) };

    ghost view = { λ a. (operands_at a.pool a.numbers.items, a.pool) };

    ghost invariant = { λ a. IsIndexed a.pool a.numbers.items a.standings.items
        × AreLinked a.pool a.parents.items (length a.pool)
        × (length a.pool ≤ length a.parents.items) };
}

impl Index {
    pub fn new(alloc: Global) -> Index
        ensures { result.0 ≡ [] }
    {
        Index {
            pool: Pool::new(alloc),
            numbers: Vec::new(alloc),
            standings: Vec::new(alloc),
            parents: Vec::new(alloc),
        }
    }

    /// The place where the term stands.
    pub fn find(&self, alloc: Global, t: &Term) -> Result<Option<u32>, NoMemory>
        ensures { IfOk result (λ r. r ≡ place (rows_of self.now.0) (tree_of t.now)) }
    {
        match self.pool.find_term(alloc, t)? {
            None => Ok(None),
            Some(id) => match self.standings[id.0 as usize] {
                Standing::At(i) => Ok(Some(i)),
                Standing::Nowhere | Standing::Built => Ok(None),
            },
        }
    }

    /// Whether the first operands of an entry's term compose.
    pub fn composes(&self, i: usize, count: usize) -> bool
        requires within { i < length self.now.0 }
        ensures { (o : Op) (us : Trees) → slice_get self.now.0 i ≡ Some (node o us)
            → result ≡ is_some (mades_for (rows_of self.now.0)
            (trees_of (take count (list_of us)))) }
    {
        match self.pool.get(self.numbers[i]) {
            Node::Atom(_) => false,
            Node::Apply(_, ids) => all_stand(front(ids, count), &self.standings),
        }
    }

    /// The number of a term, which is put in where it isn't there yet.
    fn number(&mut self, alloc: Global, t: &Term) -> Result<NodeId, NoMemory>
        ensures same { self.new.0 ≡ self.old.0 }
        ensures ok { IfOk result (λ id. slice_get self.new.1 id.0 ≡ Some (tree_of t.now)) }
    {
        let before = self.pool.len();
        let id = self.pool.put_term(alloc, t)?;
        let from = before as usize;
        let _ = self.pool.len();
        match make_room(
            alloc,
            &self.pool,
            &mut self.parents,
            &mut self.standings,
            from,
        ) {
            Ok(()) => {
                settle(&self.pool, &mut self.standings, from);
                return Ok(id);
            }
            Err(_) => {}
        }
        self.pool.cut(before);
        Err(NoMemory)
    }

    /// Adds an entry with this term, and says whether it is a double. It is listed, and so are the
    /// entries of which an operand has come to compose. After an error more may be listed.
    pub fn push(
        &mut self,
        alloc: Global,
        t: &Term,
        touched: &mut Vec<u32>,
    ) -> Result<bool, NoMemory>
        requires few { length self.old.0 < 4294967296 }
        ensures ok { OnOk result (self.new.0 ≡ self.old.0 ++ tree_of t.now ∷ []) }
        ensures double { IfOk result (λ b. b ≡ is_double (row_unless
            (made_for (rows_of self.old.0) (tree_of t.now)) (tree_of t.now))) }
        ensures touched { OnOk result ((later : List ℕ)
            × (touched.new.items ≡ touched.old.items ++ later)
            × AreTouched (rows_of self.old.0) (rows_of self.new.0) later) }
        ensures err { OnErr result (self.new.0 ≡ self.old.0) }
    {
        let id = self.number(alloc, t)?;
        let _ = self.pool.len();
        let at = self.numbers.len();
        touched.push(at as u32)?;
        self.numbers.push(id)?;
        if self.standings[id.0 as usize].is_found() {
            return Ok(true);
        }
        self.standings[id.0 as usize] = Standing::At(at as u32);
        match spread(
            alloc,
            &self.pool,
            &self.parents,
            &mut self.standings,
            id.0,
            touched,
        ) {
            Ok(()) => return Ok(false),
            Err(_) => {}
        }
        self.numbers.truncate(at);
        forget(&self.pool, &mut self.standings, at);
        Err(NoMemory)
    }

    /// Keeps the first entries.
    pub fn cut(&mut self, at: usize)
        requires within { at ≤ length self.old.0 }
        ensures { self.new.0 ≡ take at self.old.0 }
    {
        self.numbers.truncate(at);
        forget(&self.pool, &mut self.standings, at);
    }
}

/// The first numbers.
fn front(ids: &[NodeId], count: usize) -> &[NodeId]
    ensures { result.now ≡ take count ids.now }
{
    if count < ids.len() {
        return &ids[..count];
    }
    ids
}

/// Whether these all compose.
fn all_stand(ids: &[NodeId], standings: &[Standing]) -> bool
    requires under { AreUnder (length standings.now) ids.now }
    ensures { result ≡ all_stand standings.now ids.now }
{
    for id in ids {
        if !standings[id.0 as usize].is_found() {
            return false;
        }
    }
    true
}

/// Whether a node is built from operands that compose.
pub fn is_ready(node: &Node, standings: &[Standing]) -> bool
    requires over { IsOver (length standings.now) node.now }
    ensures { result ≡ is_ready standings.now node.now }
{
    match node {
        Node::Atom(_) => false,
        Node::Apply(op, ids) => ids.len() == op.arity() as usize && all_stand(ids, standings),
    }
}

/// How a term stands that no entry has.
fn built_where(ready: bool) -> Standing
    ensures { result ≡ standing None ready }
{
    if ready {
        Standing::Built
    } else {
        Standing::Nowhere
    }
}

/// Settles which numbers compose from one on, where those of entries and those before are right.
fn settle(pool: &Pool, standings: &mut Vec<Standing>, from: usize)
    requires long { length standings.old.items ≡ length pool.now }
    ensures { (rs : List (Option Tree)) → IsSettling rs pool.now standings.old.items from
        → standings.new.items ≡ standings_of rs pool.now }
{
    let count = pool.len() as usize;
    for n in from..count {
        if standings[n].is_entry() {
            continue;
        }
        let ready = is_ready(pool.get(NodeId(n as u32)), standings);
        standings[n] = built_where(ready);
    }
}

/// Makes room for the new terms, from a number on. After an error there may be more lists.
fn make_room(
    alloc: Global,
    pool: &Pool,
    parents: &mut Vec<Vec<u32>>,
    standings: &mut Vec<Standing>,
    from: usize,
) -> Result<(), NoMemory>
    requires longer { length standings.old.items ≤ length pool.now }
    ensures stay { ListsStay parents.old.items parents.new.items }
    ensures lists { length parents.old.items ≤ length parents.new.items }
    ensures long { OnOk result (length pool.now ≤ length parents.new.items) }
    ensures linked { OnOk result (AreLinked pool.now parents.old.items from
        → AreLinked pool.now parents.new.items (length pool.now)) }
    ensures ok { OnOk result (standings.new.items ≡ standings.old.items
        ++ replicate (length pool.now - length standings.old.items) Nowhere) }
    ensures err { OnErr result (standings.new.items ≡ standings.old.items) }
{
    link(alloc, pool, parents, from)?;
    pad(standings, pool.len() as usize)
}

/// Makes the table so long. After an error it is as before.
fn pad(standings: &mut Vec<Standing>, count: usize) -> Result<(), NoMemory>
    requires longer { length standings.old.items ≤ count }
    ensures ok { OnOk result (standings.new.items ≡ standings.old.items
        ++ replicate (count - length standings.old.items) Nowhere) }
    ensures err { OnErr result (standings.new.items ≡ standings.old.items) }
{
    let before = standings.len();
    for k in before..count {
        let _ = k;
        match standings.push(Standing::Nowhere) {
            Ok(()) => {}
            Err(_) => {
                standings.truncate(before);
                return Err(NoMemory);
            }
        }
    }
    Ok(())
}

/// Forgets the entries from a place on, and what rests on them. It looks at all terms.
fn forget(pool: &Pool, standings: &mut Vec<Standing>, at: usize)
    requires long { length standings.old.items ≡ length pool.now }
    ensures { (rs : List (Option Tree))
        → HavePlaces rs pool.now (map (cleared at) standings.old.items)
        → standings.new.items ≡ standings_of rs pool.now }
{
    clear(standings, at);
    settle(pool, standings, 0);
}

/// Clears the places of entries from one on.
fn clear(standings: &mut Vec<Standing>, at: usize)
    ensures { standings.new.items ≡ map (cleared at) standings.old.items }
{
    for n in 0..standings.len() {
        let s = standings[n];
        standings[n] = kept(s, at);
    }
}

/// A place below one.
fn kept(s: Standing, at: usize) -> Standing
    ensures { result ≡ cleared at s }
{
    match s {
        Standing::At(i) => {
            if (i as usize) < at {
                s
            } else {
                Standing::Nowhere
            }
        }
        Standing::Nowhere | Standing::Built => s,
    }
}
