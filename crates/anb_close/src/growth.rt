// Entries while they grow.

ghost use Rattle.std.specs.Prelude.{◌≡◌, ◌+◌, ◌++◌, ◌∷◌, [], ◌<◌, ◌≤◌, ◌^◌, ◌⊎◌, length, ℕ, List, map, take, drop, true, IfOk, IfSome, MatchOption, OnOk, OnErr, Some, option_map, slice_get};
ghost use Rattle.anb_term.specs.View.{tree_of};
ghost use Rattle.anb_term.specs.Tree.{trees_of};
ghost use Rattle.anb_close.specs.Rows.{place, made_for, mades_for, row_unless};
ghost use Rattle.anb_close.specs.MadeView.{made_tree};
ghost use Rattle.anb_close.specs.Entries.{rows, terms_of, is_double, part_entries, openings_from, labels_of, cut, cut_first, Extends, Follow, NoKeys, Opens, IsGrown, IsRest, Keeps, GoesBack, HasOpened, HasTouched, HasShut, HasGrown, IsLastLabel};
ghost use Rattle.anb_term.specs.declared.term.Op.{Op};
ghost use Rattle.anb_term.specs.Tree.{IsFormed, Trees, node};
ghost use Rattle.anb_close.specs.declared.entry.Origin.{Origin};
ghost use Rattle.anb_close.specs.Listed.{AreTouched};
ghost use Rattle.anb_term.specs.Tree.{tree_size, nodes};
ghost use Rattle.anb_close.specs.declared.entry.Entry.{Entry};
ghost use Rattle.anb_term.specs.Operator.{keys as keys_of};

use crate::entry::{Entry, Opening, Origin};
use crate::index::Index;
use crate::made::{Compositions, Made};
use crate::step::{Openings, Step};
use anb_base::NoMemory;
use anb_term::{Op, Term};
use std::alloc::Global;

/// The entries, which of them are doubles, where each was opened, or 0, and where terms stand.
#[derive(Drop)]
pub struct Growth {
    pub entries: Vec<Entry>,
    pub doubles: Vec<bool>,
    pub firsts: Vec<u32>,
    pub index: Index,
}

impl Growth {
    /// The chosen composition of a term.
    #[cycle(made)]
    pub fn made(&self, alloc: Global, t: &Term) -> Result<Option<Made>, NoMemory>
        requires indexed { self.now.index.0 ≡ terms_of self.now.entries.items }
        ensures { IfOk result (λ r.
            option_map made_tree r ≡ made_for (rows self.now.entries.items) (tree_of t.now)) }
    {
        match self.index.find(alloc, t)? {
            Some(n) => return Ok(Some(Made::Entry(n))),
            None => {}
        }
        match t {
            Term::Atom(_) => Ok(None),
            Term::Node(op, operands) => {
                if operands.len() != op.arity() as usize {
                    return Ok(None);
                }
                let Some(made) = self.mades(alloc, operands.as_slice())? else {
                    return Ok(None);
                };
                Ok(Some(Made::Build(*op, made)))
            }
        }
    }

    /// The chosen compositions of all of these.
    #[cycle(made)]
    pub fn mades(&self, alloc: Global, ts: &[Term]) -> Result<Option<Compositions>, NoMemory>
        requires indexed { self.now.index.0 ≡ terms_of self.now.entries.items }
        ensures { IfOk result (λ r.
            option_map trees_of r
            ≡ mades_for (rows self.now.entries.items) (trees_of (map tree_of ts.now))) }
    {
        let mut all = Compositions::empty(alloc);
        for t in ts {
            match self.made(alloc, t)? {
                Some(made) => all.push(made)?,
                None => return Ok(None),
            }
        }
        Ok(Some(all))
    }

    /// Adds an entry, and lists it and the entries of which an operand has come to compose. After an
    /// error nothing has changed, but more may be listed.
    fn push(
        &mut self,
        alloc: Global,
        origin: Origin,
        term: Term,
        touched: &mut Vec<u32>,
    ) -> Result<(), NoMemory>
        requires doubles { self.old.doubles.items ≡ map is_double (rows self.old.entries.items) }
        requires indexed { self.old.index.0 ≡ terms_of self.old.entries.items }
        requires few { length self.old.entries.items < 2 ^ 32 }
        ensures doubles { self.new.doubles.items ≡ map is_double (rows self.new.entries.items) }
        ensures indexed { self.new.index.0 ≡ terms_of self.new.entries.items }
        ensures touched { OnOk result (HasTouched self.old.entries.items touched.old.items
            self.new.entries.items touched.new.items) }
        ensures ok { OnOk result
            (Extends self.old.entries.items self.old.firsts.items self.new.entries.items
            self.new.firsts.items (record { origin = origin; term = term } ∷ [])) }
        ensures err { OnErr result
            (Extends self.old.entries.items self.old.firsts.items self.new.entries.items
            self.new.firsts.items []) }
    {
        let at = self.entries.len();
        let firsts = self.firsts.len();
        let double = self.index.push(alloc, &term, touched)?;
        match self.push_row(double, origin, term) {
            Ok(()) => return Ok(()),
            Err(_) => {}
        }
        self.index.cut(at);
        self.doubles.truncate(at);
        self.firsts.truncate(firsts);
        Err(NoMemory)
    }

    /// Adds an entry whose term stands in the index. After an error there may be more than before
    /// beside the entries.
    fn push_row(&mut self, double: bool, origin: Origin, term: Term) -> Result<(), NoMemory>
        ensures index { self.new.index ≡ self.old.index }
        ensures ok { OnOk result
            (Extends self.old.entries.items self.old.firsts.items self.new.entries.items
            self.new.firsts.items (record { origin = origin; term = term } ∷ [])) }
        ensures double { OnOk result (self.new.doubles.items
            ≡ self.old.doubles.items ++ double ∷ []) }
        ensures err { OnErr result (self.new.entries.items ≡ self.old.entries.items) }
        ensures doubles { take (length self.old.doubles.items) self.new.doubles.items
            ≡ self.old.doubles.items }
        ensures firsts { take (length self.old.firsts.items) self.new.firsts.items
            ≡ self.old.firsts.items }
    {
        self.doubles.push(double)?;
        self.firsts.push(0)?;
        self.entries.push(Entry { origin, term })?;
        Ok(())
    }

    /// Adds the parts of a term with these operands.
    fn push_parts(
        &mut self,
        alloc: Global,
        op: Op,
        keys: &Compositions,
        of: u32,
        operands: &[Term],
        touched: &mut Vec<u32>,
    ) -> Result<(), NoMemory>
        requires doubles { self.old.doubles.items ≡ map is_double (rows self.old.entries.items) }
        requires indexed { self.old.index.0 ≡ terms_of self.old.entries.items }
        requires few { length self.old.entries.items + length operands.now < 2 ^ 32 }
        requires arity { length operands.now < 2 ^ 16 }
        ensures doubles { self.new.doubles.items ≡ map is_double (rows self.new.entries.items) }
        ensures indexed { self.new.index.0 ≡ terms_of self.new.entries.items }
        ensures touched { OnOk result (HasTouched self.old.entries.items touched.old.items
            self.new.entries.items touched.new.items) }
        ensures ok { OnOk result
            (Extends self.old.entries.items self.old.firsts.items self.new.entries.items
            self.new.firsts.items
            (part_entries op keys.now of 0 (drop (keys_of op) (map tree_of operands.now)))) }
        ensures err { OnErr result ((more : List Entry)
            × Extends self.old.entries.items self.old.firsts.items self.new.entries.items
            self.new.firsts.items more) }
    {
        let start = op.keys() as usize;
        for j in start..operands.len() {
            let origin = Origin::Part {
                op,
                part: (j - start) as u16,
                keys: keys.copy(alloc)?,
                of,
            };
            self.push(alloc, origin, operands[j].copy(alloc)?, touched)?;
        }
        Ok(())
    }

    /// The compositions of the keys with which an entry can be opened.
    fn opens(&self, alloc: Global, i: usize) -> Result<Option<Compositions>, NoMemory>
        requires doubles { self.now.doubles.items ≡ map is_double (rows self.now.entries.items) }
        requires indexed { self.now.index.0 ≡ terms_of self.now.entries.items }
        requires long { length self.now.firsts.items ≡ length self.now.entries.items }
        ensures { IfOk result (λ r.
            MatchOption r (NoKeys self.now.entries.items self.now.firsts.items i) (λ ks.
            Opens self.now.entries.items self.now.firsts.items i ks)) }
    {
        if i >= self.entries.len() {
            return Ok(None);
        }
        if self.doubles[i] {
            return Ok(None);
        }
        if self.firsts[i] != 0 {
            return Ok(None);
        }
        match &self.entries[i].term {
            Term::Atom(_) => Ok(None),
            Term::Node(op, operands) => {
                if !op.undoes() {
                    return Ok(None);
                }
                let keys = op.keys() as usize;
                if operands.len() <= keys {
                    return Ok(None);
                }
                if !self.index.composes(i, keys) {
                    return Ok(None);
                }
                match self.mades(alloc, &operands.as_slice()[..keys])? {
                    None => Ok(None),
                    Some(made) => Ok(Some(made)),
                }
            }
        }
    }

    /// The first entry that can be opened, of those listed from a place of the list on: the place
    /// after it, the entry and its keys.
    fn next(
        &self,
        alloc: Global,
        touched: &[u32],
        from: usize,
    ) -> Result<Option<(usize, u32, Compositions)>, NoMemory>
        requires doubles { self.now.doubles.items ≡ map is_double (rows self.now.entries.items) }
        requires indexed { self.now.index.0 ≡ terms_of self.now.entries.items }
        requires long { length self.now.firsts.items ≡ length self.now.entries.items }
        ensures opens { IfOk result (λ r. IfSome r (λ f.
            Opens self.now.entries.items self.now.firsts.items f.1 f.2)) }
        ensures passed { IfOk result (λ r.
            MatchOption r ((k : ℕ) (i : ℕ) → from ≤ k → slice_get touched.now k ≡ Some i
            → NoKeys self.now.entries.items self.now.firsts.items i)
            (λ f. (k : ℕ) (i : ℕ) → from ≤ k → k < f.0 → slice_get touched.now k ≡ Some i
            → (i ≡ f.1) ⊎ NoKeys self.now.entries.items self.now.firsts.items i)) }
        ensures within { IfOk result (λ r. IfSome r (λ f. f.0 ≤ length touched.now)) }
    {
        for k in from..touched.len() {
            let i = touched[k];
            match self.opens(alloc, i as usize)? {
                None => {}
                Some(keys) => return Ok(Some((k + 1, i, keys))),
            }
        }
        Ok(None)
    }

    /// Opens an entry.
    fn open(
        &mut self,
        alloc: Global,
        of: u32,
        keys: &Compositions,
        touched: &mut Vec<u32>,
    ) -> Result<(), NoMemory>
        requires doubles { self.old.doubles.items ≡ map is_double (rows self.old.entries.items) }
        requires indexed { self.old.index.0 ≡ terms_of self.old.entries.items }
        requires grown { IsGrown self.old.entries.items self.old.firsts.items }
        requires opens { Opens self.old.entries.items self.old.firsts.items of keys.now }
        requires few { nodes (labels_of self.old.entries.items) < 2 ^ 32 }
        ensures doubles { self.new.doubles.items ≡ map is_double (rows self.new.entries.items) }
        ensures indexed { self.new.index.0 ≡ terms_of self.new.entries.items }
        ensures back { Keeps self.old.entries.items self.old.firsts.items self.new.entries.items
            self.new.firsts.items }
        ensures grown { OnOk result (IsGrown self.new.entries.items self.new.firsts.items) }
        ensures opened { OnOk result (HasOpened self.old.entries.items self.new.entries.items) }
        ensures touched { OnOk result (HasTouched self.old.entries.items touched.old.items
            self.new.entries.items touched.new.items) }
        ensures closed { OnOk result (HasShut self.old.firsts.items of self.new.firsts.items) }
    {
        let first = self.entries.len() as u32;
        let term = self.entries[of as usize].term.copy(alloc)?;
        match &term {
            Term::Atom(_) => unreachable!(),
            Term::Node(op, operands) => {
                let _arity = op.arity();
                self.push_parts(alloc, *op, keys, of, operands.as_slice(), touched)?;
                self.firsts[of as usize] = first;
                Ok(())
            }
        }
    }

    /// How many labels there are. It looks at the last label's entry and those after it.
    fn labels(&self) -> u32
        requires follow { Follow [] self.now.entries.items }
        requires few { length self.now.entries.items < 2 ^ 32 }
        ensures { result ≡ length (labels_of self.now.entries.items) }
    {
        let mut at = self.entries.len();
        while at > 0 {
            at -= 1;
            match &self.entries[at].origin {
                Origin::Label(n) => return *n + 1,
                Origin::Part { .. } => {}
            }
        }
        0
    }

    /// Takes the next label's term, opens what can be opened, and lists the entries that came and
    /// those of which an operand has come to compose. Only these are looked at, each once for each
    /// time that it is listed.
    pub fn grow(&mut self, alloc: Global, t: &Term) -> Result<Vec<u32>, NoMemory>
        requires doubles { self.old.doubles.items ≡ map is_double (rows self.old.entries.items) }
        requires indexed { self.old.index.0 ≡ terms_of self.old.entries.items }
        requires rest { IsRest self.old.entries.items self.old.firsts.items }
        requires formed { IsFormed (λ o. true) (tree_of t.now) }
        requires few { nodes (labels_of self.old.entries.items) + tree_size (tree_of t.now)
            < 2 ^ 32 }
        ensures doubles { self.new.doubles.items ≡ map is_double (rows self.new.entries.items) }
        ensures indexed { self.new.index.0 ≡ terms_of self.new.entries.items }
        ensures back { GoesBack self.old.entries.items self.old.firsts.items self.new.entries.items
            self.new.firsts.items }
        ensures ok { OnOk result
            (HasGrown self.old.entries.items t.now self.new.entries.items self.new.firsts.items) }
        ensures touched { IfOk result (λ v. AreTouched (rows self.old.entries.items)
            (rows self.new.entries.items) v.items) }
    {
        let label = self.labels();
        let mut touched = Vec::new(alloc);
        self.push(alloc, Origin::Label(label), t.copy(alloc)?, &mut touched)?;
        let mut from = 0;
        'worklist: loop {
            match self.next(alloc, &touched, from)? {
                None => return Ok(touched),
                Some((after, of, keys)) => {
                    self.open(alloc, of, &keys, &mut touched)?;
                    from = after;
                }
            }
        }
    }

    /// The openings from a place on.
    fn openings(&self, alloc: Global, from: usize) -> Result<Vec<Opening>, NoMemory>
        requires few { length self.now.entries.items < 2 ^ 32 }
        ensures { IfOk result (λ v.
            v.items ≡ openings_from from (drop from self.now.entries.items)) }
    {
        let mut all = Vec::new(alloc);
        for f in from..self.entries.len() {
            match &self.entries[f].origin {
                Origin::Label(_) => continue,
                Origin::Part { op, part, keys, of } => {
                    if *part != 0 {
                        continue;
                    }
                    all.push(Opening {
                        op: *op,
                        keys: keys.copy(alloc)?,
                        of: *of,
                        first: f as u32,
                    })?;
                }
            }
        }
        Ok(all)
    }

    /// Takes the next label's term, and says what was opened.
    pub fn step(&mut self, alloc: Global, t: &Term) -> Result<Step, NoMemory>
        requires doubles { self.old.doubles.items ≡ map is_double (rows self.old.entries.items) }
        requires indexed { self.old.index.0 ≡ terms_of self.old.entries.items }
        requires rest { IsRest self.old.entries.items self.old.firsts.items }
        requires formed { IsFormed (λ o. true) (tree_of t.now) }
        requires few { nodes (labels_of self.old.entries.items) + tree_size (tree_of t.now)
            < 2 ^ 32 }
        ensures doubles { self.new.doubles.items ≡ map is_double (rows self.new.entries.items) }
        ensures indexed { self.new.index.0 ≡ terms_of self.new.entries.items }
        ensures back { GoesBack self.old.entries.items self.old.firsts.items self.new.entries.items
            self.new.firsts.items }
        ensures ok { OnOk result
            (HasGrown self.old.entries.items t.now self.new.entries.items self.new.firsts.items) }
        ensures step { IfOk result (λ s. (s.label ≡ length self.old.entries.items)
            × (s.opened ≡ openings_from (length self.old.entries.items)
            (drop (length self.old.entries.items) self.new.entries.items))) }
        ensures touched { IfOk result (λ s. AreTouched (rows self.old.entries.items)
            (rows self.new.entries.items) s.touched.items) }
    {
        let label = self.entries.len();
        let touched = self.grow(alloc, t)?;
        let opened = self.openings(alloc, label)?;
        Ok(Step {
            label: label as u32,
            opened: Openings::new(opened),
            touched,
        })
    }

    /// The place of the last label's entry.
    pub fn last_label(&self) -> usize
        requires { 0 < length (labels_of self.now.entries.items) }
        ensures { IsLastLabel self.now.entries.items result }
    {
        let mut at = self.entries.len();
        while at > 0 {
            at -= 1;
            match &self.entries[at].origin {
                Origin::Label(_) => return at,
                Origin::Part { .. } => {}
            }
        }
        at
    }

    /// Goes back to the first entries.
    pub fn cut(&mut self, at: usize)
        requires doubles { self.old.doubles.items ≡ map is_double (rows self.old.entries.items) }
        requires indexed { self.old.index.0 ≡ terms_of self.old.entries.items }
        requires within { at ≤ length self.old.entries.items }
        ensures doubles { self.new.doubles.items ≡ map is_double (rows self.new.entries.items) }
        ensures indexed { self.new.index.0 ≡ terms_of self.new.entries.items }
        ensures entries { self.new.entries.items ≡ take at self.old.entries.items }
        ensures firsts { self.new.firsts.items ≡ cut at self.old.firsts.items }
    {
        self.entries.truncate(at);
        self.doubles.truncate(at);
        self.firsts.truncate(at);
        self.index.cut(at);
        clear_from(&mut self.firsts, at);
    }
}

/// Clears the places from one on.
fn clear_from(firsts: &mut [u32], at: usize)
    ensures { firsts.new ≡ map (cut_first at) firsts.old }
{
    for f in firsts.iter_mut() {
        *f = kept(*f, at);
    }
}

/// A place below one, or 0.
fn kept(first: u32, at: usize) -> u32
    ensures { result ≡ cut_first at first }
{
    if (first as usize) < at { first } else { 0 }
}
