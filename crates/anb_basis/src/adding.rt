//! Adding checks: those of openings, and those that compare.

ghost use Rattle.std.specs.Prelude.{◌⊎◌, drop, ◌≡◌, ◌+◌, ◌++◌, ◌∷◌, [], ◌<◌, ◌≤◌, ◌^◌, ℕ, List};
ghost use Rattle.std.specs.Prelude.{length, map, Bool, true, false, IsTrue, Option, IfOk};
ghost use Rattle.std.specs.Prelude.{MatchOption, OnOk, OnErr, Some, slice_get, replicate, ◌-◌};
ghost use Rattle.anb_term.specs.declared.term.Op.{Op};
ghost use Rattle.anb_term.specs.Tree.{Tree, Trees, node};
ghost use Rattle.anb_close.specs.MadeView.{made_tree};
ghost use Rattle.anb_close.specs.Entries.{rows, terms_of, openings_from, IsKnown};
ghost use Rattle.anb_term.specs.View.{tree_of};
ghost use Rattle.anb_basis.specs.declared.check.Check.TheVariants.{Open};
ghost use Rattle.anb_basis.specs.Checks.{IsComparedWith, Fits, entry_of, IsGiven, OpensMarked};
ghost use Rattle.anb_basis.specs.Checks.{OpensUnmarked, EqualsMarked, MarksStay, After};
ghost use Rattle.anb_basis.specs.Checks.{AfterEquals, InOrder, IsBasis, RestMarked};
ghost use Rattle.anb_close.specs.Listed.{AreTouched};

use crate::check::Check;
use anb_base::NoMemory;
use anb_close::{Closure, Entry, Made, Opening, Origin};
use anb_term::Term;
use std::alloc::Global;

/// Gives a check of an entry that has none yet.
fn add_check(
    given: &mut Vec<Check>,
    marks: &mut Vec<bool>,
    at: u32,
    check: Check,
) -> Result<(), NoMemory>
    requires within { at < length marks.old.items }
    requires unmarked { slice_get marks.old.items at ≡ Some false }
    requires of { entry_of check ≡ at }
    ensures more { After given.old.items given.new.items }
    ensures stay { MarksStay marks.old.items marks.new.items }
    ensures long { length marks.new.items ≡ length marks.old.items }
    ensures ok { OnOk result ((es : List Entry) → IsGiven es given.old.items marks.old.items
        → Fits es check → IsGiven es given.new.items marks.new.items) }
    ensures marked { OnOk result (slice_get marks.new.items at ≡ Some true) }
    ensures pushed { OnOk result (given.new.items ≡ given.old.items ++ check ∷ []) }
    ensures only { OnOk result ((k : ℕ) → slice_get marks.new.items k ≡ Some true
        → (k ≡ at) ⊎ (slice_get marks.old.items k ≡ Some true)) }
{
    given.push(check)?;
    marks[at as usize] = true;
    Ok(())
}

/// Gives the checks of the openings of entries from a place on.
fn add_opens(
    alloc: Global,
    entries: &[Entry],
    from: usize,
    given: &mut Vec<Check>,
    marks: &mut Vec<bool>,
) -> Result<(), NoMemory>
    requires known { IsKnown entries.now }
    requires few { length entries.now < 2 ^ 32 }
    requires given { IsGiven entries.now given.old.items marks.old.items }
    requires marked { OpensMarked entries.now marks.old.items from }
    requires fresh { OpensUnmarked entries.now marks.old.items from }
    requires within { from ≤ length entries.now }
    ensures more { After given.old.items given.new.items }
    ensures stay { MarksStay marks.old.items marks.new.items }
    ensures long { length marks.new.items ≡ length marks.old.items }
    ensures ok { OnOk result (IsGiven entries.now given.new.items marks.new.items) }
    ensures opens { OnOk result (OpensMarked entries.now marks.new.items (length entries.now)) }
    ensures listed { OnOk result (given.new.items
        ≡ given.old.items ++ map Open (openings_from from (drop from entries.now))) }
{
    for f in from..entries.len() {
        match &entries[f].origin {
            Origin::Label(_) => continue,
            Origin::Part { op, part, keys, of } => {
                if *part != 0 {
                    continue;
                }
                let opening = Opening {
                    op: *op,
                    keys: keys.copy(alloc)?,
                    of: *of,
                    first: f as u32,
                };
                add_check(given, marks, *of, Check::Open(opening))?;
            }
        }
    }
    Ok(())
}

/// The composition with which an entry is compared, where there is one.
fn compared_with(
    alloc: Global,
    closure: &Closure,
    i: u32,
    term: &Term,
) -> Result<Option<Made>, NoMemory>
    requires { slice_get (terms_of closure.now) i ≡ Some (tree_of term.now) }
    ensures { IfOk result (λ r. MatchOption r ((c : Tree) → IsComparedWith closure.now i c
        → ⊥) (λ m. IsComparedWith closure.now i (made_tree m))) }
{
    let _ = closure.entries();
    match closure.compose(alloc, term)? {
        None => return Ok(None),
        Some(Made::Build(op, made)) => return Ok(Some(Made::Build(op, made))),
        Some(Made::Entry(j)) => {
            if i != j {
                return Ok(Some(Made::Entry(j)));
            }
        }
    }
    match term {
        Term::Atom(_) => Ok(None),
        Term::Node(op, operands) => {
            if op.undoes() {
                return Ok(None);
            }
            match closure.compose_all(alloc, operands.as_slice())? {
                None => Ok(None),
                Some(made) => Ok(Some(Made::Build(*op, made))),
            }
        }
    }
}

/// Gives the check of comparing an entry, where it has none yet and one is due.
fn add_equal(
    alloc: Global,
    closure: &Closure,
    i: u32,
    given: &mut Vec<Check>,
    marks: &mut Vec<bool>,
) -> Result<(), NoMemory>
    requires given { IsGiven closure.now given.old.items marks.old.items }
    requires within { i < length closure.now }
    ensures more { After given.old.items given.new.items }
    ensures stay { MarksStay marks.old.items marks.new.items }
    ensures long { length marks.new.items ≡ length marks.old.items }
    ensures ok { OnOk result (IsGiven closure.now given.new.items marks.new.items) }
    ensures marked { OnOk result ((c : Tree) → IsComparedWith closure.now i c
        → slice_get marks.new.items i ≡ Some true) }
    ensures compared { OnOk result (AfterEquals given.old.items given.new.items) }
{
    let entries = closure.entries();
    if marks[i as usize] {
        return Ok(());
    }
    match compared_with(alloc, closure, i, &entries[i as usize].term)? {
        None => Ok(()),
        Some(made) => add_check(given, marks, i, Check::Equal(i, made)),
    }
}

/// Gives the checks of comparing. Of the first entries only those that were touched may come to be
/// compared.
fn add_equals(
    alloc: Global,
    closure: &Closure,
    from: usize,
    touched: &[u32],
    given: &mut Vec<Check>,
    marks: &mut Vec<bool>,
) -> Result<(), NoMemory>
    requires given { IsGiven closure.now given.old.items marks.old.items }
    requires touched { RestMarked closure.now marks.old.items from touched.now }
    requires within { from ≤ length closure.now }
    ensures more { After given.old.items given.new.items }
    ensures stay { MarksStay marks.old.items marks.new.items }
    ensures long { length marks.new.items ≡ length marks.old.items }
    ensures ok { OnOk result (IsGiven closure.now given.new.items marks.new.items) }
    ensures equals { OnOk result (EqualsMarked closure.now marks.new.items (length closure.now)) }
    ensures compared { OnOk result (AfterEquals given.old.items given.new.items) }
{
    let count = closure.entries().len();
    for i in touched {
        if *i as usize >= from {
            continue;
        }
        add_equal(alloc, closure, *i, given, marks)?;
    }
    for at in from..count {
        add_equal(alloc, closure, at as u32, given, marks)?;
    }
    Ok(())
}

/// Makes the marks so many, with none for the entries after.
fn extend(marks: &mut Vec<bool>, count: usize) -> Result<(), NoMemory>
    requires { length marks.old.items ≤ count }
    ensures longer { length marks.old.items ≤ length marks.new.items }
    ensures ok { OnOk result (marks.new.items ≡ marks.old.items
        ++ replicate (count - length marks.old.items) false) }
{
    for k in marks.len()..count {
        let _ = k;
        marks.push(false)?;
    }
    Ok(())
}

/// Gives all checks that have become possible. After an error there may be more marks.
pub fn add_all(
    alloc: Global,
    closure: &Closure,
    given: &mut Vec<Check>,
    marks: &mut Vec<bool>,
    touched: &[u32],
) -> Result<(), NoMemory>
    requires given { (before : List Entry) × After before closure.now
        × IsBasis before given.old.items marks.old.items
        × AreTouched (rows before) (rows closure.now) touched.now }
    ensures more { After given.old.items given.new.items }
    ensures longer { length marks.old.items ≤ length marks.new.items }
    ensures ok { OnOk result (IsBasis closure.now given.new.items marks.new.items) }
    ensures order { OnOk result (InOrder (length marks.old.items) closure.now
        given.old.items given.new.items) }
{
    let entries = closure.entries();
    let from = marks.len();
    extend(marks, entries.len())?;
    add_opens(alloc, entries, from, given, marks)?;
    add_equals(alloc, closure, from, touched, given, marks)?;
    Ok(())
}

/// The entry that a check is of.
fn entry_of(check: &Check) -> u32
    ensures { result ≡ entry_of check.now }
{
    match check {
        Check::Open(opening) => opening.of,
        Check::Equal(i, _) => *i,
    }
}

/// Clears the marks but those of so many entries' checks. It looks at all checks.
pub fn mark_again(given: &[Check], marks: &mut Vec<bool>, count: usize)
    requires within { count ≤ length marks.old.items }
    ensures { (es : List Entry) (ms : List Bool) → IsGiven es given.now ms → length ms ≡ count
        → marks.new.items ≡ ms }
{
    marks.truncate(count);
    for n in 0..count {
        marks[n] = false;
    }
    for check in given {
        let at = entry_of(check) as usize;
        if at >= count {
            continue;
        }
        marks[at] = true;
    }
}
