//! Why a role lacks terms: where they stand behind keys that it lacks.
ghost use Rattle.std.specs.Prelude.{◌≡◌, ◌<◌, ◌++◌, ◌∷◌, [], ℕ, List, Bool, Some, None, filter, length, map, option_map, slice_get, IfOk, OnOk, MatchOption};
ghost use Rattle.std.specs.List.{flat_map, AllByRecursion};
ghost use Rattle.anb_term.specs.Tree.{Tree};
ghost use Rattle.anb_term.specs.View.{tree_of};
ghost use Rattle.anb_intern.specs.Nodes.{operands_at, AreUnder};
ghost use Rattle.anb_protocol.specs.Plans.{term_in};
ghost use Rattle.anb_protocol.specs.Views.{plan_event};
ghost use Rattle.anb_reason.specs.Decided.{composes, is_among};
ghost use Rattle.anb_lack.specs.Opened.{comes_out, holds, inside, is_locked};
ghost use Rattle.anb_lack.specs.Rooted.{lock_value, locked_values, root_value, HasInside};
ghost use Rattle.anb_lack.specs.Roots.{lock_around, lock_of, locks, locks_at, locks_in, root_in, roots};

use crate::opening::{inside, is_locked, missing_key, put_out};
use crate::origins::Origin;
use anb_base::NoMemory;
use anb_intern::{NodeId, Pool};
use anb_protocol::Event;
use anb_reason::{composing, marks, put_all};
use anb_term::Term;
use std::alloc::Global;

/// A term that can't be undone, its first key that is missing, and where it is from.
#[derive(Drop)]
pub(crate) struct Lock {
    pub(crate) term: Term,
    pub(crate) key: Term,
    pub(crate) from: Origin,
}

/// A lock, and the numbers of what stands in it.
#[derive(Drop)]
struct Locked {
    lock: Lock,
    inside: Vec<NodeId>,
}

/// A part that is missing, what it stands in, and the key that is asked for.
#[derive(Drop)]
pub(crate) struct Root {
    pub(crate) part: Term,
    pub(crate) lock: Option<Lock>,
    pub(crate) key: Term,
}

/// Why these parts are missing, where the role has what composes from these terms after these events.
pub(crate) fn roots(
    alloc: Global,
    terms: &[Term],
    events: &[Event],
    parts: &[Term],
) -> Result<Vec<Root>, NoMemory>
    ensures { IfOk result (λ all. map root_value all.items
        ≡ roots (map tree_of terms.now) (map plan_event events.now) (map tree_of parts.now)) }
{
    let mut pool = Pool::new(alloc);
    let had = put_all(alloc, &mut pool, terms)?;
    let brought = event_terms(alloc, events)?;
    let labels = put_all(alloc, &mut pool, &brought)?;
    let wanted = put_all(alloc, &mut pool, parts)?;
    let marks = marks(alloc, &pool, &had)?;
    let composing = composing(alloc, &pool, &marks)?;
    let locks = locks(alloc, &pool, &composing, events, &labels)?;
    let all = roots_behind(alloc, &pool, &locks, parts, &wanted)?;
    Ok(all)
}

/// Why these parts are missing, which have these numbers.
fn roots_behind(
    alloc: Global,
    pool: &Pool,
    locks: &[Locked],
    parts: &[Term],
    wanted: &[NodeId],
) -> Result<Vec<Root>, NoMemory>
    requires under { AreUnder (length pool.now) wanted.now }
    requires wanted { operands_at pool.now wanted.now ≡ map tree_of parts.now }
    requires inside { AllByRecursion (HasInside pool.now) locks.now }
    ensures { IfOk result (λ all. map root_value all.items
        ≡ flat_map (root_in (locked_values locks.now)) (map tree_of parts.now)) }
{
    let mut out = Vec::new(alloc);
    for i in 0..parts.len() {
        put_root(alloc, &mut out, pool, locks, &parts[i], wanted[i])?;
    }
    Ok(out)
}

/// The terms of events.
pub(crate) fn event_terms(alloc: Global, events: &[Event]) -> Result<Vec<Term>, NoMemory>
    ensures { IfOk result (λ terms.
        map tree_of terms.items ≡ map term_in (map plan_event events.now)) }
{
    let mut terms = Vec::new(alloc);
    for event in events {
        terms.push(event.term().copy(alloc)?)?;
    }
    Ok(terms)
}

/// What comes out of what these events bring and can't be undone, where the flags tell what composes.
fn locks(
    alloc: Global,
    pool: &Pool,
    flags: &[bool],
    events: &[Event],
    labels: &[NodeId],
) -> Result<Vec<Locked>, NoMemory>
    requires long { length flags.now ≡ length pool.now }
    requires under { AreUnder (length pool.now) labels.now }
    requires labels { operands_at pool.now labels.now ≡ map term_in (map plan_event events.now) }
    ensures locks { IfOk result (λ all. (S : List Tree) → flags.now ≡ map (composes S) pool.now
        → locked_values all.items ≡ locks S (map plan_event events.now)) }
    ensures inside { IfOk result (λ all. AllByRecursion (HasInside pool.now) all.items) }
{
    let mut out = Vec::new(alloc);
    for i in 0..events.len() {
        put_locks_at(alloc, &mut out, pool, flags, &events[i], labels[i])?;
    }
    Ok(out)
}

/// Appends those of what an event brings, which has this number.
fn put_locks_at(
    alloc: Global,
    out: &mut Vec<Locked>,
    pool: &Pool,
    flags: &[bool],
    event: &Event,
    id: NodeId,
) -> Result<(), NoMemory>
    requires within { id.0 < length pool.now }
    requires long { length flags.now ≡ length pool.now }
    requires label { slice_get pool.now id.0 ≡ Some (term_in (plan_event event.now)) }
    requires inside { AllByRecursion (HasInside pool.now) out.old.items }
    ensures inside { OnOk result (AllByRecursion (HasInside pool.now) out.new.items) }
    ensures locks { OnOk result ((S : List Tree) → flags.now ≡ map (composes S) pool.now
        → locked_values out.new.items
        ≡ locked_values out.old.items ++ locks_at S (plan_event event.now)) }
{
    match event {
        Event::Know(_) => put_locks(alloc, out, pool, flags, id, Origin::Known),
        Event::Fresh(_) => Ok(()),
        Event::Send { .. } => Ok(()),
        Event::Recv { action, .. } => {
            put_locks(alloc, out, pool, flags, id, Origin::Received(*action))
        }
    }
}

/// Appends what comes out of a term and can't be undone.
fn put_locks(
    alloc: Global,
    out: &mut Vec<Locked>,
    pool: &Pool,
    flags: &[bool],
    id: NodeId,
    from: Origin,
) -> Result<(), NoMemory>
    requires within { id.0 < length pool.now }
    requires long { length flags.now ≡ length pool.now }
    requires inside { AllByRecursion (HasInside pool.now) out.old.items }
    ensures inside { OnOk result (AllByRecursion (HasInside pool.now) out.new.items) }
    ensures locks { OnOk result ((S : List Tree) (t : Tree)
        → flags.now ≡ map (composes S) pool.now → slice_get pool.now id.0 ≡ Some t
        → locked_values out.new.items ≡ locked_values out.old.items ++ locks_in S from t) }
{
    let mut ids = Vec::new(alloc);
    put_out(&mut ids, pool, flags, id)?;
    put_locked(alloc, out, pool, flags, &ids, from)
}

/// Appends those of these terms that can't be undone.
fn put_locked(
    alloc: Global,
    out: &mut Vec<Locked>,
    pool: &Pool,
    flags: &[bool],
    ids: &[NodeId],
    from: Origin,
) -> Result<(), NoMemory>
    requires under { AreUnder (length pool.now) ids.now }
    requires long { length flags.now ≡ length pool.now }
    requires inside { AllByRecursion (HasInside pool.now) out.old.items }
    ensures inside { OnOk result (AllByRecursion (HasInside pool.now) out.new.items) }
    ensures locks { OnOk result ((S : List Tree) → flags.now ≡ map (composes S) pool.now
        → locked_values out.new.items ≡ locked_values out.old.items
        ++ map (lock_of S from) (filter (is_locked S) (operands_at pool.now ids.now))) }
{
    for id in ids {
        put_if_locked(alloc, out, pool, flags, *id, from)?;
    }
    Ok(())
}

/// Appends a term that can't be undone.
fn put_if_locked(
    alloc: Global,
    out: &mut Vec<Locked>,
    pool: &Pool,
    flags: &[bool],
    id: NodeId,
    from: Origin,
) -> Result<(), NoMemory>
    requires within { id.0 < length pool.now }
    requires long { length flags.now ≡ length pool.now }
    requires inside { AllByRecursion (HasInside pool.now) out.old.items }
    ensures inside { OnOk result (AllByRecursion (HasInside pool.now) out.new.items) }
    ensures locks { OnOk result ((S : List Tree) (t : Tree)
        → flags.now ≡ map (composes S) pool.now → slice_get pool.now id.0 ≡ Some t
        → locked_values out.new.items ≡ locked_values out.old.items
        ++ map (lock_of S from) (filter (is_locked S) (t ∷ []))) }
{
    if !is_locked(pool, flags, id) {
        return Ok(());
    }
    let lock = lock_with_inside(alloc, pool, flags, id, from)?;
    out.push(lock)?;
    Ok(())
}

/// A lock with what stands in it.
fn lock_with_inside(
    alloc: Global,
    pool: &Pool,
    flags: &[bool],
    id: NodeId,
    from: Origin,
) -> Result<Locked, NoMemory>
    requires within { id.0 < length pool.now }
    requires long { length flags.now ≡ length pool.now }
    ensures inside { IfOk result (HasInside pool.now) }
    ensures lock { IfOk result (λ l. (S : List Tree) (t : Tree)
        → flags.now ≡ map (composes S) pool.now → slice_get pool.now id.0 ≡ Some t
        → lock_value l.lock ≡ lock_of S from t) }
{
    let term = pool.term(alloc, id)?;
    let key = pool.term(alloc, missing_key(pool, flags, id))?;
    let inside = inside(alloc, pool, id)?;
    Ok(Locked {
        lock: Lock { term, key, from },
        inside,
    })
}

/// Appends why a part is missing, which has this number.
fn put_root(
    alloc: Global,
    out: &mut Vec<Root>,
    pool: &Pool,
    locks: &[Locked],
    part: &Term,
    id: NodeId,
) -> Result<(), NoMemory>
    requires part { slice_get pool.now id.0 ≡ Some (tree_of part.now) }
    requires inside { AllByRecursion (HasInside pool.now) locks.now }
    ensures { OnOk result (map root_value out.new.items ≡ map root_value out.old.items
        ++ root_in (locked_values locks.now) (tree_of part.now)) }
{
    match lock_around(pool, locks, id) {
        Some(lock) => {
            let root = root_behind(alloc, part, lock)?;
            out.push(root)?;
            Ok(())
        }
        None => match part {
            Term::Atom(_) => {
                let root = root_itself(alloc, part)?;
                out.push(root)?;
                Ok(())
            }
            Term::Node(_, _) => Ok(()),
        },
    }
}

/// A part that stands in a lock lacks its key.
fn root_behind(alloc: Global, part: &Term, lock: &Lock) -> Result<Root, NoMemory>
    ensures { IfOk result (λ r. root_value r ≡ record {
      part = tree_of part.now;
      lock = Some (lock_value lock.now);
      key = tree_of lock.now.key;
    }) }
{
    Ok(Root {
        part: part.copy(alloc)?,
        lock: Some(Lock {
            term: lock.term.copy(alloc)?,
            key: lock.key.copy(alloc)?,
            from: lock.from,
        }),
        key: lock.key.copy(alloc)?,
    })
}

/// A part that is missing itself.
fn root_itself(alloc: Global, part: &Term) -> Result<Root, NoMemory>
    ensures { IfOk result (λ r. root_value r ≡ record {
      part = tree_of part.now;
      lock = None;
      key = tree_of part.now;
    }) }
{
    Ok(Root {
        part: part.copy(alloc)?,
        lock: None,
        key: part.copy(alloc)?,
    })
}

/// The first lock in which a term stands.
fn lock_around<'l>(pool: &Pool, locks: &'l [Locked], id: NodeId) -> Option<&'l Lock>
    requires inside { AllByRecursion (HasInside pool.now) locks.now }
    ensures { (u : Tree) → slice_get pool.now id.0 ≡ Some u
        → MatchOption result (lock_around (locked_values locks.now) u ≡ None)
        (λ l. lock_around (locked_values locks.now) u ≡ Some (lock_value l.now)) }
{
    for locked in locks {
        if is_inside(pool, &locked.inside, id) {
            return Some(&locked.lock);
        }
    }
    None
}

/// Whether a term is one of these.
fn is_inside(pool: &Pool, ids: &[NodeId], id: NodeId) -> bool
    requires { AreUnder (length pool.now) ids.now }
    ensures { (u : Tree) → slice_get pool.now id.0 ≡ Some u
        → result ≡ is_among (operands_at pool.now ids.now) u }
{
    let _ = pool.len();
    for each in ids {
        if each.0 == id.0 {
            return true;
        }
    }
    false
}
