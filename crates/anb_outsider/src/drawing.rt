//! The names that a role draws, and which of them its patterns have.
ghost use Rattle.std.specs.Prelude.{◌≡◌, ℕ, ◌++◌, ◌∷◌, [], map, true, false, slice_get, Some, IfOk, OnOk, IfSome, IfNone};
ghost use Rattle.anb_accept.specs.Events.{event_value};
ghost use Rattle.anb_outsider.specs.Recordings.{drawn};
ghost use Rattle.anb_outsider.specs.Searching.{IsUncounted, IsFirstCounted};

use anb_base::NoMemory;
use anb_protocol::Event;
use anb_term::Term;
use std::alloc::Global;

/// The names that are drawn in a plan, in order.
pub(crate) fn drawn(alloc: Global, events: &[Event]) -> Result<Vec<u32>, NoMemory>
    ensures { IfOk result (λ names. names.items ≡ drawn (map event_value events.now)) }
{
    let mut names = Vec::new(alloc);
    for event in events {
        put_if_drawn(&mut names, event)?;
    }
    Ok(names)
}

/// Appends the name that an event draws, where it draws one.
fn put_if_drawn(names: &mut Vec<u32>, event: &Event) -> Result<(), NoMemory>
    ensures { OnOk result (names.new.items
        ≡ names.old.items ++ drawn (event_value event.now ∷ [])) }
{
    match event {
        Event::Know(_) => {}
        Event::Fresh(Term::Node(..)) => {}
        Event::Fresh(Term::Atom(n)) => names.push(*n)?,
        Event::Send { .. } => {}
        Event::Recv { .. } => {}
    }
    Ok(())
}

/// The first of these names that is counted.
pub(crate) fn first_counted(names: &[u32], counts: &[u8]) -> Option<u32>
    ensures some { IfSome result (λ name. IsFirstCounted counts.now names.now name) }
    ensures none { IfNone result ((i n : ℕ) → slice_get names.now i ≡ Some n
        → IsUncounted counts.now n) }
{
    for name in names {
        if is_counted(counts, *name) {
            return Some(*name);
        }
    }
    None
}

/// Whether a name is counted.
fn is_counted(counts: &[u8], name: u32) -> bool
    ensures counted { result ≡ true → (c : ℕ) × (slice_get counts.now name ≡ Some c) × (c ≡ 0 → ⊥) }
    ensures uncounted { result ≡ false → IsUncounted counts.now name }
{
    match counts.get(name as usize) {
        Some(count) => *count > 0,
        None => false,
    }
}
