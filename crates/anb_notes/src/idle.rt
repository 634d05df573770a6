//! New names of a role on which nothing depends that it takes afterwards.
ghost use Rattle.std.specs.Prelude.{◌≡◌, ◌<◌, ◌||◌, List, length, map, filter, IfOk};
ghost use Rattle.std.specs.List.{AllByRecursion};
ghost use Rattle.anb_term.specs.Tree.{Tree};
ghost use Rattle.anb_term.specs.View.{tree_of};
ghost use Rattle.anb_pattern.specs.Counts.{AreCounts};
ghost use Rattle.anb_pattern.specs.Variables.{count_in_each};
ghost use Rattle.anb_protocol.specs.Plans.{term_in};
ghost use Rattle.anb_protocol.specs.Texts.{IsTermOf};
ghost use Rattle.anb_protocol.specs.Views.{plan_event};
ghost use Rattle.anb_notes.specs.Idle.{awaiting, idle, receives, stands_in_none};

use crate::places::{put_if, put_made_if};
use anb_base::NoMemory;
use anb_pattern::counts_of;
use anb_protocol::{Event, Protocol};
use anb_term::Term;
use std::alloc::Global;

/// The names that a plan makes before it receives something, and that none of these patterns has.
pub(crate) fn idle_names(
    alloc: Global,
    protocol: &Protocol,
    events: &[Event],
    patterns: &[Term],
) -> Result<Vec<u32>, NoMemory>
    requires { AllByRecursion (λ e. IsTermOf protocol.now (term_in e)) (map plan_event events.now) }
    ensures { IfOk result (λ names.
        names.items ≡ idle (map tree_of patterns.now) (map plan_event events.now)) }
{
    let counts = counts_of(alloc, 0, protocol.declared().len(), patterns)?;
    let names = awaiting(alloc, events)?;
    uncounted(alloc, &counts, &names)
}

/// The names that are made before something is received.
fn awaiting(alloc: Global, events: &[Event]) -> Result<Vec<u32>, NoMemory>
    ensures { IfOk result (λ names. names.items ≡ awaiting (map plan_event events.now)) }
{
    let mut names = Vec::new(alloc);
    let mut later = false;
    let many = events.len();
    for k in 0..many {
        let event = &events[many - 1 - k];
        put_made_if(&mut names, later, event)?;
        later = is_later(later, event);
    }
    names.reverse();
    Ok(names)
}

/// Whether something is received at this event or later.
fn is_later(later: bool, event: &Event) -> bool
    ensures { result ≡ (receives (plan_event event.now) || later) }
{
    receives(event) || later
}

fn receives(event: &Event) -> bool
    ensures { result ≡ receives (plan_event event.now) }
{
    match event {
        Event::Know(_) => false,
        Event::Fresh(_) => false,
        Event::Send { .. } => false,
        Event::Recv { .. } => true,
    }
}

/// Those of these names that aren't counted.
fn uncounted(alloc: Global, counts: &[u8], names: &[u32]) -> Result<Vec<u32>, NoMemory>
    requires { AllByRecursion (λ x. x < length counts.now) names.now }
    ensures { (patterns : List Tree) → AreCounts 0 (λ v. count_in_each v patterns) counts.now
        → IfOk result (λ some. some.items ≡ filter (stands_in_none patterns) names.now) }
{
    let mut out = Vec::new(alloc);
    for name in names {
        put_if(&mut out, is_uncounted(counts, *name), *name)?;
    }
    Ok(out)
}

fn is_uncounted(counts: &[u8], x: u32) -> bool
    requires { x < length counts.now }
    ensures { (patterns : List Tree) → AreCounts 0 (λ v. count_in_each v patterns) counts.now
        → result ≡ stands_in_none patterns x }
{
    counts[x as usize] == 0
}
