//! Plans of roles by name, and their parts before and behind the choice.
ghost use Rattle.std.specs.Prelude.{◌≡◌, ◌≤◌, length, drop, map, true, IfOk};
ghost use Rattle.anb_index.specs.Places.{among};
ghost use Rattle.anb_protocol.specs.Views.{plan_event};
ghost use Rattle.anb_choice.specs.Lawful.{is_of_stem, plan_named, stem_len};

use anb_base::{NoMemory, Text};
use anb_protocol::{Event, Plan, Protocol};
use std::alloc::Global;

/// The plan of the role with this name.
pub(crate) fn plan_named(alloc: Global, p: &Protocol, role: &Text) -> Result<Plan, NoMemory>
    requires { among p.now.roles role.now ≡ true }
    ensures { IfOk result (λ plan. plan ≡ plan_named p.now role.now) }
{
    match p.role_of(role.as_str().as_bytes()) {
        Some(number) => p.plan(alloc, number),
        None => unreachable!(),
    }
}

/// The events behind the first ones, so many.
pub(crate) fn behind(events: &[Event], n: usize) -> &[Event]
    requires { n ≤ length events.now }
    ensures { result.now ≡ drop n events.now }
{
    &events[n..]
}

/// Whether the first event belongs to the first actions, so many.
fn is_of_stem(stem: u32, events: &[Event]) -> bool
    ensures { result ≡ is_of_stem stem (map plan_event events.now) }
{
    for event in events {
        match event {
            Event::Know(_) => return true,
            Event::Fresh(_) => {}
            Event::Send { action, .. } => return *action <= stem,
            Event::Recv { action, .. } => return *action <= stem,
        }
    }
    false
}

/// How many events there are up to the last of the first actions, so many.
pub(crate) fn stem_len(stem: u32, events: &[Event]) -> usize
    ensures len { result ≡ stem_len stem (map plan_event events.now) }
    ensures within { result ≤ length events.now }
{
    for i in 0..events.len() {
        if !is_of_stem(stem, behind(events, i)) {
            return i;
        }
    }
    events.len()
}
