//! What a role sees of each arm.
ghost use Rattle.std.specs.Prelude.{◌≡◌, ◌<◌, ◌≤◌, ℕ, List, ◌∷◌, length, map, nat_eq, false, IfOk, IfSome, IfNone};
ghost use Rattle.std.specs.Option.{option_map_or};
ghost use Rattle.std.specs.List.{list_any, starts_with};
ghost use Rattle.anb_term.specs.View.{tree_of};
ghost use Rattle.anb_format.specs.Formats.{head};
ghost use Rattle.anb_protocol.specs.Protocols.{role_number};
ghost use Rattle.anb_protocol.specs.Plans.{PlanEvent};
ghost use Rattle.anb_protocol.specs.Views.{plan_event};
ghost use Rattle.anb_choice.specs.Lawful.{is_of_stem, stem_len, received_format, root_format};
ghost use Rattle.anb_choice.specs.Views.{branched_of};
ghost use Rattle.anb_branch.specs.Arms.{HaveRole};
ghost use Rattle.anb_branch.specs.Taken.{count_receives, has_head, place_begun};
ghost use Rattle.anb_branch.specs.Signs.{AreSigns, IsSign};

use crate::compiling::number_of;
use anb_base::{NoMemory, Text};
use anb_choice::Branched;
use anb_format::{Format, Piece};
use anb_protocol::{Event, Protocol};
use anb_term::{Op, Term};
use std::alloc::Global;

/// What a role sees of an arm: whether it is free there, how many messages it receives in the stem,
/// and the format of the message that it receives first in the arm.
#[derive(Clone, Copy, Drop)]
pub(crate) struct Sign {
    pub(crate) free: bool,
    pub(crate) receives: usize,
    pub(crate) format: Option<u16>,
}

/// What a role sees of each arm, in order.
pub(crate) fn signs_of(alloc: Global, b: &Branched, role: &Text) -> Result<Vec<Sign>, NoMemory>
    requires { HaveRole (branched_of b.now).arms role.now }
    ensures { IfOk result (λ signs.
        AreSigns (branched_of b.now).stem role.now (branched_of b.now).arms signs.items) }
{
    let mut signs = Vec::new(alloc);
    for arm in &b.arms {
        signs.push(sign_of(alloc, arm, b.stem, role)?)?;
    }
    Ok(signs)
}

/// What a role sees of an arm behind so many actions.
fn sign_of(alloc: Global, arm: &Protocol, stem: u32, role: &Text) -> Result<Sign, NoMemory>
    requires { role_number arm.now.roles role.now < length arm.now.roles }
    ensures { IfOk result (IsSign stem role.now arm.now) }
{
    let plan = arm.plan(alloc, number_of(arm, role))?;
    let events = plan.events();
    let (common, own) = events.split_at(stem_len(events, stem));
    Ok(Sign {
        free: own.len() >= 1,
        receives: count_receives(common),
        format: received_format(own),
    })
}

/// How many events there are up to the last of the first actions, so many.
fn stem_len(events: &[Event], stem: u32) -> usize
    ensures value { result ≡ stem_len stem (map plan_event events.now) }
    ensures within { result ≤ length events.now }
{
    let mut len = 0;
    let mut at = 0;
    for event in events {
        at += 1;
        match is_common(event, stem) {
            None => {}
            Some(true) => len = at,
            Some(false) => return len,
        }
    }
    len
}

/// Whether an event is known from the start or belongs to the first actions, so many. A name that
/// is made belongs to the action that follows it.
fn is_common(event: &Event, stem: u32) -> Option<bool>
    ensures some { IfSome result (λ common. (es : List PlanEvent)
        → is_of_stem stem (plan_event event.now ∷ es) ≡ common) }
    ensures none { IfNone result ((es : List PlanEvent)
        → is_of_stem stem (plan_event event.now ∷ es) ≡ is_of_stem stem es) }
{
    match event {
        Event::Know(_) => Some(true),
        Event::Fresh(_) => None,
        Event::Send { action, .. } => Some(*action <= stem),
        Event::Recv { action, .. } => Some(*action <= stem),
    }
}

fn count_receives(events: &[Event]) -> usize
    ensures value { result ≡ count_receives (map plan_event events.now) }
{
    let mut count = 0;
    for event in events {
        if matches!(event, Event::Recv { .. }) {
            count += 1;
        }
    }
    count
}

/// The format of the message, where these events begin with a receive.
fn received_format(events: &[Event]) -> Option<u16>
    ensures { result ≡ received_format (map plan_event events.now) }
{
    match events.first() {
        Some(Event::Recv { term, .. }) => root_format(term),
        _ => None,
    }
}

fn root_format(term: &Term) -> Option<u16>
    ensures { result ≡ root_format (tree_of term.now) }
{
    match term {
        Term::Node(Op::Format { index, .. }, _) => Some(*index),
        _ => None,
    }
}

/// Whether the role is free in some arm.
pub(crate) fn is_free_somewhere(signs: &[Sign]) -> bool
    ensures { result ≡ list_any (λ (sign : Sign). sign.free) signs.now }
{
    signs.iter().any(|sign| sign.free)
}

/// The place of the arm that an arrival begins, and that of the first where there is none.
pub(crate) fn place_begun(b: &Branched, signs: &[Sign], arrival: &[u8]) -> usize
    requires { length signs.now ≡ length (branched_of b.now).arms }
    ensures { (role : List ℕ)
        → AreSigns (branched_of b.now).stem role (branched_of b.now).arms signs.now
        → result ≡ place_begun (branched_of b.now) role arrival.now }
{
    for (i, arm) in b.arms.iter().enumerate() {
        if has_head(arm.formats(), arrival, signs[i].format) {
            return i;
        }
    }
    0
}

/// Whether an arrival begins with the head of this format.
fn has_head(formats: &[Format], arrival: &[u8], format: Option<u16>) -> bool
    ensures { result ≡ option_map_or (has_head formats.now arrival.now) format false }
{
    match format {
        Some(i) => match formats.get(i as usize) {
            Some(format) => begins_with(arrival, format.pieces()),
            None => false,
        },
        None => false,
    }
}

/// Whether bytes begin with the head of these pieces.
fn begins_with(bytes: &[u8], pieces: &[Piece]) -> bool
    ensures { result ≡ starts_with nat_eq bytes.now (head pieces.now) }
{
    let mut rest = bytes;
    for piece in pieces {
        match piece {
            Piece::Lit(text) => match rest.strip_prefix(text.as_slice()) {
                Some(behind) => rest = behind,
                None => return false,
            },
            Piece::Field(_) => return true,
        }
    }
    true
}
