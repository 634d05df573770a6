//! The partner's plan and its code.
ghost use Rattle.std.specs.Prelude.{◌≡◌, ◌==◌, ◌<◌, ◌≤◌, ◌++◌, ◌↔◌, length, map, option_map, option_and_then, IsTrue, IfOk, OnOk, IfErr, IfSome};
ghost use Rattle.std.specs.List.{AllByRecursion, list_any};
ghost use Rattle.anb_term.specs.Tree.{nodes, tree_size, trees_of, trees_size};
ghost use Rattle.anb_term.specs.View.{tree_of};
ghost use Rattle.anb_compile.specs.Emitting.{known_in};
ghost use Rattle.anb_compile.specs.Unsent.{label_of, labels_of};
ghost use Rattle.anb_protocol.specs.Laws.{HoldsOf};
ghost use Rattle.anb_protocol.specs.Plans.{plan_of, term_in, to_know, to_receive};
ghost use Rattle.anb_plays.specs.Honest.{heard};
ghost use Rattle.anb_protocol.specs.Plays.{event_of, events_of};
ghost use Rattle.anb_protocol.specs.Texts.{atoms_in_all, known_by};
ghost use Rattle.anb_protocol.specs.Views.{plan_event};
ghost use Rattle.anb_partner.specs.Plans.{said, script_of, term_at, IsPartner, MayStand, RefusesPartner, begins, handed_by, has_atom, hook, hook_at, lines_before, mirrored, partner_plan};
ghost use Rattle.anb_partner.specs.declared.planning.PartnerNo.TheVariants as refusal;

use anb_base::NoMemory;
use anb_code::RoleCode;
use anb_compile::{CompileNo, compile_plan};
use anb_protocol::{Event, Plan, Protocol, protocols_hold};
use anb_term::Term;
use std::alloc::{AllocError, AllocFailed, Global};

/// A role's partner: its code, which begins with what the role knows and is then handed what all other
/// roles have; and how many lines of the conversation come before the right value, where one is changed.
#[derive(Drop)]
pub struct Partner {
    pub code: RoleCode,
    pub hook: Option<u32>,
}

/// Why there is no partner.
#[derive(Clone, Copy, Debug, PartialEq, Eq, Drop)]
pub enum PartnerNo {
    /// It can't compose what the role is to hear in this line, numbered from 1, or the right value there.
    CannotSend(u32),
    /// What it hears has more nodes than a code may have labels for.
    Large,
    NoMemory,
}

impl From<NoMemory> for PartnerNo {
    ghost from_gives = { λ _ refused. refused ≡ refusal.NoMemory };

    fn from(_error: NoMemory) -> Self {
        PartnerNo::NoMemory
    }
}

impl From<AllocError> for PartnerNo {
    ghost from_gives = { λ _ refused. refused ≡ refusal.NoMemory };

    fn from(_error: AllocError) -> Self {
        PartnerNo::NoMemory
    }
}

impl<T: Drop> From<AllocFailed<T>> for PartnerNo {
    ghost from_gives = { λ _ refused. refused ≡ refusal.NoMemory };

    fn from(_failed: AllocFailed<T>) -> Self {
        PartnerNo::NoMemory
    }
}

/// What a role hears and says.
#[derive(Drop)]
pub struct Narrated {
    pub arrivals: Vec<Term>,
    pub messages: Vec<Term>,
}

/// What a role hears and says by the narration.
pub fn narrated_terms(alloc: Global, p: &Protocol, role: u32) -> Result<Narrated, NoMemory>
    requires { role < length p.now.roles }
    ensures arrivals { IfOk result (λ narrated.
        map tree_of narrated.arrivals.items ≡ heard (events_of p.now role)) }
    ensures messages { IfOk result (λ narrated.
        map tree_of narrated.messages.items ≡ said (events_of p.now role)) }
    ensures heard_stand { IfOk result (λ narrated.
        AllByRecursion (MayStand p.now) (map tree_of narrated.arrivals.items)) }
    ensures said_stand { IfOk result (λ narrated.
        AllByRecursion (MayStand p.now) (map tree_of narrated.messages.items)) }
{
    protocols_hold();
    let _ = p.name();
    let plan = p.plan(alloc, role)?;
    told_in(alloc, plan)
}

/// What is heard and said in a plan.
fn told_in(alloc: Global, plan: Plan) -> Result<Narrated, NoMemory>
    ensures arrivals { IfOk result (λ narrated.
        map tree_of narrated.arrivals.items ≡ heard (map event_of plan)) }
    ensures messages { IfOk result (λ narrated.
        map tree_of narrated.messages.items ≡ said (map event_of plan)) }
{
    let mut arrivals = Vec::new(alloc);
    let mut messages = Vec::new(alloc);
    for event in plan.into_vec() {
        match event {
            Event::Know(_known) => {}
            Event::Fresh(_made) => {}
            Event::Send {
                action: _action,
                term,
            } => messages.push(term)?,
            Event::Recv {
                action: _action,
                term,
            } => arrivals.push(term)?,
        }
    }
    Ok(Narrated { arrivals, messages })
}

/// The partner of a role that is to hear these terms and says those then. In place of the term `right`,
/// where there is one, stands a spare name in them, whose number is that of all names: what the partner
/// hears for it is a wrong value. It takes as long as compiling the role.
pub fn partner_for(
    alloc: Global,
    p: &Protocol,
    role: u32,
    arrivals: &[Term],
    messages: &[Term],
    right: Option<&Term>,
) -> Result<Partner, PartnerNo>
    requires role { role < length p.now.roles }
    requires arrivals { AllByRecursion (MayStand p.now) (map tree_of arrivals.now) }
    requires messages { AllByRecursion (MayStand p.now) (map tree_of messages.now) }
    requires right { IfSome (option_map term_at right) (MayStand p.now) }
    ensures is { IfOk result (λ partner. IsPartner (script_of p.now role
        (map tree_of arrivals.now) (map tree_of messages.now) (option_map term_at right.entry)) partner.code) }
    ensures hook { IfOk result (λ partner. partner.hook ≡ hook_at (script_of p.now role
        (map tree_of arrivals.now) (map tree_of messages.now) (option_map term_at right.entry))) }
    ensures refused { IfErr result (RefusesPartner (script_of p.now role
        (map tree_of arrivals.now) (map tree_of messages.now) (option_map term_at right.entry))) }
{
    protocols_hold();
    let _ = p.name();
    // A protocol has few names.
    let Ok(spare) = u32::try_from(p.declared().len()) else {
        return Err(PartnerNo::NoMemory);
    };
    let own = p.plan(alloc, role)?;
    let hook = hook_of(spare, own.events(), arrivals, right);
    let plan = plan_of_partner(
        alloc,
        p,
        role,
        spare,
        own.events(),
        arrivals,
        messages,
        right,
    )?;
    if !is_small(plan.events()) {
        return Err(PartnerNo::Large);
    }
    match compile_plan(alloc, p, role, &plan) {
        Ok(code) => Ok(Partner { code, hook }),
        Err(CompileNo::CannotSend { action, role: _ }) => Err(PartnerNo::CannotSend(action)),
        Err(CompileNo::NoMemory) => Err(PartnerNo::NoMemory),
    }
}

/// How many lines stand before the right value, where there is one.
fn hook_of(spare: u32, own: &[Event], arrivals: &[Term], right: Option<&Term>) -> Option<u32>
    requires few { length own.now ≤ 65792 }
    ensures { result ≡ option_and_then
        (λ t. lines_before spare 0 (map plan_event own.now) (map tree_of arrivals.now))
        (option_map term_at right.entry) }
{
    match right {
        Some(_) => lines_before(spare, own, arrivals),
        None => None,
    }
}

/// What the partner of a role with this plan does.
fn plan_of_partner(
    alloc: Global,
    p: &Protocol,
    role: u32,
    spare: u32,
    own: &[Event],
    arrivals: &[Term],
    messages: &[Term],
    right: Option<&Term>,
) -> Result<Plan, NoMemory>
    requires role { role < length p.now.roles }
    requires holds { HoldsOf p.now }
    requires spare { spare ≡ length p.now.atoms }
    requires own { map plan_event own.now ≡ plan_of p.now role }
    requires known { known_in (map plan_event own.now) ≡ known_by p.now role }
    requires few { length own.now ≤ 65792 }
    ensures { IfOk result (λ plan. plan ≡ partner_plan (script_of p.now role
        (map tree_of arrivals.now) (map tree_of messages.now) (option_map term_at right.entry))) }
{
    let mut events = Vec::new(alloc);
    put_known(alloc, &mut events, own)?;
    for other in 0..p.roles().len() as u32 {
        put_other(alloc, &mut events, p, role, other)?;
    }
    put_mirrored(alloc, &mut events, spare, own, arrivals, messages, right)?;
    Ok(Plan::new(events))
}

/// Appends what is known by these events.
fn put_known(alloc: Global, out: &mut Vec<Event>, events: &[Event]) -> Result<(), NoMemory>
    ensures { OnOk result (map plan_event out.new.items
        ≡ map plan_event out.old.items ++ map to_know (known_in (map plan_event events.now))) }
{
    for event in events {
        if let Event::Know(term) = event {
            out.push(Event::Know(term.copy(alloc)?))?;
        }
    }
    Ok(())
}

/// Appends receives of what a role knows and makes, where it is another one.
fn put_other(
    alloc: Global,
    out: &mut Vec<Event>,
    p: &Protocol,
    role: u32,
    other: u32,
) -> Result<(), NoMemory>
    requires { other < length p.now.roles }
    ensures { OnOk result (map plan_event out.new.items
        ≡ map plan_event out.old.items ++ map (to_receive 0) (handed_by p.now role other)) }
{
    if other == role {
        return Ok(());
    }
    let plan = p.plan(alloc, other)?;
    put_begun(out, plan)
}

/// Appends receives of what is known and made in a plan.
fn put_begun(out: &mut Vec<Event>, plan: Plan) -> Result<(), NoMemory>
    ensures { OnOk result (map plan_event out.new.items
        ≡ map plan_event out.old.items ++ map (to_receive 0) (begins plan)) }
{
    for event in plan.into_vec() {
        match event {
            Event::Know(term) => out.push(Event::Recv { action: 0, term })?,
            Event::Fresh(term) => out.push(Event::Recv { action: 0, term })?,
            Event::Send {
                action: _action,
                term: _term,
            } => {}
            Event::Recv {
                action: _action,
                term: _term,
            } => {}
        }
    }
    Ok(())
}

/// Appends what the partner does at the lines of a role's plan.
fn put_mirrored(
    alloc: Global,
    out: &mut Vec<Event>,
    spare: u32,
    own: &[Event],
    arrivals: &[Term],
    messages: &[Term],
    right: Option<&Term>,
) -> Result<(), NoMemory>
    requires few { length own.now ≤ 65792 }
    ensures { OnOk result (map plan_event out.new.items
        ≡ map plan_event out.old.items ++ mirrored spare (option_map term_at right.entry) 1
        (map plan_event own.now) (map tree_of arrivals.now) (map tree_of messages.now)) }
{
    let mut right = right;
    let mut line = 1;
    let mut heard = 0;
    let mut said = 0;
    for event in own {
        match event {
            Event::Know(_) | Event::Fresh(_) => {}
            Event::Send { .. } => {
                let Some(message) = messages.get(said) else {
                    return Ok(());
                };
                let term = message.copy(alloc)?;
                out.push(Event::Recv { action: line, term })?;
                said += 1;
                line += 1;
            }
            Event::Recv { .. } => {
                let Some(arrival) = arrivals.get(heard) else {
                    return Ok(());
                };
                if has_atom(arrival, spare) {
                    put_hook(alloc, out, spare, line, right)?;
                    right = None;
                }
                let term = arrival.copy(alloc)?;
                out.push(Event::Send { action: line, term })?;
                heard += 1;
                line += 1;
            }
        }
    }
    Ok(())
}

/// Appends that the right value is made, and a wrong one is heard in its place.
fn put_hook(
    alloc: Global,
    out: &mut Vec<Event>,
    spare: u32,
    line: u32,
    right: Option<&Term>,
) -> Result<(), NoMemory>
    ensures { OnOk result (map plan_event out.new.items
        ≡ map plan_event out.old.items ++ hook spare line (option_map term_at right.entry)) }
{
    let Some(right) = right else {
        return Ok(());
    };
    let term = right.copy(alloc)?;
    out.push(Event::Send { action: line, term })?;
    let term = Term::Atom(spare);
    out.push(Event::Recv { action: line, term })?;
    Ok(())
}

/// How many lines stand before the first message to a role with this plan that has the spare name.
fn lines_before(spare: u32, own: &[Event], arrivals: &[Term]) -> Option<u32>
    requires few { length own.now ≤ 65792 }
    ensures { result ≡ lines_before spare 0 (map plan_event own.now) (map tree_of arrivals.now) }
{
    let mut lines = 0;
    let mut heard = 0;
    for event in own {
        match event {
            Event::Know(_) | Event::Fresh(_) => {}
            Event::Send { .. } => lines += 1,
            Event::Recv { .. } => {
                let arrival = arrivals.get(heard)?;
                if has_atom(arrival, spare) {
                    return Some(lines);
                }
                heard += 1;
                lines += 1;
            }
        }
    }
    None
}

/// Whether an atom occurs in a term.
#[cycle(has)]
fn has_atom(t: &Term, a: u32) -> bool
    ensures { result ≡ has_atom a (tree_of t.now) }
{
    match t {
        Term::Atom(n) => *n == a,
        Term::Node(_, operands) => have_atom(operands.as_slice(), a),
    }
}

/// Whether it occurs in one of these terms.
#[cycle(has)]
fn have_atom(terms: &[Term], a: u32) -> bool
    ensures { result ≡ list_any (λ b. b == a) (atoms_in_all (trees_of (map tree_of terms.now))) }
{
    for t in terms {
        if has_atom(t, a) {
            return true;
        }
    }
    false
}

/// Whether what is heard and known by these events has few nodes.
fn is_small(events: &[Event]) -> bool
    requires { AllByRecursion (λ e. tree_size (term_in e) ≤ 1024) (map plan_event events.now) }
    ensures { IsTrue result ↔ (nodes (labels_of (map plan_event events.now)) ≤ 65535) }
{
    let mut count = 0;
    for event in events {
        count += label_size(event);
        if count > MOST_NODES {
            return false;
        }
    }
    true
}

/// The most nodes of labels that a partner has.
const MOST_NODES: u32 = 65_535;

/// How many nodes the label has that comes with an event, where one does.
fn label_size(event: &Event) -> u32
    requires { tree_size (term_in (plan_event event.now)) ≤ 1024 }
    ensures nodes { result ≡ nodes (label_of (plan_event event.now)) }
    ensures most { result ≤ 1024 }
{
    match event {
        Event::Know(term) => size(term),
        Event::Fresh(term) => size(term),
        Event::Recv { term, .. } => size(term),
        Event::Send { .. } => 0,
    }
}

/// How many nodes a term has.
#[cycle(size)]
fn size(t: &Term) -> u32
    requires { tree_size (tree_of t.now) ≤ 1024 }
    ensures { result ≡ tree_size (tree_of t.now) }
{
    match t {
        Term::Atom(_) => 1,
        Term::Node(_, operands) => 1 + size_of_all(operands.as_slice()),
    }
}

/// How many these have together.
#[cycle(size)]
fn size_of_all(terms: &[Term]) -> u32
    requires { trees_size (trees_of (map tree_of terms.now)) ≤ 1024 }
    ensures { result ≡ trees_size (trees_of (map tree_of terms.now)) }
{
    let mut count = 0;
    for t in terms {
        count += size(t);
    }
    count
}
