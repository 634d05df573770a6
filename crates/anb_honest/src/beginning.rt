//! A rehearsal before its first turn.
ghost use Rattle.std.specs.Prelude.{◌≡◌, ◌≤◌, ◌++◌, ℕ, List, length, map, flat_map, filter_map, replicate, [], ◌∷◌, None, IfOk, OnOk};
ghost use Rattle.std.specs.List.{AllByRecursion, range_with_len};
ghost use Rattle.anb_base.specs.declared.TheConstants.{ARRIVAL};
ghost use Rattle.anb_term.specs.Tree.{IsFormed};
ghost use Rattle.anb_plays.specs.Honest.{honest};
ghost use Rattle.anb_algebra.specs.ByteMeaning.{byte_meaning, has_operator};
ghost use Rattle.anb_code.specs.CodeValue.{CodeValue};
ghost use Rattle.anb_compile.specs.Emitting.{known_in};
ghost use Rattle.anb_protocol.specs.Choices.{first};
ghost use Rattle.anb_protocol.specs.Laws.{HoldsOf};
ghost use Rattle.anb_protocol.specs.Texts.{atoms_in_each};
ghost use Rattle.anb_protocol.specs.Plans.{plan_of};
ghost use Rattle.anb_protocol.specs.Views.{plan_event};
ghost use Rattle.anb_honest.specs.Given.{Gives, items_of};
ghost use Rattle.anb_honest.specs.Order.{FollowRoles};
ghost use Rattle.anb_honest.specs.Joint.{cast, init_of, long_end, outset};
ghost use Rattle.anb_honest.specs.Inside.{IsPlayer, Stands, part_of, turn_value};

use crate::RehearseEnd;
use crate::given::{Given, honest_bytes, put_atoms};
use crate::player::{Part, Player};
use crate::stage::Stage;
use anb_algebra::ByteAlgebra;
use anb_base::{ARRIVAL, Bytes, NoMemory};
use anb_code::RoleCode;
use anb_machine::Machine;
use anb_protocol::{Event, Plan, Protocol};
use std::alloc::Global;

/// The plans of all roles, in order.
pub(crate) fn plans(alloc: Global, p: &Protocol) -> Result<Vec<Plan>, NoMemory>
    requires { length p.now.roles ≤ 32 }
    ensures { IfOk result (λ plans.
        plans.items ≡ map (plan_of p.now) (range_with_len 0 (length p.now.roles))) }
{
    let mut plans = Vec::new(alloc);
    for role in 0..p.roles().len() as u32 {
        plans.push(p.plan(alloc, role)?)?;
    }
    Ok(plans)
}

/// The initial values of all roles, in order.
pub(crate) fn initial_values(
    alloc: Global,
    p: &Protocol,
    plans: &[Plan],
    values: &[Bytes],
) -> Result<Vec<Vec<Bytes>>, NoMemory>
    requires holds { HoldsOf p.now }
    requires plans { plans.now ≡ map (plan_of p.now) (range_with_len 0 (length p.now.roles)) }
    ensures { IfOk result (λ all. (codes : List CodeValue) (seed : List ℕ)
        → map items_of all.items ≡ map (init_of (cast p.now codes values.now seed))
        (range_with_len 0 (length p.now.roles))) }
{
    let known = known_atoms(alloc, plans)?;
    let given = Given::new(alloc, known, values)?;
    let algebra = ByteAlgebra::new(p.formats(), p.suite());
    let mut all = Vec::new(alloc);
    for plan in plans {
        all.push(values_of(alloc, &algebra, &given, plan)?)?;
    }
    Ok(all)
}

/// The atoms in what roles know, in order.
pub(crate) fn known_atoms(alloc: Global, plans: &[Plan]) -> Result<Vec<u32>, NoMemory>
    ensures { IfOk result (λ atoms.
        atoms.items ≡ atoms_in_each (flat_map known_in plans.now)) }
{
    let mut atoms = Vec::new(alloc);
    for plan in plans {
        put_known_atoms(&mut atoms, plan)?;
    }
    Ok(atoms)
}

/// Appends the atoms in what a role knows.
fn put_known_atoms(atoms: &mut Vec<u32>, plan: &Plan) -> Result<(), NoMemory>
    ensures { OnOk result (atoms.new.items
        ≡ atoms.old.items ++ atoms_in_each (known_in plan.now)) }
{
    for event in plan.events() {
        put_atoms_of(atoms, event)?;
    }
    Ok(())
}

/// Appends the atoms in what a role knows by this event.
fn put_atoms_of(atoms: &mut Vec<u32>, event: &Event) -> Result<(), NoMemory>
    ensures { OnOk result (atoms.new.items
        ≡ atoms.old.items ++ atoms_in_each (known_in (plan_event event.now ∷ []))) }
{
    match event {
        Event::Know(term) => put_atoms(atoms, term),
        Event::Fresh(_) | Event::Send { .. } | Event::Recv { .. } => Ok(()),
    }
}

/// The honest bytes of what a role knows.
pub(crate) fn values_of(
    alloc: Global,
    algebra: &ByteAlgebra<'_>,
    given: &Given<'_>,
    plan: &Plan,
) -> Result<Vec<Bytes>, NoMemory>
    requires { AllByRecursion (IsFormed (has_operator algebra.now.formats)) (known_in plan.now) }
    ensures { IfOk result (λ values. (atoms : ℕ → List ℕ) → Gives given.now atoms
        → values.items ≡ map (honest (byte_meaning algebra.now.formats algebra.now.suite) atoms)
        (known_in plan.now)) }
{
    let mut values = Vec::new(alloc);
    for event in plan.events() {
        put_value(alloc, &mut values, algebra, given, event)?;
    }
    Ok(values)
}

/// Appends the honest bytes of what a role knows by this event.
fn put_value(
    alloc: Global,
    values: &mut Vec<Bytes>,
    algebra: &ByteAlgebra<'_>,
    given: &Given<'_>,
    event: &Event,
) -> Result<(), NoMemory>
    requires { AllByRecursion (IsFormed (has_operator algebra.now.formats))
        (known_in (plan_event event.now ∷ [])) }
    ensures { OnOk result ((atoms : ℕ → List ℕ) → Gives given.now atoms
        → values.new.items ≡ values.old.items
        ++ map (honest (byte_meaning algebra.now.formats algebra.now.suite) atoms)
        (known_in (plan_event event.now ∷ []))) }
{
    match event {
        Event::Know(term) => {
            values.push(honest_bytes(alloc, algebra, given, term)?)?;
            Ok(())
        }
        Event::Fresh(_) | Event::Send { .. } | Event::Recv { .. } => Ok(()),
    }
}

/// The end that the first value makes that is longer than an arrival may be.
pub(crate) fn first_long(initial: &[Vec<Bytes>]) -> Option<RehearseEnd>
    ensures { result ≡ first (long_end 0) (flat_map items_of initial.now) }
{
    for values in initial {
        if let Some(end) = first_long_of(values) {
            return Some(end);
        }
    }
    None
}

fn first_long_of(values: &[Bytes]) -> Option<RehearseEnd>
    ensures { result ≡ first (long_end 0) values.now }
{
    for value in values {
        let len = value.as_slice().len();
        if len > ARRIVAL as usize {
            return Some(RehearseEnd::LongMessage {
                action: 0,
                len: len as u64,
            });
        }
    }
    None
}

/// A rehearsal before its first turn.
pub(crate) fn stage<'c>(
    alloc: Global,
    p: &Protocol,
    codes: &'c [RoleCode],
    plans: &[Plan],
    initial: &[Vec<Bytes>],
    seed: &[u8; 32],
) -> Result<Stage<'c>, NoMemory>
    requires holds { HoldsOf p.now }
    requires codes { FollowRoles p.now codes.now }
    requires plans { plans.now ≡ map (plan_of p.now) (range_with_len 0 (length p.now.roles)) }
    requires initial { (values : List (List ℕ)) × (map items_of initial.now
        ≡ map (init_of (cast p.now codes.now values seed.now))
        (range_with_len 0 (length p.now.roles))) }
    requires short { first (long_end 0) (flat_map items_of initial.now) ≡ None }
    ensures { IfOk result (λ stage. (values : List (List ℕ))
        → let c = cast p.now codes.now values seed.now in
        map items_of initial.now ≡ map (init_of c) (range_with_len 0 (length p.now.roles))
        → Stands c outset stage) }
{
    let mut players = Vec::new(alloc);
    for (role, code) in codes.iter().enumerate() {
        // Each code is a verified one, as a look at its instructions tells.
        let _ = code.instrs();
        let player = Player {
            machine: Machine::start(alloc, code, &initial[role], seed, role as u32)?,
            parts: parts_of(alloc, &plans[role])?,
            done: 0,
        };
        players.push(player)?;
    }
    Ok(Stage {
        players,
        told: no_messages(alloc, p.actions())?,
        taken: 0,
        passed: 0,
    })
}

/// So many actions, none of which has a message.
fn no_messages(alloc: Global, actions: u32) -> Result<Vec<Option<Bytes>>, NoMemory>
    ensures { IfOk result (λ told. told.items ≡ replicate actions None) }
{
    let mut told = Vec::new(alloc);
    for _ in 0..actions {
        told.push(None)?;
    }
    Ok(told)
}

/// What a role is to do, in order.
fn parts_of(alloc: Global, plan: &Plan) -> Result<Vec<Part>, NoMemory>
    ensures { IfOk result (λ parts. (role : ℕ)
        → map (turn_value role) parts.items ≡ filter_map (part_of role) plan.now) }
{
    let mut parts = Vec::new(alloc);
    for event in plan.events() {
        put_part(&mut parts, event)?;
    }
    Ok(parts)
}

/// Appends what a role is to do by this event.
fn put_part(parts: &mut Vec<Part>, event: &Event) -> Result<(), NoMemory>
    ensures { OnOk result ((role : ℕ) → map (turn_value role) parts.new.items
        ≡ map (turn_value role) parts.old.items
        ++ filter_map (part_of role) (plan_event event.now ∷ [])) }
{
    match event {
        Event::Send { action, .. } => {
            parts.push(Part {
                action: *action,
                sends: true,
            })?;
            Ok(())
        }
        Event::Recv { action, .. } => {
            parts.push(Part {
                action: *action,
                sends: false,
            })?;
            Ok(())
        }
        Event::Know(_) | Event::Fresh(_) => Ok(()),
    }
}
