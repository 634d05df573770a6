//! Notes on names that nothing uses.
ghost use Rattle.std.specs.Prelude.{◌≡◌, ◌<◌, ◌++◌, map, length, replicate, false, IfOk, OnOk};
ghost use Rattle.std.specs.List.{flat_map};
ghost use Rattle.anb_term.specs.Tree.{trees_of};
ghost use Rattle.anb_term.specs.View.{tree_of};
ghost use Rattle.anb_protocol.specs.Plans.{term_in};
ghost use Rattle.anb_protocol.specs.Seen.{marked};
ghost use Rattle.anb_protocol.specs.Texts.{atom_name, atoms_in, atoms_in_all};
ghost use Rattle.anb_protocol.specs.Views.{plan_event};
ghost use Rattle.anb_report.specs.Looking.{is_among};
ghost use Rattle.anb_report.specs.Remarks.{is_role, plan_atoms, unused_name, unused_names, used_atoms};

use crate::marks::mark;
use crate::remarks::{count_roles, put_unused};
use anb_base::NoMemory;
use anb_protocol::{Event, Protocol};
use anb_term::Term;
use std::alloc::Global;

/// Appends a note on each name that no term has, and no role. It costs as much as reading all plans.
pub(crate) fn put_unused_names(
    alloc: Global,
    out: &mut Vec<u8>,
    protocol: &Protocol,
) -> Result<(), NoMemory>
    ensures { OnOk result (out.new.items ≡ out.old.items ++ unused_names protocol.now) }
{
    let used = marks_of(alloc, protocol)?;
    for i in 0..protocol.declared().len() {
        put_unused_name(out, protocol, &used, i)?;
    }
    Ok(())
}

/// For each name, whether some term has it.
fn marks_of(alloc: Global, protocol: &Protocol) -> Result<Vec<bool>, NoMemory>
    ensures { IfOk result (λ marks. marks.items
        ≡ marked (replicate (length protocol.now.atoms) false) (used_atoms protocol.now)) }
{
    let mut marks = vec![in alloc; false; protocol.declared().len()]?;
    mark_plans(alloc, &mut marks, protocol)?;
    Ok(marks)
}

fn mark_plans(alloc: Global, marks: &mut Vec<bool>, protocol: &Protocol) -> Result<(), NoMemory>
    ensures { OnOk result (marks.new.items ≡ marked marks.old.items (used_atoms protocol.now)) }
{
    for role in 0..count_roles(protocol) {
        mark_plan(alloc, marks, protocol, role)?;
    }
    Ok(())
}

/// Marks the names in what a role knows, makes, sends and receives.
fn mark_plan(
    alloc: Global,
    marks: &mut Vec<bool>,
    protocol: &Protocol,
    role: u32,
) -> Result<(), NoMemory>
    requires { role < length protocol.now.roles }
    ensures { OnOk result
        (marks.new.items ≡ marked marks.old.items (plan_atoms protocol.now role)) }
{
    let plan = protocol.plan(alloc, role)?;
    mark_events(marks, plan.events());
    Ok(())
}

fn mark_events(marks: &mut Vec<bool>, events: &[Event])
    ensures { marks.new.items ≡ marked marks.old.items
        (flat_map (λ e. atoms_in (term_in e)) (map plan_event events.now)) }
{
    for event in events {
        mark_term(marks, event.term());
    }
}

/// Marks the names in a term.
#[cycle(marking)]
fn mark_term(marks: &mut Vec<bool>, term: &Term)
    ensures { marks.new.items ≡ marked marks.old.items (atoms_in (tree_of term.now)) }
{
    match term {
        Term::Atom(atom) => {
            mark(marks, *atom);
        }
        Term::Node(_, operands) => mark_terms(marks, operands.as_slice()),
    }
}

/// Marks those in each of these terms.
#[cycle(marking)]
fn mark_terms(marks: &mut Vec<bool>, terms: &[Term])
    ensures { marks.new.items
        ≡ marked marks.old.items (atoms_in_all (trees_of (map tree_of terms.now))) }
{
    for term in terms {
        mark_term(marks, term);
    }
}

fn put_unused_name(
    out: &mut Vec<u8>,
    protocol: &Protocol,
    used: &[bool],
    i: usize,
) -> Result<(), NoMemory>
    requires used { used.now
        ≡ marked (replicate (length protocol.now.atoms) false) (used_atoms protocol.now) }
    requires within { i < length protocol.now.atoms }
    ensures { OnOk result (out.new.items
        ≡ out.old.items ++ unused_name protocol.now (used_atoms protocol.now) i) }
{
    let name = name_at(protocol, i);
    let there = is_marked(protocol, used, i) || is_role(protocol, name);
    put_unused(out, there, b"the name ", name)
}

/// Whether some term has a name.
fn is_marked(protocol: &Protocol, used: &[bool], i: usize) -> bool
    requires used { used.now
        ≡ marked (replicate (length protocol.now.atoms) false) (used_atoms protocol.now) }
    requires within { i < length protocol.now.atoms }
    ensures { result ≡ is_among (used_atoms protocol.now) i }
{
    match used.get(i) {
        Some(mark) => *mark,
        None => true,
    }
}

fn name_at(protocol: &Protocol, i: usize) -> &[u8]
    requires { i < length protocol.now.atoms }
    ensures { result.now ≡ atom_name protocol.now i }
{
    protocol.declared()[i].name.as_str().as_bytes()
}

fn is_role(protocol: &Protocol, name: &[u8]) -> bool
    ensures { result ≡ is_role protocol.now name.now }
{
    match protocol.role_of(name) {
        Some(_) => true,
        None => false,
    }
}
