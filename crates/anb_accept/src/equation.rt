//! Equations between terms over names and entries.
ghost use Rattle.std.specs.Prelude.{◌≡◌, ◌+◌, ◌-◌, ◌++◌, ◌∷◌, [], map, ◌<◌, ◌^◌, length, IfOk, OnOk};
ghost use Rattle.anb_term.specs.Tree.{trees_of, node, tree_size};
ghost use Rattle.anb_term.specs.View.{tree_of};
ghost use Rattle.anb_term.specs.Operator.{arity, keys};
ghost use Rattle.anb_close.specs.MadeView.{made_tree};
ghost use Rattle.anb_accept.specs.Equations.{is_own, over_entries, entries_from, equation_of, own_equations, equations_of};
ghost use Rattle.anb_unify.specs.Views.{equation_value};

use anb_base::NoMemory;
use anb_basis::Check;
use anb_close::{Entry, Made, Opening, Origin};
use anb_term::{Op, Term, Terms};
use anb_unify::{Equation, variable};
use std::alloc::Global;

/// The equations that a solution solves: the labels that aren't heard are their own terms, and the
/// checks hold.
pub(crate) fn equations(
    alloc: Global,
    names: u32,
    heard: &[bool],
    entries: &[Entry],
    checks: &[Check],
) -> Result<Vec<Equation>, NoMemory>
    requires { length entries.now < 2 ^ 32 }
    ensures { IfOk result (λ all. map equation_value all.items
        ≡ equations_of names heard.now entries.now checks.now) }
{
    let mut out = Vec::new(alloc);
    put_own(alloc, &mut out, heard, entries)?;
    put_checks(alloc, &mut out, names, checks)?;
    Ok(out)
}

/// Whether an entry is of a label that isn't heard.
fn is_own(heard: &[bool], origin: &Origin) -> bool
    ensures { result ≡ is_own heard.now origin.now }
{
    match origin {
        Origin::Label(n) => match heard.get(*n as usize) {
            Some(heard) => !*heard,
            None => false,
        },
        Origin::Part { .. } => false,
    }
}

/// Appends the equations of the labels that aren't heard.
fn put_own(
    alloc: Global,
    out: &mut Vec<Equation>,
    heard: &[bool],
    entries: &[Entry],
) -> Result<(), NoMemory>
    requires { length entries.now < 2 ^ 32 }
    ensures { OnOk result (map equation_value out.new.items
        ≡ map equation_value out.old.items ++ own_equations heard.now 0 entries.now) }
{
    for (i, entry) in entries.iter().enumerate() {
        put_if_own(alloc, out, heard, i as u32, entry)?;
    }
    Ok(())
}

/// Appends the equation of an entry where its label isn't heard.
fn put_if_own(
    alloc: Global,
    out: &mut Vec<Equation>,
    heard: &[bool],
    at: u32,
    entry: &Entry,
) -> Result<(), NoMemory>
    ensures { OnOk result (map equation_value out.new.items
        ≡ map equation_value out.old.items ++ own_equations heard.now at (entry.now ∷ [])) }
{
    if !is_own(heard, &entry.origin) {
        return Ok(());
    }
    let term = entry.term.copy(alloc)?;
    out.push(Equation { variable: at, term })?;
    Ok(())
}

/// Appends the equations of checks.
fn put_checks(
    alloc: Global,
    out: &mut Vec<Equation>,
    names: u32,
    checks: &[Check],
) -> Result<(), NoMemory>
    ensures { OnOk result (map equation_value out.new.items
        ≡ map equation_value out.old.items ++ map (equation_of names) checks.now) }
{
    for check in checks {
        let equation = equation_of(alloc, names, check)?;
        out.push(equation)?;
    }
    Ok(())
}

/// The equation of a check.
fn equation_of(alloc: Global, names: u32, check: &Check) -> Result<Equation, NoMemory>
    ensures { IfOk result (λ q. equation_value q ≡ equation_of names check.now) }
{
    match check {
        Check::Open(opening) => {
            let term = opened(alloc, names, opening)?;
            Ok(Equation {
                variable: opening.of,
                term,
            })
        }
        Check::Equal(i, made) => {
            let term = composed(alloc, names, made)?;
            Ok(Equation { variable: *i, term })
        }
    }
}

/// The operator of an opening on its keys and its parts.
fn opened(alloc: Global, names: u32, opening: &Opening) -> Result<Term, NoMemory>
    ensures { IfOk result (λ t. tree_of t ≡ node opening.now.op
        (trees_of (map (over_entries names) opening.now.keys
        ++ entries_from names opening.now.first
        (arity opening.now.op - keys opening.now.op)))) }
{
    let mut operands = composed_all(alloc, names, opening.keys.as_slice())?;
    put_parts(&mut operands, names, opening.first, count_parts(opening.op))?;
    Ok(Term::Node(opening.op, Terms::new(operands)))
}

fn count_parts(op: Op) -> u16
    ensures { result ≡ arity op - keys op }
{
    op.arity().saturating_sub(op.keys())
}

/// Appends the variables of so many entries from one on.
fn put_parts(operands: &mut Vec<Term>, names: u32, first: u32, count: u16) -> Result<(), NoMemory>
    ensures { OnOk result (map tree_of operands.new.items
        ≡ map tree_of operands.old.items ++ entries_from names first count) }
{
    for part in 0..count {
        let entry = variable(first, u32::from(part))?;
        let atom = variable(names, entry)?;
        operands.push(Term::Atom(atom))?;
    }
    Ok(())
}

/// A composition over the variables of entries.
#[cycle(composed)]
fn composed(alloc: Global, names: u32, made: &Made) -> Result<Term, NoMemory>
    ensures { IfOk result (λ t. tree_of t ≡ over_entries names (made_tree made.now)) }
{
    match made {
        Made::Entry(i) => Ok(Term::Atom(variable(names, *i)?)),
        Made::Build(op, operands) => {
            let terms = composed_all(alloc, names, operands.as_slice())?;
            Ok(Term::Node(*op, Terms::new(terms)))
        }
    }
}

#[cycle(composed)]
fn composed_all(alloc: Global, names: u32, all: &[Made]) -> Result<Vec<Term>, NoMemory>
    ensures { IfOk result (λ terms.
        map tree_of terms.items ≡ map (over_entries names) (map made_tree all.now)) }
{
    let mut terms = Vec::new(alloc);
    for made in all {
        let term = composed(alloc, names, made)?;
        terms.push(term)?;
    }
    Ok(terms)
}
