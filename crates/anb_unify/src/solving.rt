//! The most general solution of equations.
ghost use Rattle.std.specs.Prelude.{◌≡◌, ◌+◌, [], ◌<◌, ◌^◌, length, map, IfOk, OnOk};
ghost use Rattle.std.specs.List.{range_with_len};
ghost use Rattle.anb_term.specs.Tree.{Tree};
ghost use Rattle.anb_term.specs.View.{tree_of};
ghost use Rattle.anb_intern.specs.declared.node.NodeId.{NodeId};
ghost use Rattle.anb_unify.specs.Equations.{atoms_of, AreOfVariables, AreVariables, HasSolution, IsMostGeneral};
ghost use Rattle.anb_unify.specs.Views.{equation_value};
ghost use Rattle.anb_unify.specs.Growing.{HasGrown};
ghost use Rattle.anb_unify.specs.Classes.{AreClasses, IsShortened};
ghost use Rattle.anb_unify.specs.Reading.{Settles, AreRoots, AreSolved};
ghost use Rattle.anb_unify.specs.Solving.{AreAt, first_variables, terms_of_equations, CanBeRead, read_at};

use crate::classes::{find, unify};
use crate::equation::{Equation, variable};
use crate::reading::pattern;
use anb_base::NoMemory;
use anb_intern::{NodeId, Pool};
use anb_term::Term;
use std::alloc::Global;

/// The terms of these variables in the most general solution of equations, where the narrated terms
/// of the variables are a solution. They have no more nodes than the narrated ones.
pub fn most_general(
    alloc: Global,
    names: u32,
    narrated: &[Term],
    equations: &[Equation],
    at: &[u32],
) -> Result<Vec<Term>, NoMemory>
    requires few { length narrated.now < 2 ^ 32 }
    requires narrated { HasSolution names (map tree_of narrated.now)
        (map equation_value equations.now) }
    requires equations { AreOfVariables (length narrated.now) (map equation_value equations.now) }
    requires at { AreVariables (length narrated.now) at.now }
    ensures { IfOk result (λ patterns. IsMostGeneral names (map equation_value equations.now)
        (atoms_of names at.now) (map tree_of patterns.items)) }
{
    let mut pool = Pool::new(alloc);
    let variables = put_variables(alloc, &mut pool, names, narrated)?;
    let sides = put_sides(alloc, &mut pool, equations)?;
    let _ = pool.len();
    let mut parents = themselves(alloc, &pool)?;
    unify_sides(
        &pool,
        names,
        &mut parents,
        narrated,
        &variables,
        &sides,
        equations,
    );
    let roots = roots_of(alloc, &pool, names, &mut parents)?;
    read_each(alloc, &pool, names, &roots, narrated, &variables, at)
}

/// Puts the variables into a pool.
fn put_variables(
    alloc: Global,
    pool: &mut Pool,
    names: u32,
    narrated: &[Term],
) -> Result<Vec<NodeId>, NoMemory>
    requires { length narrated.now < 2 ^ 32 }
    ensures { IfOk result (λ ids.
        AreAt pool.new ids.items (first_variables names (length narrated.now))) }
{
    let mut ids = Vec::new(alloc);
    for i in 0..narrated.len() {
        let atom = Term::Atom(variable(names, i as u32)?);
        let id = pool.put_term(alloc, &atom)?;
        ids.push(id)?;
    }
    Ok(ids)
}

/// Puts the terms of equations into a pool.
fn put_sides(
    alloc: Global,
    pool: &mut Pool,
    equations: &[Equation],
) -> Result<Vec<NodeId>, NoMemory>
    ensures at { IfOk result (λ ids.
        AreAt pool.new ids.items (terms_of_equations (map equation_value equations.now))) }
    ensures grown { OnOk result (HasGrown pool.old pool.new) }
{
    let mut ids = Vec::new(alloc);
    for equation in equations {
        let id = pool.put_term(alloc, &equation.term)?;
        ids.push(id)?;
    }
    Ok(ids)
}

/// Each term of a pool as its own parent.
fn themselves(alloc: Global, pool: &Pool) -> Result<Vec<NodeId>, NoMemory>
    ensures { IfOk result (λ parents.
        map (λ (p : NodeId). p.0) parents.items ≡ range_with_len 0 (length pool.now)) }
{
    let mut parents = Vec::new(alloc);
    for i in 0..pool.len() {
        parents.push(NodeId(i))?;
    }
    Ok(parents)
}

/// Makes the two sides of each equation one.
fn unify_sides(
    pool: &Pool,
    names: u32,
    parents: &mut Vec<NodeId>,
    narrated: &[Term],
    variables: &[NodeId],
    sides: &[NodeId],
    equations: &[Equation],
)
    requires classes { AreClasses names pool.now parents.old.items }
    requires solved { AreSolved names pool.now [] parents.old.items }
    requires variables { AreAt pool.now variables.now (first_variables names (length narrated.now)) }
    requires sides { AreAt pool.now sides.now
        (terms_of_equations (map equation_value equations.now)) }
    requires narrated { HasSolution names (map tree_of narrated.now)
        (map equation_value equations.now) }
    requires equations { AreOfVariables (length narrated.now) (map equation_value equations.now) }
    ensures classes { AreClasses names pool.now parents.new.items }
    ensures solved { AreSolved names pool.now (map equation_value equations.now)
        parents.new.items }
{
    for (i, equation) in equations.iter().enumerate() {
        let variable = equation.variable as usize;
        let term = &narrated[variable];
        unify(pool, names, parents, variables[variable], sides[i], term);
    }
}

/// The term that stands for each term's class.
fn roots_of(
    alloc: Global,
    pool: &Pool,
    names: u32,
    parents: &mut Vec<NodeId>,
) -> Result<Vec<NodeId>, NoMemory>
    requires { AreClasses names pool.now parents.old.items }
    ensures classes { AreClasses names pool.now parents.new.items }
    ensures stay { IsShortened names pool.now parents.old.items parents.new.items }
    ensures roots { IfOk result (λ roots.
        AreRoots pool.now parents.new.items roots.items) }
    ensures long { IfOk result (λ roots. length roots.items ≡ length pool.now) }
{
    let mut roots = Vec::new(alloc);
    for i in 0..pool.len() {
        let root = find(pool, names, parents, NodeId(i));
        roots.push(root)?;
    }
    Ok(roots)
}

/// The terms of these variables, read off their classes.
fn read_each(
    alloc: Global,
    pool: &Pool,
    names: u32,
    roots: &[NodeId],
    narrated: &[Term],
    variables: &[NodeId],
    at: &[u32],
) -> Result<Vec<Term>, NoMemory>
    requires readable { CanBeRead names pool.now roots.now (map tree_of narrated.now) }
    requires variables { AreAt pool.now variables.now
        (first_variables names (length narrated.now)) }
    requires at { AreVariables (length narrated.now) at.now }
    ensures { (rep : Tree → Tree) → Settles names pool.now roots.now rep
        → IfOk result (λ patterns. map tree_of patterns.items
        ≡ map (read_at rep names (map tree_of narrated.now)) at.now) }
{
    let mut out = Vec::new(alloc);
    for (i, number) in at.iter().enumerate() {
        let term = read_one(alloc, pool, names, roots, narrated, variables, *number)?;
        out.push(term)?;
    }
    Ok(out)
}

/// The term of one of the variables.
fn read_one(
    alloc: Global,
    pool: &Pool,
    names: u32,
    roots: &[NodeId],
    narrated: &[Term],
    variables: &[NodeId],
    number: u32,
) -> Result<Term, NoMemory>
    requires readable { CanBeRead names pool.now roots.now (map tree_of narrated.now) }
    requires variables { AreAt pool.now variables.now
        (first_variables names (length narrated.now)) }
    requires within { number < length narrated.now }
    ensures { (rep : Tree → Tree) → Settles names pool.now roots.now rep
        → IfOk result (λ t. tree_of t ≡ read_at rep names (map tree_of narrated.now) number) }
{
    let id = variables[number as usize];
    let term = &narrated[number as usize];
    pattern(alloc, pool, names, roots, id, term)
}
