// Recipes, and their value.

ghost use Rattle.std.specs.Prelude.{◌≡◌, IsTrue, IfOk, option_map};
ghost use Rattle.anb_term.specs.Value.{value, values, HasAll, HasEach, build_if, part_if};
ghost use Rattle.anb_term.specs.RecipeView.{recipe_of, recipes_of, first_places};

use crate::algebra::Algebra;
use crate::term::Op;
use anb_base::NoMemory;
use std::alloc::Global;

/// What can be done with the values of labels: a label by its number, an operator on recipes, or
/// `Part(o, j, keys, r)`, which is part j, from 0, of r undone with the keys.
#[derive(Drop)]
pub enum Recipe {
    Label(u32),
    Build(Op, Vec<Recipe>),
    Part(Op, u16, Vec<Recipe>, Box<Recipe>),
}

/// The value of a recipe over the labels' values, where it has one. A recipe written out as a tree
/// can be far larger than the code that makes the same value.
#[cycle(eval)]
pub fn eval<A: Algebra>(
    alloc: Global,
    a: &A,
    labels: &[A::Value],
    recipe: &Recipe,
) -> Result<Option<A::Value>, NoMemory>
    requires { HasAll (A.meaning a.now).has (recipe_of recipe.now) }
    ensures { IfOk result (λ v. v ≡ value (A.meaning a.now) labels.now (recipe_of recipe.now)) }
{
    match recipe {
        Recipe::Label(n) => {
            if (*n as usize) < labels.len() {
                Ok(Some(a.copy(alloc, labels, *n)?))
            } else {
                Ok(None)
            }
        }
        Recipe::Build(op, operands) => {
            let Some(table) = eval_all(alloc, a, labels, operands)? else {
                return Ok(None);
            };
            build_of(alloc, a, *op, &table)
        }
        Recipe::Part(op, j, by, of) => {
            let Some(by) = eval_all(alloc, a, labels, by)? else {
                return Ok(None);
            };
            let Some(of) = eval(alloc, a, labels, of)? else {
                return Ok(None);
            };
            part_of(alloc, a, *op, *j, by, of)
        }
    }
}

/// What an operator gives, where these are as many operands as it takes.
fn build_of<A: Algebra>(
    alloc: Global,
    a: &A,
    op: Op,
    operands: &Vec<A::Value>,
) -> Result<Option<A::Value>, NoMemory>
    requires { IsTrue ((A.meaning a.now).has op) }
    ensures { IfOk result (λ v. v ≡ build_if (A.meaning a.now) op operands.now.items) }
{
    if operands.len() != op.arity() as usize {
        return Ok(None);
    }
    let at = places(alloc, op.arity())?;
    Ok(Some(a.build(alloc, op, operands, &at)?))
}

/// A part of a value, where it is built by the operator with these keys.
fn part_of<A: Algebra>(
    alloc: Global,
    a: &A,
    op: Op,
    j: u16,
    mut by: Vec<A::Value>,
    of: A::Value,
) -> Result<Option<A::Value>, NoMemory>
    requires { IsTrue ((A.meaning a.now).has op) }
    ensures { IfOk result (λ v. v ≡ part_if (A.meaning a.now) op j by.items of) }
{
    if by.len() != op.keys() as usize {
        return Ok(None);
    }
    let at = places(alloc, op.keys())?;
    by.push(of)?;
    let Some(mut parts) = a.undo(alloc, op, &by, &at, u32::from(op.keys()))? else {
        return Ok(None);
    };
    if usize::from(j) < parts.len() {
        Ok(Some(parts.swap_remove(usize::from(j))))
    } else {
        Ok(None)
    }
}

/// The values of recipes, where each has one.
#[cycle(eval)]
fn eval_all<A: Algebra>(
    alloc: Global,
    a: &A,
    labels: &[A::Value],
    recipes: &Vec<Recipe>,
) -> Result<Option<Vec<A::Value>>, NoMemory>
    requires { HasEach (A.meaning a.now).has (recipes_of recipes.now.items) }
    ensures { IfOk result (λ vs.
        option_map (λ v. v.items) vs
        ≡ values (A.meaning a.now) labels.now (recipes_of recipes.now.items)) }
{
    let mut table = Vec::new(alloc);
    for r in recipes {
        match eval(alloc, a, labels, r)? {
            Some(v) => table.push(v)?,
            None => return Ok(None),
        }
    }
    Ok(Some(table))
}

/// The first places, in order.
fn places(alloc: Global, count: u16) -> Result<Vec<u32>, NoMemory>
    ensures { IfOk result (λ v. v.items ≡ first_places count) }
{
    let mut at = Vec::new(alloc);
    for i in 0..count {
        at.push(u32::from(i))?;
    }
    Ok(at)
}
