//! Terms, recipes over labels, and what they are worth in any lawful algebra.
//!
//! A term is an atom, or an operator on terms. What a role can do with the values that it has is a
//! recipe: a label, an operator on recipes, or a part of a recipe that is undone with keys. One
//! definition of a recipe's value serves trees and bytes alike, and so does the question whether
//! values agree with the terms that they stand for (Almousa, Mödersheim and Viganò 2015).
#![tactic(auto)]

pub mod algebra;
pub mod laws;
pub mod recipe;
pub mod term;
pub mod trees;

pub use algebra::Algebra;
pub use recipe::{Recipe, eval};
pub use term::{Op, Term, Terms};
pub use trees::TermAlgebra;
