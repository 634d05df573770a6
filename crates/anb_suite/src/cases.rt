//! Cases, and what is found of a check.
use anb_term::Term;

/// What arrives so that a code that lacks a check goes on to its end, and the code stops there. Terms
/// are over the names and, behind these, one spare name, which stands for a wrong value.
#[derive(Drop)]
pub struct Case {
    /// The number of the check's instruction, from 1.
    pub check: u32,
    /// The event at which the code stops, of its sends and receives from 1.
    pub event: u32,
    /// What arrives, in order.
    pub arrivals: Vec<Term>,
    /// What the code that lacks the check sends over these arrivals, in order.
    pub messages: Vec<Term>,
    /// The narrated term that the spare name stands in place of.
    pub wrong: Term,
    /// What the check compares: its first register.
    pub one: Term,
    /// Its second register.
    pub other: Term,
}

/// What is found of a check.
#[derive(Drop)]
pub enum Finding {
    Case(Case),
    /// Whatever arrives, in terms: where all other checks hold, this one does.
    Implied,
}
