//! Cases of openings, and what is found of an opening.
use anb_term::Term;

/// What arrives so that the code stops at an opening, and a program that takes the narrated parts there
/// goes on to its end. Terms are over the names and, behind these, one spare name.
#[derive(Drop)]
pub struct OpeningCase {
    /// The number of the opening's instruction, from 1.
    pub instruction: u32,
    /// The event at which the code stops, of its sends and receives from 1.
    pub event: u32,
    /// What arrives, in order.
    pub arrivals: Vec<Term>,
    /// What a program sends over these arrivals that takes the narrated parts, in order.
    pub messages: Vec<Term>,
    /// The narrated term that is opened, in whose place the spare name stands.
    pub opened: Term,
}

/// What is in the way of a case.
#[derive(Clone, Copy, Debug, PartialEq, Eq, Drop)]
pub enum Obstacle {
    /// The code stops before the opening, at the instruction of this number: what is to be opened is
    /// opened there too, or compared with what the code makes itself.
    Earlier(u32),
    /// The opening finds another term than the spare name: what it opens didn't arrive as it is.
    OwnTerm,
    /// Who takes the narrated parts stops behind the opening, at the instruction of this number: what
    /// was to be opened is opened there again, or compared.
    Later(u32),
}

/// An opening that has no case.
#[derive(Drop)]
pub struct NoCase {
    /// The number of the opening's instruction, from 1.
    pub instruction: u32,
    /// How many sends and receives stand before it.
    pub event: u32,
    /// What would arrive, in order.
    pub arrivals: Vec<Term>,
    /// The narrated term that is opened.
    pub opened: Term,
    pub why: Obstacle,
}

/// What is found of an opening.
#[derive(Drop)]
pub enum OpeningFinding {
    Case(OpeningCase),
    NoCase(NoCase),
}
