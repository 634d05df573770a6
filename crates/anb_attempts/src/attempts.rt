//! What is tried of a role.
use anb_spoil::Wrong;
use anb_term::Term;
use anb_verdict::{Missing, Place, Title};

/// How many attempts there are at most.
pub const MOST: usize = 4_096;

/// What a role hears in some attempts, and which of its terms is made wrong. Terms are over the names
/// and, behind these, one spare name.
#[derive(Drop)]
pub struct Scene {
    /// What arrives, in order.
    pub arrivals: Vec<Term>,
    /// What is said over these arrivals by who goes on to the end, in order.
    pub messages: Vec<Term>,
    /// The term of which a wrong value is made for the spare name, where there is one: the narrated one in
    /// whose place that stands; or for a false tag a format of the protocol that has it and its key.
    pub right: Option<Term>,
    /// The event at which the role stops whatever the wrong value is, if it isn't the right one, and
    /// whatever the role draws; where that is known.
    pub due: Option<u32>,
}

/// One attempt.
#[derive(Drop)]
pub struct Attempt {
    /// The number of its scene, from 0.
    pub scene: usize,
    /// How the right value is made wrong. Where the scene has none it is of no account.
    pub wrong: Wrong,
    pub title: Title,
    /// What a program lacks that goes on.
    pub lacks: Option<Missing>,
}

/// Why something isn't tried.
#[derive(Clone, Copy, Debug, PartialEq, Eq, Drop)]
pub enum Why {
    /// A term of it is larger than a plan may have.
    Large,
    /// A check before it fails over what is made wrong.
    Before,
    /// What it opens doesn't arrive as a whole: the role makes it itself.
    Own,
    /// A check behind it fails, also where the right parts are taken.
    After,
}

/// What isn't tried.
#[derive(Drop)]
pub struct Gap {
    pub place: Place,
    pub why: Why,
}

/// All that is tried of a role.
#[derive(Drop)]
pub struct Suite {
    pub scenes: Vec<Scene>,
    /// In order. The first one is the honest one, of the first scene.
    pub attempts: Vec<Attempt>,
    pub gaps: Vec<Gap>,
    /// Whether there is more to try than `MOST` attempts.
    pub more: bool,
}

impl Why {
    ghost use Rattle.std.specs.Prelude.{◌≡◌};
    ghost use Rattle.anb_attempts.specs.Attempts.{why_words};

    /// As a report has it.
    pub fn words(self) -> &'static str
        ensures { result.now ≡ why_words self }
    {
        match self {
            Why::Large => "a term is too large",
            Why::Before => "a check before it fails then",
            Why::Own => "the role makes it itself",
            Why::After => "a check behind it fails then",
        }
    }
}
