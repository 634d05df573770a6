//! What a test suite tells: each program that lacks a check of its role.
//!
//! Laws alone. A child may run the role's code less some checks, whichever these are. Where one of
//! them has a case in which it is known that the role stops, each attempt in that case's scene
//! calls the child wrong: the partner refuses nothing of what it says, the talk comes to its end,
//! and the messages or the status there show that it went on. So it is where that isn't known, if
//! the bytes of the check's two sides differ and what the role made by then can be told. And each
//! check of the code has such a scene in the suite, but where the others imply it, a term is too
//! large, or there is no more room.
#![tactic(auto)]

mod laws;

pub use laws::{checks_are_tried, mutants_are_seen, mutants_are_told};
