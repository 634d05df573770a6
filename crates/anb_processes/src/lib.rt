//! Child programs of the machine, one for each role of a stage or for each case of a test, where it may be
//! whoever is dialled in place of a program. They tell their phases alone, and count their faults.
#![tactic(auto)]

mod case;
mod child;
mod chosen;
mod counts;
mod dialled;
mod folder;
mod kept;
mod left_over;
mod notes;
mod pauses;
mod peer;
mod running;
mod spawner;
mod trials;
mod watcher;

pub use child::RealChild;
pub use chosen::child_program;
pub use spawner::{ChildProgram, RealSpawner};
pub use trials::RealTrials;
