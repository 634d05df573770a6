//! The command that says where and why a narration is refused, or reports on its roles. It reads
//! nothing from the wire.
#![tactic(auto)]

mod asking;
mod blindness;
mod checking;
mod choices;
mod finding;
mod laws;
mod order;
mod part;
mod verdict;

pub use checking::check;
pub use finding::check_values;
pub use laws::lack_texts_are_one;
