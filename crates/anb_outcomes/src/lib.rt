//! What statuses tell of work in crates above: why a text with a choice is refused, why a code is
//! not certified, and what a rehearsal comes to.
#![tactic(auto)]

mod certificates;
mod choices;
mod rehearsals;

pub use certificates::CertifyNo;
pub use choices::BranchNo;
pub use rehearsals::{Messages, Report};
