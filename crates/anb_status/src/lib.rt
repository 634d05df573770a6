//! How commands end: statuses, their numbers, and the line of each on the error sink.
#![tactic(auto)]

mod line;
mod pieces;
mod status;

pub use line::tell;
pub use pieces::Pieces;
pub use status::{BranchNo, CertifyNo, Due, Halt, NarrationNo, ParkNo, Report, Status, ill_formed};
