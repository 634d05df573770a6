//! What can be asked of the program about itself: the overview, the version, and a page on each command.
#![tactic(auto)]

mod pages;

pub use pages::{Page, page_of};
