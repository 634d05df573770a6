//! What plans and codes mean, over any lawful algebra, and the laws between them.
//!
//! A plan says what a role is to do, in terms; a code says how, in registers. The play of a plan
//! goes on exactly while the values that the role has agree with their terms, and the run of a code
//! while its own few demands hold. A code that fits a plan has the plan's play as its run.
#![tactic(auto)]

pub mod laws;
