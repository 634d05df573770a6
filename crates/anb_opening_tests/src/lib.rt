//! Cases of openings of two protocols, and the rows of their formats, worked by hand.
#![tactic(auto)]

#[cfg(test)]
mod cases;
#[cfg(test)]
mod rows;
#[cfg(test)]
mod telling;
