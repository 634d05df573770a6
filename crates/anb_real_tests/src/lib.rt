//! Worked examples of what the machine gives: wires over loopback, files, and child programs. The tests are the
//! examples.
#![tactic(auto)]

#[cfg(test)]
mod children;
#[cfg(test)]
mod trials;
#[cfg(test)]
mod wires;
