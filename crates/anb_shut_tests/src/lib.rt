//! Worked examples of shut lists. The tests are the examples.
#![tactic(auto)]

#[cfg(test)]
mod lists;
