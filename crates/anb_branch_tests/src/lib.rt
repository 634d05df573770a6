//! Worked examples of texts with a choice. The tests are the examples.
#![tactic(auto)]

#[cfg(test)]
mod texts;
