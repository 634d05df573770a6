//! Worked examples of terms: closures and checks. The tests are the examples.
#![tactic(auto)]

#[cfg(test)]
mod checks;
#[cfg(test)]
mod closures;
#[cfg(test)]
mod notation;
