//! Worked examples of bytes: formats, hashes and seals. The tests are the examples.
#![tactic(auto)]

#[cfg(test)]
mod formats;
#[cfg(test)]
mod seals;
#[cfg(test)]
mod values;
