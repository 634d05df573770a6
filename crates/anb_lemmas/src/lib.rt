//! Lemmas on lists, options and tests that std lacks and several crates need. No code.
#![tactic(auto)]
