//! Reads narrations: a text is read exactly where it is written by the grammar, and else refused at the
//! first place from which no narration goes on.
#![tactic(auto)]

mod expecting;
mod grammar;
mod items;
mod lists;
mod places;
mod reader;
mod refusal;
mod sections;
mod single;
mod terms;

pub use expecting::{expected, expected_are_unique};
pub use grammar::GrammarWord;
pub use reader::{each_is_either, narrations_are_unique, none_is_both, read, refusals_are_unique};
pub use refusal::ReadNo;
