//! Narrations as texts: what a narration is, the tokens of a text, and the canonical text.
//!
//! A narration tells a protocol in Alice-and-Bob style (Caleiro, Viganò and Basin 2006): the types of
//! the names, the formats, what each role knows, and the messages in order.
#![tactic(auto)]

mod laws;
mod narration;
mod tokens;
mod words;
mod writing;

pub use laws::{canonical_is_text, literals_are_tokens, tokens_are_unique};
pub use narration::{ActionItem, FormatItem, KnowItem, Narration, Sort, Tree, TypeItem};
pub use tokens::{Next, Token, TokenKind, next_token};
pub use words::{is_name, kind_of_word, name_text, suite_of_word};
pub use writing::{put_piece, text_of};
