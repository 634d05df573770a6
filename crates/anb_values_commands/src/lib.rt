//! Commands that write values files: for a whole narration, and for one of its roles.
#![tactic(auto)]

mod drawing;
mod owning;

pub use drawing::values;
pub use owning::{first_long, long_value, own_text, own_text_of, role_values, values_for};
