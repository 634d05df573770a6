//! What a role drew in a conversation, and the values of the other names, as far as somebody who sees the
//! role can tell them.
//!
//! Who knows what a role knows, and sees all that it hears and says, has the value of a name where the
//! name can be had of all that. A program whose nonces don't change draws the same in two conversations,
//! and one that sends its key for a nonce draws what it has already: nothing else tells that, since each
//! of these conversations is the role's, for some draws.
#![tactic(auto)]

mod closing;
mod drawing;
mod draws;
mod laws;
mod names;
mod telling;

pub use drawing::drawn;
pub use draws::{Draws, value_in};
pub use laws::one_drawing;
pub use names::names_made;
