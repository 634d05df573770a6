//! What others can play to a role.
//!
//! A recording of another run is what came in a run in which the role drew other names. It's taken as
//! far as an event exactly where the patterns of what came until then have none of the names that the
//! role draws. The first event where it isn't is looked for by halves, so the patterns are made anew
//! about as often as the number of receives has binary digits, of half the plan on average.
#![tactic(auto)]

mod drawing;
mod laws;
mod recording;
mod said;

pub use laws::recordings_go_on;
pub use recording::{Recording, recording_of};
pub use said::{put_name, put_number, receives, said_of};
