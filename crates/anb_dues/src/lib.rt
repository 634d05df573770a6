//! What is known of the attempts of a suite: where the role stops, it stops in every attempt.
//!
//! Laws alone. The suite of a role says of each scene at which event the role stops, where that is known.
//! Here it is proved of every attempt that is made on a program in such a scene: whatever the role draws,
//! and whatever bytes its names have, no run of it goes on over that event; and the role hears something
//! there. So the laws on verdicts hold of attempts of a suite without that premise. And the partner
//! refuses no message of a program that plays the role: where the role is known to stop, the program
//! stops there, if it stops; and else the code says no other messages than the scene's, also where the
//! two sides of a check have the same bytes. Only where sealed bytes are changed may the program go
//! on, since a tag may fit by chance.
#![tactic(auto)]

mod laws;

pub use laws::{dues_are_known, lax_programs_are_told, right_programs_pass, values_are_of_names};
