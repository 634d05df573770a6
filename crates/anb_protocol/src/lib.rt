//! Protocols: narrations whose names, sorts and counts are right, and the plans of their roles.
//!
//! A role's plan is one sequence of events (Caleiro, Viganò and Basin 2006): what it knows, what it
//! makes, sends and receives. When a play of a plan goes on and what it sends is said over recipes
//! (Almousa, Mödersheim and Viganò 2015).
#![tactic(auto)]

mod faults;
mod laws;
mod parts;
mod plans;
mod protocol;
mod refusals;
mod roles;
mod seen;
mod texts;

pub use laws::{
    honest_agrees, known_texts_differ, made_is_new, plans_know_first, play_is_one, play_is_there,
    protocols_hold, terms_of_plans,
};
pub use parts::{Action, Atom, Parts};
pub use plans::{Event, Names, Plan};
pub use protocol::Protocol;
pub use refusals::{Item, Kind, ResolveNo};
