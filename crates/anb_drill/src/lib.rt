//! What holds of drills: their narrations are well formed, their roles can send all messages, and
//! honest roles do all of them in the drill's turns.
#![tactic(auto)]

mod laws;

pub use laws::{
    drills_are_done, drills_are_well_formed, drills_ask_for, drills_can_be_sent,
    drills_have_two_roles,
};
