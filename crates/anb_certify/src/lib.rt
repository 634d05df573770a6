//! Certifying role codes that came from elsewhere.
#![tactic(auto)]

mod certifying;
mod classes;
mod firsts;
mod frames;
mod laws;
mod links;
mod progress;
mod rules;
mod signs;
mod table;
mod works;

pub use anb_outcomes::CertifyNo;
pub use certifying::certify;
pub use laws::{
    certified_fits, classes_are_tied, each_is_either, frames_follow, none_is_both,
    refusals_are_unique,
};
