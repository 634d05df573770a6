//! What a test suite for one role may try: for each check of its code a case, and what holds of cases.
//!
//! A check is a comparison of two registers. Its case is what arrives so that everything goes well but
//! this check: a code that lacks it goes on to its end, and the code itself stops there. It is said in
//! terms, over the names and one spare name, which stands for a wrong value. What has the wrong value
//! under a seal, a keyed hash or a key is built of it, so no other check stops a program that lacks
//! this one. The laws say so of bytes, for all values and draws, and trust no hash.
#![tactic(auto)]

mod examples;
mod laws;

pub use examples::{
    chain_has_its_case, kerberos_has_its_case, mutual_has_its_case, nssk_has_its_case,
    second_is_implied,
};
pub use laws::{differs_in_place, less_goes_on, stops_there};
