//! All that is tried of a program that plays one role, found before any program is started.
//!
//! The first attempt is the honest one. Then comes each comparison of the role's code behind its first
//! arrival, with a case over which a code that lacks it goes on (anb_suite), and behind these each
//! opening, with a case over which a program goes on that takes the right parts without looking at what
//! they stand in (anb_openings). What arrives has a spare name, and in its place stands a value that is
//! wrong in one way after the other (anb_spoil). What is at a place is told by the terms of the
//! narration, and so is what a program lacks that goes on.
//!
//! A program that lacks a comparison may use one of its two values for both in what follows. So each
//! comparison has up to two attempts more, over what such a program goes on with, where that differs.
//!
//! What is tried is a function of the narration, the role and its code alone: of no values, and of no
//! program. The time of one comparison is near-linear in the code and in the nodes of its registers'
//! terms.
#![tactic(auto)]

mod attempts;
mod changing;
mod checking;
mod differing;
mod heard;
mod inner;
mod opening;
mod parts;
mod placing;
mod points;
mod retagging;
mod scenes;
mod trying;
mod ways;

pub use attempts::{Attempt, Gap, MOST, Scene, Suite, Why};
pub use changing::changed_title;
pub use differing::differ_in_place;
pub use points::Point;
pub use trying::suite_of;
