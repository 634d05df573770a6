//! What a conversation in a case says of the tested program, and the lines of the report.
//!
//! A program plays a role against one partner, who plays all others, over arrivals one of which may be
//! spoilt. Who sees the role (anb_judge) says where it must stop over these arrivals, whatever it drew;
//! by that, by what came behind and by its end the verdict is made. A line is `ok` exactly where all
//! that was seen is what the role does for some draws. Lines are those of the Test Anything Protocol,
//! version 13.
#![tactic(auto)]

mod finding;
mod judging;
mod laws;
mod lines;
mod missing;
mod notes;
mod others;
mod place;
mod places;
mod seen;
mod title;
mod titles;
mod verdict;

pub use finding::place_of;
pub use judging::{judge_case, reached_by, verdict_of};
pub use laws::lines_are_exact;
pub use lines::{case_lines, first_lines, last_line, no_such_case};
pub use missing::{Missing, Other, missing_line, not_tried_line, same_line, twin_line};
pub use others::other_of;
pub use place::Place;
pub use places::{operand_text, part_text};
pub use seen::{Ended, Seen};
pub use title::Title;
pub use verdict::Verdict;
