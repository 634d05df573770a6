//! Laws of records in files, and of sessions in parts.
ghost use Rattle.anb_park_commands.specs.Laws.{AcceptedRecordsGoOn};
ghost use Rattle.anb_park_commands.specs.Splits.{SplitPlaysAreWhole};

use anb_base::ARRIVAL;
use anb_frame::one_cut;
use anb_protocol::{known_texts_differ, protocols_hold};
use anb_read::{narrations_are_unique, none_is_both, refusals_are_unique};
use anb_seal::seals_longer;
use anb_values::one_fit;

/// Law: a record that is accepted goes on, with the narration, the role and the key that it was
/// written under.
pub fn accepted_records_go_on()
    ensures { AcceptedRecordsGoOn }
{}

/// Law: `park` at any wait, and then `resume`, as often as one likes, write in all what `play` writes,
/// and end as it does. A record that is written is short enough to be read.
pub fn split_plays_are_whole()
    ensures { SplitPlaysAreWhole }
{
    narrations_are_unique();
    refusals_are_unique();
    none_is_both();
    one_fit();
    one_cut(ARRIVAL);
    seals_longer();
    protocols_hold();
    known_texts_differ();
}
