//! Laws of recorded plays.
ghost use Rattle.anb_record_commands.specs.Laws.{RecordedArmsReplay, RecordedPlaysReplay, RecordedSessionsReplay};

use anb_branch::arms_know_alike;
use anb_branch_commands::arms_are_narrations;
use anb_recording::written_lines_are_read;

/// Law: `replay` of what was recorded of a play ends as the play did.
pub fn recorded_plays_replay()
    ensures { RecordedPlaysReplay }
{
    written_lines_are_read();
}

/// Law: `replay` of what was recorded of `branch`, with the narration of the arm that was taken, ends as
/// the play did.
pub fn recorded_arms_replay()
    ensures { RecordedArmsReplay }
{
    written_lines_are_read();
    arms_are_narrations();
    arms_know_alike();
}

/// Law: a session of a host that was recorded is replayed to its end.
pub fn recorded_sessions_replay()
    ensures { RecordedSessionsReplay }
{
    written_lines_are_read();
}
