//! A transcript that is followed in a session.
ghost use Rattle.std.specs.Prelude.{Some, false};
ghost use Rattle.anb_base.specs.declared.place.Place.TheVariants as place;
ghost use Rattle.anb_words.specs.Words.{files_of};
ghost use Rattle.anb_command.specs.Causes.{HasCause, NoneRose};
ghost use Rattle.anb_command.specs.Fetches.{Fetches};
ghost use Rattle.anb_command.specs.Reaches.{Reaches};
ghost use Rattle.anb_command.specs.Reported.{TellsFaults};
ghost use Rattle.anb_command.specs.Touches.{Touches};
ghost use Rattle.anb_status.specs.Statuses.{phase_of};
ghost use Rattle.anb_session_commands.specs.Asking.{following};
ghost use Rattle.anb_session_commands.specs.SessionCommand.{CompletesInSession, DoesInSession};
ghost use Rattle.anb_session_commands.specs.Words.{without_session};

use crate::words::SessionWords;
use anb_base::{Shelf, Wire};
use anb_command::Status;
use anb_role_commands::replay;
use anb_trace_commands::trace;
use std::alloc::Global;

/// Compares the transcript with the role's play in the session, or traces that play over its arrivals.
pub fn follow<F: Shelf, W: Wire>(
    alloc: Global,
    shelf: &mut F,
    wire: &mut W,
    words: SessionWords,
    host_seed: Option<[u8; 32]>,
) -> Status
    ensures does { DoesInSession (F.files shelf.old) host_seed
        (W.state wire.old) (W.state wire.new) result (following words.entry) }
    ensures completes { NoneRose (files_of (Some (without_session (following words.entry))))
        (F.faults shelf.old) (F.faults shelf.new) (W.state wire.old) (W.state wire.new)
        → CompletesInSession (F.files shelf.old) host_seed
        (W.state wire.old) (W.state wire.new) result (following words.entry) }
    ensures faults { HasCause (files_of (Some (without_session (following words.entry))))
        (Some place.Stdio) (F.faults shelf.old) (F.faults shelf.new)
        (W.state wire.old) (W.state wire.new) result }
    ensures reported { TellsFaults (F.faults shelf.old) (F.faults shelf.new)
        (W.state wire.old) (W.state wire.new) result }
    ensures fetches { Fetches (files_of (Some (without_session (following words.entry))))
        (F.files shelf.old) (F.files shelf.new) (F.faults shelf.old) (F.faults shelf.new) }
    ensures reached { Reaches (Some place.Stdio) (phase_of result)
        (W.state wire.old).reached (W.state wire.new).reached }
    ensures touches { Touches false (phase_of result) (W.state wire.old) (W.state wire.new) }
{
    match words {
        SessionWords::Replay(words, session) => {
            replay(alloc, shelf, wire, words, session, host_seed)
        }
        SessionWords::Trace(words, session) => trace(alloc, shelf, wire, words, session, host_seed),
    }
}
