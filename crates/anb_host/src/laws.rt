//! Laws of what hosts read and tell.

ghost use Rattle.std.specs.Prelude.{ℕ};
ghost use Rattle.anb_plays.specs.Plays.{Run};
ghost use Rattle.anb_host.specs.HostFrames.{HasFrames, HasOneReading};
ghost use Rattle.anb_host.specs.Alone.{SessionsAreAlone};
ghost use Rattle.anb_host.specs.Own.{IsIsolated};

/// Law: whatever the sessions play, each is told what it would be told alone.
pub fn sessions_are_isolated()
    ensures { (plays : ℕ → Run) → IsIsolated plays }
{}

/// Law: each input is the frames of some events and a tail, in exactly one way.
pub fn inputs_have_one_reading()
    ensures exists { HasFrames }
    ensures unique { HasOneReading }
{}

/// Law: where plays grow, the messages that a session is told, joined, are what its play, alone,
/// sends over the arrivals that it accepted, and it is told that play's end.
pub fn sessions_are_alone()
    ensures { SessionsAreAlone }
{}
