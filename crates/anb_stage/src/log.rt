//! Where a relay tells of each message as it goes on.

ghost use Rattle.std.specs.Prelude.{[], ◌∷◌, ◌++◌, List};
ghost use Rattle.anb_stage.specs.Notes.{Note, heard_note, said_note};

/// What is told of what children say and hear. Nothing that it does holds a relay up.
pub trait Log {
    /// What it may become once these notes came, in their order.
    ghost After: { Self → List Note → Self → Type 0 };

    /// A role's child said the message of this action.
    fn said(&mut self, action: u32, role: u32, bytes: &[u8])
        ensures { After self.old (said_note action role bytes.now ∷ []) self.new };

    /// A role's child was handed all of it.
    fn heard(&mut self, action: u32, role: u32, bytes: &[u8])
        ensures { After self.old (heard_note action role bytes.now ∷ []) self.new };

    /// Without a note it stays as it is.
    ghost stays: { (x : Self) → After x [] x };

    /// What it may become by some notes, and then by more, it may become by all of them.
    ghost joined: { (x y z : Self) (some more : List Note)
        → After x some y → After y more z → After x (some ++ more) z };
}

/// The log of a relay that tells nobody.
#[derive(Clone, Copy, Drop)]
pub struct NoLog;

impl Log for NoLog {
    ghost After = { λ x notes y. Unit {0} };

    ghost stays = { λ x. tt };

    ghost joined = { λ x y z some more one two. tt };

    fn said(&mut self, _action: u32, _role: u32, _bytes: &[u8]) {}

    fn heard(&mut self, _action: u32, _role: u32, _bytes: &[u8]) {}
}
