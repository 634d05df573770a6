//! Who is told what went over the pipes of each case.

ghost use Rattle.std.specs.Prelude.{[], ◌∷◌, ◌++◌, ◌<◌, List};
ghost use Rattle.anb_attempts.specs.declared.attempts.TheConstants.{MOST};
ghost use Rattle.anb_probe_commands.specs.Keeping.{Told, told};

use anb_transcript::TranscriptLine;

/// Who is told of each case once it is over. Nothing that comes of this holds a test up.
pub(crate) trait Keeper {
    /// What it may become once it was told these, in their order.
    ghost After: { Self → List Told → Self → Type 0 };

    /// The child of the case with this number, from 0, heard and said this.
    fn keep(&mut self, case: u32, lines: &[TranscriptLine])
        requires { case < MOST }
        ensures { After self.old (told case lines.now ∷ []) self.new };

    /// Where it is told nothing it stays as it is.
    ghost stays: { (x : Self) → After x [] x };

    /// What it may become by some, and then by more, it may become by all of them.
    ghost joined: { (x y z : Self) (some more : List Told)
        → After x some y → After y more z → After x (some ++ more) z };
}

/// Nobody: a test that isn't recorded.
#[derive(Clone, Copy, Drop)]
pub(crate) struct NoKeeper;

impl Keeper for NoKeeper {
    ghost After = { λ x some y. Unit {0} };

    ghost stays = { λ x. tt };

    ghost joined = { λ x y z some more one two. tt };

    fn keep(&mut self, _case: u32, _lines: &[TranscriptLine]) {}
}
