//! A law on codes that fit.
ghost use Rattle.anb_compile.specs.Laws.{FittingCodesPlay};

use anb_algebra::ByteAlgebra;
use anb_plays::laws::runs_as_played;
use anb_protocol::{Protocol, made_is_new};

/// A law: the run of a code that fits a role of a protocol is the role's play, and its only one.
pub fn fitting_codes_play(p: &Protocol)
    ensures { FittingCodesPlay p.now }
{
    made_is_new();
    runs_as_played(&ByteAlgebra::new(p.formats(), p.suite()));
}
