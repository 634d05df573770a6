//! Laws of cases of openings, each a function that does nothing.
ghost use Rattle.anb_openings.specs.Laws.{ShutStops, TakenGoesOn, SpoiltStops, FalseSealStops, FalseWrapStops, RetaggedSealStops, RetaggedWrapStops};

use anb_plays::laws::{exec_is_run, honest_agree};
use anb_term::Algebra;

/// A law: whatever the values are, over the values of the case of an opening the code stops there, where
/// the value of the spare name can't be opened with the narrated keys.
pub fn shut_stops<A: Algebra>(a: &A)
    ensures { ShutStops (A.meaning a.now) }
{
    exec_is_run(a);
    honest_agree(a);
}

/// A law: whatever the values are, a program that takes the narrated parts there, and is the code else,
/// goes on to its end.
pub fn taken_goes_on<A: Algebra>(a: &A)
    ensures { TakenGoesOn (A.meaning a.now) }
{
    honest_agree(a);
}

/// A law: bytes of a format that are spoilt in the way of a row stop the code where it parses them.
pub fn spoilt_stops()
    ensures { SpoiltStops }
{}

/// A law: so do sealed bytes with a false tag, where it unseals them.
pub fn false_seal_stops()
    ensures { FalseSealStops }
{}

/// A law: and wrapped ones, where it unwraps them.
pub fn false_wrap_stops()
    ensures { FalseWrapStops }
{}

/// A law: and so do bytes with a false tag that are made of the sealed ones and their key, as the first
/// two parts of a value of a format.
pub fn retagged_seal_stops()
    ensures { RetaggedSealStops }
{}

/// A law: and the same of wrapped ones.
pub fn retagged_wrap_stops()
    ensures { RetaggedWrapStops }
{}
