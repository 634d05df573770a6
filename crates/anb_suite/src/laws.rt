//! Laws of codes that read one value for another, each a function that does nothing.
ghost use Rattle.anb_suite.specs.Reading.{OneForOtherDiffers, OneForOtherGoesOn, OneForOtherStops};

use anb_probe::{differs_in_place, less_goes_on, stops_there};
use anb_term::Algebra;

/// A program that lacks a check may use one of its two values for the other behind it, in what it sends
/// and in what it compares later. Over the values of the case of such a code it goes on to its end; and
/// the code that has the check, and reads both, stops there where the values of its two sides differ.
pub fn one_for_other<A: Algebra>(a: &A)
    ensures goes_on { OneForOtherGoesOn (A.meaning a.now) }
    ensures stops { OneForOtherStops (A.meaning a.now) }
    ensures in_place { OneForOtherDiffers (A.meaning a.now) }
{
    less_goes_on(a);
    stops_there(a);
    differs_in_place(a);
}
