//! Laws of cases, each a function that does nothing.
ghost use Rattle.anb_probe.specs.Laws.{DiffersInPlace, LessGoesOn, StopsThere};

use anb_plays::laws::honest_agree;
use anb_term::Algebra;
use anb_term::laws::demands_hold;

/// Whatever the values of names and of the spare name are: over the values of the case of a check a
/// code that lacks this check, and maybe others, goes on to its end.
pub fn less_goes_on<A: Algebra>(a: &A)
    ensures { LessGoesOn (A.meaning a.now) }
{
    honest_agree(a);
    demands_hold(a);
}

/// And the code itself stops at that check exactly where the values of its two sides differ.
pub fn stops_there<A: Algebra>(a: &A)
    ensures { StopsThere (A.meaning a.now) }
{
    honest_agree(a);
    demands_hold(a);
}

/// Where only formats and bodies of seals stand above the spare name, the code stops at the check for
/// every wrong value: whatever bytes it has, if not the right ones. No hash is trusted for that.
pub fn differs_in_place<A: Algebra>(a: &A)
    ensures { DiffersInPlace (A.meaning a.now) }
{
    honest_agree(a);
    stops_there(a);
}
