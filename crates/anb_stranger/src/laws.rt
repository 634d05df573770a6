//! Laws of what a stranger makes.
ghost use Rattle.anb_stranger.specs.Laws.{HeardArePatterns, StrangersArePlayed};

use anb_plays::laws::honest_agree;
use anb_term::Algebra;
use anb_term::laws::one_value_is_given;

/// Where a stranger can make, as terms, what comes at the first events of the most general conversation,
/// he can make its values too, whatever the values of names are, and the role's play over them goes on
/// to its end.
pub fn strangers_are_played<A: Algebra>(a: &A)
    ensures { StrangersArePlayed (A.meaning a.now) }
{
    honest_agree(a);
    one_value_is_given(a);
}

/// What is heard in the most general conversation are the role's patterns.
pub fn heard_are_patterns()
    ensures { HeardArePatterns }
{}
