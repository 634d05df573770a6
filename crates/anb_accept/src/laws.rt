//! Laws of patterns.
ghost use Rattle.anb_accept.specs.Laws.{FreeIsUnchecked, InstancesGoOn, PatternsAreOne, PatternsAreUnique};

use anb_plays::laws::honest_agree;
use anb_term::Algebra;
use anb_term::laws::one_value_is_given;

/// Whatever the values of names and variables are, a role's play over the values of the patterns goes
/// on to the end.
pub fn instances_go_on<A: Algebra>(a: &A)
    ensures { InstancesGoOn (A.meaning a.now) }
{
    honest_agree(a);
    one_value_is_given(a);
}

/// Patterns are one up to the names of their variables.
pub fn patterns_are_one()
    ensures { PatternsAreOne }
{}

/// Where their variables are numbered in order, a role has one list of patterns.
pub fn patterns_are_unique()
    ensures { PatternsAreUnique }
{}

/// A part of arrivals may be anything, whatever else comes, exactly where a variable stands that
/// stands nowhere else.
pub fn free_is_unchecked()
    ensures { FreeIsUnchecked }
{}
