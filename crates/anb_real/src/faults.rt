//! Counts of faults.

ghost use Rattle.std.specs.Prelude.{◌≤◌};
ghost use Rattle.anb_base.specs.Moves.{Rose};

/// A count after one more fault, which stays at the last value of a `u64`.
pub(crate) fn one_more(count: u64) -> u64
    ensures rose { Rose count result }
    ensures never_falls { count ≤ result }
{
    count.saturating_add(1)
}
