//! Which calls of a wire or a shelf in memory fail, and counts of faults.

ghost use Rattle.std.specs.Prelude.{◌≡◌, ◌≤◌, ◌^◌, ◌-◌};
ghost use Rattle.anb_base.specs.Memory.{raised, fails_after};
ghost use Rattle.anb_base.specs.Moves.{Rose};

/// How many calls came so far, and the numbers from 1 of those that fail.
#[derive(Debug, Drop)]
pub(crate) struct Calls {
    pub(crate) count: u64,
    pub(crate) fails: Vec<u32>,
}

impl Calls {
    pub(crate) fn new(fails: Vec<u32>) -> Self
        ensures count { result.count ≡ 0 }
        ensures fails { result.fails.items ≡ fails.items }
    {
        Calls { count: 0, fails }
    }

    /// Counts the call that comes now, and says whether it fails.
    pub(crate) fn next_fails(&mut self) -> bool
        ensures fails { result ≡ fails_after self.old.count self.old.fails.items }
        ensures counted { self.new.count ≡ raised self.old.count }
        ensures same { self.new.fails.items ≡ self.old.fails.items }
    {
        self.count = one_more(self.count);
        let number = self.count;
        self.fails.iter().any(|fails| u64::from(*fails) == number)
    }
}

/// A count after one more fault, which stands at its last value once it is there.
pub(crate) fn one_more(count: u64) -> u64
    ensures raised { result ≡ raised count }
    ensures rose { Rose count result }
    ensures never_falls { count ≤ result }
{
    count.saturating_add(1)
}
