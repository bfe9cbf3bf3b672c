// How ranges lie to numbers and to each other.
ghost use Rattle.std.specs.Prelude.{◌≡◌};
ghost use Rattle.predicates.specs.Intervals.{has, separate, encloses};

use super::Interval;

impl Interval {
    pub fn contains(&self, n: u32) -> bool
        ensures { result ≡ has self.now n }
    {
        (self.low..=self.high).contains(&n)
    }

    pub fn is_disjoint(&self, other: &Interval) -> bool
        ensures { result ≡ separate self.now other.now }
    {
        self.high < other.low || other.high < self.low
    }

    pub fn encloses(&self, other: &Interval) -> bool
        ensures { result ≡ encloses self.now other.now }
    {
        self.low <= other.low && other.high <= self.high
    }
}
