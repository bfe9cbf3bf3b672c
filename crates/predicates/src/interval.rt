// Numbers from `low` to `high`, both ends included.
ghost use Rattle.std.specs.Prelude.{◌≡◌, ◌≤◌, MatchResult};

use crate::BadPredicate;

mod meaning;
mod relations;

pub use meaning::{is_part_of, share_none};

// A type of its own: std's `RangeInclusive` is not `Copy`, and its ends may be out of order.
#[derive(Clone, Copy)]
pub struct Interval {
    low: u32,
    high: u32,
    ghost ordered: { low ≤ high },
}

impl Interval {
    // The range of these ends; refused exactly where the low one is above the high one.
    pub fn new(low: u32, high: u32) -> Result<Interval, BadPredicate>
        ensures { MatchResult result (λ i. (i.low ≡ low) × (i.high ≡ high)) (λ _. (low ≤ high → ⊥)) }
    {
        if low > high {
            return Err(BadPredicate);
        }
        Ok(Interval { low, high })
    }

    pub fn low(&self) -> u32
        ensures { result ≡ self.now.low }
    {
        self.low
    }

    pub fn high(&self) -> u32
        ensures { result ≡ self.now.high }
    {
        self.high
    }
}
