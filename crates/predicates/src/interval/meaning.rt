// What the tests on two ranges tell of the numbers in them. These stand apart from the tests, since a second promise on a test, over
// all numbers, would cost every caller its automatic proof.
ghost use Rattle.std.specs.Prelude.{Decides};
ghost use Rattle.predicates.specs.IntervalMeaning.{NoNumberInBoth, EachNumberIn};

use super::Interval;

// Whether no number lies in both.
#[tactic(auto, using(crate::proofs::Ranges::separate_exact))]
pub fn share_none(one: &Interval, other: &Interval) -> bool
    ensures { Decides result (NoNumberInBoth one.now other.now) }
{
    one.is_disjoint(other)
}

// Whether every number of the one lies in the other.
#[tactic(auto, using(crate::proofs::Ranges::encloses_exact))]
pub fn is_part_of(one: &Interval, other: &Interval) -> bool
    ensures { Decides result (EachNumberIn one.now other.now) }
{
    other.encloses(one)
}
