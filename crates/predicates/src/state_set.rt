// A set of states of a hire, never empty. Three flags: sets of bits say in no contract which states they have.
ghost use Rattle.std.specs.Prelude.{◌≡◌, true, false, ◌||◌, MatchResult};

use crate::BadPredicate;

mod relations;

#[derive(Clone, Copy)]
pub struct StateSet {
    booked: bool,
    out: bool,
    back: bool,
    ghost inhabited: { (booked || (out || back)) ≡ true },
}

impl StateSet {
    // The set of these states; refused exactly where it is empty.
    pub fn new(booked: bool, out: bool, back: bool) -> Result<StateSet, BadPredicate>
        ensures { MatchResult result (λ s. (s.booked ≡ booked) × (s.out ≡ out) × (s.back ≡ back)) (λ _. (booked || (out || back)) ≡ false) }
    {
        if booked || out || back {
            Ok(StateSet { booked, out, back })
        } else {
            Err(BadPredicate)
        }
    }
}
