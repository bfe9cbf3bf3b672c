// A box: the low and the high end of its ranges on van, day, second and metres.
ghost use Rattle.std.specs.Prelude.{◌≡◌};
ghost use Rattle.scripts.specs.Boxes.{box_numbers, box_valid};
ghost use Rattle.scripts.specs.declared.fault.Cause.TheVariants.{Predicate};

use crate::fault::Cause;
use crate::item::Item;
use predicates::BadPredicate;
use predicates::interval::Interval;
use predicates::trip_box::TripBox;

// By hand, as a derive would not say what it gives.
impl From<BadPredicate> for Cause {
    ghost from_gives = { λ _ c. c ≡ Predicate };

    fn from(_: BadPredicate) -> Cause {
        Cause::Predicate
    }
}

impl Item<8> for TripBox {
    ghost numbers = { box_numbers };

    ghost valid = { box_valid };

    ghost fault = { Predicate };

    fn make(words: &[u32; 8]) -> Result<TripBox, Cause> {
        // By index: a pattern of eight names takes ten lines.
        let van = Interval::new(words[0], words[1])?;
        let day = Interval::new(words[2], words[3])?;
        let second = Interval::new(words[4], words[5])?;
        let metres = Interval::new(words[6], words[7])?;
        Ok(TripBox::new(van, day, second, metres)?)
    }
}
