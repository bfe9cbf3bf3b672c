// A trip: van, day, second, cell, metres.
ghost use Rattle.std.specs.Prelude.{◌≡◌};
ghost use Rattle.scripts.specs.Trips.{trip_numbers, trip_valid};
ghost use Rattle.scripts.specs.declared.fault.Cause.TheVariants.{Row};

use crate::fault::Cause;
use crate::item::Item;
use rows::BadRow;
use rows::trip::Trip;

// By hand, as a derive would not say what it gives.
impl From<BadRow> for Cause {
    ghost from_gives = { λ _ c. c ≡ Row };

    fn from(_: BadRow) -> Cause {
        Cause::Row
    }
}

impl Item<5> for Trip {
    ghost numbers = { trip_numbers };

    ghost valid = { trip_valid };

    ghost fault = { Row };

    fn make(words: &[u32; 5]) -> Result<Trip, Cause> {
        let [van, day, second, cell, metres] = *words;
        Ok(Trip::new(van, day, second, cell, metres)?)
    }
}
