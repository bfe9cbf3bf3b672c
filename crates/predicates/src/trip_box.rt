// Trips whose van, day, second and metres each lie in a range.
ghost use Rattle.std.specs.Prelude.{◌≡◌, ◌≤◌, MatchResult};
ghost use Rattle.predicates.specs.BoxLimits.{BoxLimits};
ghost use Rattle.predicates.specs.Intervals.{Spans};

use crate::BadPredicate;
use crate::interval::Interval;

mod judge;

#[derive(Clone, Copy)]
pub struct TripBox {
    van: Interval,
    day: Interval,
    second: Interval,
    metres: Interval,
    ghost limits: { BoxLimits van day second metres },
}

impl TripBox {
    // The box of these ranges; refused exactly where one leaves its field.
    pub fn new(
        van: Interval,
        day: Interval,
        second: Interval,
        metres: Interval,
    ) -> Result<TripBox, BadPredicate>
        ensures { MatchResult result (λ b. (b.van ≡ van) × (b.day ≡ day) × (b.second ≡ second) × (b.metres ≡ metres)) (λ _. (BoxLimits van day second metres → ⊥)) }
    {
        if van.low() < 1
            || van.high() > 9_999
            || day.high() > 36_524
            || second.high() > 86_399
            || metres.high() > 2_000_000
        {
            return Err(BadPredicate);
        }
        Ok(TripBox {
            van,
            day,
            second,
            metres,
        })
    }

    // The box of all trips on these days: every other range is the whole of its field. Refused exactly where
    // the first day is after the last, or the last is no day of a trip.
    pub fn on_days(low: u32, high: u32) -> Result<TripBox, BadPredicate>
        ensures { MatchResult result (λ b. Spans b.van 1 9999 × Spans b.day low high × Spans b.second 0 86399 × Spans b.metres 0 2000000) (λ _. ((low ≤ high) × (high ≤ 36524) → ⊥)) }
    {
        let van = Interval::new(1, 9_999)?;
        let day = Interval::new(low, high)?;
        let second = Interval::new(0, 86_399)?;
        let metres = Interval::new(0, 2_000_000)?;
        TripBox::new(van, day, second, metres)
    }
}
