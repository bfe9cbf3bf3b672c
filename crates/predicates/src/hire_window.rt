// Hires of a range of vans, in some states, around a range of days.
ghost use Rattle.std.specs.Prelude.{◌≡◌, MatchResult};
ghost use Rattle.predicates.specs.WindowLimits.{WindowLimits};

use crate::BadPredicate;
use crate::interval::Interval;
use crate::state_set::StateSet;

mod judge;

pub use judge::share_a_day;

#[derive(Clone, Copy)]
pub struct HireWindow {
    van: Interval,
    states: StateSet,
    day: Interval,
    ghost limits: { WindowLimits van day },
}

impl HireWindow {
    // The window of these parts; refused exactly where a range leaves its field.
    pub fn new(van: Interval, states: StateSet, day: Interval) -> Result<HireWindow, BadPredicate>
        ensures { MatchResult result (λ w. (w.van ≡ van) × (w.states ≡ states) × (w.day ≡ day)) (λ _. (WindowLimits van day → ⊥)) }
    {
        if van.low() < 1 || van.high() > 9_999 || day.high() > 36_524 {
            return Err(BadPredicate);
        }
        Ok(HireWindow { van, states, day })
    }
}
