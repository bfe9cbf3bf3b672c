// Kinds of predicate: what every kind promises, and the kinds at hand.
#![tactic(auto)]

pub mod both;
pub mod examples;
pub mod hire_window;
pub mod interval;
pub mod predicate;
pub mod state_set;
pub mod trip_box;

use thiserror::Error;

// A range with its low end above its high one or outside its field, or an empty set of states.
#[derive(Clone, Copy, PartialEq, Eq, Debug, Error)]
#[error("a range out of order or outside its field, or an empty set of states")]
pub struct BadPredicate;

#[cfg(test)]
mod tests {
    use crate::BadPredicate;
    use crate::both::Both;
    use crate::hire_window::HireWindow;
    use crate::interval::Interval;
    use crate::predicate::Predicate;
    use crate::state_set::StateSet;
    use crate::trip_box::TripBox;
    use rows::hire::Hire;
    use rows::hire::state::HireState;
    use rows::trip::Trip;
    use std::test::Fail;

    fn on_vans(low: u32, high: u32) -> Result<TripBox, BadPredicate> {
        let days = Interval::new(0, 36_524)?;
        let seconds = Interval::new(0, 86_399)?;
        let metres = Interval::new(0, 2_000_000)?;
        TripBox::new(Interval::new(low, high)?, days, seconds, metres)
    }

    fn window(states: StateSet, low: u32, high: u32) -> Result<HireWindow, BadPredicate> {
        HireWindow::new(Interval::new(7, 7)?, states, Interval::new(low, high)?)
    }

    #[test]
    fn boxes(rt: HostRuntime) -> Result<(), Fail> {
        let day = TripBox::on_days(100, 100)?;
        assert!(rt; day.apart(&TripBox::on_days(101, 101)?));
        assert!(rt; !TripBox::on_days(100, 101)?.apart(&TripBox::on_days(101, 105)?));
        assert!(rt; TripBox::on_days(90, 110)?.covers(&day));
        assert!(rt; !day.covers(&TripBox::on_days(90, 110)?));
        assert!(rt; day.holds(&Trip::new(7, 100, 3_600, 0, 5_000)?));
        assert!(rt; !day.holds(&Trip::new(7, 101, 3_600, 0, 5_000)?));
        assert!(rt; TripBox::on_days(101, 100).is_err());
        assert!(rt; TripBox::on_days(0, 36_525).is_err());
        assert!(rt; on_vans(0, 5).is_err());
        Ok(())
    }

    #[test]
    fn windows(rt: HostRuntime) -> Result<(), Fail> {
        let booked = StateSet::new(true, false, false)?;
        let out = StateSet::new(false, true, false)?;
        assert!(rt; !window(booked, 10, 12)?.apart(&window(booked, 20, 22)?));
        assert!(rt; window(out, 10, 12)?.apart(&window(out, 20, 22)?));
        assert!(rt; window(booked, 10, 12)?.apart(&window(out, 10, 12)?));
        let hire = Hire::new(7, 1, HireState::Booked { first: 5, last: 10 })?;
        assert!(rt; window(booked, 10, 12)?.holds(&hire));
        assert!(rt; !window(booked, 11, 12)?.holds(&hire));
        assert!(rt; StateSet::new(false, false, false).is_err());
        Ok(())
    }

    #[test]
    fn pairs(rt: HostRuntime) -> Result<(), Fail> {
        let some = Both {
            first: on_vans(1, 5)?,
            second: on_vans(4, 9)?,
        };
        let others = Both {
            first: on_vans(1, 3)?,
            second: on_vans(1, 9)?,
        };
        assert!(rt; !some.apart(&others));
        assert!(rt; some.holds(&Trip::new(4, 0, 0, 0, 0)?));
        assert!(rt; !others.holds(&Trip::new(4, 0, 0, 0, 0)?));
        Ok(())
    }
}
