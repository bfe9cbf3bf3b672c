// Kinds of row: what every kind promises, and the kinds at hand.
#![tactic(auto)]

pub mod hire;
pub mod row;
pub mod trip;

use thiserror::Error;

// A row outside the limits of its kind.
#[derive(Clone, Copy, PartialEq, Eq, Debug, Error)]
#[error("a row outside the limits of its kind")]
pub struct BadRow;

#[cfg(test)]
mod tests {
    use crate::hire::Hire;
    use crate::hire::state::HireState;
    use crate::row::Row;
    use crate::trip::Trip;
    use std::test::Fail;

    #[test]
    fn trips_within_their_limits(rt: HostRuntime) {
        assert!(rt; Trip::new(1, 0, 0, 0, 0).is_ok());
        assert!(rt; Trip::new(9_999, 36_524, 86_399, u32::MAX, 2_000_000).is_ok());
        assert!(rt; Trip::new(0, 0, 0, 0, 0).is_err());
        assert!(rt; Trip::new(10_000, 0, 0, 0, 0).is_err());
        assert!(rt; Trip::new(1, 36_525, 0, 0, 0).is_err());
        assert!(rt; Trip::new(1, 0, 86_400, 0, 0).is_err());
        assert!(rt; Trip::new(1, 0, 0, 0, 2_000_001).is_err());
    }

    #[test]
    fn trips_in_order(rt: HostRuntime) -> Result<(), Fail> {
        let early = Trip::new(7, 100, 3_600, 9, 5_000)?;
        let late = Trip::new(7, 100, 7_200, 0, 3_000)?;
        assert!(rt; early.compare(&late).is_lt());
        assert!(rt; late.compare(&early).is_gt());
        assert!(rt; early.compare(&early).is_eq());
        assert_eq!(rt; early.quantity(), 5_000);
        Ok(())
    }

    #[test]
    fn hires_within_their_limits(rt: HostRuntime) {
        let back = HireState::Back {
            first: 0,
            last: 36_524,
            metres: 500_000_000,
        };
        assert!(rt; Hire::new(9_999, 99_999, back).is_ok());
        assert!(rt; Hire::new(9_999, 100_000, back).is_err());
        assert!(rt; Hire::new(7, 1, HireState::Out { first: 36_525 }).is_err());
        assert!(rt; Hire::new(7, 1, HireState::Booked { first: 5, last: 5 }).is_ok());
        assert!(rt; Hire::new(7, 1, HireState::Booked { first: 5, last: 4 }).is_err());
    }

    #[test]
    fn hires_in_order(rt: HostRuntime) -> Result<(), Fail> {
        let booked = Hire::new(7, 1, HireState::Booked { first: 9, last: 9 })?;
        let out = Hire::new(7, 1, HireState::Out { first: 3 })?;
        let state = HireState::Back {
            first: 3,
            last: 4,
            metres: 900,
        };
        let back = Hire::new(7, 1, state)?;
        assert!(rt; booked.compare(&out).is_lt());
        assert!(rt; out.compare(&back).is_lt());
        assert_eq!(rt; out.quantity(), 0);
        assert_eq!(rt; back.quantity(), 900);
        Ok(())
    }
}
