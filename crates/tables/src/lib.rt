// The keeper's lists: the table of open jobs, and entries and functions of the lent lock table and undo log.
#![tactic(auto)]

pub mod coverage;
pub mod entries;
pub mod holders;
pub mod job_table;
pub mod ledger;
pub mod lent;
pub mod refusal;
pub mod undo;

#[cfg(test)]
mod tests {
    use crate::coverage::{may_read, may_write};
    use crate::entries::{Alteration, LockEntry, Mode};
    use crate::holders::gather;
    use crate::job_table::JobTable;
    use crate::lent::{drop_job, release};
    use crate::refusal::Refusal;
    use policies::class_then_age::ClassThenAge;
    use predicates::trip_box::TripBox;
    use rows::trip::Trip;
    use std::test::Fail;

    fn lock(job: u32, class: u8, number: u32, predicate: TripBox) -> LockEntry<TripBox> {
        LockEntry {
            job,
            class,
            number,
            mode: Mode::Write,
            predicate,
        }
    }

    fn number_at(locks: &[LockEntry<TripBox>], place: usize) -> Option<u32> {
        locks.get(place).map(|entry| entry.number)
    }

    #[test]
    fn jobs(rt: HostRuntime) -> Result<(), Fail> {
        let mut table = JobTable::new();
        assert_eq!(rt; table.open(3)?, 1);
        assert_eq!(rt; table.open(0)?, 2);
        assert_eq!(rt; table.turn(2)?, 1);
        assert_eq!(rt; table.turn(2), Err(Refusal::HasTurned));
        assert_eq!(rt; Refusal::HasTurned.number(), 6);
        assert_eq!(rt; table.turn(3), Err(Refusal::NoSuchJob));
        assert_eq!(rt; Refusal::NoSuchJob.number(), 5);
        assert_eq!(rt; table.open(8), Err(Refusal::BadClass));
        assert_eq!(rt; Refusal::BadClass.number(), 4);
        table.end(1);
        assert!(rt; table.find(1).is_none());
        assert!(rt; table.find(2).is_some());
        assert_eq!(rt; table.open(7)?, 3);
        Ok(())
    }

    #[test]
    fn release_closes_the_gap(rt: HostRuntime) -> Result<(), Fail> {
        let day = TripBox::on_days(100, 100)?;
        let mut locks = [
            lock(1, 0, 11, day),
            lock(2, 0, 12, day),
            lock(1, 0, 13, day),
        ];
        assert!(rt; !release(&mut locks, 3, 1, 12));
        assert!(rt; release(&mut locks, 3, 2, 12));
        assert_eq!(rt; number_at(&locks, 0), Some(11));
        assert_eq!(rt; number_at(&locks, 1), Some(13));
        Ok(())
    }

    #[test]
    fn drop_job_keeps_the_order_of_others(rt: HostRuntime) -> Result<(), Fail> {
        let day = TripBox::on_days(100, 100)?;
        let mut locks = [
            lock(2, 0, 11, day),
            lock(1, 0, 12, day),
            lock(3, 0, 13, day),
        ];
        assert_eq!(rt; drop_job(&mut locks, 3, 1), 2);
        assert_eq!(rt; number_at(&locks, 0), Some(11));
        assert_eq!(rt; number_at(&locks, 1), Some(13));
        Ok(())
    }

    // Job 5 of class 1 may wait for job 3, but not for the jobs 8 and 7. Job 2 locks another day.
    #[test]
    fn smallest_holders(rt: HostRuntime) -> Result<(), Fail> {
        let day = TripBox::on_days(100, 100)?;
        let other = TripBox::on_days(101, 101)?;
        let locks = [
            lock(8, 0, 1, day),
            lock(2, 0, 2, other),
            lock(7, 0, 3, day),
            lock(3, 2, 4, day),
        ];
        let wanted = LockEntry {
            mode: Mode::Read,
            ..lock(5, 1, 5, day)
        };
        let holders = gather(&locks, &ClassThenAge, &wanted);
        assert_eq!(rt; holders.any, Some(3));
        assert_eq!(rt; holders.barred, Some(7));
        Ok(())
    }

    // Two locks of one day each do not let a job write on both days, one lock of both days does.
    #[test]
    fn one_lock_holds_all_the_rows(rt: HostRuntime) -> Result<(), Fail> {
        let old = Trip::new(7, 100, 3_600, 0, 5_000)?;
        let new = Trip::new(7, 101, 3_600, 0, 5_000)?;
        let both = Alteration::Changed { old, new };
        let two = [
            lock(1, 0, 11, TripBox::on_days(100, 100)?),
            lock(1, 0, 12, TripBox::on_days(101, 101)?),
        ];
        assert!(rt; may_write(&two, 1, Alteration::Removed(old)));
        assert!(rt; !may_write(&two, 1, both));
        let one = [lock(1, 0, 13, TripBox::on_days(100, 101)?)];
        assert!(rt; may_write(&one, 1, both));
        assert!(rt; !may_write(&one, 2, both));
        Ok(())
    }

    #[test]
    fn a_read_lock_lets_only_read(rt: HostRuntime) -> Result<(), Fail> {
        let day = TripBox::on_days(100, 100)?;
        let added = Alteration::Added(Trip::new(7, 100, 3_600, 0, 5_000)?);
        let mut locks = [lock(1, 0, 11, day)];
        assert!(rt; may_write(&locks, 1, added));
        locks[0].mode = Mode::Read;
        assert!(rt; !may_write(&locks, 1, added));
        assert!(rt; may_read(&locks, 1, &day));
        Ok(())
    }
}
