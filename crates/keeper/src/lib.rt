// The keeper: the scheduler that admits jobs (transactions) to the rows of a store under predicate locks.
#![tactic(auto)]

pub mod examples;
pub mod keeper;
pub mod running;
pub mod transcript;

pub use calls::lock_answer;

#[cfg(test)]
mod tests {
    use crate::running::begin;
    use crate::transcript::{Answer, Call, Entry};
    use calls::lock_answer::LockAnswer;
    use policies::age::Age;
    use predicates::trip_box::TripBox;
    use std::test::Fail;
    use tables::entries::{Alteration, LockEntry, Mode, UndoEntry};
    use tables::refusal::Refusal;

    fn asked(call: Call<TripBox>) -> Entry<TripBox> {
        Entry { call, answer: None }
    }

    // No store is lent, and the undo log has numbers for rows.
    #[test]
    fn lock_calls_alone(rt: HostRuntime) -> Result<(), Fail> {
        let predicate = TripBox::on_days(100, 100)?;
        let mut table = [LockEntry {
            job: 0,
            class: 0,
            number: 0,
            mode: Mode::Read,
            predicate,
        }; 2];
        let mut log = [UndoEntry {
            job: 0,
            alteration: Alteration::Added(0u32),
        }; 1];
        let mut transcript = [
            asked(Call::Open { class: 0 }),
            asked(Call::Open { class: 0 }),
            asked(Call::Lock {
                job: 2,
                mode: Mode::Write,
                predicate,
            }),
            asked(Call::Lock {
                job: 1,
                mode: Mode::Read,
                predicate,
            }),
            asked(Call::Release { job: 2, lock: 1 }),
            asked(Call::Close { job: 2 }),
        ];
        begin(&Age, &mut table, &mut log, &mut transcript)?;
        assert!(rt; matches!(transcript[1].answer, Some(Ok(Answer::Job(2)))));
        assert!(rt;
            matches!(
                transcript[2].answer,
                Some(Ok(Answer::Lock(LockAnswer::Granted(1))))
            )
        );
        assert!(rt;
            matches!(
                transcript[3].answer,
                Some(Ok(Answer::Lock(LockAnswer::Wait(2))))
            )
        );
        assert!(rt; matches!(transcript[4].answer, Some(Err(Refusal::NotTurned))));
        assert!(rt; matches!(transcript[5].answer, Some(Ok(Answer::Closed(1, 1)))));
        Ok(())
    }
}
