// What is asked of the table, and what that makes of it.
ghost use Rattle.std.specs.Prelude.{◌≡◌};
ghost use Rattle.tables.specs.Jobs.{find, fresh_ledger, Gives, open_on, turn_on, end_ledger, lock_number, grant_ledger};

use super::JobTable;
use super::places::{free_place, has_job, place_of};
use crate::ledger::{JobRecord, Ledger};
use crate::refusal::Refusal;

impl JobTable {
    pub fn new() -> JobTable
        ensures { result.ledger ≡ fresh_ledger }
    {
        let ledger = Ledger {
            records: [None; 32],
            opening: 1,
            granting: 1,
            turning: 1,
        };
        JobTable { ledger }
    }

    // The open job of that number.
    pub fn find(&self, job: u32) -> Option<JobRecord>
        ensures { result ≡ find job self.now.ledger.records }
    {
        let place = self
            .ledger
            .records
            .iter()
            .find(|place| has_job(place, job))?;
        *place
    }

    // A new job of that class; answers its number.
    pub fn open(&mut self, class: u8) -> Result<u32, Refusal>
        ensures { Gives (open_on class self.old.ledger) result self.new.ledger }
    {
        if class > 7 {
            return Err(Refusal::BadClass);
        }
        // The ledger is lent first, here and below: a place lent straight from the table gets no proof, for the table has ghost
        // fields.
        let ledger = &mut self.ledger;
        let number = ledger.opening;
        let place = free_place(&mut ledger.records).ok_or(Refusal::NoPlace)?;
        if number > 1_000_000 {
            return Err(Refusal::NumbersSpent);
        }
        *place = Some(JobRecord {
            number,
            class,
            turn: None,
        });
        ledger.opening = number + 1;
        Ok(number)
    }

    // The job turns; answers its turn number.
    pub fn turn(&mut self, job: u32) -> Result<u32, Refusal>
        ensures { Gives (turn_on job self.old.ledger) result self.new.ledger }
    {
        let ledger = &mut self.ledger;
        let turn = ledger.turning;
        let place = place_of(&mut ledger.records, job).ok_or(Refusal::NoSuchJob)?;
        // What is lent is the place, not the record in it (see `places`).
        let Some(open) = place else { unreachable!() };
        if open.turn.is_some() {
            return Err(Refusal::HasTurned);
        }
        open.turn = Some(turn);
        ledger.turning = turn + 1;
        Ok(turn)
    }

    // The job's place is free again.
    pub fn end(&mut self, job: u32)
        ensures { self.new.ledger ≡ end_ledger job self.old.ledger }
    {
        let ledger = &mut self.ledger;
        if let Some(place) = place_of(&mut ledger.records, job) {
            *place = None;
        }
    }

    // The lock number that comes next, if one is left.
    pub fn next_lock(&self) -> Option<u32>
        ensures { result ≡ lock_number self.now.ledger }
    {
        if self.ledger.granting > 4_000_000 {
            return None;
        }
        Some(self.ledger.granting)
    }

    // Uses up the next lock number, if one is left.
    pub fn use_lock_number(&mut self)
        ensures { self.new.ledger ≡ grant_ledger self.old.ledger }
    {
        if self.ledger.granting <= 4_000_000 {
            self.ledger.granting += 1;
        }
    }
}
