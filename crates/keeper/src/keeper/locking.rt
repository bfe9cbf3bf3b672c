// LOCK.
ghost use Rattle.std.specs.Prelude.{◌≡◌};
ghost use Rattle.keeper.specs.Fronts.{LocksSo, held_of, lock_with};

use crate::keeper::Keeper;
use calls::lock_answer::LockAnswer;
use policies::wait_policy::WaitPolicy;
use predicates::predicate::Predicate;
use tables::entries::{LockEntry, Mode};
use tables::holders::gather;
use tables::lent::append;
use tables::refusal::Refusal;

impl Keeper {
    // Asks for a lock: granted, to wait for others, or to withdraw.
    pub fn lock<P: Predicate, W: WaitPolicy>(
        &mut self,
        policy: &W,
        table: &mut [LockEntry<P>],
        job: u32,
        mode: Mode,
        predicate: P,
    ) -> Result<LockAnswer, Refusal>
        ensures { LocksSo (lock_with P.apart W.allows job mode predicate self.old table.old) result self.old self.new table.new }
    {
        if table.len() != self.table {
            return Err(Refusal::WrongBook);
        }
        let open = self.jobs.find(job).ok_or(Refusal::NoSuchJob)?;
        if open.turn.is_some() {
            return Err(Refusal::HasTurned);
        }
        let number = self.jobs.next_lock().ok_or(Refusal::NumbersSpent)?;
        let used = self.held;
        if used >= table.len() {
            return Err(Refusal::BookFull);
        }
        let wanted = LockEntry {
            job,
            class: open.class,
            number,
            mode,
            predicate,
        };
        let holders = gather(&table[..used], policy, &wanted);
        if let Some(holder) = holders.barred {
            return Ok(LockAnswer::Withdraw(holder));
        }
        if let Some(holder) = holders.any {
            return Ok(LockAnswer::Wait(holder));
        }
        append(table, used, wanted);
        self.jobs.use_lock_number();
        self.held = used + 1;
        Ok(LockAnswer::Granted(number))
    }
}
