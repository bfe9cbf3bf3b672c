// WITHDRAW.
ghost use Rattle.std.specs.Prelude.{◌≡◌};
ghost use Rattle.keeper.specs.Dealings.{withdraw_with, LeavesAll};

use crate::keeper::Keeper;
use stores::store::Store;
use tables::entries::{LockEntry, UndoEntry};
use tables::lent::drop_job;
use tables::refusal::Refusal;
use tables::undo::undo_job;

impl Keeper {
    // Takes back what a job that has not turned altered, gives up its locks and ends it. Answers how many locks and how many
    // entries of the undo log it gave up.
    pub fn withdraw<P: Copy, S: Store>(
        &mut self,
        table: &mut [LockEntry<P>],
        log: &mut [UndoEntry<S::Row>],
        store: &mut S,
        job: u32,
    ) -> Result<(usize, usize), Refusal>
        ensures { LeavesAll (withdraw_with S.Row.order job self.old table.old log.old (S.rows store.old) (S.places store.old)) result self.old self.new table.new log.new (S.rows store.new) (S.places store.new) }
    {
        if table.len() != self.table || log.len() != self.log {
            return Err(Refusal::WrongBook);
        }
        let open = self.jobs.find(job).ok_or(Refusal::NoSuchJob)?;
        if open.turn.is_some() {
            return Err(Refusal::HasTurned);
        }
        let logged = self.logged;
        let entries = undo_job(store, &log[..logged], job);
        self.logged = drop_job(log, logged, job);
        let locks = self.end_job(table, job);
        Ok((locks, entries))
    }
}
