// CLOSE.
ghost use Rattle.std.specs.Prelude.{◌≡◌};
ghost use Rattle.keeper.specs.Fronts.{LeavesSo, close_with};

use crate::keeper::Keeper;
use tables::entries::{LockEntry, UndoEntry};
use tables::refusal::Refusal;

impl Keeper {
    // Turns the job if it has not turned, gives up its locks and ends it. Answers its turn number and how many locks
    // it gave up.
    pub fn close<P: Copy, R: Copy>(
        &mut self,
        table: &mut [LockEntry<P>],
        log: &mut [UndoEntry<R>],
        job: u32,
    ) -> Result<(u32, usize), Refusal>
        ensures { LeavesSo (close_with job self.old table.old log.old) result self.old self.new table.new log.new }
    {
        if table.len() != self.table || log.len() != self.log {
            return Err(Refusal::WrongBook);
        }
        let open = self.jobs.find(job).ok_or(Refusal::NoSuchJob)?;
        let turn = match open.turn {
            Some(turn) => turn,
            None => self.turn(log, job)?,
        };
        let locks = self.end_job(table, job);
        Ok((turn, locks))
    }
}
