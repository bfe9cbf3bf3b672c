// The end of a job, which CLOSE and WITHDRAW share.
ghost use Rattle.keeper.specs.Fronts.{EndsJob};

use crate::keeper::Keeper;
use tables::entries::LockEntry;
use tables::lent::drop_job;

impl Keeper {
    // Gives up the job's locks and ends it. Answers how many locks it gave up.
    pub(crate) fn end_job<P: Copy>(&mut self, table: &mut [LockEntry<P>], job: u32) -> usize
        ensures { EndsJob job self.old table.old result self.new table.new }
    {
        let used = self.held;
        self.held = drop_job(table, used, job);
        self.jobs.end(job);
        used - self.held
    }
}
