// RELEASE.
ghost use Rattle.std.specs.Prelude.{◌≡◌};
ghost use Rattle.keeper.specs.Fronts.{LocksSo, release_with};

use crate::keeper::Keeper;
use tables::entries::LockEntry;
use tables::lent::release;
use tables::refusal::Refusal;

impl Keeper {
    // Gives up one lock of a job that has turned.
    pub fn release<P: Copy>(
        &mut self,
        table: &mut [LockEntry<P>],
        job: u32,
        lock: u32,
    ) -> Result<(), Refusal>
        ensures { LocksSo (release_with job lock self.old table.old) result self.old self.new table.new }
    {
        if table.len() != self.table {
            return Err(Refusal::WrongBook);
        }
        let open = self.jobs.find(job).ok_or(Refusal::NoSuchJob)?;
        if open.turn.is_none() {
            return Err(Refusal::NotTurned);
        }
        let used = self.held;
        if !release(table, used, job, lock) {
            return Err(Refusal::NotYourLock);
        }
        self.held = used - 1;
        Ok(())
    }
}
