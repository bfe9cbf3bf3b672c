// TURN: the end of a job's growing phase, in which it asks for locks.
ghost use Rattle.std.specs.Prelude.{◌≡◌};
ghost use Rattle.keeper.specs.Fronts.{LogsSo, turn_with};

use crate::keeper::Keeper;
use tables::entries::UndoEntry;
use tables::lent::drop_job;
use tables::refusal::Refusal;

impl Keeper {
    // The job stops asking for locks; its alterations stay. Answers its turn number.
    pub fn turn<R: Copy>(&mut self, log: &mut [UndoEntry<R>], job: u32) -> Result<u32, Refusal>
        ensures { LogsSo (turn_with job self.old log.old) result self.old self.new log.new }
    {
        if log.len() != self.log {
            return Err(Refusal::WrongBook);
        }
        let turn = self.jobs.turn(job)?;
        self.logged = drop_job(log, self.logged, job);
        Ok(turn)
    }
}
