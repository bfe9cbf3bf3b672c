// NEW and OPEN.
ghost use Rattle.std.specs.Prelude.{◌≡◌};
ghost use Rattle.tables.specs.Jobs.{Gives, open_on};
ghost use Rattle.keeper.specs.Fronts.{Made, same_counts};

use crate::keeper::Keeper;
use tables::job_table::JobTable;
use tables::refusal::Refusal;

impl Keeper {
    // A keeper for a lock table and an undo log of these lengths.
    pub fn new(table: usize, log: usize) -> Result<Keeper, Refusal>
        ensures { Made table log result }
    {
        if !(1..=1_024).contains(&table) || !(1..=4_096).contains(&log) {
            return Err(Refusal::WrongBook);
        }
        Ok(Keeper {
            jobs: JobTable::new(),
            held: 0,
            logged: 0,
            table,
            log,
        })
    }

    // A new job of that class; answers its number.
    pub fn open(&mut self, class: u8) -> Result<u32, Refusal>
        ensures told { Gives (open_on class self.old.jobs.ledger) result self.new.jobs.ledger }
        ensures kept { same_counts self.old self.new }
    {
        self.jobs.open(class)
    }

    // The length of the lock table for which it was made.
    pub fn table_len(&self) -> usize
        ensures { result ≡ self.now.table }
    {
        self.table
    }

    // The length of the undo log for which it was made.
    pub fn log_len(&self) -> usize
        ensures { result ≡ self.now.log }
    {
        self.log
    }
}
