// The table of open jobs, at most thirty-two of them.
ghost use Rattle.std.specs.Prelude.{◌≡◌, ◌+◌, ◌≤◌, true, length};
ghost use Rattle.tables.specs.Tables.{unique, all_below, asking};

use crate::ledger::Ledger;

mod calls;
mod places;

// No two open jobs have one number, all numbers are below the next, and there is a turn number left for every job
// that has not turned.
#[derive(Clone, Copy)]
pub struct JobTable {
    ledger: Ledger,
    ghost full: { length ledger.records ≡ 32 },
    ghost apart: { unique ledger.records ≡ true },
    ghost below: { all_below ledger.opening ledger.records ≡ true },
    ghost spent: { ledger.opening ≤ 1000001 },
    ghost locks: { ledger.granting ≤ 4000001 },
    ghost counted: { ledger.turning + asking ledger.records ≤ ledger.opening },
}
