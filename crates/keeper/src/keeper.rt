// What the keeper holds between calls. The lock table, the undo log and the store are the caller's and are lent at each call: a
// rule of the project. So the used counts and the lengths stand here without the lists.
ghost use Rattle.std.specs.Prelude.{◌≤◌};

use tables::job_table::JobTable;

mod altering;
mod asking;
mod closing;
mod editing;
mod ending;
mod locking;
mod opening;
mod releasing;
mod turning;
mod withdrawing;

// The open jobs; how many entries of the lent lock table and undo log are used; and the lengths for which it was made.
#[derive(Clone, Copy)]
pub struct Keeper {
    jobs: JobTable,
    held: usize,
    logged: usize,
    table: usize,
    log: usize,
    ghost locks: { held ≤ table },
    ghost undos: { logged ≤ log },
}
