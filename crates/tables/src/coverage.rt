// Whether the locks of a job let it read or write.
ghost use Rattle.std.specs.Prelude.{◌≡◌};
ghost use Rattle.tables.specs.Lists.{some_of};
ghost use Rattle.tables.specs.Coverage.{all_of, rows_of, lets_read, lets_write};

use crate::entries::{Alteration, LockEntry, Mode, OfJob};
use predicates::predicate::Predicate;

fn holds_all<P: Predicate>(predicate: &P, alteration: Alteration<P::Row>) -> bool
    ensures { result ≡ all_of (P.holds predicate.now) (rows_of alteration) }
{
    match alteration {
        Alteration::Added(row) | Alteration::Removed(row) => predicate.holds(&row),
        Alteration::Changed { old, new } => predicate.holds(&old) && predicate.holds(&new),
    }
}

impl<P: Predicate> LockEntry<P> {
    // Whether this is a lock of the job that covers the predicate; either mode lets it read.
    pub fn lets_read(&self, job: u32, predicate: &P) -> bool
        ensures { result ≡ lets_read P.covers job predicate.now self.now }
    {
        self.is_of(job) && self.predicate.covers(predicate)
    }

    // Whether this is a write lock of the job that holds all the rows that the alteration names.
    pub fn lets_write(&self, job: u32, alteration: Alteration<P::Row>) -> bool
        ensures { result ≡ lets_write P.holds job (rows_of alteration) self.now }
    {
        self.is_of(job) && self.mode.is_write() && holds_all(&self.predicate, alteration)
    }
}

// Whether one lock of the job covers the predicate.
pub fn may_read<P: Predicate>(locks: &[LockEntry<P>], job: u32, predicate: &P) -> bool
    ensures { result ≡ some_of (lets_read P.covers job predicate.now) locks.now }
{
    locks.iter().any(|entry| entry.lets_read(job, predicate))
}

// Whether one write lock of the job holds all the rows that the alteration names.
pub fn may_write<P: Predicate>(
    locks: &[LockEntry<P>],
    job: u32,
    alteration: Alteration<P::Row>,
) -> bool
    ensures { result ≡ some_of (lets_write P.holds job (rows_of alteration)) locks.now }
{
    locks.iter().any(|entry| entry.lets_write(job, alteration))
}
