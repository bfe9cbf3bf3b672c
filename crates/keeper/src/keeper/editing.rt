// ADD, DROP and CHANGE.
ghost use Rattle.std.specs.Prelude.{◌≡◌};
ghost use Rattle.tables.specs.Coverage.{rows_of};
ghost use Rattle.calls.specs.declared.data.DataCall.TheVariants.{Add, Drop, Change};
ghost use Rattle.calls.specs.Kinds.{kinds};
ghost use Rattle.keeper.specs.Dealings.{edit_with, admit_write, EditsSo};

use crate::keeper::Keeper;
use calls::data::EditAnswer;
use predicates::predicate::Predicate;
use rows::row::Row;
use stores::store::Store;
use tables::coverage::may_write;
use tables::entries::{Alteration, LockEntry, UndoEntry};
use tables::ledger::JobRecord;
use tables::refusal::Refusal;

impl Keeper {
    // The job's record; refused unless one write lock of the job holds all the rows that the alteration names. It is not one
    // function with `admit_read`: that would take the test as a closure, and its contract would be longer than both of these.
    fn admit_write<P: Predicate>(
        &self,
        table: &[LockEntry<P>],
        log: usize,
        job: u32,
        alteration: Alteration<P::Row>,
    ) -> Result<JobRecord, Refusal>
        ensures { result ≡ admit_write P.holds job (rows_of alteration) self.now table.now log }
    {
        if table.len() != self.table || log != self.log {
            return Err(Refusal::WrongBook);
        }
        let open = self.jobs.find(job).ok_or(Refusal::NoSuchJob)?;
        if !may_write(&table[..self.held], job, alteration) {
            return Err(Refusal::NotCovered);
        }
        Ok(open)
    }

    // Adds a row, unless it is there already.
    pub fn add<P: Predicate, S: Store<Row = P::Row>>(
        &mut self,
        table: &[LockEntry<P>],
        log: &mut [UndoEntry<P::Row>],
        store: &mut S,
        job: u32,
        row: P::Row,
    ) -> Result<EditAnswer, Refusal>
        ensures { EditsSo (edit_with (kinds P.Row.Row.own P.Predicate) job (Add row) self.old table.now log.old (S.rows store.old) (S.places store.old)) result self.old self.new table.now log.new (S.rows store.new) (S.places store.new) }
    {
        let added = Alteration::Added(row);
        let open = self.admit_write(table, log.len(), job, added)?;
        if store.has(&row) {
            return Ok(EditAnswer::Already);
        }
        self.alter(log, store, open, added)?;
        Ok(EditAnswer::Added)
    }

    // Takes a row out, if it is there.
    pub fn drop<P: Predicate, S: Store<Row = P::Row>>(
        &mut self,
        table: &[LockEntry<P>],
        log: &mut [UndoEntry<P::Row>],
        store: &mut S,
        job: u32,
        row: P::Row,
    ) -> Result<EditAnswer, Refusal>
        ensures { EditsSo (edit_with (kinds P.Row.Row.own P.Predicate) job (Drop row) self.old table.now log.old (S.rows store.old) (S.places store.old)) result self.old self.new table.now log.new (S.rows store.new) (S.places store.new) }
    {
        let removed = Alteration::Removed(row);
        let open = self.admit_write(table, log.len(), job, removed)?;
        if !store.has(&row) {
            return Ok(EditAnswer::Absent);
        }
        self.alter(log, store, open, removed)?;
        Ok(EditAnswer::Dropped)
    }

    // Puts one row in the place of another. One lock has to hold both.
    pub fn change<P: Predicate, S: Store<Row = P::Row>>(
        &mut self,
        table: &[LockEntry<P>],
        log: &mut [UndoEntry<P::Row>],
        store: &mut S,
        job: u32,
        old: P::Row,
        new: P::Row,
    ) -> Result<EditAnswer, Refusal>
        ensures { EditsSo (edit_with (kinds P.Row.Row.own P.Predicate) job (Change old new) self.old table.now log.old (S.rows store.old) (S.places store.old)) result self.old self.new table.now log.new (S.rows store.new) (S.places store.new) }
    {
        let changed = Alteration::Changed { old, new };
        let open = self.admit_write(table, log.len(), job, changed)?;
        if !store.has(&old) {
            return Ok(EditAnswer::Absent);
        }
        if old.compare(&new).is_eq() {
            return Ok(EditAnswer::Changed);
        }
        if store.has(&new) {
            return Ok(EditAnswer::Taken);
        }
        self.alter(log, store, open, changed)?;
        Ok(EditAnswer::Changed)
    }
}
