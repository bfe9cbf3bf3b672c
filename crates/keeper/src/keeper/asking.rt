// TOTAL and NEXT: they alter nothing.
ghost use Rattle.std.specs.Prelude.{◌≡◌};
ghost use Rattle.calls.specs.declared.data.DataAnswer.TheVariants.{Next as FoundRow};
ghost use Rattle.calls.specs.declared.data.DataCall.TheVariants.{Total, Next};
ghost use Rattle.calls.specs.Kinds.{kinds};
ghost use Rattle.calls.specs.Runs.{said};
ghost use Rattle.keeper.specs.Dealings.{figures, ask_with, admit_read};

use crate::keeper::Keeper;
use predicates::predicate::Predicate;
use stores::scans;
use stores::store::Store;
use tables::coverage::may_read;
use tables::entries::LockEntry;
use tables::ledger::JobRecord;
use tables::refusal::Refusal;

impl Keeper {
    // The job's record; refused unless one lock of the job, in either mode, covers the predicate. (`admit_write` says why the two
    // are not one.)
    fn admit_read<P: Predicate>(
        &self,
        table: &[LockEntry<P>],
        job: u32,
        predicate: &P,
    ) -> Result<JobRecord, Refusal>
        ensures { result ≡ admit_read P.covers job predicate.now self.now table.now }
    {
        if table.len() != self.table {
            return Err(Refusal::WrongBook);
        }
        let open = self.jobs.find(job).ok_or(Refusal::NoSuchJob)?;
        if !may_read(&table[..self.held], job, predicate) {
            return Err(Refusal::NotCovered);
        }
        Ok(open)
    }

    // How many rows hold, and the sum of their quantities.
    pub fn total<P: Predicate, S: Store<Row = P::Row>>(
        &self,
        table: &[LockEntry<P>],
        store: &S,
        job: u32,
        predicate: P,
    ) -> Result<(usize, u64), Refusal>
        ensures { said figures result ≡ ask_with (kinds P.Row.Row.own P.Predicate) job (Total predicate) self.now table.now (S.rows store.now) (S.places store.now) }
    {
        self.admit_read(table, job, &predicate)?;
        Ok(scans::total(store, &predicate))
    }

    // The least row that holds and is greater than the given one, if one is given.
    pub fn next<P: Predicate, S: Store<Row = P::Row>>(
        &self,
        table: &[LockEntry<P>],
        store: &S,
        job: u32,
        predicate: P,
        after: Option<P::Row>,
    ) -> Result<Option<P::Row>, Refusal>
        ensures { said FoundRow result ≡ ask_with (kinds P.Row.Row.own P.Predicate) job (Next predicate after) self.now table.now (S.rows store.now) (S.places store.now) }
    {
        self.admit_read(table, job, &predicate)?;
        Ok(scans::next(store, &predicate, after))
    }
}
