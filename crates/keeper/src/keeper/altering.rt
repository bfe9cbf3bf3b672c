// Alterations of the rows, with their entries in the undo log. Each inner function says that the log has the length for which the
// keeper was made: a struct of the keeper and the log that says so would have to be made anew in every call, and is no plainer.
ghost use Rattle.std.specs.Prelude.{◌≡◌, true, [], ◌∷◌, length, take};
ghost use Rattle.calls.specs.Systems.{store_fits};
ghost use Rattle.keeper.specs.Dealings.{entry_left, LogsEntry, AltersSo};

use crate::keeper::Keeper;
use stores::store::Store;
use tables::entries::{Alteration, UndoEntry};
use tables::ledger::JobRecord;
use tables::lent::append;
use tables::refusal::Refusal;
use tables::undo::{carry_out, removals};

impl Keeper {
    // Whether the undo log has a place for an entry of the job, if one is due: none is once the job has turned.
    fn has_entry<R: Copy>(&self, log: &[UndoEntry<R>], asker: JobRecord) -> bool
        requires { length log.now ≡ self.now.log }
        ensures { result ≡ entry_left asker.turn (take self.now.logged log.now) self.now.log }
    {
        asker.turn.is_some() || self.logged < log.len()
    }

    // Whether the store has a place for what the alteration adds, beside those of the removed rows that may return.
    fn has_place<S: Store>(
        &self,
        log: &[UndoEntry<S::Row>],
        store: &S,
        alteration: Alteration<S::Row>,
    ) -> bool
        requires { length log.now ≡ self.now.log }
        ensures { result ≡ store_fits (alteration ∷ []) (take self.now.logged log.now) (S.rows store.now) (S.places store.now) }
    {
        match alteration {
            Alteration::Added(_) => {
                removals(&log[..self.logged]) < store.places() - store.size()
            }
            _ => true,
        }
    }

    // Notes the alteration in the undo log while the job has not turned.
    fn log_entry<R: Copy>(
        &mut self,
        log: &mut [UndoEntry<R>],
        asker: JobRecord,
        alteration: Alteration<R>,
    )
        requires long { length log.old ≡ self.old.log }
        requires room { entry_left asker.turn (take self.old.logged log.old) self.old.log ≡ true }
        ensures { LogsEntry asker.number asker.turn alteration self.old log.old self.new log.new }
    {
        if asker.turn.is_none() {
            let job = asker.number;
            let used = self.logged;
            append(log, used, UndoEntry { job, alteration });
            self.logged = used + 1;
        }
    }

    // Makes an alteration for the asking job.
    pub(crate) fn alter<S: Store>(
        &mut self,
        log: &mut [UndoEntry<S::Row>],
        store: &mut S,
        asker: JobRecord,
        alteration: Alteration<S::Row>,
    ) -> Result<(), Refusal>
        requires { length log.old ≡ self.old.log }
        ensures made { AltersSo S.Row.order asker.number asker.turn alteration self.old log.old (S.rows store.old) (S.places store.old) result self.new log.new (S.rows store.new) }
        ensures places { S.places store.new ≡ S.places store.old }
    {
        if !self.has_entry(log, asker) {
            return Err(Refusal::NotesFull);
        }
        if !self.has_place(log, store, alteration) {
            return Err(Refusal::StoreFull);
        }
        carry_out(store, alteration);
        self.log_entry(log, asker, alteration);
        Ok(())
    }
}
