// Runs of a transcript's calls. The lists and the store go along one by one, as the caller lends them: a rule of the project.
ghost use Rattle.std.specs.Prelude.{◌≡◌};
ghost use Rattle.calls.specs.Kinds.{kinds};
ghost use Rattle.runs.specs.Ran.{Ran, Lawful, Began};

use crate::steps::step;
use calls::transcript::Entry;
use keeper::keeper::Keeper;
use policies::wait_policy::WaitPolicy;
use predicates::predicate::Predicate;
use stores::store::Store;
use tables::entries::{LockEntry, UndoEntry};
use tables::refusal::Refusal;

// Makes the calls of the transcript in their order and writes each answer beside its call.
pub fn run<P: Predicate, S: Store<Row = P::Row>, W: WaitPolicy>(
    keeper: &mut Keeper,
    policy: &W,
    table: &mut [LockEntry<P>],
    log: &mut [UndoEntry<P::Row>],
    store: &mut S,
    transcript: &mut [Entry<P, P::Row>],
) -> Result<(), Refusal>
    ensures ran { Ran (kinds P.Row.Row.own P.Predicate) W.allows keeper.old table.old log.old (S.rows store.old) (S.places store.old) transcript.old result keeper.new table.new log.new (S.rows store.new) (S.places store.new) transcript.new }
    ensures lawful { Lawful (kinds P.Row.Row.own P.Predicate) W.allows keeper.old (S.rows store.old) result keeper.new table.new log.new (S.rows store.new) transcript.new }
{
    if table.len() != keeper.table_len() || log.len() != keeper.log_len() {
        return Err(Refusal::WrongBook);
    }
    for entry in transcript.iter_mut() {
        entry.answer = Some(step(keeper, policy, table, log, store, &entry.call));
    }
    Ok(())
}

// Runs the transcript on a new keeper for these lists.
pub fn begin<P: Predicate, S: Store<Row = P::Row>, W: WaitPolicy>(
    policy: &W,
    table: &mut [LockEntry<P>],
    log: &mut [UndoEntry<P::Row>],
    store: &mut S,
    transcript: &mut [Entry<P, P::Row>],
) -> Result<Keeper, Refusal>
    ensures { Began (kinds P.Row.Row.own P.Predicate) W.allows table.old log.old (S.rows store.old) (S.places store.old) transcript.old result table.new log.new (S.rows store.new) (S.places store.new) transcript.new }
{
    let mut keeper = Keeper::new(table.len(), log.len())?;
    run(&mut keeper, policy, table, log, store, transcript)?;
    Ok(keeper)
}
