// One call of a transcript. The calls are data, of which the law speaks, so the step is chosen by `match`. Each arm is `Ok` of `?`
// and not `map`: the check does not follow `map` to an answer whose type names rows, where what is mapped names none. The lists, the
// store and the policy go along one by one: each call is lent only what it uses, a rule of the project, and a struct of them would
// lend everything to every call. That the lists have the lengths for which the keeper was made is said of both functions: a struct
// that says so would have to be made anew in every call.
ghost use Rattle.std.specs.Prelude.{◌≡◌, length};
ghost use Rattle.calls.specs.Kinds.{kinds};
ghost use Rattle.runs.specs.Ran.{Steps, DataSteps};

use calls::data::{DataAnswer, DataCall};
use calls::transcript::{Answer, Call};
use keeper::keeper::Keeper;
use policies::wait_policy::WaitPolicy;
use predicates::predicate::Predicate;
use stores::store::Store;
use tables::entries::{LockEntry, UndoEntry};
use tables::refusal::Refusal;

fn data_step<P: Predicate, S: Store<Row = P::Row>>(
    keeper: &mut Keeper,
    table: &[LockEntry<P>],
    log: &mut [UndoEntry<P::Row>],
    store: &mut S,
    job: u32,
    call: DataCall<P, P::Row>,
) -> Result<DataAnswer<P::Row>, Refusal>
    requires table { length table.now ≡ keeper.old.table }
    requires log { length log.old ≡ keeper.old.log }
    ensures { DataSteps (kinds P.Row.Row.own P.Predicate) job call keeper.old table.now log.old (S.rows store.old) (S.places store.old) result keeper.new log.new (S.rows store.new) (S.places store.new) }
{
    match call {
        DataCall::Total(predicate) => {
            let (count, sum) = keeper.total(table, store, job, predicate)?;
            Ok(DataAnswer::Total(count, sum))
        }
        DataCall::Next(predicate, after) => {
            let row = keeper.next(table, store, job, predicate, after)?;
            Ok(DataAnswer::Next(row))
        }
        DataCall::Add(row) => {
            let answer = keeper.add(table, log, store, job, row)?;
            Ok(DataAnswer::Edit(answer))
        }
        DataCall::Drop(row) => {
            let answer = keeper.drop(table, log, store, job, row)?;
            Ok(DataAnswer::Edit(answer))
        }
        DataCall::Change { old, new } => {
            let answer = keeper.change(table, log, store, job, old, new)?;
            Ok(DataAnswer::Edit(answer))
        }
    }
}

pub(crate) fn step<P: Predicate, S: Store<Row = P::Row>, W: WaitPolicy>(
    keeper: &mut Keeper,
    policy: &W,
    table: &mut [LockEntry<P>],
    log: &mut [UndoEntry<P::Row>],
    store: &mut S,
    call: &Call<P, P::Row>,
) -> Result<Answer<P::Row>, Refusal>
    requires table { length table.old ≡ keeper.old.table }
    requires log { length log.old ≡ keeper.old.log }
    ensures { Steps (kinds P.Row.Row.own P.Predicate) W.allows call.now keeper.old table.old log.old (S.rows store.old) (S.places store.old) result keeper.new table.new log.new (S.rows store.new) (S.places store.new) }
{
    match *call {
        Call::Open { class } => {
            let job = keeper.open(class)?;
            Ok(Answer::Job(job))
        }
        Call::Lock {
            job,
            mode,
            predicate,
        } => {
            let told = keeper.lock(policy, table, job, mode, predicate)?;
            Ok(Answer::Lock(told))
        }
        Call::Turn { job } => {
            let turn = keeper.turn(log, job)?;
            Ok(Answer::Turned(turn))
        }
        Call::Release { job, lock } => {
            keeper.release(table, job, lock)?;
            Ok(Answer::Released)
        }
        Call::Close { job } => {
            let (turn, locks) = keeper.close(table, log, job)?;
            Ok(Answer::Closed(turn, locks))
        }
        Call::Withdraw { job } => {
            let (locks, entries) = keeper.withdraw(table, log, store, job)?;
            Ok(Answer::Withdrawn(locks, entries))
        }
        Call::Data { job, call } => {
            let answer = data_step(keeper, table, log, store, job, call)?;
            Ok(Answer::Data(answer))
        }
    }
}
