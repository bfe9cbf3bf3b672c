// Runs of lock calls alone. They ask for no store, and entries of the undo log may be of any type, which `runs::running`, for all
// calls, cannot allow: so these are functions of their own.
ghost use Rattle.std.specs.Prelude.{◌≡◌, length};
ghost use Rattle.keeper.specs.Ran.{Steps, Ran, Lawful, Began};

use crate::keeper::Keeper;
use crate::transcript::{Answer, Call, Entry};
use policies::wait_policy::WaitPolicy;
use predicates::predicate::Predicate;
use tables::entries::{LockEntry, UndoEntry};
use tables::refusal::Refusal;

fn step<P: Predicate, R: Copy, W: WaitPolicy>(
    keeper: &mut Keeper,
    policy: &W,
    table: &mut [LockEntry<P>],
    log: &mut [UndoEntry<R>],
    call: &Call<P>,
) -> Result<Answer, Refusal>
    requires table { length table.old ≡ keeper.old.table }
    requires log { length log.old ≡ keeper.old.log }
    ensures { Steps P.apart W.allows call.now keeper.old table.old log.old result keeper.new table.new log.new }
{
    match *call {
        Call::Open { class } => {
            let job = keeper.open(class)?;
            Ok(Answer::Job(job))
        }
        Call::Lock {
            job,
            mode,
            predicate,
        } => {
            let told = keeper.lock(policy, table, job, mode, predicate)?;
            Ok(Answer::Lock(told))
        }
        Call::Turn { job } => {
            let turn = keeper.turn(log, job)?;
            Ok(Answer::Turned(turn))
        }
        Call::Release { job, lock } => {
            keeper.release(table, job, lock)?;
            Ok(Answer::Released)
        }
        Call::Close { job } => {
            let (turn, locks) = keeper.close(table, log, job)?;
            Ok(Answer::Closed(turn, locks))
        }
    }
}

// Makes the calls of the transcript in their order and writes each answer beside its call.
pub fn run<P: Predicate, R: Copy, W: WaitPolicy>(
    keeper: &mut Keeper,
    policy: &W,
    table: &mut [LockEntry<P>],
    log: &mut [UndoEntry<R>],
    transcript: &mut [Entry<P>],
) -> Result<(), Refusal>
    ensures ran { Ran P.apart W.allows keeper.old table.old log.old transcript.old result keeper.new table.new log.new transcript.new }
    ensures lawful { Lawful P.apart W.allows keeper.old result keeper.new table.new log.new transcript.new }
{
    if table.len() != keeper.table_len() || log.len() != keeper.log_len() {
        return Err(Refusal::WrongBook);
    }
    for entry in transcript.iter_mut() {
        entry.answer = Some(step(keeper, policy, table, log, &entry.call));
    }
    Ok(())
}

// Runs the transcript on a new keeper for these lists.
pub fn begin<P: Predicate, R: Copy, W: WaitPolicy>(
    policy: &W,
    table: &mut [LockEntry<P>],
    log: &mut [UndoEntry<R>],
    transcript: &mut [Entry<P>],
) -> Result<Keeper, Refusal>
    ensures { Began P.apart W.allows table.old log.old transcript.old result table.new log.new transcript.new }
{
    let mut keeper = Keeper::new(table.len(), log.len())?;
    run(&mut keeper, policy, table, log, transcript)?;
    Ok(keeper)
}
