// A transcript of calls that concern jobs and locks alone, in the order in which they are made, each with its answer once it is
// made. These types name no rows, so that whoever has no store can use them: `calls::transcript` has those of all calls.
ghost use Rattle.std.specs.Prelude.{Some as SomeOf};
ghost use Rattle.keeper.specs.Shown.{answer_text};

use calls::lock_answer::LockAnswer;
use std::fmt;
use tables::entries::Mode;
use tables::refusal::Refusal;

#[derive(Clone, Copy)]
pub enum Call<P> {
    Open { class: u8 },
    Lock { job: u32, mode: Mode, predicate: P },
    Turn { job: u32 },
    Release { job: u32, lock: u32 },
    Close { job: u32 },
}

// What a call gives that is not refused.
#[derive(Clone, Copy)]
pub enum Answer {
    Job(u32),
    Lock(LockAnswer),
    Turned(u32),
    Released,
    // The turn number, and how many locks were given up.
    Closed(u32, usize),
}

#[derive(Clone, Copy)]
pub struct Entry<P> {
    pub call: Call<P>,
    pub answer: Option<Result<Answer, Refusal>>,
}

// The answer's word with its numbers.
impl fmt::Display for Answer {
    ghost output = { λ a. SomeOf (answer_text a) };

    fn fmt<W: fmt::Write>(&self, f: &mut fmt::Formatter<W>) -> fmt::Result {
        match *self {
            Answer::Job(job) => write!(f, "job {job}"),
            Answer::Lock(LockAnswer::Granted(lock)) => write!(f, "granted {lock}"),
            Answer::Lock(LockAnswer::Wait(holder)) => write!(f, "wait {holder}"),
            Answer::Lock(LockAnswer::Withdraw(holder)) => write!(f, "withdraw {holder}"),
            Answer::Turned(turn) => write!(f, "turn {turn}"),
            Answer::Released => write!(f, "released"),
            Answer::Closed(turn, locks) => write!(f, "closed {turn} {locks}"),
        }
    }
}
