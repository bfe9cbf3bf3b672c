// A transcript: calls in the order in which they are made, each with its answer once it is made.
ghost use Rattle.std.specs.Prelude.{◌≡◌, None};

use crate::data::{DataAnswer, DataCall};
use crate::lock_answer::LockAnswer;
use tables::entries::Mode;
use tables::refusal::Refusal;

#[derive(Clone, Copy)]
pub enum Call<P, R> {
    Open { class: u8 },
    Lock { job: u32, mode: Mode, predicate: P },
    Turn { job: u32 },
    Release { job: u32, lock: u32 },
    Close { job: u32 },
    Withdraw { job: u32 },
    Data { job: u32, call: DataCall<P, R> },
}

// What a call gives that is not refused.
#[derive(Clone, Copy)]
pub enum Answer<R> {
    Job(u32),
    Lock(LockAnswer),
    Turned(u32),
    Released,
    // The turn number, and how many locks were given up.
    Closed(u32, usize),
    // How many locks were given up, and how many entries of the undo log.
    Withdrawn(usize, usize),
    Data(DataAnswer<R>),
}

#[derive(Clone, Copy)]
pub struct Entry<P, R> {
    pub call: Call<P, R>,
    pub answer: Option<Result<Answer<R>, Refusal>>,
}

impl<P, R> Entry<P, R> {
    // A call that is still to be made.
    pub fn new(call: Call<P, R>) -> Entry<P, R>
        ensures call { result.call ≡ call }
        ensures answer { result.answer ≡ None }
    {
        Entry { call, answer: None }
    }
}
