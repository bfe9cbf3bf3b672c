// A waiting policy: whether an asking job may wait for a holder, by class and number of both.
ghost use Rattle.std.specs.Prelude.{◌≡◌, ℕ, Bool};
ghost use Rattle.policies.specs.Ranks.{Ranked};

// A job as a policy sees it. The derived order is by class and then by number, which is how `ClassThenAge` answers.
#[derive(Clone, Copy, PartialEq, Eq, PartialOrd, Ord, Debug)]
pub struct Standing {
    pub class: u8,
    pub number: u32,
}

pub trait WaitPolicy {
    // Whether the first job, by class and number, may wait for the second. Numbers and no `Standing`, here and in `rank`, so that
    // definitions of the crates that use this can speak of a lock's holder and its class without making one.
    ghost allows: { ℕ → ℕ → ℕ → ℕ → Bool };

    // A rank of every job by class and number.
    ghost rank: { ℕ → ℕ → ℕ };

    fn may_wait(&self, asker: Standing, holder: Standing) -> bool
        ensures { result ≡ allows asker.class asker.number holder.class holder.number };

    // Who may wait has the smaller rank, so that jobs never wait on one another in a circle.
    ghost ranked: { Ranked allows rank };
}
