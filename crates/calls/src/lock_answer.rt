// What LOCK answers.

#[derive(Clone, Copy, PartialEq, Eq, Debug)]
pub enum LockAnswer {
    // The lock's number.
    Granted(u32),
    // The smallest holder of a conflicting lock; the job may wait for all of them.
    Wait(u32),
    // The smallest holder of a conflicting lock for which the job may not wait.
    Withdraw(u32),
}
