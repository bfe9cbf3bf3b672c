// Entries of the lent lists: locks that are held, and alterations that can be undone. A lock that is wanted is an entry too, with the
// number that it would get.
ghost use Rattle.std.specs.Prelude.{◌≡◌, ℕ, ◌||◌};
ghost use Rattle.tables.specs.Lists.{is};
ghost use Rattle.tables.specs.Locks.{is_write, is_lock, conflicts};

use policies::wait_policy::Standing;
use predicates::predicate::Predicate;

#[derive(Clone, Copy, PartialEq, Eq, Debug)]
pub enum Mode {
    Read,
    Write,
}

// A lock: whose it is, the job's class, its number, and what it locks.
#[derive(Clone, Copy)]
pub struct LockEntry<P> {
    pub job: u32,
    pub class: u8,
    pub number: u32,
    pub mode: Mode,
    pub predicate: P,
}

// A real alteration of the rows.
#[derive(Clone, Copy)]
pub enum Alteration<R> {
    Added(R),
    Removed(R),
    Changed { old: R, new: R },
}

// An alteration by a job that has not turned, to be undone if it withdraws.
#[derive(Clone, Copy)]
pub struct UndoEntry<R> {
    pub job: u32,
    pub alteration: Alteration<R>,
}

// What belongs to a job: an entry of a lent list, or the job's record.
pub trait OfJob: Copy {
    ghost owner: { Self → ℕ };

    fn is_of(&self, job: u32) -> bool
        ensures { result ≡ is job (owner self.now) };
}

// What tells the number of the job that it belongs to. It stands apart from `OfJob`, which asks only for the test.
pub trait Owned: OfJob {
    fn owner(&self) -> u32
        ensures { result ≡ Self.owner self.now };
}

impl<P: Copy> OfJob for LockEntry<P> {
    ghost owner = { λ l. l.job };

    #[tactic(auto, unfolding(crate::specs::Lists::is))]
    fn is_of(&self, job: u32) -> bool {
        job == self.job
    }
}

impl<P: Copy> Owned for LockEntry<P> {
    fn owner(&self) -> u32 {
        self.job
    }
}

impl<R: Copy> OfJob for UndoEntry<R> {
    ghost owner = { λ u. u.job };

    #[tactic(auto, unfolding(crate::specs::Lists::is))]
    fn is_of(&self, job: u32) -> bool {
        job == self.job
    }
}

impl<R: Copy> Owned for UndoEntry<R> {
    fn owner(&self) -> u32 {
        self.job
    }
}

impl Mode {
    pub fn is_write(self) -> bool
        ensures { result ≡ is_write self }
    {
        self == Mode::Write
    }

    // Whether locks in these modes on one row exclude each other: at least one is for writing.
    pub fn excludes(self, other: Mode) -> bool
        ensures { result ≡ (is_write self || is_write other) }
    {
        self.is_write() || other.is_write()
    }
}

impl<P: Copy> LockEntry<P> {
    // Whether this is the job's lock of that number.
    #[tactic(auto, unfolding(crate::specs::Lists::is))]
    pub fn is_lock(&self, job: u32, number: u32) -> bool
        ensures { result ≡ is_lock job number self.now }
    {
        self.is_of(job) && number == self.number
    }

    // The job that it is of, as a waiting policy sees it.
    pub(crate) fn standing(&self) -> Standing
        ensures { result ≡ record { class = self.now.class; number = self.now.job } }
    {
        Standing {
            class: self.class,
            number: self.job,
        }
    }
}

impl<P: Predicate> LockEntry<P> {
    // Whether the lock that is wanted conflicts with this one: this is of another job and not apart, and one of the two
    // writes.
    pub fn conflicts_with(&self, wanted: &LockEntry<P>) -> bool
        ensures { result ≡ conflicts P.apart wanted.now.job wanted.now.mode wanted.now.predicate self.now }
    {
        !self.is_of(wanted.job)
            && wanted.mode.excludes(self.mode)
            && !self.predicate.apart(&wanted.predicate)
    }
}
