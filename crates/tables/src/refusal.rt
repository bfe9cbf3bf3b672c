// Why a call is refused. A refusal alters nothing.
ghost use Rattle.std.specs.Prelude.{◌≡◌};
ghost use Rattle.std.specs.Prelude.{Some as SomeOf};
ghost use Rattle.tables.specs.Refusals.{refusal_number, refused_text};

use predicates::BadPredicate;
use rows::BadRow;
use std::error::Error;
use std::fmt;

#[derive(Clone, Copy, PartialEq, Eq, Debug)]
pub enum Refusal {
    // A lent list has another length than the keeper was made for, or one outside the limits.
    WrongBook = 1,
    // A row outside its limits.
    BadRow = 2,
    // A range or a set that makes no predicate.
    BadPredicate = 3,
    // A class above 7.
    BadClass = 4,
    // Never opened, or ended.
    NoSuchJob = 5,
    // The job has turned, and may not ask for locks or withdraw any more.
    HasTurned = 6,
    // The job has not turned, and may not release locks yet.
    NotTurned = 7,
    // The job holds no lock of that number.
    NotYourLock = 8,
    // No single lock of the job covers what it asks for.
    NotCovered = 9,
    // Thirty-two jobs are open.
    NoPlace = 10,
    // No job number or lock number is left.
    NumbersSpent = 11,
    // The lock table is full.
    BookFull = 12,
    // The undo log is full, and an entry is due.
    NotesFull = 13,
    // No place of the store is left beside those that removed rows may need again.
    StoreFull = 14,
}

impl Refusal {
    pub fn number(self) -> u32
        ensures { result ≡ refusal_number self }
    {
        self as u32
    }
}

// The word and the number, as a program prints them.
impl fmt::Display for Refusal {
    ghost output = { λ e. SomeOf (refused_text e) };

    fn fmt<W: fmt::Write>(&self, f: &mut fmt::Formatter<W>) -> fmt::Result {
        let number = self.number();
        write!(f, "refused {number}")
    }
}

impl Error for Refusal {}

// By hand, as a derive would not say what they give.
impl From<BadRow> for Refusal {
    ghost from_gives = { λ _ r. r ≡ BadRow };

    fn from(_bad: BadRow) -> Refusal {
        Refusal::BadRow
    }
}

impl From<BadPredicate> for Refusal {
    ghost from_gives = { λ _ r. r ≡ BadPredicate };

    fn from(_bad: BadPredicate) -> Refusal {
        Refusal::BadPredicate
    }
}

ghost use Rattle.tables.specs.declared.refusal.Refusal.TheVariants.{BadRow, BadPredicate};
