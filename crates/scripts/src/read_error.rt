// Why a text was not read.
ghost use Rattle.std.specs.Prelude.{◌≡◌};
ghost use Rattle.scripts.specs.declared.read_error.ReadError.TheVariants.{Fault as Stopped, NoMemory};

use crate::fault::Fault;
use std::alloc::{AllocError, AllocFailed};

#[derive(Debug, Drop)]
pub enum ReadError {
    // It is not a script.
    Fault(Fault),
    // There was no memory for what it says.
    NoMemory,
}

// By hand, as a derive would not say what it gives.
impl From<Fault> for ReadError {
    ghost from_gives = { λ f r. r ≡ Stopped f };

    fn from(fault: Fault) -> ReadError {
        ReadError::Fault(fault)
    }
}

// Two impls for want of memory, by hand: std has two errors of it, `AllocFailed` with the value that found no room, and a derive
// would not say what they give.
impl From<AllocError> for ReadError {
    ghost from_gives = { λ _ r. r ≡ NoMemory };

    fn from(_: AllocError) -> ReadError {
        ReadError::NoMemory
    }
}

impl<T: Drop> From<AllocFailed<T>> for ReadError {
    ghost from_gives = { λ _ r. r ≡ NoMemory };

    fn from(_: AllocFailed<T>) -> ReadError {
        ReadError::NoMemory
    }
}
