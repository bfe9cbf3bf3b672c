// Why and where a text is not a script.
ghost use Rattle.std.specs.Prelude.{◌≡◌, Some};
ghost use Rattle.scripts.specs.Causes.{cause_number};
ghost use Rattle.scripts.specs.Faults.{fault_text};

use std::fmt;

#[derive(Clone, Copy, PartialEq, Eq, Debug)]
pub enum Cause {
    // A byte that may not stand there, an early end, or bytes left over.
    Form = 1,
    // A number above 4,294,967,295, or a count above its limit.
    Number = 2,
    // Numbers that make no row.
    Row = 3,
    // Numbers that make no predicate.
    Predicate = 4,
    // More than 65,536 bytes.
    TooLong = 5,
}

impl Cause {
    pub fn number(self) -> u32
        ensures { result ≡ cause_number self }
    {
        self as u32
    }

    pub(crate) fn on_line(self, line: u32) -> Fault
        ensures { result ≡ record { line = line; cause = self } }
    {
        Fault { line, cause: self }
    }
}

// The first failure from left to right: its line, counted from 1, and its cause.
#[derive(Clone, Copy, PartialEq, Eq, Debug)]
pub struct Fault {
    pub line: u32,
    pub cause: Cause,
}

// `fault`, the line and the cause's number, as a program prints it.
impl fmt::Display for Fault {
    ghost output = { λ f. Some (fault_text f) };

    fn fmt<W: fmt::Write>(&self, f: &mut fmt::Formatter<W>) -> fmt::Result {
        let line = self.line;
        let cause = self.cause.number();
        write!(f, "fault {line} {cause}")
    }
}
