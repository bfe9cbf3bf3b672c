// What is left of a text that is read from left to right.
ghost use Rattle.std.specs.Prelude.{◌≡◌, ℕ, ◌+◌, ◌*◌, ◌<◌, ◌≤◌, [], ◌∷◌, MatchOption};
ghost use Rattle.scripts.specs.Scans.{pass, finished, Reads};
ghost use Rattle.scripts.specs.Numbers.{number, word, NoDigit};

use crate::fault::Cause;

#[derive(Drop)]
pub(crate) struct Cursor<'a> {
    rest: &'a [u8],
}

// The number of which `value` has been read and `digit` comes next, if it fits 32 bits.
fn appended(value: u32, digit: u32) -> Option<u32>
    ensures { MatchOption result (4294967295 < value * 10 + digit) (λ n. n ≡ value * 10 + digit) }
{
    value.checked_mul(10)?.checked_add(digit)
}

impl<'a> Cursor<'a> {
    pub(crate) fn new(text: &'a [u8]) -> Cursor<'a>
        ensures { result.rest.now ≡ text.now }
    {
        Cursor { rest: text }
    }

    // The digit that comes next, which is passed; none where something else does.
    fn digit(&mut self) -> Option<u32>
        ensures { MatchOption result (NoDigit self.old.rest.now × (self.new.rest.now ≡ self.old.rest.now)) (λ d. (d < 10) × (self.old.rest.now ≡ (48 + d) ∷ self.new.rest.now)) }
    {
        match self.rest {
            [byte @ b'0'..=b'9', rest @ ..] => {
                self.rest = rest;
                Some(u32::from(*byte - b'0'))
            }
            _ => None,
        }
    }

    pub(crate) fn number(&mut self) -> Result<u32, Cause>
        ensures { Reads (number self.old.rest.now) result self.new.rest.now }
    {
        let mut value = self.digit().ok_or(Cause::Form)?;
        while let Some(digit) = self.digit() {
            if value == 0 {
                return Err(Cause::Form);
            }
            value = appended(value, digit).ok_or(Cause::Number)?;
        }
        Ok(value)
    }

    // The byte that has to come next is passed.
    pub(crate) fn pass(&mut self, byte: u8) -> Result<(), Cause>
        ensures { Reads (pass byte self.old.rest.now) result self.new.rest.now }
    {
        match self.rest {
            [next, rest @ ..] if *next == byte => {
                self.rest = rest;
                Ok(())
            }
            _ => Err(Cause::Form),
        }
    }

    // The next number of a line, with the space before it unless it is the first.
    pub(crate) fn word(&mut self, first: bool) -> Result<u32, Cause>
        ensures { Reads (word first self.old.rest.now) result self.new.rest.now }
    {
        if !first {
            self.pass(b' ')?;
        }
        self.number()
    }

    // Nothing may be left.
    pub(crate) fn end(&self) -> Result<(), Cause>
        ensures { Reads (finished self.now.rest.now) result [] }
    {
        match self.rest {
            [] => Ok(()),
            _ => Err(Cause::Form),
        }
    }
}
