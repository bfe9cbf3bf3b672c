// What stands on a line of a section: N numbers, each but the first after a space.
ghost use Rattle.std.specs.Prelude.{◌≡◌, ℕ, Bool, true, false, List, MatchResult};
ghost use Rattle.scripts.specs.declared.fault.Cause.{Cause};

use crate::fault::Cause;

mod trip_box_item;
mod trip_item;

pub trait Item<const N: usize>: Copy {
    // The numbers that stand for it.
    ghost numbers: { Self → List ℕ };

    // Whether these numbers stand for one.
    ghost valid: { List ℕ → Bool };

    // Why they do not.
    ghost fault: { Cause };

    fn make(words: &[u32; N]) -> Result<Self, Cause>
        ensures { MatchResult result (λ x. (valid words.now ≡ true) × (numbers x ≡ words.now)) (λ c. (valid words.now ≡ false) × (c ≡ fault)) };
}
