// A kind of row: values in a strict order, each with a quantity that can be summed.
ghost use Rattle.std.specs.Prelude.{◌≡◌, ℕ};
ghost use Rattle.std.specs.declared.cmp.Ordering.{Ordering};
ghost use Rattle.rows.specs.Orders.{Strict};

use std::cmp::Ordering;

pub trait Row: Copy + Ord {
    // How two rows compare.
    ghost order: { Self → Self → Ordering };

    // What a row counts for in a sum.
    ghost amount: { Self → ℕ };

    fn compare(&self, other: &Self) -> Ordering
        ensures { result ≡ order self.now other.now }
    {
        self.cmp(other)
    }

    fn quantity(&self) -> u32
        ensures { result ≡ amount self.now };

    // The order is what `cmp` answers.
    ghost compared: { (x y : Self) → Self.Ord.cmp x y ≡ order x y };

    ghost strict: { Strict order };
}
