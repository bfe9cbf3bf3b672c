// A kind of predicate over one kind of row.
ghost use Rattle.std.specs.Prelude.{◌≡◌, Bool, true, ◌≢◌};

use rows::row::Row;

pub trait Predicate: Copy {
    // The kind of row that it judges.
    type Row: Row;

    // Which rows hold.
    ghost holds: { Self → Self.Row → Bool };

    // Whether two are known to share no row.
    ghost apart: { Self → Self → Bool };

    // Whether the first is known to have every row of the second.
    ghost covers: { Self → Self → Bool };

    fn holds(&self, row: &Self::Row) -> bool
        ensures { result ≡ holds self.now row.now };

    fn apart(&self, other: &Self) -> bool
        ensures { result ≡ apart self.now other.now };

    fn covers(&self, other: &Self) -> bool
        ensures { result ≡ covers self.now other.now };

    ghost symmetric: { (p q : Self) → apart p q ≡ true → apart q p ≡ true };

    ghost disjoint: { (p q : Self) (r : Self.Row) → apart p q ≡ true → holds p r ≡ true → holds q r ≢ true };

    ghost contained: { (p q : Self) (r : Self.Row) → covers p q ≡ true → holds q r ≡ true → holds p r ≡ true };
}
