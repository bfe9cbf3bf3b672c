// A store: a set of rows with a fixed number of places.
ghost use Rattle.std.specs.Prelude.{◌≡◌, ℕ, List, length};
ghost use Rattle.stores.specs.Sets.{member, delete, after, first};
ghost use Rattle.stores.specs.Stores.{Sound, put_answer, put_rows};

use rows::row::Row;

// No place is left.
#[derive(Clone, Copy, PartialEq, Eq, Debug)]
pub struct Full;

pub trait Store {
    // The kind of row that it holds.
    type Row: Row;

    // The rows, ascending. Rows and places are two members, since most clauses of this trait speak of one of them.
    ghost rows: { Self → List Self.Row };

    // How many rows it can hold.
    ghost places: { Self → ℕ };

    fn has(&self, row: &Self::Row) -> bool
        ensures answer { result ≡ member Self.Row.order row.now (rows self.now) };

    fn size(&self) -> usize
        ensures answer { result ≡ length (rows self.now) };

    fn places(&self) -> usize
        ensures answer { result ≡ places self.now };

    // The least row.
    fn first(&self) -> Option<Self::Row>
        ensures answer { result ≡ first (rows self.now) };

    // The least row that is greater than the given one.
    fn after(&self, row: &Self::Row) -> Option<Self::Row>
        ensures answer { result ≡ after Self.Row.order row.now (rows self.now) };

    // Puts the row in; says whether it was new, as sets of the library do. Refused where every place is taken.
    fn put(&mut self, row: Self::Row) -> Result<bool, Full>
        ensures answer { result ≡ put_answer Self.Row.order row (rows self.old) (places self.old) }
        ensures rows { rows self.new ≡ put_rows Self.Row.order row (rows self.old) (places self.old) }
        ensures places { places self.new ≡ places self.old };

    // Takes the row out; says whether it was there.
    fn take(&mut self, row: &Self::Row) -> bool
        ensures answer { result ≡ member Self.Row.order row.now (rows self.old) }
        ensures rows { rows self.new ≡ delete Self.Row.order row.now (rows self.old) }
        ensures places { places self.new ≡ places self.old };

    // The rows ascend and fit the places.
    ghost sound: { (s : Self) → Sound Self.Row.order (rows s) (places s) };
}
