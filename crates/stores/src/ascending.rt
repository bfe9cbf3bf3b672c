// A walk over the rows of a store, ascending.
ghost use Rattle.std.specs.Prelude.{◌≡◌};
ghost use Rattle.std.specs.Iterator.{YieldsFirst, item_count};
ghost use Rattle.stores.specs.Few.{rest_few};
ghost use Rattle.stores.specs.Sets.{beyond, rest};
ghost use Rattle.stores.specs.Walks.{left};

use crate::few_rows::FewRows;
use crate::store::Store;

// The row that was given last, or that the walk begins behind; the greater ones are left. The store is asked for a row only where
// one is asked of the walk.
#[derive(Drop)]
pub struct Ascending<'a, S: Store> {
    store: &'a S,
    last: Option<S::Row>,
}

impl<'a, S: Store> Ascending<'a, S> {
    // The rows that are greater than the given one, or all where none is given.
    pub fn beyond(store: &'a S, given: Option<S::Row>) -> Ascending<'a, S>
        ensures { left S.Row.order S.rows result ≡ rest S.Row.order given (S.rows store.now) }
    {
        Ascending { store, last: given }
    }

    // The least of the rows that are left.
    fn following(&self) -> Option<S::Row>
        ensures { result ≡ beyond S.Row.order self.now.last (S.rows self.now.store.now) }
    {
        match self.last {
            Some(row) => self.store.after(&row),
            None => self.store.first(),
        }
    }
}

impl<'a, S: Store> Iterator for Ascending<'a, S> {
    type Item = S::Row;

    ghost next_gives = { YieldsFirst (left S.Row.order S.rows) };

    ghost remaining = { item_count (left S.Row.order S.rows) };

    fn next(&mut self) -> Option<S::Row> {
        let row = self.following()?;
        self.last = Some(row);
        Some(row)
    }
}

impl<'a, S: Store> FewRows for Ascending<'a, S> {
    ghost ready = { λ s. tt };

    ghost few = { λ s. (tt, rest_few s.last (S.sound s.store.now)) };
}
