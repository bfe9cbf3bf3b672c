// What is asked of rows by a predicate.
ghost use Rattle.std.specs.Prelude.{◌≡◌, List, length, sum_by, filter};
ghost use Rattle.std.specs.Iterator.{Drains};
ghost use Rattle.stores.specs.Sets.{next};

use crate::ascending::Ascending;
use crate::few_rows::FewRows;
use crate::store::Store;
use predicates::predicate::Predicate;
use rows::row::Row;

// How many rows hold, and the sum of their quantities.
pub fn total_of<I: FewRows<Item = P::Row>, P: Predicate>(rows: I, predicate: &P) -> (usize, u64)
    ensures { (xs : List P.Row) × Drains I.next_gives rows xs × (result.0 ≡ length (filter (P.holds predicate.now) xs)) × (result.1 ≡ sum_by P.Row.amount (filter (P.holds predicate.now) xs)) }
{
    let mut count = 0;
    let mut sum = 0;
    // A loop: with `fold` over generic rows no proof was found that the totals fit.
    for row in rows {
        if predicate.holds(&row) {
            count += 1;
            sum += u64::from(row.quantity());
        }
    }
    (count, sum)
}

// The same of all rows of a store.
pub fn total<S: Store, P: Predicate<Row = S::Row>>(store: &S, predicate: &P) -> (usize, u64)
    ensures count { result.0 ≡ length (filter (P.holds predicate.now) (S.rows store.now)) }
    ensures sum { result.1 ≡ sum_by S.Row.amount (filter (P.holds predicate.now) (S.rows store.now)) }
{
    total_of(Ascending::beyond(store, None), predicate)
}

// The least row that holds and is greater than the given one, if one is given.
pub fn next<S: Store, P: Predicate<Row = S::Row>>(
    store: &S,
    predicate: &P,
    given: Option<S::Row>,
) -> Option<S::Row>
    ensures { result ≡ next S.Row.order (P.holds predicate.now) given (S.rows store.now) }
{
    Ascending::beyond(store, given).find(|row| predicate.holds(row))
}
