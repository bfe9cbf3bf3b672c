// A store of one place, the smallest there is: enough to show a keeper at work.
ghost use Rattle.std.specs.Prelude.{◌≡◌, None};
ghost use Rattle.stores.specs.OnePlaces.{held_rows, held_sound};

use crate::store::{Full, Store};
use rows::row::Row;

#[derive(Clone, Copy)]
pub struct OnePlace<R> {
    row: Option<R>,
}

impl<R: Row> OnePlace<R> {
    // With its place free.
    pub fn new() -> OnePlace<R>
        ensures { result.row ≡ None }
    {
        OnePlace { row: None }
    }
}

impl<R: Row> Store for OnePlace<R> {
    type Row = R;

    ghost rows = { λ s. held_rows s.row };

    ghost places = { λ _. 1 };

    ghost sound = { λ s. held_sound s.row };

    fn has(&self, row: &R) -> bool {
        self.row.is_some_and(|held| row.compare(&held).is_eq())
    }

    fn size(&self) -> usize {
        usize::from(self.row.is_some())
    }

    fn places(&self) -> usize {
        1
    }

    fn first(&self) -> Option<R> {
        self.row
    }

    fn after(&self, row: &R) -> Option<R> {
        self.row.filter(|held| row.compare(held).is_lt())
    }

    fn put(&mut self, row: R) -> Result<bool, Full> {
        let Some(held) = self.row else {
            self.row = Some(row);
            return Ok(true);
        };
        if row.compare(&held).is_eq() {
            Ok(false)
        } else {
            Err(Full)
        }
    }

    fn take(&mut self, row: &R) -> bool {
        let there = self.has(row);
        if there {
            self.row = None;
        }
        there
    }
}
