// Rows that can be gone over as they stand, at most 65,536 of them: the sum of their quantities fits 64 bits.
ghost use Rattle.std.specs.Prelude.{◌≡◌, ◌≤◌, length, take};
ghost use Rattle.std.specs.Iterator.{UpTo, YieldsFirst, item_count};

pub trait FewRows: Iterator {
    // The next row may always be asked for.
    ghost ready: { (s : Self) → Self.can_next s };

    // There are few left.
    ghost few: { (s : Self) → UpTo (Self.remaining s) 65536 };
}

// The rows of a list in their order.
#[derive(Drop)]
pub struct Listed<'a, R> {
    rows: &'a [R],
    ghost limit: { length rows.now ≤ 65536 },
}

impl<'a, R: Copy> Listed<'a, R> {
    // The first 65,536 rows of the list, or all where there are no more.
    pub fn first_of(rows: &'a [R]) -> Listed<'a, R>
        ensures { result.rows.now ≡ take 65536 rows.now }
    {
        let end = rows.len().min(65_536);
        Listed { rows: &rows[..end] }
    }
}

impl<'a, R: Copy> Iterator for Listed<'a, R> {
    type Item = R;

    ghost next_gives = { YieldsFirst (λ s. s.rows.now) };

    ghost remaining = { item_count (λ s. s.rows.now) };

    fn next(&mut self) -> Option<R> {
        let (row, rows) = self.rows.split_first()?;
        self.rows = rows;
        Some(*row)
    }
}

impl<'a, R: Copy> FewRows for Listed<'a, R> {
    ghost ready = { λ s. tt };

    ghost few = { λ s. (tt, s.limit) };
}
