// Each row of a list once.
ghost use Rattle.std.specs.Prelude.{◌≡◌, ◌≤◌, IfOk, length, vec_len};
ghost use Rattle.mileage.specs.Once.{among, gathered, EachOnce};

use rows::row::Row;
use std::alloc::{AllocError, Global};

fn is_among<R: Row>(rows: &[R], row: &R) -> bool
    ensures { result ≡ among R.order row.now rows.now }
{
    rows.iter().any(|other| other.compare(row).is_eq())
}

// The rows, each once, in the order in which they first come.
pub(crate) fn each_once<R: Row>(heap: Global, rows: &[R]) -> Result<Vec<R>, AllocError>
    ensures list { IfOk result (λ v. v.items ≡ gathered R.order rows.now) }
    ensures once { IfOk result (λ v. EachOnce rows.now v.items) }
    ensures few { IfOk result (λ v. vec_len v ≤ length rows.now) }
{
    let mut seen = Vec::new(heap);
    // A loop: a chain is no plainer, since each row is sought among those kept before it.
    for row in rows {
        if !is_among(seen.as_slice(), row) {
            seen.push(*row)?;
        }
    }
    Ok(seen)
}
