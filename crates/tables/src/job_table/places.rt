// Places of the table, lent to be changed. They are lent by index, since no proof was found where a function returns the
// record in the place (`records[at].as_mut()`, a `match` on the place) or lends by `iter_mut`.
// `place_of` and `free_place` differ in their test: one function over the test would take a closure, and its contract would be longer
// than theirs.
ghost use Rattle.std.specs.Prelude.{◌≡◌, find as list_find};
ghost use Rattle.std.specs.Option.{option_copied_mut, option_map};
ghost use Rattle.std.specs.Borrow.{sem};
ghost use Rattle.tables.specs.Jobs.{find, has_job, is_free};
ghost use Rattle.tables.specs.Places.{LendsFirst};

use crate::entries::OfJob;
use crate::ledger::JobRecord;

pub(crate) fn has_job(place: &Option<JobRecord>, job: u32) -> bool
    ensures { result ≡ has_job job place.now }
{
    place.is_some_and(|open| open.is_of(job))
}

// The place of the open job of that number.
pub(crate) fn place_of(
    records: &mut [Option<JobRecord>],
    job: u32,
) -> Option<&mut Option<JobRecord>>
    ensures* writes_back { sem 𝓛 (LendsFirst (has_job job) records.entry result) }
    ensures value { option_copied_mut result ≡ option_map (λ b. Some b) (find job records.old) }
{
    let at = records.iter().position(|place| has_job(place, job))?;
    Some(&mut records[at])
}

// The first free place.
pub(crate) fn free_place(records: &mut [Option<JobRecord>]) -> Option<&mut Option<JobRecord>>
    ensures* writes_back { sem 𝓛 (LendsFirst is_free records.entry result) }
    ensures value { option_copied_mut result ≡ list_find is_free records.old }
{
    let at = records.iter().position(Option::is_none)?;
    Some(&mut records[at])
}
