// The parts of a script in turn: its sections, and its end.
ghost use Rattle.std.specs.Prelude.{◌≡◌, ◌+◌, ◌^◌, ◌<◌, ◌≤◌, map, IfOk, vec_len};
ghost use Rattle.scripts.specs.Scans.{Reads};
ghost use Rattle.scripts.specs.Lines.{Gives};
ghost use Rattle.scripts.specs.Sections.{counted, section, trips_and_boxes};
ghost use Rattle.scripts.specs.Wholes.{section_numbers};

use crate::cursor::Cursor;
use crate::fault::Cause;
use crate::item::Item;
use crate::items::items;
use crate::read_error::ReadError;
use crate::sections::Sections;
use predicates::trip_box::TripBox;
use rows::trip::Trip;
use std::alloc::Global;

fn count(cursor: &mut Cursor, most: u32) -> Result<u32, Cause>
    ensures read { Reads (counted most cursor.old.rest.now) result cursor.new.rest.now }
    ensures few { IfOk result (λ n. n ≤ most) }
{
    let count = cursor.number()?;
    if count > most {
        return Err(Cause::Number);
    }
    cursor.pass(b'\n')?;
    Ok(count)
}

fn section<const N: usize, T: Item<N>>(
    heap: Global,
    cursor: &mut Cursor,
    line: u32,
    most: u32,
) -> Result<Vec<T>, ReadError>
    requires width { N ≤ 8 }
    requires lines { line + 1 + most < 2 ^ 32 }
    ensures read { Gives (λ v. map T.numbers v.items) (section N T.valid T.fault most line cursor.old.rest.now) result cursor.new.rest.now }
    ensures few { IfOk result (λ v. vec_len v ≤ most) }
{
    let count = count(cursor, most).map_err(|cause| cause.on_line(line))?;
    items(heap, cursor, line + 1, count)
}

// The trips and the boxes, at the front of a script.
pub(crate) fn trips_and_boxes(heap: Global, cursor: &mut Cursor) -> Result<Sections, ReadError>
    ensures { Gives section_numbers (trips_and_boxes cursor.old.rest.now) result cursor.new.rest.now }
{
    let trips = section::<5, Trip>(heap, cursor, 1, 512)?;
    let line = 2 + trips.len() as u32;
    let boxes = section::<8, TripBox>(heap, cursor, line, 64)?;
    Ok(Sections { trips, boxes })
}
