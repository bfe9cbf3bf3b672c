// Reading a text that has trips and boxes, and nothing after them.
ghost use Rattle.std.specs.Prelude.{[]};
ghost use Rattle.scripts.specs.Lines.{Gives};
ghost use Rattle.scripts.specs.Sections.{reading};
ghost use Rattle.scripts.specs.Wholes.{section_numbers, Accepts};

use crate::cursor::Cursor;
use crate::fault::Cause;
use crate::parts::trips_and_boxes;
use crate::read_error::ReadError;
use crate::sections::Sections;
use std::alloc::Global;

// The most bytes that a script may have.
pub const MOST_BYTES: usize = 65_536;

#[tactic(auto, using(crate::proofs::Whole::accepts, crate::proofs::Whole::not_written))]
pub fn read_sections(heap: Global, text: &[u8]) -> Result<Sections, ReadError>
    ensures left_to_right { Gives section_numbers (reading text.now) result [] }
    ensures exact { Accepts text.now result }
{
    if text.len() > MOST_BYTES {
        return Err(Cause::TooLong.on_line(1).into());
    }
    let mut cursor = Cursor::new(text);
    let sections = trips_and_boxes(heap, &mut cursor)?;
    let line = 3 + sections.trips.len() as u32 + sections.boxes.len() as u32;
    cursor.end().map_err(|cause| cause.on_line(line))?;
    Ok(sections)
}
