// The lines of a section: one item on each.
ghost use Rattle.std.specs.Prelude.{◌≡◌, ◌+◌, ◌^◌, ◌<◌, ◌≤◌, map, vec_len, IfOk};
ghost use Rattle.scripts.specs.Lines.{judged, items, Finds, Gives};

use crate::cursor::Cursor;
use crate::fault::Cause;
use crate::item::Item;
use crate::read_error::ReadError;
use std::alloc::Global;

// The item that the numbers of a line stand for, at the end of the line.
fn finish<const N: usize, T: Item<N>>(cursor: &mut Cursor, words: &[u32; N]) -> Result<T, Cause>
    ensures { Finds T.numbers (judged N T.valid T.fault words.now cursor.old.rest.now) result cursor.new.rest.now }
{
    let item = T::make(words)?;
    cursor.pass(b'\n')?;
    Ok(item)
}

// The items of `count` lines, of which the first is line `first` of the text.
pub(crate) fn items<const N: usize, T: Item<N>>(
    heap: Global,
    cursor: &mut Cursor,
    first: u32,
    count: u32,
) -> Result<Vec<T>, ReadError>
    requires width { N ≤ 8 }
    requires lines { first + count < 2 ^ 32 }
    ensures read { Gives (λ v. map T.numbers v.items) (items N T.valid T.fault count first cursor.old.rest.now) result cursor.new.rest.now }
    ensures all { IfOk result (λ v. vec_len v ≡ count) }
{
    let mut list = Vec::new(heap);
    // A rule of the project: nested loops, which a fault leaves by the label.
    let (line, cause) = 'lines: {
        for line in first..first + count {
            let mut words = [0; N];
            for (j, word) in words.iter_mut().enumerate() {
                match cursor.word(j == 0) {
                    Ok(number) => *word = number,
                    Err(cause) => break 'lines (line, cause),
                }
            }
            match finish(cursor, &words) {
                Ok(item) => list.push(item)?,
                Err(cause) => break 'lines (line, cause),
            }
        }
        return Ok(list);
    };
    Err(cause.on_line(line).into())
}
