// Lists in the front of a lent slice: the first `used` places are the list, and what lies past them means nothing.
// A rule of the project: memory is fixed, so the caller lends the lists, and says how many places are used.
ghost use Rattle.std.specs.Prelude.{◌≡◌, length, take, nat_lt, slice_set};
ghost use Rattle.tables.specs.Lent.{Dropped, Released};

use crate::entries::{LockEntry, OfJob};

// Puts an entry at the end of the list, if there is a place; says whether, as the sets of the library do.
pub fn append<E: Copy>(list: &mut [E], used: usize, entry: E) -> bool
    ensures room { result ≡ nat_lt used (length list.old) }
    ensures list { list.new ≡ slice_set list.old used entry }
{
    let room = used < list.len();
    if room {
        list[used] = entry;
    }
    room
}

// Gives up the entries of a job: the others move up in their order. Answers how many there are then.
pub fn drop_job<E: OfJob>(list: &mut [E], used: usize, job: u32) -> usize
    ensures { Dropped E.owner job (take used list.old) result list.new }
{
    let end = used.min(list.len());
    // `retain` is only on `Vec`: what stays is moved to the front by index.
    let mut rest = 0;
    for i in 0..end {
        let entry = list[i];
        if !entry.is_of(job) {
            list[rest] = entry;
            rest += 1;
        }
    }
    rest
}

// Gives up the job's first lock of that number, if there is one, and closes its gap; says whether there was one, as the sets of
// the library do.
pub fn release<P: Copy>(locks: &mut [LockEntry<P>], used: usize, job: u32, number: u32) -> bool
    ensures { Released job number (take used locks.old) result locks.new }
{
    let end = used.min(locks.len());
    let Some(at) = locks[..end]
        .iter()
        .position(|entry| entry.is_lock(job, number))
    else {
        return false;
    };
    locks.copy_within(at + 1..end, at);
    true
}
