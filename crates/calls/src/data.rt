// Data calls, which read and write rows, and what they answer.

#[derive(Clone, Copy)]
pub enum DataCall<P, R> {
    // How many rows hold, and the sum of their quantities.
    Total(P),
    // The least row that holds and is greater than the given one, if one is given.
    Next(P, Option<R>),
    Add(R),
    Drop(R),
    Change { old: R, new: R },
}

// What ADD, DROP and CHANGE answer.
#[derive(Clone, Copy, PartialEq, Eq, Debug)]
pub enum EditAnswer {
    Added,
    // ADD of a row that is there.
    Already,
    Dropped,
    // DROP or CHANGE of a row that is not there.
    Absent,
    Changed,
    // CHANGE into another row that is there.
    Taken,
}

#[derive(Clone, Copy)]
pub enum DataAnswer<R> {
    Total(usize, u64),
    Next(Option<R>),
    Edit(EditAnswer),
}
