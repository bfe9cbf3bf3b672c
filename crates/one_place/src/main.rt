// A report and an upload meet over one box and a store of one place: every call of the two jobs with what the keeper answers.
#![tactic(auto)]

use calls::data::DataCall;
use calls::shown::Line;
use calls::transcript::{Call, Entry};
use policies::age::Age;
use predicates::trip_box::TripBox;
use rows::trip::Trip;
use runs::running::begin;
use stores::one_place::OnePlace;
use tables::entries::{Alteration, LockEntry, Mode, UndoEntry};

fn data(job: u32, call: DataCall<TripBox, Trip>) -> Entry<TripBox, Trip> {
    Entry::new(Call::Data { job, call })
}

// Job 1 is the report, job 2 the upload. The report may wait for the upload, which was opened after it; the upload is
// told to withdraw where the report is in its way. So the report's total and its list tell of one state.
// Of fixed length, as the lists in `main` are; each program has its own calls.
fn both_jobs(day: TripBox, trip: Trip) -> [Entry<TripBox, Trip>; 14] {
    [
        Entry::new(Call::Open { class: 0 }),
        Entry::new(Call::Open { class: 0 }),
        Entry::new(Call::Lock {
            job: 2,
            mode: Mode::Write,
            predicate: day,
        }),
        Entry::new(Call::Lock {
            job: 1,
            mode: Mode::Read,
            predicate: day,
        }),
        data(2, DataCall::Add(trip)),
        Entry::new(Call::Close { job: 2 }),
        Entry::new(Call::Lock {
            job: 1,
            mode: Mode::Read,
            predicate: day,
        }),
        data(1, DataCall::Total(day)),
        data(1, DataCall::Next(day, None)),
        data(1, DataCall::Next(day, Some(trip))),
        data(1, DataCall::Drop(trip)),
        Entry::new(Call::Turn { job: 1 }),
        Entry::new(Call::Release { job: 1, lock: 2 }),
        Entry::new(Call::Close { job: 1 }),
    ]
}

// Two programs have this text: in one function for both, of a library, the lists would need a contract, and the printing as well.
fn main(rt: HostRuntime) -> anyhow::Result<()> {
    let day = TripBox::on_days(100, 100)?;
    let trip = Trip::new(7, 100, 3_600, 0, 5_000)?;
    let unused = LockEntry {
        job: 0,
        class: 0,
        number: 0,
        mode: Mode::Read,
        predicate: day,
    };
    // Lists of fixed length: the caller lends the keeper its memory, a rule of the project.
    let mut table = [unused; 8];
    let mut log = [UndoEntry {
        job: 0,
        alteration: Alteration::Added(trip),
    }; 8];
    let mut transcript = both_jobs(day, trip);
    begin(
        &Age,
        &mut table,
        &mut log,
        &mut OnePlace::new(),
        &mut transcript,
    )?;
    for (i, entry) in transcript.iter().enumerate() {
        if let Some(reply) = entry.answer {
            let position = i + 1;
            println!(rt; "{}", Line { position, reply })?;
        }
    }
    Ok(())
}
