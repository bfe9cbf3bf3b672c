// A report and an upload meet over one box: every lock call of the two jobs with what the keeper answers.
#![tactic(auto)]

use calls::shown::Line;
use calls::transcript::{Call, Entry};
use policies::age::Age;
use predicates::trip_box::TripBox;
use rows::trip::Trip;
use runs::running::begin;
use stores::one_place::OnePlace;
use tables::entries::{Alteration, LockEntry, Mode, UndoEntry};

// Job 1 is the report, job 2 the upload. The report may wait for the upload, which was opened after it; the upload is
// told to withdraw where the report is in its way.
// Of fixed length, as the lists in `main` are; each program has its own calls.
fn both_jobs(day: TripBox) -> [Entry<TripBox, Trip>; 9] {
    [
        Entry::new(Call::Open { class: 0 }),
        Entry::new(Call::Open { class: 0 }),
        Entry::new(Call::Lock {
            job: 2,
            mode: Mode::Write,
            predicate: day,
        }),
        Entry::new(Call::Lock {
            job: 1,
            mode: Mode::Read,
            predicate: day,
        }),
        Entry::new(Call::Close { job: 2 }),
        Entry::new(Call::Lock {
            job: 1,
            mode: Mode::Read,
            predicate: day,
        }),
        Entry::new(Call::Turn { job: 1 }),
        Entry::new(Call::Release { job: 1, lock: 2 }),
        Entry::new(Call::Close { job: 1 }),
    ]
}

// Two programs have this text: in one function for both, of a library, the lists would need a contract, and the printing as well.
fn main(rt: HostRuntime) -> anyhow::Result<()> {
    let day = TripBox::on_days(100, 100)?;
    let unused = LockEntry {
        job: 0,
        class: 0,
        number: 0,
        mode: Mode::Read,
        predicate: day,
    };
    // Lists of fixed length: the caller lends the keeper its memory, a rule of the project.
    let mut table = [unused; 8];
    let mut log = [UndoEntry {
        job: 0,
        alteration: Alteration::Added(Trip::new(7, 100, 3_600, 0, 5_000)?),
    }; 8];
    let mut transcript = both_jobs(day);
    begin(
        &Age,
        &mut table,
        &mut log,
        &mut OnePlace::new(),
        &mut transcript,
    )?;
    for (i, entry) in transcript.iter().enumerate() {
        if let Some(reply) = entry.answer {
            let position = i + 1;
            println!(rt; "{}", Line { position, reply })?;
        }
    }
    Ok(())
}
