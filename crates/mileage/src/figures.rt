// The figures of each box.
ghost use Rattle.std.specs.Prelude.{◌≡◌, ◌≤◌, length, IfOk, Some};
ghost use Rattle.mileage.specs.Figures.{figures_text, box_figures, each_box, mileage};

use crate::once::each_once;
use predicates::trip_box::TripBox;
use rows::trip::Trip;
use scripts::sections::Sections;
use std::alloc::{AllocError, Global};
use std::fmt;
use stores::few_rows::Listed;
use stores::scans::total_of;

// A box's number, counted from 1, how many trips hold in it, and their metres.
#[derive(Clone, Copy)]
pub(crate) struct BoxFigures {
    number: usize,
    trips: usize,
    metres: u64,
}

impl fmt::Display for BoxFigures {
    ghost output = { λ f. Some (figures_text f) };

    fn fmt<W: fmt::Write>(&self, f: &mut fmt::Formatter<W>) -> fmt::Result {
        let BoxFigures {
            number,
            trips,
            metres,
        } = *self;
        write!(f, "{number} {trips} {metres}")
    }
}

fn of_box(number: usize, trips: &[Trip], wanted: &TripBox) -> BoxFigures
    requires { length trips.now ≤ 512 }
    ensures { result ≡ box_figures trips.now number wanted.now }
{
    let (trips, metres) = total_of(Listed::first_of(trips), wanted);
    BoxFigures {
        number,
        trips,
        metres,
    }
}

fn of_boxes(heap: Global, trips: &[Trip], boxes: &[TripBox]) -> Result<Vec<BoxFigures>, AllocError>
    requires { length trips.now ≤ 512 }
    ensures { IfOk result (λ v. v.items ≡ each_box trips.now boxes.now) }
{
    boxes
        .iter()
        .enumerate()
        .map(|(i, wanted)| of_box(i + 1, trips, wanted))
        .collect(heap)
}

// The figures of every box, each trip counted once.
pub(crate) fn figures(heap: Global, sections: &Sections) -> Result<Vec<BoxFigures>, AllocError>
    ensures { IfOk result (λ v. v.items ≡ mileage sections.now.trips.items sections.now.boxes.items) }
{
    let trips = each_once(heap, sections.trips.as_slice())?;
    of_boxes(heap, trips.as_slice(), sections.boxes.as_slice())
}
