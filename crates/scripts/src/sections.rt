// The trips and the boxes of a script.
ghost use Rattle.std.specs.Prelude.{◌≤◌, vec_len};

use predicates::trip_box::TripBox;
use rows::trip::Trip;

#[derive(Drop)]
pub struct Sections {
    pub trips: Vec<Trip>,
    pub boxes: Vec<TripBox>,
    ghost few_trips: { vec_len trips ≤ 512 },
    ghost few_boxes: { vec_len boxes ≤ 64 },
}
