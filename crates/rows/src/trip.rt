// One trip of a van. Days count from 1 January 2000, seconds from midnight; the cell is a position.
ghost use Rattle.std.specs.Prelude.{◌≡◌, ◌≤◌, MatchResult};
ghost use Rattle.rows.specs.Limits.{TripLimits};

use crate::BadRow;

mod order;

#[derive(Clone, Copy, PartialEq, Eq, PartialOrd, Ord)]
pub struct Trip {
    van: u32,
    day: u32,
    second: u32,
    cell: u32,
    metres: u32,
    ghost limits: { TripLimits van day second metres },
    ghost cells: { cell ≤ 4294967295 },
}

impl Trip {
    // The trip of these numbers; refused exactly where one is outside its limits.
    pub fn new(van: u32, day: u32, second: u32, cell: u32, metres: u32) -> Result<Trip, BadRow>
        ensures { MatchResult result (λ t. (t.van ≡ van) × (t.day ≡ day) × (t.second ≡ second) × (t.cell ≡ cell) × (t.metres ≡ metres)) (λ _. (TripLimits van day second metres → ⊥)) }
    {
        if !(1..=9_999).contains(&van) || day > 36_524 || second > 86_399 || metres > 2_000_000 {
            return Err(BadRow);
        }
        Ok(Trip {
            van,
            day,
            second,
            cell,
            metres,
        })
    }

    pub fn van(&self) -> u32
        ensures { result ≡ self.now.van }
    {
        self.van
    }

    pub fn day(&self) -> u32
        ensures { result ≡ self.now.day }
    {
        self.day
    }

    pub fn second(&self) -> u32
        ensures { result ≡ self.now.second }
    {
        self.second
    }

    pub fn cell(&self) -> u32
        ensures { result ≡ self.now.cell }
    {
        self.cell
    }

    pub fn metres(&self) -> u32
        ensures { result ≡ self.now.metres }
    {
        self.metres
    }
}
