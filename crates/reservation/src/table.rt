// A modulo reservation table: how many units of each class are in use in each row.
ghost use Rattle.std.specs.Prelude.{◌≡◌, ℕ, ◌<◌, ◌≤◌, slice_index};
ghost use Rattle.reservation.specs.Cells.{Within};

use crate::rows::Rows;

// No row of a class holds more uses than the class has units.
#[derive(Clone, Copy)]
pub struct ReservationTable {
    pub(crate) rows: Rows,
    pub(crate) units: [usize; 8],
    pub(crate) interval: usize,
    ghost held: { Within rows.counts units },
    ghost positive: { 0 < interval },
    ghost small: { interval ≤ 256 },
    ghost few: { (u : ℕ) → u < 8 → slice_index units u ≤ 8 },
}

impl ReservationTable {
    pub fn interval(&self) -> usize
        ensures { result ≡ self.now.interval }
    {
        self.interval
    }
}
