// The uses of one operation.
ghost use Rattle.std.specs.Prelude.{◌≡◌, ◌+◌, ◌%◌, ◌<◌, ◌≤◌};
ghost use Rattle.model.specs.Schedule.{uses};

use std::ops::Range;
use timing::stage_and_row;

// A unit of a class in each of so many cycles from a time on, counted by the rows of an interval.
#[derive(Clone, Copy)]
pub struct Uses {
    pub(crate) interval: usize,
    pub(crate) class: usize,
    pub(crate) time: usize,
    pub(crate) busy: usize,
    ghost some: { 0 < interval },
    ghost most: { interval ≤ 256 },
    ghost known: { class < 8 },
    ghost low: { time + busy < 131072 },
}

impl Uses {
    pub(crate) fn cycles(&self) -> Range<usize>
        ensures { result ≡ record { start = self.now.time; end = self.now.time + self.now.busy } }
    {
        self.time..self.time + self.busy
    }

    // The row of a cycle.
    pub(crate) fn row(&self, cycle: usize) -> usize
        ensures row { result ≡ cycle % self.now.interval }
        ensures inside { result < 256 }
    {
        stage_and_row(cycle, self.interval).1
    }

    // How many of the cycles fall into a row.
    pub(crate) fn in_row(&self, row: usize) -> usize
        ensures value { result ≡ uses self.now.interval self.now.time self.now.busy row }
        ensures small { result ≤ self.now.busy }
    {
        self.cycles()
            .filter(|cycle| self.row(*cycle) == row)
            .count()
    }
}
