// Which operations one crowds out.
ghost use Rattle.std.specs.Prelude.{◌≡◌, ℕ, ◌<◌, false, slice_index_or};
ghost use Rattle.model.specs.Search.{crowded};
ghost use Rattle.search.specs.Boards.{size, hw, placed_on};

use crate::board::Board;

impl Board<'_> {
    // Whether one at `time` crowds out another.
    fn is_crowded(&self, op: usize, time: u16, other: usize) -> bool
        requires inside { op < size self.now }
        requires known { other < size self.now }
        ensures { result ≡ crowded (hw self.now) self.now.table.interval (placed_on self.now) (size self.now) op time other }
    {
        let Some(from) = self.time.at(other) else {
            return false;
        };
        let new = self.task.timings[op];
        let old = self.task.timings[other];
        old.class == new.class
            && self
                .table
                .crowds(new, usize::from(time), usize::from(from), old.busy)
    }

    // The operations that one at `time` crowds out.
    pub(crate) fn crowded(&self, op: usize, time: u16) -> [bool; 32]
        requires { op < size self.now }
        ensures { (q : ℕ) → q < size self.now → slice_index_or result q false ≡ crowded (hw self.now) self.now.table.interval (placed_on self.now) (size self.now) op time q }
    {
        let mut marks = [false; 32];
        for q in 0..self.task.timings.len() {
            marks[q] = self.is_crowded(op, time, q);
        }
        marks
    }
}
