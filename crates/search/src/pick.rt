// Which operation a step places.
ghost use Rattle.std.specs.Prelude.{◌≡◌, ℕ, ◌+◌, ◌<◌, ◌≤◌};
ghost use Rattle.model.specs.Search.{better, pick};
ghost use Rattle.search_laws.specs.Bounded.{Under};
ghost use Rattle.search.specs.Boards.{size, height, placed_on};

use crate::board::Board;
use crate::task::Task;

impl Task<'_> {
    // Of the best so far and an operation that comes later: the later only if it is higher.
    fn higher(&self, best: Option<usize>, op: usize) -> Option<usize>
        requires { (op < 32) × (Under op best) }
        ensures picked { result ≡ better (height self.now) best op }
        ensures below { Under (op + 1) result }
    {
        match best {
            Some(best) if self.heights[best] >= self.heights[op] => Some(best),
            _ => Some(op),
        }
    }
}

impl Board<'_> {
    // The highest of the operations that are not placed.
    pub(crate) fn pick(&self) -> Option<usize>
        ensures picked { result ≡ pick (height self.now.task.now) (placed_on self.now) (size self.now) }
        ensures below { Under (size self.now) result }
    {
        let mut best = None;
        for op in 0..self.task.timings.len() {
            if self.time.at(op).is_none() {
                best = self.task.higher(best, op);
            }
        }
        best
    }
}
