// How operations are placed and removed.
ghost use Rattle.std.specs.Prelude.{◌≡◌, ◌<◌, None};
ghost use Rattle.search_laws.specs.Counts.{Less, Put, Unmarked, Room};
ghost use Rattle.reservation.specs.Views.{count, units_of};
ghost use Rattle.search.specs.Boards.{size, hw, placed_on, Same};

use crate::board::Board;

impl Board<'_> {
    // Without an operation, if it is placed.
    fn remove(&mut self, op: usize)
        ensures time { Less op (placed_on self.old) (placed_on self.new) }
        ensures same { Same self.old self.new }
    {
        if let Some(time) = self.time.at(op) {
            let task = self.task;
            self.table.release(task.timings[op], usize::from(time));
            self.time.remove(op);
        }
    }

    // Without the operations that are marked.
    pub(crate) fn remove_marked(&mut self, marks: &[bool; 32])
        ensures time { Unmarked marks.now 32 (placed_on self.old) (placed_on self.new) }
        ensures same { Same self.old self.new }
    {
        for (op, marked) in marks[..self.task.timings.len()].iter().enumerate() {
            if *marked {
                self.remove(op);
            }
        }
    }

    // An operation that is not placed and for which there is room.
    pub(crate) fn place(&mut self, op: usize, time: u16)
        requires inside { op < size self.old }
        requires free { placed_on self.old op ≡ None }
        requires room { Room self.old.table.interval ((hw self.old).class op) time ((hw self.old).busy op) (count self.old.table) (units_of self.old.table) }
        ensures time { Put op time (placed_on self.old) (placed_on self.new) }
        ensures same { Same self.old self.new }
    {
        let task = self.task;
        self.table.book(task.timings[op], usize::from(time));
        self.time.put(op, time);
    }
}
