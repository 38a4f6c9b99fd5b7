// The steps of a search.
ghost use Rattle.std.specs.Prelude.{◌≡◌, ◌<◌, None};
ghost use Rattle.model.specs.Search.{complete};
ghost use Rattle.search.specs.Boards.{size, placed_on, Same, state_of, step_on, placed_by, LowIn};

use crate::state::Progress;

impl Progress<'_> {
    // An operation placed, without those that it crowds out and those whose edges it tears.
    fn place(&mut self, op: usize, time: u16)
        requires inside { op < size self.old.board }
        requires free { placed_on self.old.board op ≡ None }
        requires steps { self.old.taken < 1000 }
        ensures state { state_of self.new ≡ placed_by self.old.board (state_of self.old) op time }
        ensures same { Same self.old.board self.new.board }
    {
        let crowd = self.board.crowded(op, time);
        self.board.remove_marked(&crowd);
        self.board.place(op, time);
        let gone = self.board.torn(op);
        self.board.remove_marked(&gone);
        self.last.put(op, time);
        self.taken += 1;
    }

    // A step: the operation to place next takes its time.
    pub(crate) fn step(&mut self)
        requires low { LowIn self.old }
        requires steps { self.old.taken < 192 }
        ensures state { state_of self.new ≡ step_on self.old.board (state_of self.old) }
        ensures same { Same self.old.board self.new.board }
    {
        if let Some(op) = self.board.pick() {
            let last = self.last.at(op);
            let time = self.board.slot(op, last);
            self.place(op, time as u16);
        }
    }

    // All operations are placed.
    pub(crate) fn is_complete(&self) -> bool
        ensures { result ≡ complete (size self.now.board) (state_of self.now) }
    {
        (0..self.board.task.timings.len()).all(|q| self.board.time.at(q).is_some())
    }
}
