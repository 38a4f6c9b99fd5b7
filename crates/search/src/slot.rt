// Which time an operation takes, and which edges that tears.
ghost use Rattle.std.specs.Prelude.{◌≡◌, ℕ, ◌+◌, ◌-◌, ◌*◌, ◌<◌, ◌≤◌, Bool, true, false, if◌then◌else◌, Some, None, nat_eq, slice_index_or};
ghost use Rattle.std.specs.Option.{unwrap_or};
ghost use Rattle.model.specs.Search.{first, fallback};
ghost use Rattle.search_laws.specs.Weights.{asked, torn_by};
ghost use Rattle.reservation.specs.Views.{fits_of};
ghost use Rattle.search.specs.Views.{weights_of};
ghost use Rattle.search.specs.Boards.{size, placed_on, early_on, slot_on};

use crate::board::Board;
use model::Timing;
use reservation::ReservationTable;

// The first time of the window at which an operation fits beside those placed.
fn window(table: &ReservationTable, timing: Timing, from: usize) -> Option<usize>
    requires { from < 65600 }
    ensures { result ≡ first (fits_of table.now timing) from table.now.interval }
{
    (from..from + table.interval()).find(|time| table.fits(timing, *time))
}

// Where the window has no room: early, or after the last time.
fn forced(last: Option<u16>, early: usize) -> usize
    requires { early < 65600 }
    ensures { result ≡ fallback last early }
{
    last.map_or(early, |last| early.max(usize::from(last) + 1))
}

impl Board<'_> {
    // What the edges from operation q ask of the early time of another.
    fn asked_by(&self, q: usize, op: usize) -> usize
        requires { (q < 32) × (op < 32) }
        ensures value { result ≡ (if nat_eq q op then 0 else asked (weights_of self.now.task.now.weights.now q op) (placed_on self.now q)) }
        ensures small { result < 65600 }
    {
        if q == op {
            return 0;
        }
        let weight = self.task.weights.at(q, op);
        weight
            .zip(self.time.at(q))
            .map_or(0, |(weight, time)| weight.asks(time))
    }

    // The early time of an operation.
    fn early(&self, op: usize) -> usize
        requires { op < 32 }
        ensures value { result ≡ early_on self.now op }
        ensures small { result < 65600 }
    {
        (0..self.task.timings.len()).fold(0, |early: usize, q| early.max(self.asked_by(q, op)))
    }

    // The time that an operation takes in the window from its early time, or beyond it.
    pub(crate) fn slot(&self, op: usize, last: Option<u16>) -> usize
        requires { op < size self.now }
        ensures value { result ≡ slot_on self.now op last }
        ensures early { early_on self.now op < 65600 }
    {
        let early = self.early(op);
        window(&self.table, self.task.timings[op], early).unwrap_or_else(|| forced(last, early))
    }

    // Operation q is the far end of an edge of another that is not met.
    fn is_torn(&self, op: usize, q: usize) -> bool
        requires { (op < 32) × (q < 32) }
        ensures { result ≡ torn_by (weights_of self.now.task.now.weights.now) (placed_on self.now) op q }
    {
        let (Some(here), Some(there)) = (self.time.at(op), self.time.at(q)) else {
            return false;
        };
        let out = self.task.weights.at(op, q);
        let back = self.task.weights.at(q, op);
        out.is_some_and(|weight| weight.is_unmet(here, there))
            || back.is_some_and(|weight| weight.is_unmet(there, here))
    }

    // The far ends of an operation's edges that are not met.
    pub(crate) fn torn(&self, op: usize) -> [bool; 32]
        requires { op < 32 }
        ensures { (q : ℕ) → q < size self.now → slice_index_or result q false ≡ torn_by (weights_of self.now.task.now.weights.now) (placed_on self.now) op q }
    {
        let mut marks = [false; 32];
        for q in 0..self.task.timings.len() {
            marks[q] = self.is_torn(op, q);
        }
        marks
    }
}
