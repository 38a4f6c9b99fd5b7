// From the rounds that do not settle to a simple circuit.
ghost use Rattle.std.specs.Prelude.{◌≡◌, ℕ, ◌+◌, ◌-◌, ◌<◌, ◌≤◌, length, slice_index, slice_range};
ghost use Rattle.std.specs.List.{All};
ghost use Rattle.few.specs.Held.{held};
ghost use Rattle.model.specs.Relaxation.{rounds};
ghost use Rattle.model.specs.Walks.{Walk, edge};
ghost use Rattle.model.specs.Minimum.{CircuitWitness};
ghost use Rattle.graph_laws.specs.Trails.{BestWalk};
ghost use Rattle.bounds.specs.Paths.{numbers};
ghost use Rattle.bounds.specs.Rounds.{Traced};
ghost use Rattle.bounds.specs.Passing.{RoundTrip};

use crate::Path;
use crate::graph::{Graph, Relaxation};
use crate::marking::Marks;
use few::Few;

impl<'a> Graph<'a> {
    // The part of a walk between the first two places at which it stands at one operation.
    fn round_trip<'w>(&self, walk: &'w [usize], start: usize) -> &'w [usize]
        requires inside { start < self.now.count }
        requires long { self.now.count ≤ length walk.now }
        requires walk { (v : ℕ) × Walk self.now.edges.now start walk.now v }
        ensures { RoundTrip self.now.edges.now start walk.now result.now }
    {
        // the place at which each operation was passed
        let mut passed: [Option<usize>; 32] = [None; 32];
        passed[start] = Some(0);
        for (place, number) in walk.iter().enumerate() {
            let at = self.edges[*number].to;
            if let Some(before) = passed[at] {
                return &walk[before..=place];
            }
            passed[at] = Some(place + 1);
        }
        // a walk of so many edges comes to some operation again
        unreachable!()
    }

    // The place of the edge that leaves the lowest operation.
    fn lowest(&self, round_trip: &[usize]) -> usize
        requires some { 0 < length round_trip.now }
        requires known { All (λ x. x < length self.now.edges.now) round_trip.now }
        ensures inside { result < length round_trip.now }
        ensures least { (t : ℕ) → t < length round_trip.now →
            (edge self.now.edges.now (slice_index round_trip.now result)).from ≤ (edge self.now.edges.now (slice_index round_trip.now t)).from }
    {
        let mut best = 0;
        for (place, number) in round_trip.iter().enumerate() {
            if self.edges[*number].from < self.edges[round_trip[best]].from {
                best = place;
            }
        }
        best
    }
}

impl<'a> Relaxation<'a> {
    // The marks of the first rounds, as many as operations.
    fn trace(&self) -> Few<Marks, 32>
        ensures { Traced self.now.graph.edges.now self.now.interval self.now.graph.count (held result) }
    {
        let mut old = [0; 32];
        let mut rows = Few::new(Marks::none());
        for _ in 0..self.graph.count {
            let row = self.round(&old);
            rows.push(row.marks).unwrap();
            old = row.values;
        }
        rows
    }

    // The walk from `start` whose sum is what the rounds found.
    fn best_walk(&self, start: usize) -> Path
        requires { start < 32 }
        ensures { BestWalk self.now.graph.edges.now self.now.interval self.now.graph.count start (numbers result) }
    {
        let mut path = Path::new();
        let mut at = start;
        for marks in self.trace().as_slice().iter().rev() {
            if let Some(number) = marks.at(at) {
                path.push(number);
                at = self.graph.edges[number].to;
            }
        }
        path
    }

    // A simple circuit that is above the interval and begins with its lowest operation, from an operation that the last round raised.
    pub(crate) fn circuit(&self, rising: usize) -> Path
        requires inside { rising < 32 }
        requires rose { rounds self.now.interval self.now.graph.edges.now (self.now.graph.count - 1) rising <
            rounds self.now.interval self.now.graph.edges.now self.now.graph.count rising }
        ensures { CircuitWitness self.now.graph.edges.now (self.now.interval + 1) (numbers result) }
    {
        let walk = self.best_walk(rising);
        let round_trip = self.graph.round_trip(walk.numbers(), rising);
        let (before, from_lowest) = round_trip.split_at(self.graph.lowest(round_trip));
        let mut turned = Path::new();
        turned.extend(from_lowest);
        turned.extend(before);
        turned
    }
}
