// Relaxation: rounds over the edges, until one changes nothing.
ghost use Rattle.std.specs.Prelude.{◌≡◌, is_some, position};
ghost use Rattle.model.specs.Limits.{EdgeFits};
ghost use Rattle.model.specs.Relaxation.{offer};
ghost use Rattle.graph_laws.specs.Trails.{value};
ghost use Rattle.bounds.specs.Rounds.{Low, RoundOf, Settles, FirstOf};

use crate::graph::{Graph, Relaxation};
use crate::marking::Marks;
use crate::row::Row;
use model::Edge;

// The least interval with no circuit above it, and an operation that the last round at the interval before raised.
#[derive(Clone, Copy)]
pub struct FirstSettled {
    pub interval: usize,
    pub rising: Option<usize>,
}

// The first operation that a round raised.
fn first_raised(row: &Row) -> Option<usize>
    ensures { result ≡ position is_some row.now.marks }
{
    row.marks.first()
}

impl<'a> Relaxation<'a> {
    // What an edge offers to the operation that it leaves.
    fn offered(&self, e: &Edge, old: &[usize; 32]) -> usize
        requires fits { EdgeFits self.now.graph.count e.now }
        requires low { Low old.now }
        ensures { result ≡ offer self.now.interval (value old.now) e.now }
    {
        (e.delay + old[e.to]).saturating_sub(e.distance * self.interval)
    }

    // One round: each operation takes the best that its edges offer, by the old values.
    pub(crate) fn round(&self, old: &[usize; 32]) -> Row
        requires { Low old.now }
        ensures { RoundOf self.now.graph.edges.now self.now.interval old.now result }
    {
        let mut values = *old;
        let mut marks = Marks::none();
        for (number, e) in self.graph.edges.iter().enumerate() {
            let better = self.offered(e, old);
            if values[e.from] < better {
                values[e.from] = better;
                marks.set(e.from, number);
            }
        }
        Row { values, marks }
    }

    // The heights, where no circuit is above the interval; or an operation that the last round still raised.
    // There are at most as many rounds as operations, and none after one that changes nothing.
    pub(crate) fn settle(&self) -> Result<[usize; 32], usize>
        ensures { Settles self.now.graph.edges.now self.now.interval self.now.graph.count result }
    {
        let mut held = [0; 32];
        for _ in 1..self.graph.count {
            let row = self.round(&held);
            if first_raised(&row).is_none() {
                return Ok(held);
            }
            held = row.values;
        }
        match first_raised(&self.round(&held)) {
            None => Ok(held),
            Some(rising) => Err(rising),
        }
    }
}

impl<'a> Graph<'a> {
    // The first interval at which the rounds settle. A simple circuit with a distance has delays of at most 256.
    pub(crate) fn first_settled(&self) -> Option<FirstSettled>
        ensures { FirstOf self.now.edges.now self.now.count result }
    {
        let mut rising = None;
        for interval in 1..=256 {
            let relaxation = Relaxation {
                graph: *self,
                interval,
            };
            match relaxation.settle() {
                Ok(_) => return Some(FirstSettled { interval, rising }),
                Err(raised) => rising = Some(raised),
            }
        }
        None
    }
}
