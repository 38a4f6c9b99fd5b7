// Heights at an interval.
ghost use Rattle.bounds.specs.Answers.{HeightsOf};

use crate::graph::{Graph, Relaxation};
use model::Edge;

// Why there are no heights.
#[derive(Clone, Copy, PartialEq, Eq, Debug)]
pub enum NoHeights {
    // what was handed in is outside the limits
    Outside,
    // some circuit is above the interval
    Above,
}

// The height of each operation at an interval.
pub fn heights(edges: &[Edge], count: usize, interval: usize) -> Result<[usize; 32], NoHeights>
    ensures { HeightsOf edges.now count interval result }
{
    let graph = Graph::new(edges, count).ok_or(NoHeights::Outside)?;
    if interval > 256 {
        return Err(NoHeights::Outside);
    }
    let relaxation = Relaxation { graph, interval };
    relaxation.settle().map_err(|_| NoHeights::Above)
}
