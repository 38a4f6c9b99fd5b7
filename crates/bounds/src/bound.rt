// The minimum, with what excludes each smaller interval.
ghost use Rattle.bounds.specs.Answers.{MinimumOf};

use crate::answer::{Minimum, NoMinimum, Witness};
use crate::graph::{Graph, Relaxation};
use crate::limits::machine_fits;
use crate::resource::resource_minimum;
use model::{Edge, Timing};

// The minimum of operations with these timings and edges, on classes with so many units.
pub fn minimum(edges: &[Edge], timings: &[Timing], units: &[usize]) -> Result<Minimum, NoMinimum>
    ensures { MinimumOf edges.now timings.now units.now result }
{
    let graph = Graph::new(edges, timings.len()).ok_or(NoMinimum::Outside)?;
    if !machine_fits(timings, units) {
        return Err(NoMinimum::Outside);
    }
    let first = graph.first_settled().ok_or(NoMinimum::Standing)?;
    let resource = resource_minimum(timings, units);
    match first.rising {
        Some(rising) if first.interval > resource.interval => {
            let before = Relaxation {
                graph,
                interval: first.interval - 1,
            };
            Ok(Minimum {
                value: first.interval,
                witness: Witness::Circuit(before.circuit(rising)),
            })
        }
        _ => Ok(Minimum {
            value: resource.interval,
            witness: Witness::Class(resource.class),
        }),
    }
}
