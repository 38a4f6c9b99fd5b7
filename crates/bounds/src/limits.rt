// Whether what is handed in is within the limits.
ghost use Rattle.std.specs.Prelude.{◌≤◌, length, Decides};
ghost use Rattle.std.specs.List.{AllByRecursion};
ghost use Rattle.model.specs.Limits.{EdgeFits, TimingFits, MachineFits};
ghost use Rattle.bounds.specs.Graphs.{GraphOf};

use crate::graph::Graph;
use model::{Edge, Timing};

fn edge_fits(e: &Edge, count: usize) -> bool
    ensures { Decides result (EdgeFits count e.now) }
{
    e.from < count && e.to < count && e.delay <= 8 && e.distance <= 7
}

fn edges_fit(edges: &[Edge], count: usize) -> bool
    ensures { Decides result (AllByRecursion (EdgeFits count) edges.now) }
{
    edges.iter().all(|e| edge_fits(e, count))
}

impl<'a> Graph<'a> {
    // The graph, if it is within the limits.
    pub(crate) fn new(edges: &'a [Edge], count: usize) -> Option<Graph<'a>>
        ensures { GraphOf edges.now count result }
    {
        if (1..=32).contains(&count) && edges.len() <= 65535 && edges_fit(edges, count) {
            Some(Graph { edges, count })
        } else {
            None
        }
    }
}

fn timing_fits(timing: &Timing, classes: usize) -> bool
    ensures { Decides result (TimingFits classes timing.now) }
{
    timing.class < classes && (1..=8).contains(&timing.busy)
}

fn timings_fit(timings: &[Timing], classes: usize) -> bool
    ensures { Decides result (AllByRecursion (TimingFits classes) timings.now) }
{
    timings.iter().all(|timing| timing_fits(timing, classes))
}

fn units_fit(units: &[usize]) -> bool
    ensures { Decides result (AllByRecursion (λ c. (1 ≤ c) × (c ≤ 8)) units.now) }
{
    units.iter().all(|count| (1..=8).contains(count))
}

pub fn machine_fits(timings: &[Timing], units: &[usize]) -> bool
    ensures { Decides result (MachineFits timings.now units.now) }
{
    units.len() <= 8 && units_fit(units) && timings_fit(timings, units.len())
}
