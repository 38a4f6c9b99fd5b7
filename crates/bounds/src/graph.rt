// A graph of edges within the limits.
ghost use Rattle.std.specs.Prelude.{◌≤◌};
ghost use Rattle.std.proofs.Props.{props};
ghost use Rattle.model.specs.Limits.{GraphFits};

use model::Edge;

// The edges that join the first `count` operations.
#[derive(Clone, Copy)]
pub struct Graph<'a> {
    pub edges: &'a [Edge],
    pub count: usize,
    ghost fits: { GraphFits count edges.now } by { Prim.hlevel props },
}

// A graph whose values are sought at an interval.
#[derive(Clone, Copy)]
pub struct Relaxation<'a> {
    pub graph: Graph<'a>,
    pub interval: usize,
    ghost short: { interval ≤ 256 },
}
