// What is scheduled.
ghost use Rattle.std.proofs.Props.{props};
ghost use Rattle.dependence.specs.Loops.{loop_seen};
ghost use Rattle.schedule_laws.specs.Ready.{Ready, EachOperand-prop, Named-prop};

use bounds::Minimum;
use dependence::loops::Loop;
use model::{Edge, Timing};

// A loop with its edges, what each of its operations takes of the machine, the units of each class, and the minimum, from which on there is a search.
#[derive(Clone, Copy)]
pub(crate) struct Problem<'a> {
    pub(crate) source: &'a Loop,
    pub(crate) edges: &'a [Edge],
    pub(crate) timings: &'a [Timing],
    pub(crate) units: &'a [usize],
    pub(crate) minimum: Minimum,
    ghost ready: { Ready (loop_seen source.now) edges.now timings.now units.now minimum.value } by { Prim.hlevel (props, EachOperand-prop, Named-prop) },
}
