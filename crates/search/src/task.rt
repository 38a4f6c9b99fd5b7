// What is searched.
ghost use Rattle.search.specs.Fitting.{Fitting};

use crate::weight_table::Weights;
use model::{Edge, Timing};

// Operations with their heights, and the edges between them, which the weights stand for.
#[derive(Clone, Copy)]
pub struct Task<'a> {
    pub(crate) edges: &'a [Edge],
    pub(crate) timings: &'a [Timing],
    pub(crate) heights: [usize; 32],
    pub(crate) weights: &'a Weights,
    ghost fitting: { Fitting timings.now },
}
