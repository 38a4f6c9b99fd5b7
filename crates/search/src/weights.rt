// The edges between each two operations as one number, so that a step need not go through all edges.
ghost use Rattle.std.specs.Prelude.{◌≡◌, ℕ, ◌<◌, ◌≤◌};
ghost use Rattle.std.specs.List.{AllByRecursion};
ghost use Rattle.model.specs.Limits.{EdgeFits};
ghost use Rattle.search_laws.specs.Weights.{weight};
ghost use Rattle.search.specs.Views.{weight_seen, weights_of};

use crate::weight::Weight;
use crate::weight_table::Weights;
use model::Edge;

impl Weights {
    pub(crate) fn new(edges: &[Edge], interval: usize) -> Weights
        requires fit { AllByRecursion (EdgeFits 32) edges.now }
        requires interval { interval ≤ 256 }
        ensures { (p q : ℕ) → p < 32 → q < 32 → weights_of result p q ≡ weight interval edges.now p q }
    {
        let mut between: [[u16; 32]; 32] = [[0; 32]; 32];
        for edge in edges {
            let weight = Weight::of(edge, interval);
            between[edge.from][edge.to] = between[edge.from][edge.to].max(weight.raised);
        }
        Weights { between }
    }

    pub(crate) fn at(&self, from: usize, to: usize) -> Option<Weight>
        requires { (from < 32) × (to < 32) }
        ensures { weight_seen result ≡ weights_of self.now from to }
    {
        match self.between[from][to] {
            0 => None,
            raised => Some(Weight { raised }),
        }
    }
}
