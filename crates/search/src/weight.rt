// The edges from one operation to another as one number.
ghost use Rattle.std.specs.Prelude.{◌≡◌, ◌+◌, ◌-◌, ◌*◌, ◌<◌, ◌≤◌, Some};
ghost use Rattle.model.specs.Limits.{EdgeFits};
ghost use Rattle.search_laws.specs.Weights.{lifted, asked, unmet};

use model::Edge;

// What is added to each weight, so that none is below 1.
const LIFT: usize = 1793;

// The greatest delay - interval * distance of the edges, raised by 1,793.
#[derive(Clone, Copy)]
pub struct Weight {
    pub(crate) raised: u16,
    ghost some: { 1 ≤ raised },
    ghost most: { raised ≤ 1801 },
}

impl Weight {
    pub(crate) fn of(edge: &Edge, interval: usize) -> Weight
        requires fits { EdgeFits 32 edge.now }
        requires interval { interval ≤ 256 }
        ensures { result.raised ≡ lifted interval edge.now }
    {
        Weight {
            raised: (edge.delay + LIFT - edge.distance * interval) as u16,
        }
    }

    // What the edges from an operation at this time ask of the early time.
    pub(crate) fn asks(self, time: u16) -> usize
        ensures value { result ≡ asked self.raised (Some time) }
        ensures small { result < 65600 }
    {
        (usize::from(time) + usize::from(self.raised)).saturating_sub(LIFT)
    }

    // An edge between operations at these times is not met.
    pub(crate) fn is_unmet(self, from: u16, to: u16) -> bool
        ensures { result ≡ unmet self.raised (Some from) (Some to) }
    {
        usize::from(to) + LIFT < usize::from(from) + usize::from(self.raised)
    }
}
