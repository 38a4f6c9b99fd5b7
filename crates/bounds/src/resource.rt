// The resource minimum.
ghost use Rattle.std.specs.Prelude.{◌≡◌, ◌<◌, ◌≤◌, ◌^◌, length};
ghost use Rattle.model.specs.Limits.{hardware, MachineFits};
ghost use Rattle.model.specs.Minimum.{own_minimum};
ghost use Rattle.graph_laws.specs.Trails.{Leads};
ghost use Rattle.bounds.specs.Answers.{class_busy};

use model::Timing;

// The greatest quotient of a class, and the lowest class that has it.
#[derive(Clone, Copy)]
pub struct Resource {
    pub interval: usize,
    pub class: usize,
}

// The sum of BUSY over the operations of a class.
fn busy_sum(timings: &[Timing], class: usize) -> usize
    requires { class_busy timings.now class < 2 ^ 64 }
    ensures { result ≡ class_busy timings.now class }
{
    timings
        .iter()
        .filter(|timing| timing.class == class)
        .map(|timing| timing.busy)
        .sum()
}

// The resource minimum, and the lowest class that has it.
pub(crate) fn resource_minimum(timings: &[Timing], units: &[usize]) -> Resource
    requires few { length timings.now ≤ 32 }
    requires fits { MachineFits timings.now units.now }
    ensures { Leads (own_minimum (hardware timings.now units.now) (length timings.now)) (length units.now) result.interval result.class }
{
    let mut best = Resource {
        interval: 0,
        class: 0,
    };
    for (class, count) in units.iter().enumerate() {
        let interval = busy_sum(timings, class).div_ceil(*count);
        if best.interval < interval {
            best = Resource { interval, class };
        }
    }
    best
}
