// What is planned for a loop.
ghost use Rattle.std.specs.Prelude.{◌≡◌};
ghost use Rattle.schedule.specs.Refusals.{refused_as};

use crate::choice::Choice;
use bounds::{Minimum, NoMinimum};

// A schedule, with the minimum and its witness.
#[derive(Clone, Copy)]
pub struct Scheduled {
    pub minimum: Minimum,
    pub choice: Choice,
    // of all intervals tried
    pub steps: usize,
}

// Why there is no schedule.
#[derive(Clone, Copy, PartialEq, Eq, Debug)]
pub enum NoSchedule {
    // the register scheme took none, the sequential one included
    NotTaken,
    // the edges are outside the limits
    Outside,
    // a circuit has delays and no distance
    Standing,
}

impl From<NoMinimum> for NoSchedule {
    ghost from_gives = { λ e r. r ≡ refused_as e };

    fn from(refusal: NoMinimum) -> NoSchedule {
        match refusal {
            NoMinimum::Outside => NoSchedule::Outside,
            NoMinimum::Standing => NoSchedule::Standing,
        }
    }
}
