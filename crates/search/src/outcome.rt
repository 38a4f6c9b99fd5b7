// How a search ends.
ghost use Rattle.std.specs.Prelude.{◌≡◌};
ghost use Rattle.search.specs.Refusals.{refused_as};

use bounds::NoHeights;
use reservation::TimeTable;

// The times of all operations, if they were found; after so many steps.
#[derive(Clone, Copy)]
pub struct Outcome {
    pub times: Option<TimeTable>,
    pub steps: usize,
}

// Why there was no search.
#[derive(Clone, Copy, PartialEq, Eq, Debug)]
pub enum NoSearch {
    // what was handed in is outside the limits
    Outside,
    // some circuit is above the interval
    Above,
    // an operation alone has more uses in a row than its class has units
    Narrow,
}

impl From<NoHeights> for NoSearch {
    ghost from_gives = { λ e r. r ≡ refused_as e };

    fn from(refusal: NoHeights) -> NoSearch {
        match refusal {
            NoHeights::Outside => NoSearch::Outside,
            NoHeights::Above => NoSearch::Above,
        }
    }
}
