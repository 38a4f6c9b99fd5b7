// What is tried at an interval, and what is chosen.
use timing::Schedule;

// A schedule that the register scheme took.
#[derive(Clone, Copy)]
pub struct Choice {
    pub schedule: Schedule,
    // the greatest stage + 1
    pub stages: usize,
    // the answer of the register scheme, which took the lives
    pub turns: usize,
}

// What comes of an interval, after so many steps.
#[derive(Clone, Copy)]
pub struct Attempt {
    pub choice: Option<Choice>,
    pub steps: usize,
}
