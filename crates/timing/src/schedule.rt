// A schedule.

// The interval, and the time of each of at most 32 operations in iteration 0, 0 behind the last.
#[derive(Clone, Copy, PartialEq, Eq, Debug)]
pub struct Schedule {
    pub interval: usize,
    pub times: [u16; 32],
}
