// How long a run is, and where it stands.

// A cycle, with its pass and the row in it.
#[derive(Clone, Copy)]
pub struct Moment {
    pub pass: usize,
    pub row: usize,
    pub cycle: usize,
}

// The interval, the iterations of the loop, and the passes.
#[derive(Clone, Copy)]
pub struct Run {
    pub interval: usize,
    pub trips: usize,
    pub passes: usize,
}
